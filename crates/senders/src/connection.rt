//! A destination's connection, as its link sees it.

use crate::store_end::StoreEnd;
use crate::wire::Wire;
use log_lines::Why;
use mio::net::TcpStream;
use relay_base::NoMemory;
use socket_options::leave_rest_to_system;
use std::alloc::Global;
use std::io::{ErrorKind, Read};
use std::net::Shutdown;
use std::sync::Arc;

/// How many bytes one read takes at most.
const PIECE: usize = 4_096;

/// How often a connection is read after one wait at most.
const MOST_READS: u64 = 16;

/// The connection of a destination, which its link shares with the stream that writes to it.
///
/// What the store sends is read, so that the store does not wait, and dropped. A connection that is closed with bytes
/// that were not read is reset, and the system throws away what it had not delivered.
#[derive(Drop)]
pub(crate) struct Connection {
    wire: Arc<Wire>,
    // Whether something may be there that was not read: the connection is new, or a wait reported that it is ready.
    is_ready: bool,
    // Whether the store has sent anything, and whether it has closed its end, or failed.
    has_sent: bool,
    has_ended: bool,
}

impl Connection {
    /// There is no connection. Refuses if out of memory.
    pub(crate) fn new(alloc: Global) -> Result<Connection, NoMemory> {
        Ok(Connection {
            wire: Arc::new(alloc, Wire::new())?,
            is_ready: false,
            has_sent: false,
            has_ended: false,
        })
    }

    /// From now on this is the connection, in place of the last, which may be half-closed. Returns what its stream writes to;
    /// `None` if the stream of the last one is still there. It takes no memory.
    pub(crate) fn open(&mut self, socket: TcpStream, is_half_closed: bool) -> Option<Arc<Wire>> {
        if self.set_socket(Some(socket)) {
            // What the store has sent by now may have been reported together with the connection, and is not reported again.
            self.is_ready = true;
            if is_half_closed {
                self.wire.note_half_closed();
            }
            Arc::try_clone(&self.wire).ok()
        } else {
            None
        }
    }

    /// Closes the socket, once its stream is gone.
    pub(crate) fn close(&mut self) {
        let _ = self.set_socket(None);
    }

    /// From now on the connection has this socket, or none. Refuses (`false`) while the stream of the last one is there.
    fn set_socket(&mut self, socket: Option<TcpStream>) -> bool {
        self.is_ready = false;
        self.has_sent = false;
        self.has_ended = false;
        match Arc::get_mut(&mut self.wire) {
            Some(wire) => {
                wire.set_socket(socket);
                true
            }
            None => {
                drop(socket);
                false
            }
        }
    }

    /// The socket, if there is a connection that may take more, or is half-closed and not lost, and its stream is gone. It is
    /// no longer here then.
    pub(crate) fn take_socket(&mut self) -> Option<TcpStream> {
        let is_lost = if self.wire.is_half_closed() {
            matches!(self.wire.store_end(), StoreEnd::Lost)
        } else {
            self.has_ended
        };
        if is_lost {
            return None;
        }
        Arc::get_mut(&mut self.wire)?.take_socket()
    }

    /// Whether the connection is half-closed.
    pub(crate) fn is_half_closed(&self) -> bool {
        self.wire.is_half_closed()
    }

    /// Whether the connection is half-closed behind whole lines, and not lost: it takes no more because its sender wants that.
    pub(crate) fn is_done(&self) -> bool {
        let is_lost = matches!(self.wire.store_end(), StoreEnd::Lost);
        !is_lost && !self.wire.is_over()
    }

    /// Nothing more is written: the store sees the end once it has read what was written.
    pub(crate) fn end_writes(&self) {
        if let Some(socket) = self.wire.socket() {
            leave_rest_to_system(socket);
            // What cannot be half-closed has failed.
            let _ = socket.shutdown(Shutdown::Write);
        }
    }

    /// Half-closes the connection, if there is one.
    pub(crate) fn half_close(&self) {
        self.wire.half_close();
    }

    /// A wait reported that the connection is ready.
    pub(crate) fn note_ready(&mut self) {
        self.is_ready = true;
    }

    /// A wait reported that the store has closed its end, or that the connection failed. Of one that is half-closed reading
    /// says which.
    pub(crate) fn note_end(&mut self) {
        if self.wire.is_half_closed() {
            self.is_ready = true;
        } else {
            self.has_ended = true;
        }
    }

    /// Whether the store has closed its end, or the connection failed.
    pub(crate) fn has_ended(&self) -> bool {
        if self.wire.is_half_closed() {
            !matches!(self.wire.store_end(), StoreEnd::NotYet)
        } else {
            self.has_ended
        }
    }

    /// Whether the connection has had its last line.
    pub(crate) fn is_over(&self) -> bool {
        self.wire.is_over()
    }

    /// Whether the store has sent something, and has not closed its end: it may still send.
    pub(crate) fn may_send(&self) -> bool {
        self.has_sent && !self.has_ended()
    }

    /// Reads what the store has sent, and drops it, if there may be something.
    pub(crate) fn read_away(&mut self) {
        if !self.is_ready || self.has_ended() {
            return;
        }
        let Some(socket) = self.wire.socket() else {
            return;
        };
        match bytes_dropped(socket) {
            ReadExtent::All { some } => {
                self.is_ready = false;
                self.has_sent = self.has_sent || some;
            }
            ReadExtent::Some => self.has_sent = true,
            ReadExtent::End => {
                self.has_ended = true;
                if self.wire.is_half_closed() {
                    self.wire.note_read();
                }
            }
            ReadExtent::Failed(why) => {
                self.has_ended = true;
                self.wire.note_lost(why);
            }
        }
    }
}

/// How far a socket was read.
enum ReadExtent {
    /// All that had come, which was something or nothing.
    All { some: bool },
    /// As much as is read at once. More may be there.
    Some,
    /// To the end.
    End,
    /// Not to the end: it failed for this.
    Failed(Why),
}

/// Reads what has come, and drops it.
fn bytes_dropped(socket: &TcpStream) -> ReadExtent {
    let mut reader = socket;
    let mut piece = [0; PIECE];
    let mut some = false;
    for _ in 0..MOST_READS {
        match reader.read(&mut piece) {
            Ok(0) => return ReadExtent::End,
            Ok(_) => some = true,
            Err(error) => match error.kind() {
                ErrorKind::WouldBlock => return ReadExtent::All { some },
                ErrorKind::Interrupted => {}
                _ => return ReadExtent::Failed(Why::of_error(&error)),
            },
        }
    }
    ReadExtent::Some
}
