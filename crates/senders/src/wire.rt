//! The socket of a connection to a store.

use crate::store_end::{EndNotes, StoreEnd};
use log_lines::Why;
use mio::net::TcpStream;
use socket_options::leave_rest_to_system;
use std::net::Shutdown;
use std::sync::atomic::{AtomicBool, Ordering};

/// What a destination's link and the stream of its connection share: the socket of the connection, if there is one, whether
/// it has had its last line, and how it ends.
#[derive(Drop)]
pub(crate) struct Wire {
    socket: Option<TcpStream>,
    is_over: AtomicBool,
    end: EndNotes,
}

impl Wire {
    /// There is no connection.
    pub(crate) fn new() -> Wire {
        Wire {
            socket: None,
            is_over: AtomicBool::new(false),
            end: EndNotes::new(),
        }
    }

    /// From now on there is this connection, or none.
    pub(crate) fn set_socket(&mut self, socket: Option<TcpStream>) {
        self.socket = socket;
        self.is_over.store(false, Ordering::SeqCst);
        self.end = EndNotes::new();
    }

    /// The socket, if there is a connection that may take more. From now on there is none.
    pub(crate) fn take_socket(&mut self) -> Option<TcpStream> {
        if self.is_over() {
            return None;
        }
        self.socket.take()
    }

    /// The socket, if there is a connection.
    pub(crate) fn socket(&self) -> Option<&TcpStream> {
        self.socket.as_ref()
    }

    /// The connection has had its last line.
    pub(crate) fn note_over(&self) {
        self.is_over.store(true, Ordering::SeqCst);
    }

    /// Whether the connection has had its last line.
    pub(crate) fn is_over(&self) -> bool {
        self.is_over.load(Ordering::SeqCst)
    }

    /// Half-closes the connection, unless it is. What cannot be half-closed is lost.
    pub(crate) fn half_close(&self) {
        if self.end.is_half_closed() {
            return;
        }
        self.end.note_half_closed();
        if let Some(socket) = &self.socket {
            leave_rest_to_system(socket);
            if socket.shutdown(Shutdown::Write).is_err() {
                self.end.note_lost(loss_of(socket));
            }
        }
    }

    /// The connection was half-closed by another sender.
    pub(crate) fn note_half_closed(&self) {
        self.end.note_half_closed();
    }

    /// Whether the connection is half-closed.
    pub(crate) fn is_half_closed(&self) -> bool {
        self.end.is_half_closed()
    }

    /// Reading the connection failed for this.
    pub(crate) fn note_lost(&self, why: Why) {
        self.end.note_lost(why);
    }

    /// The connection, which is half-closed, was read to its end. That is in order if it has no error, and all that was written
    /// has arrived: then the system knows no peer any more.
    pub(crate) fn note_read(&self) {
        let Some(socket) = &self.socket else {
            return;
        };
        match error_of(socket) {
            Some(why) => self.end.note_lost(why),
            None if socket.peer_addr().is_err() => self.end.note_orderly(),
            None => {}
        }
    }

    /// Why the connection is lost, if that was noted.
    pub(crate) fn loss(&self) -> Option<Why> {
        self.end.loss()
    }

    /// How the store has ended the connection.
    pub(crate) fn store_end(&self) -> StoreEnd {
        self.end.store_end()
    }
}

/// Why a stream is lost: the system's error, or otherwise its peer closed it.
pub(crate) fn loss_of(stream: &TcpStream) -> Why {
    error_of(stream).unwrap_or(Why::Closed)
}

/// The system's error of a stream, if it has one.
fn error_of(stream: &TcpStream) -> Option<Why> {
    match stream.take_error() {
        Ok(None) => None,
        Ok(Some(error)) => Some(Why::of_error(&error)),
        Err(error) => Some(Why::of_error(&error)),
    }
}
