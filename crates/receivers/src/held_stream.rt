//! A connection of a listener of the network.

ghost use Rattle.std.specs.Prelude.{◌≡◌, ◌++◌, IfOk, IfSome};
ghost use Rattle.std.specs.Io.{ReadsAtMost};

use crate::connection_room::Place;
use crate::connections::Connections;
use crate::handing::HandedStream;
use crate::long_words::LongWords;
use crate::progress::Progress;
use handover::FirstBytes;
use log_lines::LossReason;
use mio::net::TcpStream;
use mio_loops::Token;
use reader_core::ReaderKind;
use relay_base::NoMemory;
use std::alloc::Global;
use std::io;
use std::io::{ErrorKind, Read};
use std::net::{IpAddr, Shutdown};
use std::sync::Arc;

/// How the last read of a connection ended.
#[derive(Clone, Copy)]
enum LastRead {
    /// It gave bytes, or there was none yet.
    Bytes,
    /// It would have had to wait.
    Nothing,
    /// The connection has ended.
    End,
    /// It failed, and the connection is closed for this reason.
    Failed(LossReason),
}

/// A connection of a listener of the network. A read that would have to wait fails with `TimedOut` if no datapoint of the
/// connection was accepted for longer than the listener permits; and so does each read once what it sent after that time has
/// none, or once it gives way to another. A read of a long word fails with `OutOfMemory` while memory is
/// short. Once its receiver closes, a read half-closes the connection first, so that the producer sees an end. One that was taken
/// later is half-closed once all ports are shut: a producer that comes again at once does not come a third time, and finds no
/// port that is just being shut.
///
/// When it is dropped, it counts why: a receiver drops a connection after a read that ended or failed, and after bytes that
/// have an overlong line or frame or found no memory.
pub struct HeldStream {
    stream: FirstBytes<TcpStream>,
    token: Token,
    connections: Arc<Connections>,
    progress: Progress,
    last: LastRead,
    // Whether it was taken before its receiver closes.
    is_early: bool,
    is_half_closed: bool,
    long_words: LongWords,
    alloc: Global,
    // Dropped with the connection: another may have its place then.
    place: Option<Place>,
}

impl HeldStream {
    /// A connection that was taken now, under a token, to a reader of this kind, and its place. An earlier reader may have left
    /// bytes that come first.
    pub(crate) fn new(
        alloc: Global,
        stream: FirstBytes<TcpStream>,
        token: Token,
        kind: ReaderKind,
        connections: Arc<Connections>,
        place: Option<Place>,
    ) -> HeldStream
        ensures { result.stream ≡ stream }
    {
        connections.idle.note_taken(token);
        let is_early = !connections.control.is_closing();
        connections.control.note_held(is_early);
        HeldStream {
            stream,
            token,
            connections,
            progress: Progress::new(kind),
            last: LastRead::Nothing,
            is_early,
            is_half_closed: false,
            long_words: LongWords::none(),
            alloc,
            place,
        }
    }

    /// Behind how many bytes the line or the frame ends that has begun: 0 if none has, and `usize::MAX` if that is not known.
    pub fn lacks(&self) -> usize {
        match self.progress {
            Progress::Line { held: 0 } => 0,
            progress => progress.begun_frame().lacks,
        }
    }

    /// Notes what the connection has sent. Refuses a long word while memory is short.
    fn note_piece(&mut self, piece: &[u8]) -> io::Result<()> {
        if piece.is_empty() {
            self.last = LastRead::End;
            return Ok(());
        }
        self.last = LastRead::Bytes;
        self.connections.control.note_input();
        self.connections.note_piece(piece.len(), self.progress);
        self.connections.idle.note_bytes(self.token);
        self.progress.note_piece(piece);
        if self.long_words.refuse(self.alloc, piece) {
            self.last = LastRead::Failed(LossReason::MemoryShort);
            return Err(io::Error::from(ErrorKind::OutOfMemory));
        }
        Ok(())
    }

    /// Notes the error of a read, and returns what the receiver is told.
    fn note_error(&mut self, error: io::Error) -> io::Error {
        match error.kind() {
            ErrorKind::WouldBlock if self.connections.idle.is_silent(self.token) => {
                self.note_idle()
            }
            ErrorKind::WouldBlock | ErrorKind::Interrupted => {
                self.last = LastRead::Nothing;
                error
            }
            _ => {
                self.last = LastRead::Failed(LossReason::Broken);
                error
            }
        }
    }

    /// The connection is closed as idle. Returns what the receiver is told.
    fn note_idle(&mut self) -> io::Error {
        self.last = LastRead::Failed(LossReason::Idle);
        io::Error::from(ErrorKind::TimedOut)
    }

    /// Half-closes the connection, if that is due and was not done.
    fn half_close_if_due(&mut self) {
        let control = &self.connections.control;
        let is_due = control.are_shut() || self.is_early && control.is_closing();
        if is_due && !self.is_half_closed {
            self.is_half_closed = true;
            // A connection that is gone already has no half to close.
            let _ = self.stream.stream().shutdown(Shutdown::Write);
        }
    }

    /// Gives the connection up for another reader, which is fed these bytes first: those of its unfinished line or frame. It is
    /// no loss. Behind these come the bytes that were handed over with it and that nobody has read. If out of memory for them,
    /// the connection is closed, and that is one. Its producer has this address, and it was taken at these milliseconds.
    pub(crate) fn hand_over(self, rest: &[u8], peer: IpAddr, since: u64) -> Option<HandedStream>
        ensures { IfSome result (λ handed. handed.first.items ≡ rest.now ++ self.stream.bytes) }
    {
        let HeldStream {
            stream,
            token,
            connections,
            progress: _,
            last: _,
            is_early,
            is_half_closed: _,
            long_words: _,
            alloc,
            place,
        } = self;
        let last_datapoint = connections.idle.last_of(token);
        connections.idle.note_left(token);
        connections.control.note_left(is_early);
        let (unread, stream) = stream.into_parts();
        let Ok(first) = joined(alloc, rest, unread) else {
            connections.note_loss(LossReason::MemoryShort);
            drop((stream, place));
            return None;
        };
        Some(HandedStream {
            stream,
            peer,
            first,
            place,
            last_datapoint,
            since,
        })
    }
}

/// These bytes, and then those that an earlier reader had left and nobody has read.
fn joined(alloc: Global, rest: &[u8], unread: Vec<u8>) -> Result<Vec<u8>, NoMemory>
    ensures { IfOk result (λ bytes. bytes.items ≡ rest.now ++ unread.items) }
{
    if rest.is_empty() {
        return Ok(unread);
    }
    let mut bytes = Vec::with_capacity(alloc, rest.len().saturating_add(unread.len()))?;
    bytes.extend_from_slice(rest)?;
    bytes.extend_from_slice(unread.as_slice())?;
    Ok(bytes)
}

/// Why a connection is dropped, by its last read and how far it is within a line or a frame; `None` if it ended in order, or
/// if all connections are closed.
fn reason_of(last: LastRead, progress: Progress, is_over: bool) -> Option<LossReason> {
    match last {
        LastRead::Failed(reason) => Some(reason),
        LastRead::End if progress.is_within() => Some(LossReason::Unfinished),
        LastRead::Bytes if progress.is_overlong() => Some(LossReason::Overlong),
        LastRead::Bytes if !is_over => Some(LossReason::MemoryShort),
        _ => None,
    }
}

impl Read for HeldStream {
    fn read(&mut self, buf: &mut [u8]) -> io::Result<usize>
        ensures bound { ReadsAtMost result buf.new }
    {
        self.half_close_if_due();
        if self.connections.idle.is_over(self.token) {
            return Err(self.note_idle());
        }
        match self.stream.read(buf) {
            Ok(count) => {
                self.note_piece(&buf[..count])?;
                Ok(count)
            }
            Err(error) => Err(self.note_error(error)),
        }
    }
}

impl Drop for HeldStream {
    fn drop(self) {
        // The place is dropped last: the connection's descriptor is free then.
        let HeldStream {
            place: _place,
            stream: _stream,
            token,
            connections,
            progress,
            last,
            is_early,
            is_half_closed: _is_half_closed,
            long_words: _long_words,
            alloc: _alloc,
        } = self;
        if let Some(reason) = reason_of(last, progress, connections.is_over()) {
            connections.note_loss(reason);
        }
        connections.idle.note_left(token);
        connections.control.note_left(is_early);
    }
}
