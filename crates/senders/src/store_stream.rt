//! A connection to a store.
ghost use Rattle.std.specs.Io.{WritesAtMost};

use crate::connection_lines::ConnectionLines;
use crate::store_end::{HalfClose, StoreEnd};
use crate::wire::{Wire, loss_of};
use log_lines::{DestNotes, Why};
use std::io;
use std::io::{ErrorKind, Write};
use std::sync::Arc;

/// A connection to a store. If it is dropped, and events are noted, its loss is noted with the reason. One that was
/// half-closed, and is not lost, is no loss: another one follows it.
///
/// A line that is longer than stores read is its last: it half-closes the connection behind that line, and each later
/// write fails.
pub struct StoreStream<'e> {
    wire: Arc<Wire>,
    lines: ConnectionLines,
    notes: Option<&'e DestNotes>,
    // Why a write failed, if one did.
    why: Option<Why>,
}

impl<'e> StoreStream<'e> {
    /// A connection that was made at these milliseconds, which is noted, unless it follows one that is no loss.
    pub(crate) fn new(
        wire: Arc<Wire>,
        millis: u64,
        notes: Option<&'e DestNotes>,
    ) -> StoreStream<'e> {
        if let Some(notes) = notes {
            notes.note_kept(millis);
        }
        StoreStream {
            wire,
            lines: ConnectionLines::new(),
            notes,
            why: None,
        }
    }

    /// A connection of another sender that goes on here, within a line of which it has taken this many bytes. Nothing is noted:
    /// for the store nothing has changed.
    pub(crate) fn resumed(
        wire: Arc<Wire>,
        begun: usize,
        notes: Option<&'e DestNotes>,
    ) -> StoreStream<'e> {
        StoreStream {
            wire,
            lines: ConnectionLines::within(begun),
            notes,
            why: None,
        }
    }

    /// Gives the connection up for another sender, and returns how many bytes of a begun line it has taken. It is no loss; its
    /// socket stays with the connector ([`crate::StoreConnector::take_socket`]).
    pub fn give_up(self) -> usize {
        let StoreStream {
            wire,
            lines,
            notes: _,
            why: _,
        } = self;
        drop(wire);
        lines.begun()
    }

    /// The connection took these bytes, which is noted. It is half-closed if they end its last line.
    fn take(&mut self, bytes: &[u8]) {
        if let Some(notes) = self.notes {
            notes.note_write(bytes.len());
        }
        if self.lines.take(bytes) {
            self.wire.note_over();
            self.wire.half_close();
        }
    }
}

impl Write for StoreStream<'_> {
    fn write(&mut self, buf: &[u8]) -> io::Result<usize> {
        let bytes = self.lines.writable(buf);
        let result = write_to(&self.wire, bytes);
        match &result {
            Ok(count) => {
                let (taken, _) = bytes.split_at((*count).min(bytes.len()));
                self.take(taken);
            }
            Err(error) => self.why = failure_of(error),
        }
        result
    }

    fn flush(&mut self) -> io::Result<()> {
        Ok(())
    }
}

impl HalfClose for StoreStream<'_> {
    fn half_close(&mut self) {
        self.wire.half_close();
    }

    fn store_end(&self) -> StoreEnd {
        self.wire.store_end()
    }
}

/// Writes to a connection. Refuses (`NotConnected`) if it has had its last line, or is gone.
fn write_to(wire: &Wire, bytes: &[u8]) -> io::Result<usize>
    ensures { WritesAtMost result bytes.now }
{
    match wire.socket() {
        Some(socket) if !wire.is_over() => {
            let mut socket = socket;
            socket.write(bytes)
        }
        _ => Err(io::Error::from(ErrorKind::NotConnected)),
    }
}

impl Drop for StoreStream<'_> {
    fn drop(self) {
        let StoreStream {
            wire,
            lines: _,
            notes,
            why,
        } = self;
        if let (Some(notes), Some(why)) = (notes, loss_of_wire(&wire, why)) {
            notes.note_lost(why);
        }
        drop(wire);
    }
}

/// Why a connection is lost, if its last write failed for this; `None` if it is no loss.
fn loss_of_wire(wire: &Wire, failure: Option<Why>) -> Option<Why> {
    if wire.is_over() {
        return Some(Why::LongLine);
    }
    match (failure, wire.loss(), wire.socket()) {
        (Some(why), _, _) => Some(why),
        (None, Some(why), _) => Some(why),
        (None, None, _) if wire.is_half_closed() => None,
        (None, None, Some(socket)) => Some(loss_of(socket)),
        (None, None, None) => Some(Why::Closed),
    }
}

/// Why a write failed. One that would have to wait, or was interrupted, did not.
fn failure_of(error: &io::Error) -> Option<Why> {
    match error.kind() {
        ErrorKind::WouldBlock | ErrorKind::Interrupted => None,
        _ => Some(Why::of_error(error)),
    }
}
