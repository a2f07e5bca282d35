//! The source of a receiver's datagrams.
ghost use Rattle.std.specs.Prelude.{◌≡◌, IfErr};
ghost use Rattle.std.specs.Io.{ReadsAtMost};

use crate::input_counts::ServedInput;
use mio_loops::{ReadTotals, ReadinessFault};
use reader_core::ReaderCounts;
use std::io;

/// The source of a receiver's datagrams: waits until there are some, and takes them.
pub trait Datagrams {
    /// Waits until a datagram has arrived or this number of milliseconds has passed. An arrival is reported once: go on
    /// until a take would have to wait. Refuses (`Device`) only what the system refuses.
    fn wait(&mut self, millis: u64) -> Result<(), ReadinessFault>
        ensures device { IfErr result (λ fault. fault ≡ ReadinessFault.Device) };

    /// Takes the next datagram into the buffer, and returns how many bytes it has; bytes beyond the buffer are lost.
    /// If there is none, the error's kind is `WouldBlock`.
    fn receive(&mut self, buffer: &mut [u8]) -> io::Result<usize>
        ensures bound { ReadsAtMost result buffer.new };

    /// Takes note of what the receiver has counted since it began, and how many names its plan has emptied. Called ten times a
    /// second, or once a turn where turns are longer, and when the receiver ends.
    fn note_totals(&mut self, totals: ReadTotals, emptied: u64);

    /// Takes note that the datagram that was taken last was fed, and what the reader counted of it.
    fn note_served(&mut self, served: ServedInput);

    /// Takes note that the datagram that was taken last, with these bytes, held bad input: what the reader had counted before
    /// and has counted now.
    fn note_bad(&mut self, _before: ReaderCounts, _now: ReaderCounts, _datagram: &[u8]) {}

    /// Takes note that the receiver cannot begin, for this reason.
    fn note_fault(&mut self, fault: ReadinessFault);
}
