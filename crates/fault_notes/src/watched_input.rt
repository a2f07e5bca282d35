//! An input whose bad lines are noted as it is read.

use crate::line_notes::LineWatch;
use line_text::Moment;
use std::alloc::Global;
use std::io;
use std::io::{Read, Write};

/// A clock that counts seconds.
pub trait Seconds {
    /// How many seconds have passed since some moment.
    fn seconds(&self) -> u64;
}

/// A reader that passes on exactly the bytes that it reads, and writes notes of the bad lines among them.
///
/// A bad line has a note with its number, the field that is bad, and why; at most ten a second have one, and the others
/// are counted. A last line without newline, which is no line, has one too. Notes that cannot be written, or that memory
/// has no room for, change nothing of what is read.
#[derive(Drop)]
pub struct WatchedInput<R: Read, N: Write, C: Seconds> {
    input: R,
    notes: N,
    clock: C,
    watch: LineWatch,
}

impl<R: Read, N: Write, C: Seconds> WatchedInput<R, N, C> {
    /// An input before its first read; a time of -1 is this moment.
    pub fn new(
        alloc: Global,
        input: R,
        notes: N,
        clock: C,
        moment: Moment,
    ) -> WatchedInput<R, N, C> {
        WatchedInput {
            input,
            notes,
            clock,
            watch: LineWatch::new(alloc, moment),
        }
    }
}

impl<R: Read, N: Write, C: Seconds> Read for WatchedInput<R, N, C> {
    ghost remaining = { λ w. R.remaining w.input };

    fn read(&mut self, buf: &mut [u8]) -> io::Result<usize> {
        let count = self.input.read(buf)?;
        let (piece, _) = buf.split_at(count);
        let notes = self.watch.look(piece, self.clock.seconds());
        let _ = self.notes.write_all(notes.text().as_bytes());
        Ok(count)
    }
}
