//! A connection that repeats itself.

use std::io;
use std::io::{ErrorKind, Read};

/// Gives a piece this many times, one at each read, and then would block.
#[derive(Drop)]
pub(crate) struct Repeats {
    pub(crate) piece: &'static [u8],
    /// How many times it still gives the piece.
    pub(crate) times: usize,
}

impl Read for Repeats {
    fn read(&mut self, buf: &mut [u8]) -> io::Result<usize> {
        if self.times == 0 {
            return Err(io::Error::from(ErrorKind::WouldBlock));
        }
        self.times -= 1;
        let count = self.piece.len().min(buf.len());
        let (given, _) = self.piece.split_at(count);
        buf[..count].copy_from_slice(given);
        Ok(count)
    }
}
