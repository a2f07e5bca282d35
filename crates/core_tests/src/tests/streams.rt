//! Readers and writers in memory that cut, interrupt and fail.

use std::alloc::Global;
use std::io;
use std::io::{ErrorKind, Read, Write};

/// No bound.
pub const ALL: usize = usize::MAX;

/// Gives its text a few bytes at a time: every second read is interrupted, and past a place each read fails.
#[derive(Drop)]
pub struct Pieces<'a> {
    pub left: &'a [u8],
    pub most: usize,
    pub interrupts: bool,
    pub fails_after: usize,
}

impl<'a> Pieces<'a> {
    /// A reader of a text.
    pub fn of(text: &'a [u8], most: usize, fails_after: usize) -> Pieces<'a> {
        Pieces {
            left: text,
            most,
            interrupts: false,
            fails_after,
        }
    }
}

impl Read for Pieces<'_> {
    fn read(&mut self, buf: &mut [u8]) -> io::Result<usize> {
        self.interrupts = !self.interrupts;
        if self.interrupts {
            return Err(io::Error::from(ErrorKind::Interrupted));
        }
        if self.fails_after == 0 {
            return Err(io::Error::from(ErrorKind::Other));
        }
        let count = self
            .most
            .min(self.left.len())
            .min(buf.len())
            .min(self.fails_after);
        let (given, left) = self.left.split_at(count);
        buf[..count].copy_from_slice(given);
        self.left = left;
        self.fails_after -= count;
        Ok(count)
    }
}

/// Takes a few bytes at a time: every second write would block, and once it is full each write fails.
#[derive(Drop)]
pub struct Sink {
    pub taken: Vec<u8>,
    pub most: usize,
    pub blocks: bool,
    pub room: usize,
}

impl Sink {
    /// An empty one.
    pub fn new(alloc: Global, most: usize, room: usize) -> Sink {
        Sink {
            taken: Vec::new(alloc),
            most,
            blocks: false,
            room,
        }
    }
}

impl Write for Sink {
    fn write(&mut self, buf: &[u8]) -> io::Result<usize> {
        self.blocks = !self.blocks;
        if self.blocks {
            return Err(io::Error::from(ErrorKind::WouldBlock));
        }
        let count = self.most.min(buf.len()).min(self.room);
        if count == 0 && !buf.is_empty() {
            return Err(io::Error::from(ErrorKind::BrokenPipe));
        }
        self.taken
            .extend_from_slice(&buf[..count])
            .map_err(|_| io::Error::from(ErrorKind::OutOfMemory))?;
        self.room -= count;
        Ok(count)
    }

    fn flush(&mut self) -> io::Result<()> {
        Ok(())
    }
}
