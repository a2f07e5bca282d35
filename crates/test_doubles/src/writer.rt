//! A writer over memory that blocks, is interrupted and fails.
ghost use Rattle.std.specs.Prelude.{◌≡◌, Some, length, IfOk};
ghost use Rattle.std.specs.Io.{WritesAtMost};
ghost use Rattle.std.specs.Io.KnownBytes.{Keeps, WriteAppends};
ghost use Rattle.test_doubles.specs.Faulty.{first_step, later_steps, most_of, moved};

use crate::step::{FaultyStep, take_step};
use std::io;
use std::io::Write;

/// Takes bytes into memory by a list of steps, one for each write; after the list each write takes all that it is
/// given. A write that finds no memory fails (`OutOfMemory`) and takes nothing. For tests.
#[derive(Drop)]
pub struct FaultyWriter<'a> {
    taken: Vec<u8>,
    steps: &'a [FaultyStep],
}

impl<'a> FaultyWriter<'a> {
    /// A writer that appends to these bytes by these steps.
    pub fn new(bytes: Vec<u8>, steps: &'a [FaultyStep]) -> FaultyWriter<'a>
        ensures taken { result.taken ≡ bytes }
        ensures steps { result.steps.now ≡ steps.now }
    {
        FaultyWriter {
            taken: bytes,
            steps,
        }
    }

    /// The bytes that it began with, and those that it has taken.
    pub fn taken(&self) -> &[u8]
        ensures { result.now ≡ self.now.taken.items }
    {
        self.taken.as_slice()
    }
}

impl Write for FaultyWriter<'_> {
    ghost contents = { λ w. Some w.taken.items };

    fn write(&mut self, buf: &[u8]) -> io::Result<usize>
        ensures bound { WritesAtMost result buf.now }
        ensures bytes { WriteAppends (Some self.old.taken.items) (Some self.new.taken.items)
            result buf.now }
        ensures count { IfOk result (λ count. count
            ≡ moved (most_of (first_step self.old.steps.now)) (length buf.now)) }
        ensures rest { self.new.steps.now ≡ later_steps self.old.steps.now }
    {
        let most = take_step(&mut self.steps)?;
        let count = most.min(buf.len());
        let (first, _) = buf.split_at(count);
        self.taken.extend_from_slice(first)?;
        Ok(count)
    }

    fn flush(&mut self) -> io::Result<()>
        ensures bytes { Keeps (Some self.old.taken.items) (Some self.new.taken.items) }
        ensures unchanged { self.new ≡ self.old }
    {
        Ok(())
    }
}
