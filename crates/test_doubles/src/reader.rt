//! A reader over memory that blocks, is interrupted and fails.
ghost use Rattle.std.specs.Prelude.{◌≡◌, min, length, Ok, Some, IfOk, IfErr};
ghost use Rattle.std.specs.IoError.{error_kind};
ghost use Rattle.std.specs.Io.{ReadsAtMost};
ghost use Rattle.std.specs.Io.KnownBytes.{ReadConsumes};
ghost use Rattle.test_doubles.specs.Faulty.{most_of, kind_of, first_step, later_steps, moved};

use crate::step::{FaultyStep, take_step};
use std::io;
use std::io::Read;

/// Gives bytes of memory by a list of steps, one for each call; after the list each call gives all that the buffer
/// has room for. For tests.
#[derive(Clone, Copy, Drop)]
pub struct FaultyReader<'a> {
    left: &'a [u8],
    steps: &'a [FaultyStep],
}

impl<'a> FaultyReader<'a> {
    /// A reader of these bytes by these steps.
    pub fn new(bytes: &'a [u8], steps: &'a [FaultyStep]) -> FaultyReader<'a>
        ensures left { result.left.now ≡ bytes.now }
        ensures steps { result.steps.now ≡ steps.now }
    {
        FaultyReader { left: bytes, steps }
    }

    /// The bytes that it has not given yet.
    pub fn left(&self) -> &[u8]
        ensures { result.now ≡ self.now.left.now }
    {
        self.left
    }
}

impl Read for FaultyReader<'_> {
    ghost remaining = { λ r. Some r.left.now };

    fn read(&mut self, buf: &mut [u8]) -> io::Result<usize>
        ensures bound { ReadsAtMost result buf.new }
        ensures bytes { ReadConsumes (Some self.old.left.now) (Some self.new.left.now) result
            buf.new }
        ensures count { IfOk result (λ count. count
            ≡ moved (most_of (first_step self.old.steps.now)) (min (length self.old.left.now) (length buf.old))) }
        ensures kind { IfErr result
            (λ e. kind_of (first_step self.old.steps.now) ≡ Some (error_kind e)) }
        ensures rest { self.new.steps.now ≡ later_steps self.old.steps.now }
    {
        let most = take_step(&mut self.steps)?;
        let count = most.min(self.left.len().min(buf.len()));
        let (given, left) = self.left.split_at(count);
        buf[..count].copy_from_slice(given);
        self.left = left;
        Ok(count)
    }
}
