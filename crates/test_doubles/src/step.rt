//! What one call of a faulty reader or writer does.
ghost use Rattle.std.specs.Prelude.{◌≡◌, ◌≤◌, ◌<◌, IfOk, IfErr};
ghost use Rattle.std.specs.IoError.{error_kind};
ghost use Rattle.test_doubles.specs.Faulty.{most_of, kind_of, first_step, later_steps};

use std::io;
use std::io::ErrorKind;

/// What one call of a faulty reader or writer does.
#[derive(Clone, Copy, PartialEq)]
pub enum FaultyStep {
    /// It moves at most this number of bytes; 0 counts as 1.
    Pass(usize),
    /// It would have to wait (`WouldBlock`).
    Block,
    /// It is interrupted (`Interrupted`).
    Interrupt,
    /// It fails (`Other`).
    Fail,
}

/// Takes the first step off a list. Returns the most bytes that the call moves, at least 1, or its error; a call
/// beyond the list moves as many as it can.
pub(crate) fn take_step(steps: &mut &[FaultyStep]) -> io::Result<usize>
    ensures most { IfOk result (λ most. most_of (first_step steps.old.now) ≡ Some most) }
    ensures moves { IfOk result (λ most. 0 < most) }
    ensures kind { IfErr result (λ e. kind_of (first_step steps.old.now) ≡ Some (error_kind e)) }
    ensures rest { steps.new.now ≡ later_steps steps.old.now }
{
    let Some((first, later)) = steps.split_first() else {
        return Ok(usize::MAX);
    };
    *steps = later;
    match *first {
        FaultyStep::Pass(most) => Ok(most.max(1)),
        FaultyStep::Block => Err(io::Error::from(ErrorKind::WouldBlock)),
        FaultyStep::Interrupt => Err(io::Error::from(ErrorKind::Interrupted)),
        FaultyStep::Fail => Err(io::Error::from(ErrorKind::Other)),
    }
}
