//! The writes of one drive.
ghost use Rattle.std.specs.Prelude.{◌≡◌, ◌<◌, ◌≤◌, false, length, take};
ghost use Rattle.std.specs.Io.KnownBytes.{Appends};
ghost use Rattle.dest_writer.specs.Counting.{counts_after};
ghost use Rattle.dest_writer.specs.Drive.{goes_on};

use crate::counting::{CallCounts, Outcome};
use std::io::Write;

/// The greatest number of writes that one drive makes.
pub const MOST_WRITES: u64 = 16;

// Callers rest on this number.
const _: () = prove!(MOST_WRITES == 16);

/// Makes one write of some bytes, and says how many were taken.
pub(crate) fn write_once<W: Write>(bytes: &[u8], stream: &mut W, counts: &mut CallCounts) -> usize
    requires { 0 < length bytes.now }
    ensures within { result ≤ length bytes.now }
    ensures bytes { Appends (W.contents stream.old) (W.contents stream.new)
        (take result bytes.now) }
    ensures counts { counts.new ≡ counts_after counts.new.last counts.old }
    ensures stopped { goes_on counts.new.last ≡ false → result ≡ 0 }
{
    counts.write(stream, bytes).unwrap_or(0)
}

/// Whether a drive goes on after a write with this outcome.
pub(crate) fn goes_on(outcome: Outcome) -> bool
    ensures { result ≡ goes_on outcome }
{
    matches!(outcome, Outcome::Moved | Outcome::Interrupted)
}
