//! Writes that are counted, and repeated if that is allowed.

ghost use Rattle.std.specs.Prelude.{◌≡◌, ◌≤◌, [], length, take, IfOk, OnOk, OnErr};
ghost use Rattle.std.specs.Io.KnownBytes.{Appends, Keeps};
ghost use Rattle.relay_files.specs.Output.{GrowsByPart};

use crate::again::may_be_made_again;
use std::io::Write;

/// A write or a flush failed, or was one more than can be counted.
#[derive(Clone, Copy)]
pub struct OutputFailed;

/// Writes bytes, all of them, by at most 18,446,744,073,709,551,615 writes. A write that is interrupted or
/// would block is repeated; one that fails otherwise, and one that takes nothing, is a failure. A failure
/// leaves a first part of the bytes written.
pub fn write_all<W: Write>(output: &mut W, bytes: &[u8]) -> Result<(), OutputFailed>
    ensures ok { OnOk result (Appends (W.contents output.old) (W.contents output.new) bytes.now) }
    ensures part { GrowsByPart (W.contents output.old) (W.contents output.new) bytes.now }
{
    let mut left = bytes;
    for _write in 0..u64::MAX {
        if left.is_empty() {
            return Ok(());
        }
        let count = write_once(output, left)?;
        let (_, rest) = left.split_at(count);
        left = rest;
    }
    Err(OutputFailed)
}

/// Makes one write, and returns how many bytes it took: none if it must be repeated.
fn write_once<W: Write>(output: &mut W, bytes: &[u8]) -> Result<usize, OutputFailed>
    ensures taken { IfOk result
        (λ count. Appends (W.contents output.old) (W.contents output.new) (take count bytes.now)) }
    ensures within { IfOk result (λ count. count ≤ length bytes.now) }
    ensures err { OnErr result (Appends (W.contents output.old) (W.contents output.new) []) }
{
    match output.write(bytes) {
        Ok(0) => Err(OutputFailed),
        Ok(count) => Ok(count),
        Err(error) if may_be_made_again(error.kind()) => Ok(0),
        Err(_) => Err(OutputFailed),
    }
}

/// Flushes what was written. A flush that is interrupted or would block is repeated, at most
/// 18,446,744,073,709,551,615 times.
pub fn flush<W: Write>(output: &mut W) -> Result<(), OutputFailed>
    ensures { Keeps (W.contents output.old) (W.contents output.new) }
{
    for _try in 0..u64::MAX {
        match output.flush() {
            Ok(()) => return Ok(()),
            Err(error) if may_be_made_again(error.kind()) => {}
            Err(_) => return Err(OutputFailed),
        }
    }
    Err(OutputFailed)
}

/// Writes bytes, all of them, and flushes them. A write or a flush that is interrupted or would block is
/// repeated; one that fails otherwise, and a write that takes nothing, is a failure. A failure leaves a first
/// part of the bytes written.
pub fn write_out<W: Write>(output: &mut W, bytes: &[u8]) -> Result<(), OutputFailed>
    ensures ok { OnOk result (Appends (W.contents output.old) (W.contents output.new) bytes.now) }
    ensures part { GrowsByPart (W.contents output.old) (W.contents output.new) bytes.now }
{
    write_all(output, bytes)?;
    flush(output)
}
