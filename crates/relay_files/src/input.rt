//! Reads that are counted, and repeated if that is allowed.

ghost use Rattle.std.specs.Prelude.{◌≡◌, ◌<◌, ◌≤◌, length, take, IfOk, IfSome, OnErr};
ghost use Rattle.std.specs.Io.KnownBytes.{Consumes, Keeps, IsAtEnd};
ghost use Rattle.relay_files.specs.declared.input.ReadFault.TheVariants.{Device as OfDevice, NoMemory as OutOfMemory};

use crate::again::may_be_made_again;
use std::alloc::{AllocError, Global};
use std::io::Read;

/// The number of bytes that one read asks for.
pub const PIECE: usize = 65_536;

/// A read failed, or was one more than can be counted.
#[derive(Clone, Copy)]
pub struct InputFailed;

/// Why a file was not read whole.
#[derive(Clone, Copy)]
pub(crate) enum ReadFault {
    /// A read failed, or was one more than can be counted.
    Device,
    /// There was no memory for its bytes.
    NoMemory,
}

impl From<InputFailed> for ReadFault {
    ghost from_gives = { λ _ fault. fault ≡ OfDevice };

    fn from(_fault: InputFailed) -> ReadFault {
        ReadFault::Device
    }
}

impl From<AllocError> for ReadFault {
    ghost from_gives = { λ _ fault. fault ≡ OutOfMemory };

    fn from(_error: AllocError) -> ReadFault {
        ReadFault::NoMemory
    }
}

/// Makes one read into room for some bytes, and returns how many it gave: 0 at the end. A read that
/// is interrupted or would block is repeated, at most 18,446,744,073,709,551,615 times.
pub fn read_piece<R: Read>(input: &mut R, piece: &mut [u8]) -> Result<usize, InputFailed>
    requires { 0 < length piece.old }
    ensures within { IfOk result (λ count. count ≤ length piece.new) }
    ensures given { IfOk result
        (λ count. Consumes (R.remaining input.old) (R.remaining input.new) (take count piece.new)) }
    ensures at_end { IfOk result (λ count. count ≡ 0 → IsAtEnd (R.remaining input.new)) }
    ensures err { OnErr result (Keeps (R.remaining input.old) (R.remaining input.new)) }
{
    for _try in 0..u64::MAX {
        match input.read(piece) {
            Ok(count) => return Ok(count),
            Err(error) if may_be_made_again(error.kind()) => {}
            Err(_) => return Err(InputFailed),
        }
    }
    Err(InputFailed)
}

/// Reads all that is left.
pub(crate) fn read_whole<R: Read>(alloc: Global, input: &mut R) -> Result<Vec<u8>, ReadFault>
    ensures { IfOk result (λ bytes. IfSome (R.remaining input.old) (λ all. bytes.items ≡ all)) }
{
    let mut piece = vec![in alloc; 0u8; PIECE].map_err(|_| ReadFault::NoMemory)?;
    read_pieces(alloc, input, &mut piece)
}

/// Reads all that is left, with this room for one read.
fn read_pieces<R: Read>(
    alloc: Global,
    input: &mut R,
    piece: &mut [u8],
) -> Result<Vec<u8>, ReadFault>
    requires { 0 < length piece.old }
    ensures { IfOk result (λ bytes. IfSome (R.remaining input.old) (λ all. bytes.items ≡ all)) }
{
    let mut bytes = Vec::new(alloc);
    for _turn in 0..u64::MAX {
        let count = read_piece(input, piece)?;
        if count == 0 {
            return Ok(bytes);
        }
        let (given, _) = piece.split_at(count);
        bytes.extend_from_slice(given)?;
    }
    Err(ReadFault::Device)
}
