//! A part of a file is written to another one.

ghost use Rattle.std.specs.Prelude.{◌≡◌, OnOk, IfSome};
ghost use Rattle.std.specs.Io.KnownBytes.{Appends};
ghost use Rattle.spool.specs.Held.{left_of};

use crate::held_text::HeldText;
use std::io;
use std::io::{ErrorKind, Write};

/// How many bytes are copied at once.
const PIECE: usize = 16_384;

/// Writes the bytes of a file from `start` up to `end` to an output.
pub fn copy_part<F: HeldText, W: Write>(
    file: &F,
    start: u64,
    end: u64,
    output: &mut W,
) -> io::Result<()>
    ensures ok { OnOk result (IfSome (F.text file.now) (λ held.
        Appends (W.contents output.old) (W.contents output.new) (left_of held start end))) }
{
    let mut piece = [0; PIECE];
    let mut next = start;
    while next < end {
        let most = (end - next).min(PIECE as u64) as usize;
        let count = file.read_from(next, &mut piece[..most])?;
        if count == 0 {
            return Err(io::Error::from(ErrorKind::UnexpectedEof));
        }
        output.write_all(&piece[..count])?;
        next += count as u64;
    }
    Ok(())
}
