//! What a file holds.
ghost use Rattle.std.specs.Prelude.{◌≡◌, ◌+◌, ◌^◌, ◌<◌, ◌≤◌, length, take, drop, IfOk, IfSome};
ghost use Rattle.spool.specs.Held.{lines_end};

use backlog::whole_length;
use std::fs::File;
use std::io;
use std::io::ErrorKind;
use std::os::unix::fs::FileExt;

/// What can be read from any place, as a file.
pub trait HeldText {
    ghost use Rattle.std.specs.Prelude.{◌≡◌, ◌≤◌, ℕ, List, Option, None, length, take, drop, IfOk, IfSome};

    // The bytes that it holds, where they are known.
    ghost text: { Self → Option (List ℕ) } = { λ _. None };

    /// Reads some bytes from a place on; none only at the end.
    fn read_from(&self, place: u64, piece: &mut [u8]) -> io::Result<usize>
        ensures count { IfOk result (λ count. count ≤ length piece.new) }
        ensures length { length piece.new ≡ length piece.old }
        ensures bytes { IfOk result (λ count. IfSome (text self.now)
            (λ held. take count piece.new ≡ take count (drop place held))) };
}

impl HeldText for File {
    fn read_from(&self, place: u64, piece: &mut [u8]) -> io::Result<usize> {
        self.read_at(piece, place)
    }
}

/// Reads bytes from a place on until the piece is full. Refuses if fewer are there.
fn read_whole<F: HeldText>(file: &F, place: u64, piece: &mut [u8]) -> io::Result<()>
    ensures { place + length piece.old < 2 ^ 64
        → IfOk result (λ _. IfSome (F.text file.now)
        (λ held. piece.new ≡ take (length piece.new) (drop place held))) }
{
    let mut filled = 0;
    for _ in 0..piece.len() {
        if filled >= piece.len() {
            break;
        }
        filled += read_some(
            file,
            place.saturating_add(filled as u64),
            &mut piece[filled..],
        )?;
    }
    if filled >= piece.len() {
        Ok(())
    } else {
        Err(io::Error::from(ErrorKind::Interrupted))
    }
}

/// Reads some bytes from a place on; none if it was interrupted. Refuses if none are there.
pub(crate) fn read_some<F: HeldText>(file: &F, place: u64, piece: &mut [u8]) -> io::Result<usize>
    ensures count { IfOk result (λ count. count ≤ length piece.new) }
    ensures bytes { IfOk result (λ count. IfSome (F.text file.now)
        (λ held. take count piece.new ≡ take count (drop place held))) }
{
    match file.read_from(place, piece) {
        Ok(0) => Err(io::Error::from(ErrorKind::UnexpectedEof)),
        Err(error) if error.kind() == ErrorKind::Interrupted => Ok(0),
        result => result,
    }
}

/// Where the whole lines among a file's first `size` bytes end: right behind the last byte 10 there, or at 0 if there is none.
/// It reads from the end, piece by piece, up to that byte. Refuses an empty piece.
pub fn end_of_lines<F: HeldText>(file: &F, size: u64, piece: &mut [u8]) -> io::Result<u64>
    ensures { IfOk result (λ end. IfSome (F.text file.now) (λ held. end ≡ lines_end held size)) }
{
    let most = piece.len() as u64;
    if most == 0 {
        return Err(io::Error::from(ErrorKind::InvalidInput));
    }
    let mut end = size;
    while end > 0 {
        let count = end.min(most);
        let start = end - count;
        let part = &mut piece[..count as usize];
        read_whole(file, start, part)?;
        let whole = whole_length(part);
        if whole > 0 {
            return Ok(start.saturating_add(whole as u64));
        }
        end = start;
    }
    Ok(0)
}
