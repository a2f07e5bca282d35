//! A file is sent to a connection, a piece at a time.

ghost use Rattle.std.specs.Prelude.{◌≡◌, ◌≤◌, length, take, drop, IfSome};
ghost use Rattle.spool.specs.Held.{GoesOn, GotPart, left_of};
ghost use Rattle.spool.specs.Pieces.{IfBytes};

use crate::held_text::HeldText;
use backlog::{Cursor, laws};
use std::io::{ErrorKind, Write};

/// What became of a piece.
#[derive(Clone, Copy)]
pub enum SendOutcome {
    /// The connection took some bytes, and may take more.
    Some,
    /// All whole lines are sent.
    All,
    /// The connection takes no more before it is ready.
    Blocked,
    /// The connection is lost.
    Lost,
    /// The file cannot be read: the system's error, or 0 if the file ends before its lines do.
    Unreadable { code: i32 },
}

/// Sends what a file, whose whole lines end at `end`, has for a connection next: reads a piece, and offers it in one write.
/// The cursor moves past what the connection took.
pub fn send_piece<F: HeldText, W: Write>(
    file: &F,
    end: u64,
    cursor: &mut Cursor,
    sink: &mut W,
    piece: &mut [u8],
) -> SendOutcome
    // The connection gets the file's text from the cursor on, and nothing behind its whole lines.
    ensures sent { IfSome (F.text file.now) (λ held.
        GotPart (left_of held cursor.old.next end) cursor.old cursor.new
        (W.contents sink.old) (W.contents sink.new)) }
    // Where others may have taken lines before, it goes on with these.
    ensures goes_on { IfSome (F.text file.now) (λ held.
        GoesOn (take end held) cursor.old cursor.new (W.contents sink.old) (W.contents sink.new)) }
    ensures all { result ≡ SendOutcome.All → end ≤ cursor.new.next }
    ensures over { end ≤ cursor.old.next → result ≡ SendOutcome.All }
{
    laws::nothing_is_lost();
    laws::left_from_place();
    let next = cursor.next();
    if next >= end {
        return SendOutcome::All;
    }
    let most = (end - next).min(piece.len() as u64) as usize;
    match read_piece(file, next, &mut piece[..most]) {
        PieceRead::Bytes(count) => write_piece(cursor, sink, &piece[..count]),
        PieceRead::Interrupted => SendOutcome::Some,
        PieceRead::Failed(code) => SendOutcome::Unreadable { code },
    }
}

/// What became of reading a piece.
#[derive(Clone, Copy)]
enum PieceRead {
    /// So many bytes were read, at least one.
    Bytes(usize),
    /// None: a signal came first.
    Interrupted,
    /// None, by this error of the system; 0 if the file has no more.
    Failed(i32),
}

/// Reads bytes from a place on.
fn read_piece<F: HeldText>(file: &F, place: u64, piece: &mut [u8]) -> PieceRead
    ensures { IfBytes result (λ count. (count ≤ length piece.new)
        × IfSome (F.text file.now) (λ held. take count piece.new ≡ take count (drop place held))) }
{
    match file.read_from(place, piece) {
        Ok(0) => PieceRead::Failed(0),
        Ok(count) => PieceRead::Bytes(count),
        Err(error) if error.kind() == ErrorKind::Interrupted => PieceRead::Interrupted,
        Err(error) => PieceRead::Failed(error.raw_os_error().unwrap_or(0)),
    }
}

/// Offers a piece to a connection in one write.
fn write_piece<W: Write>(cursor: &mut Cursor, sink: &mut W, piece: &[u8]) -> SendOutcome
    ensures sent { GotPart piece.now cursor.old cursor.new (W.contents sink.old) (W.contents sink.new) }
    ensures all { result ≡ SendOutcome.All → ⊥ }
{
    match sink.write(piece) {
        Ok(0) => SendOutcome::Lost,
        Ok(count) => {
            cursor.take(&piece[..count]);
            SendOutcome::Some
        }
        Err(error) => match error.kind() {
            ErrorKind::WouldBlock => SendOutcome::Blocked,
            ErrorKind::Interrupted => SendOutcome::Some,
            _ => SendOutcome::Lost,
        },
    }
}
