//! Frames: a length of four bytes, and a pickle.
ghost use Rattle.std.specs.Prelude.{◌≡◌, ◌+◌, ◌<◌, ◌≤◌, ◌++◌, length, slice_index, MatchOption};
ghost use Rattle.pickle_subset.specs.Frame.{length_size, length_of};
ghost use Rattle.pickle_subset.specs.Views.{BeginsSo};

use byteorder::{BigEndian, ByteOrder};

/// The longest pickle in a frame, in bytes.
pub const LONGEST_FRAME: usize = 1_048_576;

/// The bytes of the length before a pickle.
pub const LENGTH_SIZE: usize = 4;

/// What the bytes of a connection begin with, from the last whole frame on.
#[derive(Clone, Copy)]
pub enum Front<'a> {
    /// Less than a frame.
    Partial,
    /// A length over [`LONGEST_FRAME`].
    TooLong,
    /// A whole frame.
    Whole {
        /// Its bytes beyond those that were kept.
        end: &'a [u8],
        /// The bytes after it.
        rest: &'a [u8],
    },
}

/// What bytes that were kept and those of a piece begin with: a frame, less than a frame, or a length that is too long.
pub fn front_of<'a>(kept: &[u8], piece: &'a [u8]) -> Front<'a>
    ensures { BeginsSo kept.now piece.now result }
{
    let Some(length) = length_at(kept, piece) else {
        return Front::Partial;
    };
    if length > LONGEST_FRAME {
        return Front::TooLong;
    }
    let missing = (LENGTH_SIZE + length).saturating_sub(kept.len());
    if piece.len() < missing {
        return Front::Partial;
    }
    let (end, rest) = piece.split_at(missing);
    Front::Whole { end, rest }
}

/// The length that bytes that were kept and those of a piece begin with, if all its bytes are there.
fn length_at(kept: &[u8], piece: &[u8]) -> Option<usize>
    ensures { MatchOption result (length (kept.now ++ piece.now) < length_size)
        (λ found. (found ≡ length_of (kept.now ++ piece.now))
        × (length_size ≤ length (kept.now ++ piece.now))) }
{
    let held = kept.len().min(LENGTH_SIZE);
    if piece.len() < LENGTH_SIZE - held {
        return None;
    }
    let head = [
        byte_at(kept, piece, 0),
        byte_at(kept, piece, 1),
        byte_at(kept, piece, 2),
        byte_at(kept, piece, 3),
    ];
    Some(BigEndian::read_u32(&head) as usize)
}

/// A byte of those that were kept and then those of a piece.
#[tactic(auto, using(crate::proofs::FrameLemmas::bytes_of_two))]
fn byte_at(kept: &[u8], piece: &[u8], at: usize) -> u8
    requires { at < length kept.now + length piece.now }
    ensures { result ≡ slice_index (kept.now ++ piece.now) at }
{
    if at < kept.len() {
        kept[at]
    } else {
        piece[at - kept.len()]
    }
}
