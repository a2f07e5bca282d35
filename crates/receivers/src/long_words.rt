//! Long words, which a receiver refuses while memory is short.

use std::alloc::Global;

/// A word of at most this many bytes is never long; one of twice as many always is.
const SHORT: usize = 256;

/// How much memory long words leave to all else, in bytes.
const KEPT: usize = 142_606_336;

/// A connection asks the system whether memory is short at one in this many pieces with a long word. The question is a
/// system call, and what the other pieces bring is little beside [`KEPT`].
const PIECES_A_LOOK: u32 = 8;

/// The length of the word at the end of what a connection sent, in bytes. A word is a run of bytes above 32, of which
/// each name is one.
#[derive(Clone, Copy)]
pub(crate) struct LastWord {
    length: usize,
}

impl LastWord {
    /// Nothing was sent.
    pub(crate) fn none() -> LastWord {
        LastWord { length: 0 }
    }

    /// Whether a word that these bytes end, contain or continue is long.
    pub(crate) fn is_long_with(&mut self, piece: &[u8]) -> bool {
        let at_end = word_at_end(piece);
        self.length = if at_end == piece.len() {
            self.length.saturating_add(at_end)
        } else {
            at_end
        };
        self.length > SHORT || has_part_of_word(piece)
    }
}

/// Whether one of the bytes' parts of [`SHORT`] bytes is within a word.
fn has_part_of_word(piece: &[u8]) -> bool {
    for part in piece.chunks(SHORT) {
        if part.len() == SHORT && word_at_end(part) == SHORT {
            return true;
        }
    }
    false
}

/// The length of the word at the end of bytes.
fn word_at_end(bytes: &[u8]) -> usize {
    let mut length = 0usize;
    for byte in bytes.iter().rev() {
        if *byte <= b' ' {
            break;
        }
        length = length.saturating_add(1);
    }
    length
}

/// The long words of a connection, which are refused while memory is short.
#[derive(Clone, Copy)]
pub(crate) struct LongWords {
    last: LastWord,
    // Those that had a long word.
    pieces: u32,
}

impl LongWords {
    /// Nothing was sent.
    pub(crate) fn none() -> LongWords {
        LongWords {
            last: LastWord::none(),
            pieces: 0,
        }
    }

    /// Whether the connection's next piece is refused: it has a long word, and memory was found to be short.
    pub(crate) fn refuse(&mut self, alloc: Global, piece: &[u8]) -> bool {
        if !self.last.is_long_with(piece) {
            return false;
        }
        let is_looked_at = self.pieces % PIECES_A_LOOK == 0;
        self.pieces = self.pieces.wrapping_add(1);
        is_looked_at && is_short(alloc)
    }
}

/// Whether memory is short: the system refuses as much as long words have to leave.
pub(crate) fn is_short(alloc: Global) -> bool {
    Vec::<u8>::with_capacity(alloc, KEPT).is_err()
}
