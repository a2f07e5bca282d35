//! The part of a file that goes out on one connection.

use crate::held_text::{HeldText, end_of_lines};

/// How many bytes go out on one connection at most: so many come twice if it is lost.
const MOST: u64 = 16 * 1_048_576;

/// The part of a file that goes out on one connection: where it begins, behind all that stores are known to have, and where it
/// ends, if that is known. It has whole lines.
#[derive(Clone, Copy)]
pub(crate) struct Part {
    start: u64,
    end: Option<u64>,
}

impl Part {
    /// The part that begins at a place.
    pub(crate) fn at(start: u64) -> Part {
        Part { start, end: None }
    }

    /// Where it begins.
    pub(crate) fn start(&self) -> u64 {
        self.start
    }

    /// Where it ends in a file whose whole lines end there. One line that is longer than a part takes the rest with it, and so
    /// does a file that cannot be read, which its sending finds.
    pub(crate) fn end_in<F: HeldText>(&mut self, file: &F, end: u64, piece: &mut [u8]) -> u64 {
        if let Some(known) = self.end {
            return known.min(end);
        }
        let most = self.start.saturating_add(MOST);
        let part_end = if most >= end {
            end
        } else {
            match end_of_lines(file, most, piece) {
                Ok(found) if found > self.start => found,
                _ => end,
            }
        };
        self.end = Some(part_end);
        part_end
    }

    /// Whether all of it is sent, up to this place.
    pub(crate) fn is_sent(&self, place: u64) -> bool {
        match self.end {
            Some(end) => place >= end,
            None => false,
        }
    }
}
