//! Which names the table met lately.

use crate::slot::{SLOTS, slot_at};
use std::alloc::{AllocError, Global};

/// How many names are marked for each pair of slots. A pair holds two names, so that as many names more as it holds may
/// pass before one is forgotten.
const MARKS: usize = 4;

/// A mark for each of the last names that a pair of slots was asked for: 16 bits of the hash of the name. The room is
/// 512 KB.
#[derive(Drop)]
pub(crate) struct Sightings {
    marks: Vec<[u16; MARKS]>,
}

impl Sightings {
    /// No names, and no room for any.
    pub(crate) fn new(alloc: Global) -> Sightings {
        Sightings {
            marks: Vec::new(alloc),
        }
    }

    /// Makes the room.
    pub(crate) fn make_room(&mut self, alloc: Global) -> Result<(), AllocError> {
        let mut marks = Vec::with_capacity(alloc, SLOTS / 2)?;
        for _ in 0..SLOTS / 2 {
            marks.push([0; MARKS])?;
        }
        self.marks = marks;
        Ok(())
    }

    /// Whether a name of this hash was met lately; it is now. Without room each name counts as one that was.
    ///
    /// Few others have the same mark in the same pair, and such a name is only remembered a little early.
    pub(crate) fn meet(&mut self, hash: u64) -> bool {
        let Some(marks) = self.marks.get_mut(slot_at(hash) / 2) else {
            return true;
        };
        let mark = mark_of(hash);
        if marks.contains(&mark) {
            return true;
        }
        *marks = [mark, marks[0], marks[1], marks[2]];
        false
    }
}

/// The mark of a hash: bits below those that number the slot.
fn mark_of(hash: u64) -> u16 {
    let [_, _, _, low, high, _, _, _] = hash.to_le_bytes();
    u16::from_le_bytes([low, high])
}
