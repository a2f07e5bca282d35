//! Prefetching: reads of memory that do not wait for each other, ahead of look-ups that would. What they read is kept
//! only so that the compiler does not leave the reads out.

use crate::slot::find_slots;
use crate::table::{Entry, OwnedBytes};
use std::alloc::Global;
use std::cell::Cell;

/// The most lines that a cursor skips to find the one that it is at.
const MOST_PASSED: usize = 8;

/// The slots of the names that the lines of a text begin with, in the order of the lines.
#[derive(Drop)]
pub(crate) struct PrefetchedSlots {
    slots: Vec<usize>,
    /// Follows the look-ups as the lines are read.
    pub(crate) reading: Cursor,
    /// Follows the look-ups as the datapoints of these lines are sent.
    pub(crate) sending: Cursor,
    /// The bits that were read, for the compiler alone.
    bits: usize,
}

/// Counts the lines whose names were looked up. A wrong count costs a hash, and changes no answer.
#[derive(Drop)]
pub(crate) struct Cursor {
    line: Cell<usize>,
}

impl PrefetchedSlots {
    /// No slots.
    pub(crate) fn new(alloc: Global) -> PrefetchedSlots {
        PrefetchedSlots {
            slots: Vec::new(alloc),
            reading: Cursor::new(),
            sending: Cursor::new(),
            bits: 0,
        }
    }

    /// Finds the slots of the names that the lines of a text begin with, and reads what a table has there.
    pub(crate) fn read_ahead<V: OwnedBytes>(&mut self, text: &[u8], table: &[Option<Entry<V>>]) {
        find_slots(text, &mut self.slots);
        self.reading.start();
        self.sending.start();
        let slots = self.slots.as_slice();
        self.bits = bits_of_values(slots, table) ^ bits_of_names(slots, table);
    }

    /// The slot of the name at a cursor.
    #[inline(always)]
    pub(crate) fn slot_at(&self, cursor: &Cursor) -> Option<usize> {
        self.slots.get(cursor.line.get()).copied()
    }

    /// Moves a cursor over a line whose name has this slot: the next one that has, among the next few, or else just
    /// the next one. So it skips a line without a datapoint.
    pub(crate) fn pass_line(&self, cursor: &Cursor, slot: usize) {
        let line = cursor.line.get();
        for passed in 0..MOST_PASSED {
            if self.slots.get(line.wrapping_add(passed)) == Some(&slot) {
                cursor.line.set(line.wrapping_add(passed));
                break;
            }
        }
        cursor.step();
    }
}

impl Cursor {
    fn new() -> Cursor {
        Cursor { line: Cell::new(0) }
    }

    fn start(&self) {
        self.line.set(0);
    }

    /// Moves to the next line.
    #[inline(always)]
    pub(crate) fn step(&self) {
        self.line.set(self.line.get().wrapping_add(1));
    }
}

/// Reads the values in these slots of a table, and in the other slots of their pairs.
fn bits_of_values<V: OwnedBytes>(slots: &[usize], table: &[Option<Entry<V>>]) -> usize {
    let mut bits = 0;
    for slot in slots {
        bits ^= bits_of_value(*slot, table) ^ bits_of_value(*slot ^ 1, table);
    }
    bits
}

/// Reads the ends of the names there.
fn bits_of_names<V>(slots: &[usize], table: &[Option<Entry<V>>]) -> usize {
    let mut bits = 0;
    for slot in slots {
        bits ^= bits_of_name(*slot, table) ^ bits_of_name(*slot ^ 1, table);
    }
    bits
}

/// Reads the value in a slot, if it holds one.
fn bits_of_value<V: OwnedBytes>(slot: usize, table: &[Option<Entry<V>>]) -> usize {
    match table.get(slot) {
        Some(Some(entry)) => entry.value.owned_bytes(),
        _ => 0,
    }
}

/// Reads the end of the name in a slot, if it holds one.
fn bits_of_name<V>(slot: usize, table: &[Option<Entry<V>>]) -> usize {
    match table.get(slot) {
        Some(Some(entry)) => match entry.name.text().as_bytes().last() {
            Some(last) => usize::from(*last),
            None => 0,
        },
        _ => 0,
    }
}
