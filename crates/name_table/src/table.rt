//! The table of names.

ghost use Rattle.std.specs.Prelude.{◌≡◌, ◌<◌, [], IfSome, IfOk};
ghost use Rattle.std.specs.Vec.{vec_len};
ghost use Rattle.name_table.specs.NameTable.{IsFound, Keeps, entries_in};

use crate::prefetch::{Cursor, PrefetchedSlots};
use crate::same_text::is_same;
use crate::sightings::Sightings;
use crate::slot::{SLOTS, hash_of, slot_of};
use line_text::Name;
use std::alloc::{AllocError, Global};
use std::marker::Model;
use std::sync::Arc;

/// The longest name of an entry, in bytes.
pub const LONGEST_KEPT: usize = 4_096;

/// The most bytes of names that a table holds, 32 MB: those of its entries, and those that their values own.
pub const MOST_BYTES: usize = 32 << 20;

/// A name takes the first of its slots from another one only once in this many times. So names that are no longer
/// received are replaced, and if there are more names than slots, few are kept in vain.
const REPLACE_EVERY: u32 = 16;

const _: () = prove!(LONGEST_KEPT <= MOST_BYTES);

/// A name, and what is remembered of it.
///
/// In clauses the two are a pair.
#[derive(Drop)]
pub struct Entry<V> {
    pub name: Arc<Name>,
    pub value: V,
}

impl<V> Model for Entry<V> {
    ghost use Rattle.std.specs.Prelude.{List, ℕ};
    ghost use Rattle.std.specs.Arc.{arc_value};

    ghost Value = { List ℕ × V };

    ghost view = { λ e. (arc_value e.name, e.value) };
}

/// Owns names, whose bytes count as the table's.
pub trait OwnedBytes {
    /// The bytes of the names that this value owns.
    fn owned_bytes(&self) -> usize;
}

/// Entries of names, each in one of the two slots that its name has. The room for the slots is made on demand, or with
/// the first entry.
///
/// In clauses it is the list of its entries.
#[derive(Drop)]
pub struct NameTable<V> {
    alloc: Global,
    slots: Vec<Option<Entry<V>>>,
    /// The bytes of the names in the slots, and of those that their values own.
    bytes: usize,
    /// How many names found no free slot; it wraps.
    refused: u32,
    prefetched: PrefetchedSlots,
    sightings: Sightings,
}

impl<V> Model for NameTable<V> {
    ghost use Rattle.std.specs.Prelude.{List, ℕ};
    ghost use Rattle.name_table.specs.NameTable.{entries_in};

    ghost Value = { List (List ℕ × V) };

    ghost view = { λ t. entries_in t.slots.items };
}

impl<V: OwnedBytes + Drop> NameTable<V> {
    /// A table without entries, which takes no memory yet.
    pub fn new(alloc: Global) -> NameTable<V>
        ensures { result ≡ [] }
    {
        NameTable {
            alloc,
            slots: Vec::new(alloc),
            bytes: 0,
            refused: 0,
            prefetched: PrefetchedSlots::new(alloc),
            sightings: Sightings::new(alloc),
        }
    }

    /// Reads the memory of the entries of the names that the lines of a text begin with, for a caller that looks them
    /// up next: first each of them once by [`NameTable::find`], and then once by [`NameTable::find_again`].
    pub fn prefetch(&mut self, text: &[u8])
        ensures { self.new ≡ self.old }
    {
        self.prefetched.read_ahead(text, self.slots.as_slice());
    }

    /// The entry of the name that a text is, if there is one.
    #[inline(always)]
    pub fn find(&self, text: &[u8]) -> Option<&Entry<V>>
        ensures { IfSome result (λ entry. IsFound self.now text.now entry.now) }
    {
        self.find_at_cursor(&self.prefetched.reading, text)
    }

    /// Like [`NameTable::find`], for names that are looked up a second time, in the same order.
    #[inline(always)]
    pub fn find_again(&self, text: &[u8]) -> Option<&Entry<V>>
        ensures { IfSome result (λ entry. IsFound self.now text.now entry.now) }
    {
        self.find_at_cursor(&self.prefetched.sending, text)
    }

    /// Passes over a name that is not looked up a second time.
    #[inline(always)]
    pub fn pass_again(&self) {
        self.prefetched.sending.step();
    }

    /// The entry of the name that a text is: in the slots at a cursor, or else in those of its hash.
    #[inline(always)]
    fn find_at_cursor(&self, cursor: &Cursor, text: &[u8]) -> Option<&Entry<V>>
        ensures { IfSome result (λ entry. IsFound self.now text.now entry.now) }
    {
        if let Some(slot) = self.prefetched.slot_at(cursor) {
            if let Some(entry) = self.find_in_pair(slot, text) {
                cursor.step();
                return Some(entry);
            }
        }
        self.find_by_hash(cursor, text)
    }

    /// The entry of the name that a text is, in the slots of its hash.
    #[inline(never)]
    fn find_by_hash(&self, cursor: &Cursor, text: &[u8]) -> Option<&Entry<V>>
        ensures { IfSome result (λ entry. IsFound self.now text.now entry.now) }
    {
        if text.len() > LONGEST_KEPT {
            return None;
        }
        let slot = slot_of(text);
        self.prefetched.pass_line(cursor, slot);
        self.find_in_pair(slot, text)
    }

    /// The entry of the name that a text is, in a slot or in the other one of the pair.
    #[inline(always)]
    fn find_in_pair(&self, slot: usize, text: &[u8]) -> Option<&Entry<V>>
        ensures { IfSome result (λ entry. IsFound self.now text.now entry.now) }
    {
        match self.find_in_slot(slot, text) {
            Some(entry) => Some(entry),
            None => self.find_in_slot(slot ^ 1, text),
        }
    }

    /// The entry in a slot, if its name is the text.
    #[inline(always)]
    fn find_in_slot(&self, slot: usize, text: &[u8]) -> Option<&Entry<V>>
        ensures { IfSome result (λ entry. IsFound self.now text.now entry.now) }
    {
        let entry = self.slots.get(slot)?.as_ref()?;
        if is_same(entry.name.text().as_bytes(), text) {
            Some(entry)
        } else {
            None
        }
    }

    /// Makes the room for the slots, some 4 MB, unless it is there. If there is no memory for it, nothing changes,
    /// and the next entry tries again.
    pub fn make_room(&mut self)
        ensures { self.new ≡ self.old }
    {
        if self.slots.is_empty() {
            if let Ok(slots) = free_slots(self.alloc) {
                self.slots = slots;
                // Without room for sightings, each name counts as one that came before.
                let _refused = self.sightings.make_room(self.alloc).is_err();
            }
        }
    }

    /// Whether a name came before, for a caller that keeps no entry of a name that comes once: the table is to have room
    /// for those that come again. It notes that the name came.
    ///
    /// It remembers the last four names of each pair of slots, so it may take a name that comes again after many others
    /// for a new one. A name that is longer than [`LONGEST_KEPT`], which the table never keeps, always counts.
    pub fn is_repeated(&mut self, text: &[u8]) -> bool
        ensures { self.new ≡ self.old }
    {
        if text.len() > LONGEST_KEPT {
            return true;
        }
        self.make_room();
        self.sightings.meet(hash_of(text))
    }

    /// Keeps an entry, unless its name is longer than [`LONGEST_KEPT`], other names keep both its slots for now, the
    /// table would hold more than [`MOST_BYTES`] of names, or there is no memory for the slots.
    #[tactic(auto, using(crate::proofs::Slots::keeps_same))]
    pub fn keep(&mut self, entry: Entry<V>)
        ensures { Keeps self.old entry self.new }
    {
        if entry.name.text().len() > LONGEST_KEPT {
            return;
        }
        self.make_room();
        let bytes = bytes_of(&entry);
        let first = slot_of(entry.name.text().as_bytes());
        let slot = self.slot_for(first, bytes);
        if slot < self.slots.len() {
            let freed = self.bytes_at(slot);
            self.bytes = self.bytes.saturating_sub(freed).saturating_add(bytes);
            put(&mut self.slots, slot, entry);
        }
    }

    /// The slot that a name with this number of bytes may take: a free one, or, in its turn, the first; none if it
    /// may take neither.
    fn slot_for(&mut self, first: usize, bytes: usize) -> usize
        ensures { self.new ≡ self.old }
    {
        let room = MOST_BYTES.saturating_sub(self.bytes);
        if bytes <= room && self.is_free(first) {
            return first;
        }
        if bytes <= room && self.is_free(first ^ 1) {
            return first ^ 1;
        }
        self.refused = self.refused.wrapping_add(1);
        if self.refused % REPLACE_EVERY == 0 && bytes <= room.saturating_add(self.bytes_at(first)) {
            first
        } else {
            SLOTS
        }
    }

    fn is_free(&self, slot: usize) -> bool {
        matches!(self.slots.get(slot), Some(None))
    }

    /// The bytes that the entry in a slot counts for.
    fn bytes_at(&self, slot: usize) -> usize {
        match self.slots.get(slot) {
            Some(Some(entry)) => bytes_of(entry),
            _ => 0,
        }
    }
}

/// The bytes of an entry's name and of the names that its value owns.
fn bytes_of<V: OwnedBytes>(entry: &Entry<V>) -> usize {
    entry
        .name
        .text()
        .len()
        .saturating_add(entry.value.owned_bytes())
}

/// Puts an entry into a slot, in place of what it held.
#[tactic(auto, using(crate::proofs::Slots::keeps_set))]
fn put<V: Drop>(slots: &mut Vec<Option<Entry<V>>>, slot: usize, entry: Entry<V>)
    requires { slot < vec_len slots.old }
    ensures { Keeps (entries_in slots.old.items) entry (entries_in slots.new.items) }
{
    slots[slot] = Some(entry);
}

/// All slots that there are, each free.
fn free_slots<V: Drop>(alloc: Global) -> Result<Vec<Option<Entry<V>>>, AllocError>
    ensures { IfOk result (λ slots. entries_in slots.items ≡ []) }
{
    let mut slots = Vec::with_capacity(alloc, SLOTS)?;
    for _ in 0..SLOTS {
        slots.push(None)?;
    }
    Ok(slots)
}
