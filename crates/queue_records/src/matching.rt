//! Records compared with histories.
ghost use Rattle.std.specs.Prelude.{◌≡◌, ℕ, ◌+◌, ◌*◌, ◌<◌, ◌≤◌, List, [], ◌∷◌, ◌++◌, None, Some, length, map, slice_get, slice_index, slice_index_or, IfOk, IfSome, IfNone, IsTrue};
ghost use Rattle.std.specs.Vec.{vec_len};
ghost use Rattle.queue_records.specs.FoundStep.{found_by_key, numbered_of};
ghost use Rattle.queue_records.specs.Met.{AreMet};
ghost use Rattle.dest_queue.specs.Numbered.{NumberedStep};
ghost use Rattle.queue_records.specs.Numbered.{with_number, with_numbers};

use crate::entry::Entry;
use crate::found_step::FoundStep;
use relay_base::NoMemory;
use std::alloc::Global;

/// Where a history and a record differ: who made the steps at which destination, as one number, and the
/// place among these steps.
#[derive(Clone, Copy)]
pub struct Difference {
    /// Who and where: destination `d` and reader `r`, of `n` readers, are `d * (n + 1) + r`; the sender there is
    /// `d * (n + 1) + n`.
    pub key: usize,
    /// The place among these steps, counted from 0.
    pub place: usize,
}

/// How many of each maker's steps were met in records so far, and the least difference.
#[derive(Drop)]
pub(crate) struct Matching {
    pub(crate) reached: Vec<usize>,
    pub(crate) least: Option<Difference>,
}

impl Matching {
    /// No step was met; there are this many makers.
    pub(crate) fn new(alloc: Global, keys: usize) -> Result<Matching, NoMemory>
        ensures reached { IfOk result (λ m. vec_len m.reached ≡ keys) }
        ensures zeros { IfOk result (λ m. (key : ℕ) → slice_index m.reached.items key ≡ 0) }
    {
        let reached = vec![in alloc; 0; keys]?;
        Ok(Matching {
            reached,
            least: None,
        })
    }

    /// Notes a difference, if it is the least so far.
    fn note(&mut self, difference: Difference)
        ensures some { self.new.least ≡ None → ⊥ }
        ensures reached { self.new.reached ≡ self.old.reached }
    {
        match self.least {
            Some(least) if !is_less(difference, least) => {}
            _ => self.least = Some(difference),
        }
    }

    /// The numbers of the steps that these entries record. If there is a difference the
    /// numbers mean nothing.
    pub(crate) fn numbers_of<E: Entry>(
        &mut self,
        alloc: Global,
        found: &[Vec<FoundStep>],
        readers: usize,
        entries: &[E],
    ) -> Result<Vec<u64>, NoMemory>
        ensures none { self.new.least ≡ None → self.old.least ≡ None }
        ensures met { IfOk result (λ numbers. self.new.least ≡ None → (seen : List NumberedStep)
            → AreMet readers (found_by_key found.now) seen self.old.reached.items
            → AreMet readers (found_by_key found.now)
            (seen ++ with_numbers (map E.step_of entries.now) numbers.items)
            self.new.reached.items) }
        ensures count { IfOk result (λ numbers. vec_len numbers ≡ length entries.now) }
        ensures keys { vec_len self.new.reached ≡ vec_len self.old.reached }
    {
        let mut numbers = Vec::with_capacity(alloc, entries.len())?;
        for entry in entries {
            let number = self.number_of(found, readers, entry);
            numbers.push_reserved(number);
        }
        Ok(numbers)
    }

    /// The number of the step that the next entry of its maker records.
    fn number_of<E: Entry>(&mut self, found: &[Vec<FoundStep>], readers: usize, entry: &E) -> u64
        ensures none { self.new.least ≡ None → self.old.least ≡ None }
        ensures met { self.new.least ≡ None → (seen : List NumberedStep)
            → AreMet readers (found_by_key found.now) seen self.old.reached.items
            → AreMet readers (found_by_key found.now)
            (seen ++ with_number result (E.step_of entry.now) ∷ []) self.new.reached.items }
        ensures keys { vec_len self.new.reached ≡ vec_len self.old.reached }
    {
        let key = entry.key(readers);
        if key >= found.len() || key >= self.reached.len() {
            self.note(Difference { key, place: 0 });
            return 0;
        }
        let place = self.reached[key];
        match number_at(found[key].as_slice(), place, entry) {
            Some(number) => {
                self.reached[key] = place + 1;
                number
            }
            None => {
                self.note(Difference { key, place });
                0
            }
        }
    }

    /// The least difference, once all records were compared: steps that no record has count too.
    pub(crate) fn difference(&mut self, found: &[Vec<FoundStep>]) -> Option<Difference>
        requires keys { vec_len self.old.reached ≡ length found.now }
        ensures none { result ≡ None → self.old.least ≡ None }
        ensures all { result ≡ None → (key : ℕ) → key < length found.now
            → length (slice_index_or (found_by_key found.now) key [])
            ≤ slice_index self.old.reached.items key }
    {
        for key in 0..found.len() {
            let place = self.reached[key];
            if place < found[key].len() {
                self.note(Difference { key, place });
            }
        }
        self.least
    }
}

/// The number of a maker's step at a place, if the entry records that step.
fn number_at<E: Entry>(steps: &[FoundStep], place: usize, entry: &E) -> Option<u64>
    ensures within { IfSome result (λ _. place < length steps.now) }
    ensures step { IfSome result (λ number. slice_get (map numbered_of steps.now) place
        ≡ Some (with_number number (E.step_of entry.now))) }
{
    let found = steps.get(place)?;
    if entry.is(found.dest, found.step) {
        Some(found.number)
    } else {
        None
    }
}

/// Whether a difference comes before another.
fn is_less(one: Difference, other: Difference) -> bool {
    one.key < other.key || (one.key == other.key && one.place < other.place)
}
