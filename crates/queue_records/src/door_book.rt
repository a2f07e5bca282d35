//! The record of a door.
ghost use Rattle.std.specs.Prelude.{◌≡◌, ℕ, ◌+◌, ◌*◌, ◌^◌, ◌<◌, ◌≤◌, ◌↔◌, ◌⊎◌, ◌∷◌, ◌++◌, [], length, map, slice_index, IfOk, IfErr, OnOk, OnErr, IsErrOf, MatchOption};
ghost use Rattle.std.specs.Arc.{arc_value};
ghost use Rattle.dest_queue.specs.Queue.{kept_of, queue_after_offer};
ghost use Rattle.dest_queue.specs.Offer.{IsOutOfTurn, IsInTurn, HasNoFault, last_count};
ghost use Rattle.dest_queue.specs.RecordedStep.{Offered};
ghost use Rattle.dest_queue.specs.SizedQueue.{base_before_step, history_before_step};
ghost use Rattle.queue_records.specs.Made.{offer_of};
ghost use Rattle.queue_records.specs.DoorRecord.{HasOffersOf};
ghost use Rattle.queue_records.specs.Offers.{IsFresh, IsReaderOf, after_offer, counted_offer, next_number, most_entries, dropped_by as dropped_by_answer};

use crate::door_record::DoorRecord;
use crate::limits::{MOST_DESTS, MOST_ENTRIES, READERS_EACH};
use crate::made::Made;
use dest_queue::{DestQueue, Kept, OfferFault};
use line_text::Point;
use relay_base::{DestId, MOST_RECEIVERS, NoMemory};
use std::alloc::Global;
use std::marker::Model;
use std::sync::Arc;

/// The record of a door: the offers that it made, how many to each destination and how many of them were
/// dropped, and each reader's next number.
///
/// Clauses see it as these.
#[derive(Drop)]
pub struct DoorBook {
    receiver: usize,
    made: Vec<Made>,
    totals: Vec<u64>,
    drops: Vec<u64>,
    next: Vec<u64>,
}

impl Model for DoorBook {
    ghost use Rattle.queue_records.specs.Offers.{OffersMade};

    ghost Value = { OffersMade };

    ghost use Rattle.queue_records.specs.DoorBook.{offers_made_of, IsSoundBook};

    ghost view = { offers_made_of };

    ghost invariant = { IsSoundBook };
}

impl DoorBook {
    /// The record of a receiver's door, empty, with the room for all entries. There are 1
    /// to [`MOST_DESTS`] destinations, and the receiver is below [`MOST_RECEIVERS`].
    pub fn new(alloc: Global, dests: usize, receiver: usize) -> Result<DoorBook, NoMemory>
        requires dests { (1 ≤ dests) × (dests ≤ MOST_DESTS) }
        requires receiver { receiver < MOST_RECEIVERS }
        ensures { IfOk result (λ book. IsFresh dests receiver book) }
    {
        let made = Vec::with_capacity(alloc, MOST_ENTRIES)?;
        let totals = vec![in alloc; 0; dests]?;
        let drops = vec![in alloc; 0; dests]?;
        let next = vec![in alloc; 0; READERS_EACH * dests]?;
        Ok(DoorBook {
            receiver,
            made,
            totals,
            drops,
            next,
        })
    }

    /// Offers a reader's datapoint to a destination's queue, as that reader's next offer there, and records
    /// it: the queue's step and the record's entry are one.
    ///
    /// Refuses, the first that fits: a reader that is not the receiver's or that the queue does not have
    /// (`NoSuchReader`), a number that is not the reader's next at the queue (`OutOfTurn`), one more offer
    /// than the queue or the record can count (`Exhausted`), and an `Arc` that could not be copied
    /// (`NoMemory`). A refused offer changes nothing.
    pub fn offer_under(
        &mut self,
        queue: &mut DestQueue,
        reader: usize,
        dest: DestId,
        point: &Arc<Point>,
    ) -> Result<Kept, OfferFault>
        requires dest { dest.0 < length self.old.totals }

        // The queue's step.
        ensures answer { IfOk result (λ kept. kept ≡ kept_of queue.old.size queue.old.queue) }
        ensures step { OnOk result (queue.new.queue
            ≡ queue_after_offer queue.old.size reader (arc_value point.now) queue.old.queue) }
        ensures size { queue.new.size ≡ queue.old.size }
        ensures base { OnOk result (queue.new.base ≡ base_before_step queue.old) }
        ensures history { IfOk result (λ kept. queue.new.history
            ≡ history_before_step queue.old
            ++ Offered reader (next_number reader dest.0 self.old) (arc_value point.now) kept
            ∷ []) }

        // The record's entry, of the same number, datapoint and answer.
        ensures made { IfOk result (λ kept. self.new
            ≡ after_offer reader dest.0 (arc_value point.now) kept self.old) }
        ensures number { OnOk result (next_number reader dest.0 self.old
            ≡ slice_index queue.old.queue.next reader) }

        // Each fault is returned if it is the first that fits.
        ensures no_such_reader { IsErrOf result OfferFault.NoSuchReader
            → (¬ IsReaderOf self.old.receiver reader) ⊎ (length queue.old.queue.next ≤ reader) }
        ensures out_of_turn { (expected : ℕ) → IsErrOf result (OfferFault.OutOfTurn expected)
            → IsReaderOf self.old.receiver reader
            × IsOutOfTurn queue.old.queue reader (next_number reader dest.0 self.old) expected }
        ensures exhausted { IsErrOf result OfferFault.Exhausted
            → IsReaderOf self.old.receiver reader
            × IsInTurn queue.old.queue reader (next_number reader dest.0 self.old)
            × ((queue.old.queue.offered ≡ last_count)
            ⊎ (slice_index self.old.totals dest.0 ≡ last_count)) }
        ensures no_fault { OnOk result (IsReaderOf self.old.receiver reader
            × HasNoFault queue.old.queue reader (next_number reader dest.0 self.old)
            × (slice_index self.old.totals dest.0 < last_count)) }
        ensures unchanged { OnErr result ((self.new ≡ self.old) × (queue.new ≡ queue.old)) }
    {
        let first = READERS_EACH * self.receiver;
        if reader < first || reader >= first + READERS_EACH {
            return Err(OfferFault::NoSuchReader);
        }
        let place = READERS_EACH * dest.0 + (reader - first);
        let number = self.next[place];
        if self.totals[dest.0] == u64::MAX {
            return Err(fault_of_uncounted(queue, reader, number));
        }
        let recorded = self.share_to_record(point)?;
        let kept = queue.offer(reader, number, point)?;
        if let Some(point) = recorded {
            self.made.push_reserved(Made {
                reader: reader as u16,
                dest,
                number,
                point,
                kept,
            });
        }
        self.count(reader, dest, kept);
        Ok(kept)
    }

    /// A share of a datapoint for an entry, or `None` where there is no room for one more.
    fn share_to_record(&self, point: &Arc<Point>) -> Result<Option<Arc<Point>>, OfferFault>
        ensures share { IfOk result (λ share. MatchOption share
            (most_entries ≤ length self.now.entries)
            (λ shared. (arc_value shared ≡ arc_value point.now)
            × (length self.now.entries < most_entries))) }
        ensures fault { IfErr result (λ fault. fault ≡ OfferFault.NoMemory) }
    {
        if self.made.len() < MOST_ENTRIES {
            match Arc::try_clone(point) {
                Ok(shared) => Ok(Some(shared)),
                Err(_) => Err(OfferFault::NoMemory),
            }
        } else {
            Ok(None)
        }
    }

    /// Counts a reader's offer in the totals of a destination and in the reader's next number there.
    fn count(&mut self, reader: usize, dest: DestId, kept: Kept)
        requires reader { IsReaderOf self.old.receiver reader }
        requires dest { dest.0 < length self.old.totals }
        requires total { slice_index self.old.totals dest.0 < last_count }
        ensures { self.new ≡ counted_offer reader dest.0 kept self.old }
    {
        self.totals[dest.0] += 1;
        self.drops[dest.0] += dropped_by(kept);
        let place = READERS_EACH * dest.0 + (reader - READERS_EACH * self.receiver);
        let number = self.next[place];
        self.next[place] = number + 1;
    }

    /// The offers that were made, while there was room for them.
    pub fn made(&self) -> &[Made]
        ensures { map offer_of result.now ≡ self.now.entries }
    {
        self.made.as_slice()
    }

    /// How many offers were made to a destination, which exists.
    pub fn total(&self, dest: DestId) -> u64
        requires dest { dest.0 < length self.now.totals }
        ensures { result ≡ slice_index self.now.totals dest.0 }
    {
        self.totals[dest.0]
    }

    /// What was recorded, for this seat of a set of queues.
    pub fn into_record(self, name: u64, seat: usize) -> DoorRecord
        ensures reported { HasOffersOf self result }
        ensures name { result.name ≡ name }
        ensures seat { result.seat ≡ seat }
    {
        let DoorBook {
            made,
            totals,
            drops,
            ..
        } = self;
        DoorRecord {
            name,
            dests: totals.len(),
            seat,
            made,
            totals,
            drops,
        }
    }
}

/// How many datapoints an answer dropped.
fn dropped_by(kept: Kept) -> u64
    ensures { result ≡ dropped_by_answer kept }
{
    match kept {
        Kept::Queued => 0,
        Kept::Dropped => 1,
    }
}

/// Why a reader's offer of this number is refused if the record can count no more.
fn fault_of_uncounted(queue: &DestQueue, reader: usize, number: u64) -> OfferFault
    ensures no_such_reader { result ≡ OfferFault.NoSuchReader
        → length queue.now.queue.next ≤ reader }
    ensures out_of_turn { (expected : ℕ) → result ≡ OfferFault.OutOfTurn expected
        → IsOutOfTurn queue.now.queue reader number expected }
    ensures exhausted { result ≡ OfferFault.Exhausted → IsInTurn queue.now.queue reader number }
{
    match queue.next_number(reader) {
        None => OfferFault::NoSuchReader,
        Some(expected) if expected != number => OfferFault::OutOfTurn(expected),
        Some(_) => OfferFault::Exhausted,
    }
}
