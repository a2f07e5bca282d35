//! The record of an outlet.
ghost use Rattle.std.specs.Prelude.{◌≡◌, ℕ, ◌<◌, ◌≤◌, [], ◌∷◌, ◌++◌, length, map, slice_index, slice_set, IfOk};
ghost use Rattle.dest_queue.specs.Queue.{batch, queue_after_take};
ghost use Rattle.dest_queue.specs.RecordedStep.{Took};
ghost use Rattle.dest_queue.specs.SizedQueue.{base_before_step, history_before_step};
ghost use Rattle.queue_records.specs.TakenBatch.{take_of};
ghost use Rattle.queue_records.specs.DoorRecord.{HasTakesOf};
ghost use Rattle.queue_records.specs.Takes.{IsFreshOfTakes, after_take, with_take, saturating_sum};

use crate::limits::{MOST_DESTS, MOST_ENTRIES};
use crate::outlet_record::OutletRecord;
use crate::taken_batch::TakenBatch;
use dest_queue::{DestQueue, Hand};
use relay_base::{DestId, NoMemory};
use std::alloc::Global;
use std::marker::Model;

/// The record of an outlet: the batches that it took, and how many datapoints from each destination.
///
/// Clauses see it as these.
#[derive(Drop)]
pub struct OutletBook {
    takes: Vec<TakenBatch>,
    totals: Vec<u64>,
}

impl Model for OutletBook {
    ghost use Rattle.queue_records.specs.Takes.{TakesMade};

    ghost Value = { TakesMade };

    ghost use Rattle.queue_records.specs.OutletBook.{takes_made_of, IsSoundOutletBook};

    ghost view = { takes_made_of };

    ghost invariant = { IsSoundOutletBook };
}

impl OutletBook {
    /// The record of an outlet of 1 to [`MOST_DESTS`] destinations, empty, with the room
    /// for all entries.
    pub fn new(alloc: Global, dests: usize) -> Result<OutletBook, NoMemory>
        requires dests { (1 ≤ dests) × (dests ≤ MOST_DESTS) }
        ensures { IfOk result (λ book. IsFreshOfTakes dests book) }
    {
        let takes = Vec::with_capacity(alloc, MOST_ENTRIES)?;
        let totals = vec![in alloc; 0; dests]?;
        Ok(OutletBook { takes, totals })
    }

    /// Takes a batch out of a destination's queue, at most `limit` datapoints, records it, and returns how many:
    /// the queue's step and the record's entry are one. A take of nothing is not recorded.
    ///
    /// The limit is at least 1, and the hand is empty and has room for that many.
    pub fn take_under(
        &mut self,
        queue: &mut DestQueue,
        dest: DestId,
        limit: usize,
        hand: &mut Hand,
    ) -> usize
        requires dest { dest.0 < length self.old.totals }
        requires limit { 1 ≤ limit }
        requires empty { hand.old.points ≡ [] }
        requires room { limit ≤ hand.old.room }

        // The queue's step.
        ensures handed { hand.new.points ≡ batch limit queue.old.queue }
        ensures count { result ≡ length hand.new.points }
        ensures room { hand.new.room ≡ hand.old.room }
        ensures step { queue.new.queue ≡ queue_after_take limit queue.old.queue }
        ensures size { queue.new.size ≡ queue.old.size }
        ensures base { 0 < result → queue.new.base ≡ base_before_step queue.old }
        ensures history { 0 < result → queue.new.history
            ≡ history_before_step queue.old ++ Took limit result ∷ [] }
        ensures nothing { queue.old.queue.points ≡ [] → (result ≡ 0) × (queue.new ≡ queue.old) }

        // The record's entry, of the same limit and number.
        ensures taken { self.new ≡ after_take dest.0 limit result self.old }
    {
        let taken = queue.take(limit, hand);
        if taken > 0 {
            self.keep(TakenBatch { dest, limit, taken });
        }
        taken
    }

    /// Keeps an entry, while there is room, and counts its datapoints.
    fn keep(&mut self, entry: TakenBatch)
        requires dest { entry.dest.0 < length self.old.totals }
        ensures { self.new ≡ record {
          entries = with_take (take_of entry) self.old.entries;
          totals = slice_set self.old.totals entry.dest.0
              (saturating_sum (slice_index self.old.totals entry.dest.0) entry.taken);
        } }
    {
        let total = self.totals[entry.dest.0];
        self.totals[entry.dest.0] = total.saturating_add(entry.taken as u64);
        if self.takes.len() < MOST_ENTRIES {
            self.takes.push_reserved(entry);
        }
    }

    /// The batches that were taken, while there was room for them.
    pub fn takes(&self) -> &[TakenBatch]
        ensures { map take_of result.now ≡ self.now.entries }
    {
        self.takes.as_slice()
    }

    /// How many datapoints were taken from a destination, which exists.
    pub fn total(&self, dest: DestId) -> u64
        requires dest { dest.0 < length self.now.totals }
        ensures { result ≡ slice_index self.now.totals dest.0 }
    {
        self.totals[dest.0]
    }

    /// What was recorded, for this seat of a set of queues.
    pub fn into_record(self, name: u64, seat: usize) -> OutletRecord
        ensures reported { HasTakesOf self result }
        ensures name { result.name ≡ name }
        ensures seat { result.seat ≡ seat }
    {
        let OutletBook { takes, totals } = self;
        OutletRecord {
            name,
            dests: totals.len(),
            seat,
            takes,
            totals,
        }
    }
}
