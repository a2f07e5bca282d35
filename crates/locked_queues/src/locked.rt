//! What the lock of one queue guards.
ghost use Rattle.std.specs.Prelude.{◌≡◌, ℕ, ◌+◌, ◌*◌, ◌<◌, ◌≤◌, ◌==◌, ◌⊎◌, if◌then◌else◌, [], length, slice_index, IfOk, IsErrOf, OnOk, OnErr};
ghost use Rattle.std.specs.Arc.{arc_value};
ghost use Rattle.dest_queue.specs.Counts.{counts_of};
ghost use Rattle.dest_queue.specs.Balance.{IsBalanced};
ghost use Rattle.locked_queues.specs.DoorWithShares.{SharesOfOffer, SharesOfTake};
ghost use Rattle.locked_queues.specs.LockFact.{IsLockFact, IsBatchOf};
ghost use Rattle.queue_records.specs.Offers.{IsReaderOf, after_offer, readers_each};
ghost use Rattle.dest_queue.specs.Offer.{last_count};
ghost use Rattle.locked_queues.specs.Shares.{offered_place, dropped_place, taken_place, table_words};
ghost use Rattle.queue_records.specs.Takes.{after_take};

use crate::patience::Patience;
use crate::shares::{Common, Set, Shares, Total};
use dest_queue::{Counts, DestQueue, Hand, Kept, OfferFault};
use line_text::Point;
use queue_records::{DoorBook, OutletBook};
use relay_base::DestId;
use std::sync::Arc;

/// A queue with its number, and the three totals of what it counted.
#[derive(Drop)]
pub struct LockedQueue<B: Set> {
    pub(crate) dest: usize,
    pub(crate) queue: DestQueue,
    pub(crate) patience: Patience,
    pub(crate) offered: Total<B>,
    pub(crate) dropped: Total<B>,
    pub(crate) taken: Total<B>,
    pub ghost few: { dest < 64 },
    pub ghost sized: { queue.size ≡ B.size },
    pub ghost readers: { length queue.queue.next ≡ readers_each * B.receivers },
    pub ghost places: { (offered.place ≡ offered_place dest)
        × (dropped.place ≡ dropped_place dest) × (taken.place ≡ taken_place dest) },
    pub ghost all_offered: { slice_index offered.seat.me.0.totals offered.place
        ≡ queue.queue.offered },
    pub ghost all_dropped: { slice_index dropped.seat.me.0.totals dropped.place
        ≡ queue.queue.dropped },
    pub ghost all_taken: { slice_index taken.seat.me.0.totals taken.place ≡ queue.queue.taken },
}

impl<B: Set> LockedQueue<B> {
    /// Makes an offer of a door, and counts it in the totals and in the door's shares of them.
    pub(crate) fn offer(
        &mut self,
        common: &Common,
        shares: &mut Shares<B>,
        book: &mut DoorBook,
        reader: usize,
        point: &Arc<Point>,
    ) -> Result<Kept, OfferFault>
        requires table { (common.now.table_id ≡ B.table)
            × (common.now.table_id.words ≡ table_words) }
        requires dest { self.old.dest < length book.old.totals }
        ensures made { IfOk result (λ kept. book.new
            ≡ after_offer reader self.old.dest (arc_value point.now) kept book.old) }
        ensures shares { IfOk result (λ kept. SharesOfOffer self.old.dest kept
            shares.old.seat.me.0.shares shares.new.seat.me.0.shares) }
        ensures refused { OnErr result ((shares.new ≡ shares.old) × (book.new ≡ book.old)) }
        ensures no_such_reader { IsErrOf result OfferFault.NoSuchReader
            → (¬ IsReaderOf book.old.receiver reader) ⊎ (readers_each * B.receivers ≤ reader) }
        ensures exhausted { IsErrOf result OfferFault.Exhausted
            → IsReaderOf book.old.receiver reader
            × ((slice_index book.old.totals self.old.dest ≡ last_count)
            ⊎ (self.old.queue.queue.offered ≡ last_count)) }
        ensures no_fault { OnOk result (IsReaderOf book.old.receiver reader
            × (slice_index book.old.totals self.old.dest < last_count)) }
    {
        let kept = book.offer_under(&mut self.queue, reader, DestId(self.dest), point)?;
        self.offered.add_one(common, shares);
        if kept == Kept::Dropped {
            self.dropped.add_one(common, shares);
        }
        Ok(kept)
    }

    /// Makes a take of an outlet, and counts it in the total and in the outlet's share of it.
    pub(crate) fn take(
        &mut self,
        common: &Common,
        shares: &mut Shares<B>,
        book: &mut OutletBook,
        limit: usize,
        hand: &mut Hand,
    ) -> usize
        requires table { (common.now.table_id ≡ B.table)
            × (common.now.table_id.words ≡ table_words) }
        requires dest { self.old.dest < length book.old.totals }
        requires limit { 1 ≤ limit }
        requires empty { hand.old.points ≡ [] }
        requires room { limit ≤ hand.old.room }
        ensures handed { IsBatchOf B.size limit hand.new.points }
        ensures count { result ≡ length hand.new.points }
        ensures few { result ≤ limit }
        ensures room { hand.new.room ≡ hand.old.room }
        ensures taken { book.new ≡ after_take self.old.dest limit result book.old }
        ensures shares { SharesOfTake self.old.dest result
            shares.old.seat.me.0.shares shares.new.seat.me.0.shares }
    {
        let _steps = self.queue.history();
        let _counts = self.queue.counts();
        let taken = book.take_under(&mut self.queue, DestId(self.dest), limit, hand);
        self.taken.add(common, shares, taken as u64);
        if taken < limit {
            self.patience.renew();
        }
        taken
    }

    /// How long a receiver may wait for takes before it offers: not at all where the queue is not filling.
    pub(crate) fn patience(&self) -> Patience {
        if self.queue.is_filling() {
            self.patience
        } else {
            Patience::none()
        }
    }

    /// What the queue has counted. Its history replays to these counts, and the shares add up to them.
    pub(crate) fn counts(&mut self, common: &Common) -> Counts
        requires table { (common.now.table_id ≡ B.table)
            × (common.now.table_id.words ≡ table_words) }
        ensures fact { IsLockFact B.size self.old.dest result }
    {
        self.offered.look(common);
        self.dropped.look(common);
        self.taken.look(common);
        let _steps = self.queue.history();
        self.queue.counts()
    }
}
