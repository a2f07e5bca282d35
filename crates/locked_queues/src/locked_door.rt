//! A receiver's door to locked queues.
ghost use Rattle.std.specs.Prelude.{◌≡◌, ◌*◌, ◌<◌, length, map, slice_index};
ghost use Rattle.std.specs.Arc.{arc_value};
ghost use Rattle.queue_records.specs.DoorRecord.{HasOffersOf};
ghost use Rattle.locked_queues.specs.DoorWithShares.{AnswersOffer};
ghost use Rattle.queue_records.specs.Made.{offer_of};
ghost use Rattle.queue_records.specs.Offers.{IsFresh, readers_each};
ghost use Rattle.locked_queues.specs.Shares.{offered_place};

use crate::gate::{Gate, GatePoint};
use crate::locked::LockedQueue;
use crate::queues::Queues;
use crate::seats::DoorSeat;
use crate::shares::{Set, Shares};
use dest_queue::{Kept, OfferFault};
use line_text::Point;
use queue_records::{Door, DoorBook, DoorRecord, Made};
use relay_base::DestId;
use std::marker::Model;
use std::sync::{Arc, MutexGuard, Wait};

/// The most offers that a door makes under one lock.
const MOST_UNDER_ONE_LOCK: usize = 64;

/// A door through which a receiver offers to the queues of a set, each under its lock.
///
/// Offers to one queue that follow each other may be made under one lock: see `offer_with`. No two locks are held at once.
///
/// Clauses see it as its record and its shares of the totals behind the locks.
#[derive(Drop)]
pub struct LockedDoor<'d, B: Set, R: Wait, G: Gate> {
    rt: &'d R,
    queues: &'d Queues<B>,
    gate: &'d G,
    name: u64,
    seat: usize,
    book: DoorBook,
    shares: Shares<B>,
}

/// The lock of a queue, which a door holds from one offer to the next.
#[derive(Drop)]
pub struct HeldLock<'d, B: Set> {
    locked: MutexGuard<'d, LockedQueue<B>>,
    /// How many offers may still be made under it, 1 to 64.
    left: usize,
}

impl<'d, B: Set> HeldLock<'d, B> {
    /// Leaves the lock for the next offer, unless it has served as many as it may.
    fn leave_in(self, hold: &mut Option<HeldLock<'d, B>>) {
        let HeldLock { locked, left } = self;
        if left > 1 {
            *hold = Some(HeldLock {
                locked,
                left: left - 1,
            });
        }
    }
}

impl<'d, B: Set, R: Wait, G: Gate> Model for LockedDoor<'d, B, R, G> {
    ghost use Rattle.std.specs.Prelude.{◌≡◌};
    ghost use Rattle.locked_queues.specs.DoorWithShares.{DoorWithShares, IsSoundDoor};

    ghost Value = { DoorWithShares };

    ghost view = { λ d. record { made = d.book; shares = d.shares.seat.me.0.shares } };

    ghost invariant = { λ d. IsSoundDoor B.dests d.book d.shares.seat.me.0.shares
        × (d.name ≡ B.name) × (d.seat ≡ d.book.receiver) };
}

impl<'d, B: Set, R: Wait, G: Gate> LockedDoor<'d, B, R, G> {
    /// The door of a seat, which has made no offer. The gate is called inside the lock.
    pub fn new(
        rt: &'d R,
        queues: &'d Queues<B>,
        seat: DoorSeat<B>,
        gate: &'d G,
    ) -> LockedDoor<'d, B, R, G>
        ensures fresh { IsFresh B.dests seat result.made }
    {
        let DoorSeat {
            name,
            seat,
            book,
            shares,
        } = seat;
        LockedDoor {
            rt,
            queues,
            gate,
            name,
            seat,
            book,
            shares,
        }
    }

    /// How many destinations there are.
    pub fn dests(&self) -> usize
        ensures record { result ≡ length self.now.made.totals }
        ensures dests { result ≡ B.dests }
    {
        self.queues.locks.len()
    }

    /// The lock of a destination's queue: the one that is held if it is of that queue, or else a new one, which is taken
    /// after the other was let go.
    fn lock_of(&self, hold: &mut Option<HeldLock<'d, B>>, dest: DestId) -> HeldLock<'d, B>
        requires dest { dest.0 < length self.now.made.totals }
    {
        let Some(held) = hold.take() else {
            return self.first_lock(dest);
        };
        if held.locked.dest == dest.0 {
            return held;
        }
        drop(held);
        self.lock(dest)
    }

    /// The lock of a destination's queue, where none was held. Before it takes the lock of a queue that fills although its sender
    /// keeps up, it gives way: offers that follow each other begin so, and those after 64 under one lock.
    fn first_lock(&self, dest: DestId) -> HeldLock<'d, B>
        requires dest { dest.0 < length self.now.made.totals }
    {
        let held = self.lock(dest);
        let patience = held.locked.patience();
        if patience.naps() == 0 {
            return held;
        }
        drop(held);
        let naps = self.gate.give_way(self.rt, dest, patience.naps());
        let mut held = self.lock(dest);
        held.locked.patience.spend(patience, naps);
        held
    }

    /// The lock of a destination's queue.
    fn lock(&self, dest: DestId) -> HeldLock<'d, B>
        requires dest { dest.0 < length self.now.made.totals }
    {
        let queues = self.queues;
        HeldLock {
            locked: queues.locks[dest.0].lock(self.rt),
            left: MOST_UNDER_ONE_LOCK,
        }
    }

    /// What the door recorded.
    pub fn close(self) -> DoorRecord
        ensures reported { HasOffersOf self.entry.made result }
        ensures name { result.name ≡ B.name }
        ensures seat { result.seat ≡ self.entry.made.receiver }
    {
        self.book.into_record(self.name, self.seat)
    }
}

impl<'d, B: Set, R: Wait, G: Gate> Door for LockedDoor<'d, B, R, G> {
    ghost use Rattle.std.specs.Prelude.{◌*◌};
    ghost use Rattle.queue_records.specs.Offers.{MayRefuse, readers_each};

    ghost record_of = { λ d. d.made };

    ghost may_refuse = { λ d reader dest point fault.
        MayRefuse (readers_each * B.receivers) d.made reader fault };

    type Hold = HeldLock<'d, B>;

    fn offer(&mut self, reader: usize, dest: DestId, point: &Arc<Point>) -> Result<Kept, OfferFault>
        requires dest { dest.0 < length self.old.made.totals }
        ensures { AnswersOffer (readers_each * B.receivers) reader dest.0 (arc_value point.now) result self.old self.new }
    {
        let mut hold = None;
        self.offer_with(&mut hold, reader, dest, point)
    }

    /// Keeps the lock of the queue in `hold` for the next offer to it, for at most 64 offers.
    fn offer_with(
        &mut self,
        hold: &mut Option<HeldLock<'d, B>>,
        reader: usize,
        dest: DestId,
        point: &Arc<Point>,
    ) -> Result<Kept, OfferFault>
        requires dest { dest.0 < length self.old.made.totals }
        ensures { AnswersOffer (readers_each * B.receivers) reader dest.0 (arc_value point.now) result self.old self.new }
    {
        let mut held = self.lock_of(hold, dest);
        self.gate.at(GatePoint::InOffer { dest, reader });
        if held.locked.dest != dest.0 {
            // No lock is out of its place; the proof does not know that.
            return Err(OfferFault::OutOfTurn(0));
        }
        let answer = held.locked.offer(
            &self.queues.table.shared,
            &mut self.shares,
            &mut self.book,
            reader,
            point,
        );
        held.leave_in(hold);
        answer
    }

    fn made(&self) -> &[Made] {
        self.book.made()
    }

    /// How many offers were made to a destination, which exists: the door's share of the total behind its
    /// lock.
    fn total(&self, dest: DestId) -> u64
        requires dest { dest.0 < length self.now.made.totals }
        ensures total { result ≡ slice_index self.now.made.totals dest.0 }
        ensures share { result ≡ slice_index self.now.shares (offered_place dest.0) }
    {
        self.book.total(dest)
    }
}
