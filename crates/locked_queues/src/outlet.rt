//! A sender's outlet of locked queues.
ghost use Rattle.std.specs.Prelude.{◌≡◌, ℕ, ◌<◌, ◌≤◌, ◌%◌, [], true, length, nat_lt, ◌&&◌, ◌==◌};
ghost use Rattle.queue_records.specs.DoorRecord.{HasTakesOf};
ghost use Rattle.locked_queues.specs.DoorWithShares.{BearsTakes, SharesOfTake, is_of_sender};
ghost use Rattle.locked_queues.specs.LockFact.{MayHand};
ghost use Rattle.queue_records.specs.Takes.{IsFreshOfTakes, after_take};

use crate::gate::{Gate, GatePoint};
use crate::queues::Queues;
use crate::seats::OutletSeat;
use crate::shares::{Set, Shares};
use dest_queue::Hand;
use queue_records::{OutletBook, OutletRecord, Supply};
use relay_base::DestId;
use std::marker::Model;
use std::sync::Wait;

/// An outlet through which a sender takes batches out of the queues of a set, each under its lock. Sender
/// `k` of `n` owns the destinations `k`, `k + n` and so on.
///
/// Clauses see it as its record, its shares of the totals behind the locks, and what it owns.
#[derive(Drop)]
pub struct Outlet<'r, 'q, 'g, B: Set, R: Wait, G: Gate> {
    rt: &'r R,
    queues: &'q Queues<B>,
    gate: &'g G,
    name: u64,
    seat: usize,
    senders: usize,
    book: OutletBook,
    shares: Shares<B>,
}

impl<'r, 'q, 'g, B: Set, R: Wait, G: Gate> Model for Outlet<'r, 'q, 'g, B, R, G> {
    ghost use Rattle.std.specs.Prelude.{◌≡◌, ◌<◌};
    ghost use Rattle.locked_queues.specs.DoorWithShares.{OutletWithShares, IsSoundOutlet};

    ghost Value = { OutletWithShares };

    ghost view = { λ o. record {
      made = o.book;
      shares = o.shares.seat.me.0.shares;
      sender = o.seat;
      senders = o.senders;
    } };

    ghost invariant = { λ o. IsSoundOutlet B.dests o.book o.shares.seat.me.0.shares
        × (o.seat < o.senders) × (o.name ≡ B.name) };
}

impl<'r, 'q, 'g, B: Set, R: Wait, G: Gate> Outlet<'r, 'q, 'g, B, R, G> {
    /// The outlet of a seat, which has taken nothing. The gate is called inside the lock.
    pub fn new(
        rt: &'r R,
        queues: &'q Queues<B>,
        seat: OutletSeat<B>,
        gate: &'g G,
    ) -> Outlet<'r, 'q, 'g, B, R, G>
        ensures fresh { IsFreshOfTakes B.dests result.made }
        ensures sender { (result.sender ≡ seat) × (result.senders ≡ B.senders) }
    {
        let OutletSeat {
            name,
            seat,
            senders,
            book,
            shares,
        } = seat;
        Outlet {
            rt,
            queues,
            gate,
            name,
            seat,
            senders,
            book,
            shares,
        }
    }

    /// What the outlet recorded.
    pub fn close(self) -> OutletRecord
        ensures reported { HasTakesOf self.entry.made result }
        ensures name { result.name ≡ B.name }
        ensures seat { result.seat ≡ self.entry.sender }
    {
        self.book.into_record(self.name, self.seat)
    }
}

impl<'r, 'q, 'g, B: Set, R: Wait, G: Gate> Supply for Outlet<'r, 'q, 'g, B, R, G> {
    ghost use Rattle.locked_queues.specs.DoorWithShares.{is_of_sender};
    ghost use Rattle.locked_queues.specs.LockFact.{MayHand};

    ghost record_of = { λ o. o.made };

    ghost may_hand = { λ o dest limit points. MayHand B.size limit points };

    ghost is_owned = { λ o dest. is_of_sender B.dests o.sender o.senders dest };

    fn owns(&self, dest: DestId) -> bool {
        dest.0 < self.queues.locks.len() && dest.0 % self.senders == self.seat
    }

    fn take(&mut self, dest: DestId, limit: usize, hand: &mut Hand) -> usize
        requires owned { is_of_sender B.dests self.old.sender self.old.senders dest.0 ≡ true }
        requires limit { 1 ≤ limit }
        requires empty { hand.old.points ≡ [] }
        requires room { limit ≤ hand.old.room }
        // A batch of some queue of the set's size; no clause says of which.
        ensures handed { MayHand B.size limit hand.new.points }
        ensures count { result ≡ length hand.new.points }
        ensures few { result ≤ limit }
        ensures room { hand.new.room ≡ hand.old.room }
        ensures taken { self.new.made ≡ after_take dest.0 limit result self.old.made }
        // The share of the total behind the lock rises with the record.
        ensures shares { SharesOfTake dest.0 result self.old.shares self.new.shares }
        // The record's totals are the shares, at most the greatest count.
        ensures bears { BearsTakes self.new.made self.new.shares }
        ensures owners { (dest : ℕ) → is_of_sender B.dests self.new.sender self.new.senders dest
            ≡ is_of_sender B.dests self.old.sender self.old.senders dest }
    {
        let mut locked = self.queues.locks[dest.0].lock(self.rt);
        self.gate.at(GatePoint::InTake { dest });
        if locked.dest != dest.0 {
            return 0;
        }
        locked.take(
            &self.queues.table.shared,
            &mut self.shares,
            &mut self.book,
            limit,
            hand,
        )
    }
}
