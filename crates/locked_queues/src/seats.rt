//! What doors and outlets are made of.
ghost use Rattle.std.specs.Prelude.{◌≡◌, ◌<◌, ◌≤◌, []};
ghost use Rattle.queue_records.specs.Offers.{IsFresh};
ghost use Rattle.queue_records.specs.Takes.{IsFreshOfTakes};

use crate::shares::{Set, Shares};
use queue_records::{DoorBook, OutletBook};
use std::marker::Model;

/// What a door is made of: the seat of a receiver at a set of queues.
///
/// Clauses see it as the receiver's number.
#[derive(Drop)]
pub struct DoorSeat<B: Set> {
    pub(crate) name: u64,
    pub(crate) seat: usize,
    pub(crate) book: DoorBook,
    pub(crate) shares: Shares<B>,
}

impl<B: Set> Model for DoorSeat<B> {
    ghost use Rattle.std.specs.Prelude.{◌≡◌, ℕ, []};
    ghost use Rattle.queue_records.specs.Offers.{IsFresh};

    ghost Value = { ℕ };

    ghost view = { λ s. s.seat };

    ghost invariant = { λ s. (s.name ≡ B.name)
        × IsFresh B.dests s.seat s.book × (s.shares.seat.me.0.shares ≡ []) };
}

impl<B: Set> DoorSeat<B> {
    /// The seat of a receiver with an empty record.
    pub(crate) fn of(name: u64, seat: usize, book: DoorBook, shares: Shares<B>) -> DoorSeat<B>
        requires name { name ≡ B.name }
        requires fresh { IsFresh B.dests seat book }
        requires none { shares.seat.me.0.shares ≡ [] }
        ensures { result ≡ seat }
    {
        DoorSeat {
            name,
            seat,
            book,
            shares,
        }
    }
}

/// What an outlet is made of: the seat of a sender at a set of queues.
///
/// Clauses see it as the sender's number.
#[derive(Drop)]
pub struct OutletSeat<B: Set> {
    pub(crate) name: u64,
    pub(crate) seat: usize,
    pub(crate) senders: usize,
    pub(crate) book: OutletBook,
    pub(crate) shares: Shares<B>,
}

impl<B: Set> Model for OutletSeat<B> {
    ghost use Rattle.std.specs.Prelude.{◌≡◌, ℕ, ◌<◌, []};
    ghost use Rattle.queue_records.specs.Takes.{IsFreshOfTakes};

    ghost Value = { ℕ };

    ghost view = { λ s. s.seat };

    ghost invariant = { λ s. (s.name ≡ B.name) × (s.seat < s.senders) × (s.senders ≡ B.senders)
        × IsFreshOfTakes B.dests s.book × (s.shares.seat.me.0.shares ≡ []) };
}

impl<B: Set> OutletSeat<B> {
    /// The seat of one of these senders, with an empty record.
    pub(crate) fn of(
        name: u64,
        seat: usize,
        senders: usize,
        book: OutletBook,
        shares: Shares<B>,
    ) -> OutletSeat<B>
        requires name { name ≡ B.name }
        requires seat { (seat < senders) × (senders ≡ B.senders) }
        requires fresh { IsFreshOfTakes B.dests book }
        requires none { shares.seat.me.0.shares ≡ [] }
        ensures { result ≡ seat }
    {
        OutletSeat {
            name,
            seat,
            senders,
            book,
            shares,
        }
    }
}
