//! Whether records are those of a set.
ghost use Rattle.std.specs.Prelude.{◌≡◌, ℕ, ◌<◌, Some, slice_get, IsFalse, IsTrue};
ghost use Rattle.queue_records.specs.Strangers.{AreOfSeats, AreOfSet, AreOffersOf, AreTakesOf, HasSeat, IsDoorOf, IsOfferOf, IsOutletOf, IsTakeOf};

use crate::door_record::DoorRecord;
use crate::limits::{MOST_ENTRIES, READERS_EACH};
use crate::made::Made;
use crate::outlet_record::OutletRecord;
use crate::taken_batch::TakenBatch;

/// Whether these are the records of a set's doors, one for each receiver, and of its outlets, one for each
/// sender.
pub fn are_of_set(
    name: u64,
    dests: usize,
    receivers: usize,
    senders: usize,
    doors: &[DoorRecord],
    outlets: &[OutletRecord],
) -> bool
    ensures none { IsFalse result → ¬ AreOfSet name dests receivers senders doors.now outlets.now }
    ensures all { IsTrue result → AreOfSet name dests receivers senders doors.now outlets.now }
{
    are_of_seats(name, dests, receivers, doors) && are_of_seats(name, dests, senders, outlets)
}

/// A record of a seat.
trait SeatRecord {
    // The number of its seat.
    ghost seat_of: { Self → ℕ };

    // What it is, if it is that of its seat at a set of this name with this number of destinations and seats.
    ghost is_of: { ℕ → ℕ → ℕ → Self → Type 0 };

    /// The number of its seat.
    fn seat(&self) -> usize
        ensures { result ≡ seat_of self.now };

    /// Whether it may be that of its seat at such a set.
    fn may_be_of(&self, name: u64, dests: usize, seats: usize) -> bool
        ensures none { IsFalse result → ¬ is_of name dests seats self.now }
        ensures all { IsTrue result → is_of name dests seats self.now };
}

impl SeatRecord for DoorRecord {
    ghost seat_of = { λ r. r.seat };

    ghost is_of = { λ name dests seats r. IsDoorOf name dests r };

    fn seat(&self) -> usize {
        self.seat
    }

    fn may_be_of(&self, name: u64, dests: usize, _seats: usize) -> bool {
        self.name == name
            && self.dests == dests
            && self.totals.len() == dests
            && self.drops.len() == dests
            && self.made.len() <= MOST_ENTRIES
            && are_offers_of(dests, self.seat, self.made.as_slice())
    }
}

impl SeatRecord for OutletRecord {
    ghost seat_of = { λ r. r.seat };

    ghost is_of = { λ name dests seats r. IsOutletOf name dests seats r };

    fn seat(&self) -> usize {
        self.seat
    }

    fn may_be_of(&self, name: u64, dests: usize, seats: usize) -> bool {
        self.name == name
            && self.dests == dests
            && self.totals.len() == dests
            && self.takes.len() <= MOST_ENTRIES
            && are_takes_of(dests, seats, self.seat, self.takes.as_slice())
    }
}

/// Whether these are records of all seats of a set, each once.
fn are_of_seats<R: SeatRecord>(name: u64, dests: usize, seats: usize, records: &[R]) -> bool
    ensures none { IsFalse result
        → ¬ AreOfSeats R.seat_of (R.is_of name dests seats) seats records.now }
    ensures all { IsTrue result
        → AreOfSeats R.seat_of (R.is_of name dests seats) seats records.now }
{
    records.len() == seats
        && each_may_be_of(name, dests, seats, records)
        && has_seats(seats, records)
}

/// Whether each record may be that of its seat.
fn each_may_be_of<R: SeatRecord>(name: u64, dests: usize, seats: usize, records: &[R]) -> bool
    ensures none { IsFalse result → ¬ ((i : ℕ) (r : R) → slice_get records.now i ≡ Some r
        → R.is_of name dests seats r) }
    ensures all { IsTrue result → (i : ℕ) (r : R) → slice_get records.now i ≡ Some r
        → R.is_of name dests seats r }
{
    for record in records {
        if !record.may_be_of(name, dests, seats) {
            return false;
        }
    }
    true
}

/// Whether there is a record of each seat.
fn has_seats<R: SeatRecord>(seats: usize, records: &[R]) -> bool
    ensures none { IsFalse result
        → ¬ ((seat : ℕ) → seat < seats → HasSeat R.seat_of seat records.now) }
    ensures all { IsTrue result
        → (seat : ℕ) → seat < seats → HasSeat R.seat_of seat records.now }
{
    for seat in 0..seats {
        if !has_seat(seat, records) {
            return false;
        }
    }
    true
}

/// Whether one of the records is that of this seat.
fn has_seat<R: SeatRecord>(seat: usize, records: &[R]) -> bool
    ensures none { IsFalse result → ¬ HasSeat R.seat_of seat records.now }
    ensures all { IsTrue result → HasSeat R.seat_of seat records.now }
{
    for record in records {
        if record.seat() == seat {
            return true;
        }
    }
    false
}

/// Whether all these offers are of a receiver's readers, to destinations that there are.
fn are_offers_of(dests: usize, receiver: usize, made: &[Made]) -> bool
    ensures none { IsFalse result → ¬ AreOffersOf dests receiver made.now }
    ensures all { IsTrue result → AreOffersOf dests receiver made.now }
{
    for entry in made {
        if !is_offer_of(dests, receiver, entry) {
            return false;
        }
    }
    true
}

/// Whether an offer is of a receiver's reader, to a destination that there is.
fn is_offer_of(dests: usize, receiver: usize, entry: &Made) -> bool
    ensures none { IsFalse result → ¬ IsOfferOf dests receiver entry.now }
    ensures all { IsTrue result → IsOfferOf dests receiver entry.now }
{
    entry.dest.0 < dests && entry.reader as usize / READERS_EACH == receiver
}

/// Whether all these takes are of destinations that a sender owns.
fn are_takes_of(dests: usize, senders: usize, sender: usize, takes: &[TakenBatch]) -> bool
    ensures none { IsFalse result → ¬ AreTakesOf dests senders sender takes.now }
    ensures all { IsTrue result → AreTakesOf dests senders sender takes.now }
{
    for entry in takes {
        if !is_take_of(dests, senders, sender, entry) {
            return false;
        }
    }
    true
}

/// Whether a take is of a destination that a sender owns.
fn is_take_of(dests: usize, senders: usize, sender: usize, entry: &TakenBatch) -> bool
    ensures none { IsFalse result → ¬ IsTakeOf dests senders sender entry.now }
    ensures all { IsTrue result → IsTakeOf dests senders sender entry.now }
{
    entry.dest.0 < dests && senders > 0 && entry.dest.0 % senders == sender
}
