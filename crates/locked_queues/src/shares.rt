//! Totals behind locks, and the shares of them that seats bear.
ghost use Rattle.std.specs.Prelude.{◌≡◌, ℕ, ◌+◌, ◌<◌, ◌==◌, if◌then◌else◌, [], slice_index, IfOk};
ghost use Rattle.locked_queues.specs.Shares.{AddUp, nobody, shares_alone, with_shares_of, without_shares};

use atomic_table::{Join, Play, Seat, Shared, Split, Table, TableRule};
use std::alloc::{AllocError, Global};
use std::collections::LinkedList;
use std::marker::{Brand, PhantomData};

/// How many words the table of a set has: one for each place. The first ones are never written, since
/// each cut of a view reads the first.
pub const WORDS: usize = 200;

/// The place of the first total.
pub const FIRST_PLACE: usize = 8;

/// Names one set of queues: its table, its name, how many destinations, receivers and senders it has, and the size
/// of each queue.
pub trait Set {
    ghost use Rattle.atomic_table.specs.Seated.{TableId};

    ghost table: { TableId };

    ghost name: { ℕ };

    ghost dests: { ℕ };

    ghost receivers: { ℕ };

    ghost senders: { ℕ };

    ghost size: { ℕ };
}

impl Set for Brand {
    ghost use Rattle.locked_queues.specs.Shares.{no_table};

    ghost table = { no_table };

    ghost name = { 0 };

    ghost dests = { 0 };

    ghost receivers = { 0 };

    ghost senders = { 0 };

    ghost size = { 0 };
}

/// What a seat knows of each place: whether it keeps the total there, the total, and its own share. It exists in
/// clauses alone.
pub struct View {
    pub keeps: LinkedList<u64>,
    pub totals: LinkedList<u64>,
    pub shares: LinkedList<u64>,
}

pub struct Rule;

impl TableRule<u64, View, usize> for Rule {
    ghost use Rattle.locked_queues.specs.Shares.{Holds, keeper_of};

    ghost holds = { λ places. Holds };

    ghost first = { λ places. keeper_of places };
}

/// What all threads share of the totals of one set.
pub type Common = Shared<u64, View, usize, Rule>;

pub struct LastPlace;

impl Split<View> for LastPlace {
    ghost use Rattle.locked_queues.specs.Shares.{without_last, last_alone};

    ghost left = { without_last };

    ghost right = { last_alone };
}

pub struct NoShares;

impl Split<View> for NoShares {
    ghost use Rattle.locked_queues.specs.Shares.{nobody};

    ghost left = { λ v. v };

    ghost right = { λ v. nobody };
}

pub struct AllShares;

impl Split<View> for AllShares {
    ghost use Rattle.locked_queues.specs.Shares.{without_shares, shares_alone};

    ghost left = { without_shares };

    ghost right = { shares_alone };
}

impl Join<View> for AllShares {
    ghost use Rattle.locked_queues.specs.Shares.{with_shares_of, nobody};

    ghost both = { with_shares_of };

    ghost spent = { nobody };
}

/// Adds to a total by a write of how much.
pub struct CountsSome;

impl Play<u64, View> for CountsSome {
    ghost use Rattle.locked_queues.specs.Shares.{CountsSome as counts_some};

    ghost then = { counts_some };
}

/// Adds one to a total by a read: the doors write no word that others read.
pub struct CountsOne;

impl Play<u64, View> for CountsOne {
    ghost use Rattle.locked_queues.specs.Shares.{CountsOne as counts_one};

    ghost then = { counts_one };
}

/// A look at all shares of a total.
pub struct SeesSum;

impl Play<u64, View> for SeesSum {
    ghost use Rattle.locked_queues.specs.Shares.{SeesSum as sees_sum};

    ghost then = { sees_sum };
}

/// The right to keep one total, and the total. Only under the lock of its queue can it change.
#[derive(Drop)]
pub struct Total<B: Set> {
    pub(crate) place: usize,
    pub(crate) seat: Seat<u64, View>,
    of: PhantomData<B>,
    pub ghost table: { seat.table_id ≡ B.table },
    pub ghost keeps: { slice_index seat.me.0.keeps place ≡ 1 },
    pub ghost bears: { seat.me.0.shares ≡ [] },
}

/// The shares that a seat bears of all totals of its set.
#[derive(Drop)]
pub struct Shares<B: Set> {
    pub(crate) seat: Seat<u64, View>,
    of: PhantomData<B>,
    pub ghost table: { seat.table_id ≡ B.table },
}

impl<B: Set> Shares<B> {
    /// A seat of its own with no shares.
    pub(crate) fn none(common: &Common, first: &mut Seat<u64, View>) -> Shares<B>
        requires table { (common.now.table_id ≡ B.table) × (0 < common.now.table_id.words) }
        requires first { first.old.table_id ≡ B.table }
        ensures first { (first.new.table_id ≡ B.table) × (first.new.me.0 ≡ first.old.me.0) }
        ensures none { result.seat.me.0 ≡ nobody }
    {
        let seat = common.split_seat::<NoShares>(first);
        Shares {
            seat,
            of: PhantomData,
        }
    }
}

impl<B: Set> Total<B> {
    /// The total that a seat keeps.
    pub(crate) fn of(seat: Seat<u64, View>, place: usize) -> Total<B>
        requires table { seat.table_id ≡ B.table }
        requires keeps { slice_index seat.me.0.keeps place ≡ 1 }
        requires bears { seat.me.0.shares ≡ [] }
        ensures place { result.place ≡ place }
        ensures seat { result.seat.me.0 ≡ seat.me.0 }
    {
        Total {
            place,
            seat,
            of: PhantomData,
        }
    }

    /// Adds to the total, and to a seat's share of it, at once.
    pub(crate) fn add(&mut self, common: &Common, shares: &mut Shares<B>, more: u64)
        requires table { common.now.table_id ≡ B.table }
        requires place { self.old.place < common.now.table_id.words }
        ensures place { self.new.place ≡ self.old.place }
        ensures total { slice_index self.new.seat.me.0.totals self.new.place
            ≡ slice_index self.old.seat.me.0.totals self.old.place + more }
        ensures share { (i : ℕ) → slice_index shares.new.seat.me.0.shares i
            ≡ slice_index shares.old.seat.me.0.shares i
            + (if i == self.old.place then more else 0) }
    {
        common.store::<CountsSome>(&mut self.seat, self.place, more);
        hand_over(common, &mut self.seat, &mut shares.seat);
    }

    /// Adds one to the total, and to a seat's share of it, at once.
    pub(crate) fn add_one(&mut self, common: &Common, shares: &mut Shares<B>)
        requires table { common.now.table_id ≡ B.table }
        requires place { self.old.place < common.now.table_id.words }
        ensures place { self.new.place ≡ self.old.place }
        ensures total { slice_index self.new.seat.me.0.totals self.new.place
            ≡ slice_index self.old.seat.me.0.totals self.old.place + 1 }
        ensures share { (i : ℕ) → slice_index shares.new.seat.me.0.shares i
            ≡ slice_index shares.old.seat.me.0.shares i + (if i == self.old.place then 1 else 0) }
    {
        common.load::<CountsOne>(&mut self.seat, self.place);
        hand_over(common, &mut self.seat, &mut shares.seat);
    }

    /// Looks at the shares of the total: they add up to it.
    pub(crate) fn look(&mut self, common: &Common)
        requires table { common.now.table_id ≡ B.table }
        requires place { self.old.place < common.now.table_id.words }
        ensures place { self.new.place ≡ self.old.place }
        ensures total { slice_index self.new.seat.me.0.totals self.old.place
            ≡ slice_index self.old.seat.me.0.totals self.old.place }
        ensures sum { AddUp self.old.place (slice_index self.old.seat.me.0.totals self.old.place) }
    {
        common.load::<SeesSum>(&mut self.seat, self.place);
    }
}

/// Passes the shares of a seat on to another one.
fn hand_over(common: &Common, from: &mut Seat<u64, View>, to: &mut Seat<u64, View>)
    requires from { from.old.table_id ≡ common.now.table_id }
    requires to { to.old.table_id ≡ common.now.table_id }
    requires words { 0 < common.now.table_id.words }
    ensures from { (from.new.table_id ≡ from.old.table_id)
        × (from.new.me.0 ≡ without_shares from.old.me.0) }
    ensures to { (to.new.table_id ≡ to.old.table_id)
        × (to.new.me.0 ≡ with_shares_of to.old.me.0 (shares_alone from.old.me.0)) }
{
    let note = common.split_seat::<AllShares>(from);
    common.join_seat::<AllShares>(to, note);
}
