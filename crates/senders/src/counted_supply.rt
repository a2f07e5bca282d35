//! A supply that notes how much it gave out.
ghost use Rattle.std.specs.Prelude.{◌≡◌};

use dest_queue::Hand;
use queue_records::Supply;
use relay_base::DestId;

/// How much was taken from a supply.
#[derive(Clone, Copy)]
pub(crate) enum TakeSize {
    /// No datapoint.
    Nothing,
    /// From each destination less than a batch may have: all that was queued.
    All,
    /// From some destination as much as a batch may have, so that more may be queued.
    FullBatch,
}

/// A supply that notes how much was taken since the last question.
#[derive(Drop)]
pub(crate) struct CountedSupply<S> {
    supply: S,
    taken: TakeSize,
}

impl<S: Supply> CountedSupply<S> {
    /// Nothing was taken yet.
    pub(crate) fn new(supply: S) -> CountedSupply<S>
        ensures { result.supply ≡ supply }
    {
        CountedSupply {
            supply,
            taken: TakeSize::Nothing,
        }
    }

    /// The supply.
    pub(crate) fn into_supply(self) -> S
        ensures { result ≡ self.supply }
    {
        self.supply
    }

    /// How much was taken since the last call.
    pub(crate) fn taken(&mut self) -> TakeSize
        ensures { self.new.supply ≡ self.old.supply }
    {
        let taken = self.taken;
        self.taken = TakeSize::Nothing;
        taken
    }
}

impl<S: Supply> Supply for CountedSupply<S> {
    ghost record_of = { λ n. S.record_of n.supply };

    ghost may_hand = { λ n dest limit points. S.may_hand n.supply dest limit points };

    ghost is_owned = { λ n dest. S.is_owned n.supply dest };

    fn owns(&self, dest: DestId) -> bool {
        self.supply.owns(dest)
    }

    fn take(&mut self, dest: DestId, limit: usize, hand: &mut Hand) -> usize {
        let count = self.supply.take(dest, limit, hand);
        self.taken = with_take(self.taken, count, limit);
        count
    }
}

/// How much was taken, with one more take of this many datapoints of at most `limit`.
fn with_take(before: TakeSize, count: usize, limit: usize) -> TakeSize {
    match before {
        TakeSize::FullBatch => TakeSize::FullBatch,
        _ if count == 0 => before,
        _ if count < limit => TakeSize::All,
        _ => TakeSize::FullBatch,
    }
}
