//! The way of batches out of the queues.
ghost use Rattle.std.specs.Prelude.{◌≡◌, ℕ, ◌<◌, ◌≤◌, ◌↔◌, [], true, length, IsTrue};
ghost use Rattle.queue_records.specs.Takes.{after_take};

use dest_queue::Hand;
use relay_base::DestId;

/// Gives out batches of datapoints, and records each.
pub trait Supply {
    ghost use Rattle.std.specs.Prelude.{ℕ, Bool, List};
    ghost use Rattle.line_text.specs.Datapoint.{Datapoint};
    ghost use Rattle.queue_records.specs.Takes.{TakesMade};

    // What it has recorded: the batches that were taken, and how many datapoints from each destination.
    ghost record_of: { Self → TakesMade };

    // Whether batches of a destination may be taken here.
    ghost is_owned: { Self → ℕ → Bool };

    // Which datapoints it may hand over, for a take of this destination and limit.
    ghost may_hand: { Self → ℕ → ℕ → List Datapoint → Type 0 };

    /// Whether batches of a destination may be taken here.
    fn owns(&self, dest: DestId) -> bool
        ensures { result ≡ is_owned self.now dest.0 };

    /// Takes a batch of a destination that is owned, at most `limit` datapoints, and returns how many. The
    /// limit is at least 1, and the hand is empty and has room for that many.
    fn take(&mut self, dest: DestId, limit: usize, hand: &mut Hand) -> usize
        requires owned { is_owned self.old dest.0 ≡ true }
        requires limit { 1 ≤ limit }
        requires empty { hand.old.points ≡ [] }
        requires room { limit ≤ hand.old.room }
        ensures handed { may_hand self.old dest.0 limit hand.new.points }
        ensures count { result ≡ length hand.new.points }
        ensures few { result ≤ limit }
        ensures room { hand.new.room ≡ hand.old.room }
        // One more entry, if there was a datapoint, while there is room; the total rises by the datapoints.
        ensures taken { record_of self.new ≡ after_take dest.0 limit result (record_of self.old) }
        ensures owners { (dest : ℕ) → is_owned self.new dest ≡ is_owned self.old dest };
}
