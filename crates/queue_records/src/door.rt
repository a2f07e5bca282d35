//! The way of offers to the queues.
ghost use Rattle.std.specs.Prelude.{◌≡◌, ◌<◌, length, map, slice_index, IfOk, IfErr, OnErr};
ghost use Rattle.std.specs.Arc.{arc_value};
ghost use Rattle.queue_records.specs.Made.{offer_of};
ghost use Rattle.queue_records.specs.Offers.{after_offer};

use crate::made::Made;
use dest_queue::{Kept, OfferFault};
use line_text::Point;
use relay_base::DestId;
use std::sync::Arc;

/// Offers readers' datapoints to the queues, and records what it did.
pub trait Door {
    ghost use Rattle.std.specs.Prelude.{ℕ};
    ghost use Rattle.line_text.specs.Datapoint.{Datapoint};
    ghost use Rattle.dest_queue.specs.declared.offer.OfferFault.{OfferFault};
    ghost use Rattle.queue_records.specs.Offers.{OffersMade};

    // What it has recorded: the offers that it made, how many to each destination, and each reader's
    // next number there.
    ghost record_of: { Self → OffersMade };

    // Which offers it may refuse: a reader's, of a datapoint to a destination, with this fault.
    ghost may_refuse: { Self → ℕ → ℕ → Datapoint → OfferFault → Type 0 };

    /// What the door holds from one offer to the next, such as a lock.
    type Hold: Drop;

    /// Offers a reader's datapoint to a destination, which exists. The door decides when it refuses an offer;
    /// a refused one adds nothing to the record.
    fn offer(&mut self, reader: usize, dest: DestId, point: &Arc<Point>) -> Result<Kept, OfferFault>
        requires dest { dest.0 < length (record_of self.old).totals }
        // One more entry, with the reader's next number there, while there is room; totals and next number
        // rise by one.
        ensures made { IfOk result (λ kept. record_of self.new
            ≡ after_offer reader dest.0 (arc_value point.now) kept (record_of self.old)) }
        ensures refused { OnErr result (record_of self.new ≡ record_of self.old) }
        ensures fault { IfErr result (λ fault.
            may_refuse self.old reader dest.0 (arc_value point.now) fault) };

    /// Like [`Door::offer`], for a caller that makes several offers one after another, and nothing between them that may
    /// wait: the door may leave what serves the next offer too in the first argument, which is `None` before the first
    /// offer and dropped after the last.
    fn offer_with(
        &mut self,
        _hold: &mut Option<Self::Hold>,
        reader: usize,
        dest: DestId,
        point: &Arc<Point>,
    ) -> Result<Kept, OfferFault>
        requires dest { dest.0 < length (record_of self.old).totals }
        ensures made { IfOk result (λ kept. record_of self.new
            ≡ after_offer reader dest.0 (arc_value point.now) kept (record_of self.old)) }
        ensures refused { OnErr result (record_of self.new ≡ record_of self.old) }
        ensures fault { IfErr result (λ fault.
            may_refuse self.old reader dest.0 (arc_value point.now) fault) }
    {
        self.offer(reader, dest, point)
    }

    /// The offers that were made, while there was room for them.
    fn made(&self) -> &[Made]
        ensures { map offer_of result.now ≡ (record_of self.now).entries };

    /// How many offers were made to a destination, which exists.
    fn total(&self, dest: DestId) -> u64
        requires dest { dest.0 < length (record_of self.now).totals }
        ensures { result ≡ slice_index (record_of self.now).totals dest.0 };
}
