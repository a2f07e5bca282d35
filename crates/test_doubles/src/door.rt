//! A door over memory that refuses an offer.
ghost use Rattle.std.specs.Prelude.{◌≡◌, ◌<◌, length, map, slice_index, IfOk, IfErr, OnErr};
ghost use Rattle.std.specs.Arc.{arc_value};
ghost use Rattle.queue_records.specs.Made.{offer_of};
ghost use Rattle.queue_records.specs.Offers.{after_offer};

use dest_queue::{Kept, OfferFault};
use line_text::Point;
use queue_records::{Door, ListDoor, Made};
use relay_base::DestId;
use std::sync::Arc;

/// A door to queues of its own that refuses one offer as `Exhausted` and makes the others. For tests.
#[derive(Drop)]
pub struct FaultyDoor {
    door: ListDoor,
    /// How many offers it makes before it refuses one; 0 if it refuses none any more.
    left: u64,
}

impl FaultyDoor {
    /// A door that refuses its offer of this number, counted from 1; with 0 it refuses none.
    pub fn new(door: ListDoor, refused: u64) -> FaultyDoor
        ensures { result.door ≡ door }
    {
        FaultyDoor {
            door,
            left: refused,
        }
    }

    /// The door behind it.
    pub fn door(&self) -> &ListDoor
        ensures { result.now ≡ self.now.door }
    {
        &self.door
    }
}

impl Door for FaultyDoor {
    ghost record_of = { λ d. d.door.made };

    // Any offer.
    ghost may_refuse = { λ d reader dest point fault. Unit {0} };

    type Hold = ();

    fn offer(
        &mut self,
        reader: usize,
        dest: DestId,
        point: &Arc<Point>,
    ) -> Result<Kept, OfferFault> {
        if self.left > 0 {
            self.left -= 1;
            if self.left == 0 {
                return Err(OfferFault::Exhausted);
            }
        }
        self.door.offer(reader, dest, point)
    }

    fn made(&self) -> &[Made] {
        self.door.made()
    }

    fn total(&self, dest: DestId) -> u64 {
        self.door.total(dest)
    }
}
