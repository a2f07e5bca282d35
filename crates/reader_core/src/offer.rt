//! Offers that wait.

use line_text::Point;
use relay_base::DestId;
use std::marker::Model;
use std::sync::Arc;

/// A datapoint to offer to a destination.
///
/// In clauses it is the destination's `DestId` and the datapoint.
#[derive(Drop)]
pub(crate) struct WaitingOffer {
    pub(crate) dest: DestId,
    pub(crate) point: Arc<Point>,
}

impl Model for WaitingOffer {
    ghost use Rattle.std.specs.Arc.{arc_value};
    ghost use Rattle.reader_core.specs.Configuration.{Dispatch};

    ghost Value = { Dispatch };

    ghost view = { λ o. record { dest = o.dest.0; point = arc_value o.point } };
}
