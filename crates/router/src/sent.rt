//! What becomes of a datapoint.

use line_text::Point;
use relay_base::DestId;
use std::marker::Model;
use std::sync::Arc;

/// A datapoint as it is sent on, and where.
///
/// In clauses the datapoint is apart from where it is in memory.
#[derive(Debug, Drop)]
pub struct Sent {
    /// The datapoint under its rewritten name, which all its destinations share; `None` if rewriting left no
    /// metric name and the datapoint is dropped.
    pub point: Option<Arc<Point>>,
    /// Its destinations, each once, in the order of the route. None if it is dropped.
    pub dests: Vec<DestId>,
}

impl Model for Sent {
    ghost use Rattle.std.specs.Prelude.{option_map};
    ghost use Rattle.std.specs.Arc.{arc_value};
    ghost use Rattle.router.specs.Plan.{Sent as SentValue};

    ghost Value = { SentValue };

    ghost view = { λ s. record {
      point = option_map (λ p. arc_value p) s.point;
      dests = s.dests.items;
    } };
}
