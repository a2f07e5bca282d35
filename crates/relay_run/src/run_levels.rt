//! How full the queues of a run are.

ghost use Rattle.std.specs.Prelude.{◌≡◌};

use crate::relay::Relay;
use locked_queues::{Queues, Set};
use relay_base::DestId;
use run_state::RestNotes;
use std::sync::Wait;
use store_lines::QueueLevels;

/// The queues of a run, what ended runs left beside them, and how many datapoints a queue holds at most.
#[derive(Drop)]
pub(crate) struct RunLevels<'x, B: Set, R> {
    rt: &'x R,
    queues: &'x Queues<B>,
    rests: &'x [RestNotes],
    dests: usize,
    size: u64,
    ghost all: { dests ≡ B.dests },
}

impl<'x, B: Set, R> RunLevels<'x, B, R> {
    /// The queues of a relay.
    pub(crate) fn new(rt: &'x R, relay: &'x Relay<B>) -> RunLevels<'x, B, R> {
        RunLevels {
            rt,
            queues: &relay.queues,
            rests: relay.state.rests(),
            dests: relay.shape.dests,
            size: relay.shape.size as u64,
        }
    }
}

impl<'x, B: Set, R: Wait> QueueLevels for RunLevels<'x, B, R> {
    fn is_filled(&self, dest: DestId, eighths: u64) -> bool {
        if dest.0 >= self.dests {
            return false;
        }
        let rest = match self.rests.get(dest.0) {
            Some(rest) => rest.left(),
            None => 0,
        };
        let queued = self.queues.counts(self.rt, dest).queued;
        rest.saturating_add(queued).saturating_mul(8) >= self.size.saturating_mul(eighths)
    }
}
