//! What a queue counted and recorded that has ended.
ghost use Rattle.std.specs.Prelude.{◌≡◌};

use crate::base::Base;
use crate::past::PastQueue;
use crate::step::Step;
use crate::tally::Tally;

/// What a queue recorded that has ended: its history, and what is only to be freed, when there is time, since it may be as many
/// datapoints as a history holds.
#[derive(Drop)]
pub struct EndedQueue {
    /// The steps since the last seal.
    pub history: Vec<Step>,
    /// What is only to be freed.
    pub freed: FreedQueue,
}

/// What is only to be freed of a queue that has ended.
#[derive(Drop)]
pub struct FreedQueue {
    _tally: Tally,
    _base: Base,
}

impl EndedQueue {
    /// What is left of a queue beside its datapoints.
    pub(crate) fn of(tally: Tally, past: PastQueue) -> EndedQueue
        ensures { result.history ≡ past.history }
    {
        let PastQueue { base, history } = past;
        EndedQueue {
            history,
            freed: FreedQueue {
                _tally: tally,
                _base: base,
            },
        }
    }
}
