//! What the queues of a destination counted in runs that have ended.
ghost use Rattle.std.specs.Prelude.{◌≡◌};
ghost use Rattle.dest_queue.specs.EarlierCounts.{after_run, with_rest};

use crate::counts::Counts;

/// What the queues of a destination counted in runs that have ended in this process. Each count stays at 2^64 - 1 once it is
/// there.
#[derive(Clone, Copy, Debug)]
pub struct EarlierCounts {
    /// The offers that the queues answered.
    pub offered: u64,
    /// Those that were queued.
    pub kept: u64,
    /// Those that were dropped.
    pub dropped: u64,
}

impl EarlierCounts {
    /// No run has ended.
    pub fn none() -> EarlierCounts
        ensures { result ≡ record { offered = 0; kept = 0; dropped = 0 } }
    {
        EarlierCounts {
            offered: 0,
            kept: 0,
            dropped: 0,
        }
    }

    /// Nothing is known of ended runs, but that this many datapoints that their queues kept wait to be taken in hand.
    pub fn of_rest(count: u64) -> EarlierCounts
        ensures { result ≡ record { offered = count; kept = count; dropped = 0 } }
    {
        EarlierCounts {
            offered: count,
            kept: count,
            dropped: 0,
        }
    }

    /// One more run has ended, whose queue had counted this at its end.
    pub fn after_run(self, last: Counts) -> EarlierCounts
        ensures { result ≡ after_run last self }
    {
        EarlierCounts {
            offered: self.offered.saturating_add(last.offered),
            kept: self.kept.saturating_add(last.kept),
            dropped: self.dropped.saturating_add(last.dropped),
        }
    }

    /// The counts of all runs, with what the queue has counted in this one, while this many datapoints of earlier runs wait to
    /// be taken in hand.
    pub fn with_rest(self, rest: u64, counts: Counts) -> Counts
        ensures { result ≡ with_rest rest counts self }
    {
        Counts {
            offered: self.offered.saturating_add(counts.offered),
            kept: self.kept.saturating_add(counts.kept),
            dropped: self.dropped.saturating_add(counts.dropped),
            taken: self.kept.saturating_sub(rest).saturating_add(counts.taken),
            queued: rest.saturating_add(counts.queued),
            seals: counts.seals,
        }
    }
}
