//! All that readers have counted.
ghost use Rattle.std.specs.Prelude.{◌≡◌};
ghost use Rattle.reader_counts.specs.Counts.{no_totals, totals_after};

use crate::counts::ReaderCounts;

/// All that readers have counted of what they were fed. Each count stays at `u64::MAX` once it reaches it.
#[derive(Clone, Copy, Debug)]
pub struct ReaderTotals {
    /// The accepted datapoints, with those that rewriting dropped.
    pub datapoints: u64,
    /// What was wrong with the rest.
    pub faults: ReaderCounts,
}

impl ReaderTotals {
    /// Nothing was fed.
    pub fn zero() -> ReaderTotals
        ensures { result ≡ no_totals }
    {
        ReaderTotals {
            datapoints: 0,
            faults: ReaderCounts::zero(),
        }
    }

    /// These totals and further ones.
    pub fn with(self, more: ReaderTotals) -> ReaderTotals
        ensures { result ≡ totals_after self more }
    {
        ReaderTotals {
            datapoints: self.datapoints.saturating_add(more.datapoints),
            faults: self.faults.with(more.faults),
        }
    }
}
