//! What several looks at a receiver show.

use crate::status_history::a_second;
use log_lines::ReceiverCounts;

/// What was seen of a receiver.
#[derive(Clone, Copy)]
pub(crate) struct ReceiverTrack {
    // What it had counted at the last sample: datapoints and bad input; and in a second of it.
    datapoints: u64,
    sampled_bad: u64,
    rate: u64,
    bad_rate: u64,
    // How much input was bad at the last look, and when that last changed.
    bad: u64,
    bad_at: u64,
}

impl ReceiverTrack {
    /// Nothing was seen.
    pub(crate) fn new() -> ReceiverTrack {
        ReceiverTrack {
            datapoints: 0,
            sampled_bad: 0,
            rate: 0,
            bad_rate: 0,
            bad: 0,
            bad_at: 0,
        }
    }

    /// A look at these milliseconds.
    pub(crate) fn look(&mut self, counts: &ReceiverCounts, millis: u64) {
        let bad = bad_of(counts);
        if bad != self.bad {
            self.bad = bad;
            self.bad_at = millis;
        }
    }

    /// A sample of these milliseconds is taken.
    pub(crate) fn take_sample(&mut self, counts: &ReceiverCounts, millis: u64) {
        let passed = millis.max(1);
        let bad = bad_of(counts);
        self.rate = a_second(
            counts.readers.datapoints.saturating_sub(self.datapoints),
            passed,
        );
        self.bad_rate = a_second(bad.saturating_sub(self.sampled_bad), passed);
        self.datapoints = counts.readers.datapoints;
        self.sampled_bad = bad;
    }

    /// How many datapoints it accepted in each second of the last sample.
    pub(crate) fn rate(&self) -> u64 {
        self.rate
    }

    /// How much of its input was bad in each second of the last sample.
    pub(crate) fn bad_rate(&self) -> u64 {
        self.bad_rate
    }

    /// How many seconds ago input was last bad, if it ever was.
    pub(crate) fn bad_age(&self, millis: u64) -> Option<u64> {
        if self.bad == 0 {
            return None;
        }
        Some(millis.saturating_sub(self.bad_at) / 1_000)
    }
}

/// How many lines, pickles, rows and names were bad.
fn bad_of(counts: &ReceiverCounts) -> u64 {
    let faults = &counts.readers.faults;
    faults
        .bad_lines
        .saturating_add(faults.bad_pickles)
        .saturating_add(faults.bad_rows)
        .saturating_add(faults.bad_names)
}
