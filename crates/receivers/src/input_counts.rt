//! What a receiver has counted of its input.

ghost use Rattle.std.specs.Prelude.{◌≡◌, ◌-◌};
ghost use Rattle.receivers.specs.BadInput.{faults_beside, served_between, without_emptied};

use log_lines::ProducerCounts;
use reader_core::{ReaderCounts, ReaderTotals};

/// What one reader has counted, and how many names the plan of its receiver has emptied.
#[derive(Clone, Copy)]
pub(crate) struct InputCounts {
    pub(crate) totals: ReaderTotals,
    pub(crate) emptied: u64,
}

impl InputCounts {
    /// What was wrong with all that the reader was fed, without the names that were emptied since it had counted this.
    pub(crate) fn faults_since(&self, before: &InputCounts) -> ReaderCounts
        ensures { result ≡ faults_beside self.now.totals.faults (self.now.emptied - before.now.emptied) }
    {
        let emptied = self.emptied.saturating_sub(before.emptied);
        faults_beside(self.totals.faults, emptied)
    }

    /// What the reader has counted since it had counted this.
    pub(crate) fn since(&self, before: &InputCounts) -> ServedInput
        ensures { result ≡ served_between before.now.totals self.now.totals (self.now.emptied - before.now.emptied) }
    {
        let faults = self.faults_since(before);
        let earlier = before.totals.faults;
        ServedInput {
            datapoints: self
                .totals
                .datapoints
                .saturating_sub(before.totals.datapoints),
            bad_lines: faults.bad_lines.saturating_sub(earlier.bad_lines),
            bad_pickles: faults.bad_pickles.saturating_sub(earlier.bad_pickles),
            bad_rows: faults.bad_rows.saturating_sub(earlier.bad_rows),
            bad_names: faults.bad_names.saturating_sub(earlier.bad_names),
        }
    }
}

/// What a reader counted of a piece or a datagram that it was fed.
#[derive(Clone, Copy)]
pub struct ServedInput {
    /// The accepted datapoints.
    pub datapoints: u64,
    /// The bad lines.
    pub bad_lines: u64,
    /// The pickles that could not be read.
    pub bad_pickles: u64,
    /// The rows of others that are no datapoint.
    pub bad_rows: u64,
    /// The names that rewriting made invalid, and did not empty.
    pub bad_names: u64,
}

impl ServedInput {
    /// Whether datapoints were accepted.
    pub(crate) fn has_datapoints(&self) -> bool {
        self.datapoints > 0
    }

    /// The counts of its producer, of so many bytes.
    pub(crate) fn counts(&self, bytes: u64) -> ProducerCounts {
        let bad = self
            .bad_lines
            .saturating_add(self.bad_pickles)
            .saturating_add(self.bad_rows)
            .saturating_add(self.bad_names);
        ProducerCounts {
            datapoints: self.datapoints,
            bytes,
            bad,
        }
    }
}

/// What readers have counted, but for so many names that rewriting emptied.
pub(crate) fn without_emptied(totals: ReaderTotals, emptied: u64) -> ReaderTotals
    ensures { result ≡ without_emptied totals emptied }
{
    ReaderTotals {
        faults: faults_beside(totals.faults, emptied),
        ..totals
    }
}

/// What was wrong beside so many names that rewriting emptied.
fn faults_beside(faults: ReaderCounts, emptied: u64) -> ReaderCounts
    ensures { result ≡ faults_beside faults emptied }
{
    ReaderCounts {
        bad_names: faults.bad_names.saturating_sub(emptied),
        ..faults
    }
}
