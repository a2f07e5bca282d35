//! What was wrong with what readers were fed.
ghost use Rattle.std.specs.Prelude.{◌≡◌};
ghost use Rattle.reader_counts.specs.Counts.{no_counts, counts_after};

/// What was wrong with what readers were fed. Each count stays at `u64::MAX` once it reaches it.
#[derive(Clone, Copy, Debug)]
pub struct ReaderCounts {
    /// The lines that were neither a datapoint nor blank.
    pub bad_lines: u64,
    /// The pickles that could not be read.
    pub bad_pickles: u64,
    /// The rows of the other pickles that gave no datapoint.
    pub bad_rows: u64,
    /// The datapoints that rewriting dropped because their new name was not a metric name.
    pub bad_names: u64,
}

impl ReaderCounts {
    /// Nothing was wrong.
    pub fn zero() -> ReaderCounts
        ensures { result ≡ no_counts }
    {
        ReaderCounts {
            bad_lines: 0,
            bad_pickles: 0,
            bad_rows: 0,
            bad_names: 0,
        }
    }

    /// These counts and further ones.
    pub fn with(self, more: ReaderCounts) -> ReaderCounts
        ensures { result ≡ counts_after self more }
    {
        ReaderCounts {
            bad_lines: self.bad_lines.saturating_add(more.bad_lines),
            bad_pickles: self.bad_pickles.saturating_add(more.bad_pickles),
            bad_rows: self.bad_rows.saturating_add(more.bad_rows),
            bad_names: self.bad_names.saturating_add(more.bad_names),
        }
    }
}
