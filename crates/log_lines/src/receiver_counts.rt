//! What a receiver has counted.

ghost use Rattle.std.specs.Prelude.{◌≡◌};
ghost use Rattle.log_lines.specs.ReceiverCounts.{no_counts, numbers_of, counts_behind};
ghost use Rattle.log_lines.specs.declared.receiver_counts.ReceiverCounts.{ReceiverCounts};

use reader_counts::{ReaderCounts, ReaderTotals};
use std::sync::atomic::{AtomicU64, Ordering};

/// How many counts there are.
const COUNTS: usize = 8;

/// What a receiver has counted since the start, and how many connections it has open now.
#[derive(Clone, Copy)]
pub struct ReceiverCounts {
    /// What its readers counted of all that they were fed. Its bad names are those that rewriting did not empty.
    pub readers: ReaderTotals,
    /// The datapoints that were dropped on purpose: rewriting emptied their names.
    pub emptied: u64,
    /// The connections that are open now.
    pub connections: u64,
    /// The connections that were refused, since the receiver had no room for more.
    pub refused: u64,
}

impl ReceiverCounts {
    /// All counts are 0.
    pub fn zero() -> ReceiverCounts
        ensures { result ≡ no_counts }
    {
        ReceiverCounts {
            readers: ReaderTotals::zero(),
            emptied: 0,
            connections: 0,
            refused: 0,
        }
    }

    /// These counts, behind those of runs that have ended. The connections are those that are open now.
    pub fn behind(&self, earlier: &ReceiverCounts) -> ReceiverCounts
        ensures { result ≡ counts_behind earlier.now self.now }
    {
        ReceiverCounts {
            readers: earlier.readers.with(self.readers),
            emptied: earlier.emptied.saturating_add(self.emptied),
            connections: self.connections,
            refused: earlier.refused.saturating_add(self.refused),
        }
    }

    /// The counts in a row.
    fn numbers(&self) -> [u64; COUNTS]
        ensures { result ≡ numbers_of self.now }
    {
        let faults = &self.readers.faults;
        [
            self.readers.datapoints,
            faults.bad_lines,
            faults.bad_pickles,
            faults.bad_rows,
            faults.bad_names,
            self.emptied,
            self.connections,
            self.refused,
        ]
    }

    /// The counts that stand in a row, each in its own place.
    fn of_numbers(numbers: &[u64; COUNTS]) -> ReceiverCounts
        ensures { (counts : ReceiverCounts) → numbers.now ≡ numbers_of counts → result ≡ counts }
    {
        ReceiverCounts {
            readers: ReaderTotals {
                datapoints: numbers[0],
                faults: ReaderCounts {
                    bad_lines: numbers[1],
                    bad_pickles: numbers[2],
                    bad_rows: numbers[3],
                    bad_names: numbers[4],
                },
            },
            emptied: numbers[5],
            connections: numbers[6],
            refused: numbers[7],
        }
    }
}

/// The counts of a receiver, as it notes them and others read them at the same time: each by itself.
#[derive(Drop)]
pub(crate) struct NotedCounts {
    numbers: [AtomicU64; COUNTS],
}

impl NotedCounts {
    /// All counts are 0.
    pub(crate) fn new() -> NotedCounts {
        NotedCounts {
            numbers: [
                AtomicU64::new(0),
                AtomicU64::new(0),
                AtomicU64::new(0),
                AtomicU64::new(0),
                AtomicU64::new(0),
                AtomicU64::new(0),
                AtomicU64::new(0),
                AtomicU64::new(0),
            ],
        }
    }

    /// From now on these are the counts.
    pub(crate) fn store(&self, counts: ReceiverCounts) {
        let numbers = counts.numbers();
        for place in 0..COUNTS {
            self.numbers[place].store(numbers[place], Ordering::SeqCst);
        }
    }

    /// The counts that were noted last.
    pub(crate) fn load(&self) -> ReceiverCounts {
        let mut numbers = [0; COUNTS];
        for place in 0..COUNTS {
            numbers[place] = self.numbers[place].load(Ordering::SeqCst);
        }
        ReceiverCounts::of_numbers(&numbers)
    }
}
