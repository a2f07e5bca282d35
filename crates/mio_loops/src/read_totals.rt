//! The counts of all readers together.
ghost use Rattle.std.specs.Prelude.{◌≡◌, map};
ghost use Rattle.reader_counts.specs.Counts.{no_totals, totals_after, totals_of};

use reader_core::{Reader, ReaderTotals};

/// What the readers of a receiver have counted together, and how many connections it holds.
#[derive(Clone, Copy)]
pub struct ReadTotals {
    /// What the readers counted of all that they were fed.
    pub readers: ReaderTotals,
    /// The connections that the loop holds.
    pub connections: u64,
}

impl ReadTotals {
    /// The totals of no reader, with this number of connections.
    pub fn new(connections: u64) -> ReadTotals
        ensures { result ≡ record { readers = no_totals; connections = connections } }
    {
        ReadTotals {
            readers: ReaderTotals::zero(),
            connections,
        }
    }

    /// These totals with the counts of one more reader.
    pub fn with(self, reader: &Reader) -> ReadTotals
        ensures { result ≡ record {
          readers = totals_after self.readers reader.now.totals;
          connections = self.connections;
        } }
    {
        ReadTotals {
            readers: self.readers.with(reader.totals()),
            connections: self.connections,
        }
    }
}

/// What some readers have counted together.
pub(crate) fn totals_of(readers: &[Reader]) -> ReaderTotals
    ensures { result ≡ totals_of (map (λ r. r.totals) readers.now) }
{
    let mut totals = ReaderTotals::zero();
    for reader in readers {
        totals = totals.with(reader.totals());
    }
    totals
}
