//! What a closed outlet reports.

use crate::taken_batch::TakenBatch;

/// What an outlet recorded, for the settling.
#[derive(Debug, Drop)]
pub struct OutletRecord {
    /// The name of the set of queues.
    pub name: u64,
    /// How many destinations the set has.
    pub dests: usize,
    /// The seat: the number of the sender.
    pub seat: usize,
    /// The batches that were taken, while there was room for them.
    pub takes: Vec<TakenBatch>,
    /// How many datapoints were taken from each destination.
    pub totals: Vec<u64>,
}
