//! What a closed door reports.

use crate::made::Made;

/// What a door recorded, for the settling.
#[derive(Debug, Drop)]
pub struct DoorRecord {
    /// The name of the set of queues.
    pub name: u64,
    /// How many destinations the set has.
    pub dests: usize,
    /// The seat: the number of the receiver.
    pub seat: usize,
    /// The offers that were made, while there was room for them.
    pub made: Vec<Made>,
    /// How many offers were made to each destination.
    pub totals: Vec<u64>,
    /// How many of them were dropped.
    pub drops: Vec<u64>,
}
