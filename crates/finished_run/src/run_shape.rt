//! The numbers of a run that its record needs.

/// How many destinations, receivers and senders a run has, and how much its queues and batches hold.
#[derive(Clone, Copy)]
pub struct RunShape {
    /// The number of destinations.
    pub dests: usize,
    /// The greatest number of datapoints in a queue.
    pub size: usize,
    /// The greatest number of datapoints in a batch.
    pub limit: usize,
    /// The number of receivers' seats.
    pub receivers: usize,
    /// The number of senders.
    pub senders: usize,
}
