//! What a receiver has before it begins, and lends to its turns.

use router::Plan;

/// A receiver: where its input comes from, its number, and how it offers what it reads.
#[derive(Drop)]
pub struct Receiver<S, D> {
    /// Where its connections or datagrams come from.
    pub source: S,
    /// Its number, which is below `queue_records::MOST_RECEIVERS`: it has the readers of this number.
    pub number: usize,
    /// What sends datapoints to destinations.
    pub plan: Plan,
    /// What makes the offers of all readers. It has all destinations of the plan.
    pub door: D,
}
