//! A batch, as an outlet records it.

use relay_base::DestId;

/// A batch that an outlet took.
#[derive(Clone, Copy, Debug)]
pub struct TakenBatch {
    /// The destination from whose queue it was taken.
    pub dest: DestId,
    /// The limit of the batch.
    pub limit: usize,
    /// How many datapoints it has: at least one.
    pub taken: usize,
}
