//! An offer, as a door records it.

use dest_queue::Kept;
use line_text::Point;
use relay_base::DestId;
use std::sync::Arc;

/// An offer that a door made.
#[derive(Debug, Drop)]
pub struct Made {
    /// The reader whose offer it is.
    pub reader: u16,
    /// The destination of the offer.
    pub dest: DestId,
    /// The number of the reader's offer to that destination, counted from 0.
    pub number: u64,
    /// What was offered.
    pub point: Arc<Point>,
    /// The answer of the queue.
    pub kept: Kept,
}
