//! What a queue records of each step.

use crate::offer::Kept;
use line_text::Point;
use std::mem::size_of;

/// A recorded step of a queue, with its answer. At most 48 bytes, since the short parts of an offer are side by
/// side.
#[derive(Debug, Drop)]
pub enum Step {
    /// A reader's datapoint was offered, and queued or dropped.
    Offer {
        /// The reader, below [`crate::MOST_READERS`].
        reader: u16,
        /// Its answer.
        kept: Kept,
        /// The number of the reader's offer to this queue, counted from 0.
        number: u64,
        /// What was offered.
        point: Point,
    },
    /// Datapoints were handed over. A take that finds nothing is not recorded.
    Take {
        /// The limit.
        limit: usize,
        /// How many were: at least one, and at most the limit.
        taken: usize,
    },
}

const _: () = prove!(size_of::<Step>() <= 48);
