//! The writer of a destination with its log.

use crate::write_log::WriteLog;
use dest_queue::Hand;
use dest_writer::Writer;

/// A writer of batches of at most `limit` datapoints, the log of its steps, and the hand that it lends to the supply.
#[derive(Drop)]
pub(crate) struct LoggedWriter {
    /// How many datapoints a batch has at most.
    pub(crate) limit: usize,
    /// The writer.
    pub(crate) writer: Writer,
    /// The steps of the writer.
    pub(crate) log: WriteLog,
    /// Lent to the supply for a batch, and empty before and after.
    pub(crate) hand: Hand,
}
