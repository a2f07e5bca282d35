//! What the reads of all connections of a loop share.

use crate::input_log::InputLog;

/// The room for the bytes of one read, and the log of what the readers were fed.
#[derive(Drop)]
pub(crate) struct ReadRoom {
    /// The bytes of the last read, at its beginning.
    pub(crate) buffer: Vec<u8>,
    /// What the readers were fed.
    pub(crate) log: InputLog,
}
