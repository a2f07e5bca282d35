//! How a drive of a writer ends, and why a call of it is refused.

use thiserror::Error;

/// How a drive of a writer ended.
#[derive(Clone, Copy)]
pub enum Driven {
    /// Nothing is left of the hand's text.
    Idle,
    /// The last write would have had to wait, and some of the text is left.
    Blocked,
    /// As many writes were made as one drive makes, and some of the text is left.
    Again,
    /// The last write failed, and some of the text is left.
    Failed,
}

/// What a drive did: how many bytes the connection took, and how it ended.
#[derive(Clone, Copy)]
pub struct DriveReport {
    /// How many bytes the connection took.
    pub wrote: usize,
    /// How it ended.
    pub driven: Driven,
}

/// Why a call of a writer was refused, the first fault that it has. The writer is as it was.
#[derive(Clone, Copy, Debug, Error)]
pub enum WriterFault {
    /// There is no connection.
    #[error("not connected")]
    NotUp,
    /// Fewer bytes than that are left of the hand's text.
    #[error("more bytes than are left")]
    TooMany,
    /// There is a connection already.
    #[error("connected already")]
    AlreadyUp,
}
