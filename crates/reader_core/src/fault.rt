//! What a reader returns for a piece.

use thiserror::Error;

/// Whether the connection goes on after a piece.
#[derive(Clone, Copy, Debug)]
pub enum ReaderEnd {
    /// It goes on.
    Open,
    /// A line or a frame was too long, so nothing more of the connection is read.
    TooLong,
}

/// Why a piece was not read. The reader is unchanged.
#[derive(Clone, Copy, Debug, Error)]
pub enum FeedFault {
    /// The connection is closed, since a line or a frame of it was too long.
    #[error("the connection is closed")]
    Closed,
    /// Offers wait; the caller must take them out first.
    #[error("offers wait")]
    Waiting,
    /// A growth was refused.
    #[error("out of memory")]
    NoMemory,
}
