//! How connections are served.

/// How a connection was served.
#[derive(Clone, Copy, Debug, PartialEq)]
pub enum Served {
    /// The last read would have had to wait.
    Drained,
    /// The turn made all the reads that it may.
    Again,
    /// The connection ended, or one of its lines or frames was too long. It left.
    Ended,
    /// The last read failed. The connection left.
    Failed,
    /// There was no memory for the bytes of the last read. The connection left.
    Starved,
    /// An offer was refused. The connection left, and its offers still wait.
    Refused,
}
