//! The kinds of readers.

/// What a reader reads.
#[derive(Clone, Copy)]
pub enum ReaderKind {
    /// Connections of lines.
    Line,
    /// Connections of frames, each a pickle.
    Pickle,
    /// Datagrams of lines, one after another.
    Datagram,
}
