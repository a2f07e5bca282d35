//! Whose turn it is to read, and when.

use line_text::Moment;

/// The reader that is fed, and the moment of its pieces.
#[derive(Clone, Copy)]
pub(crate) struct ReaderTurn {
    /// The number of the reader.
    pub(crate) number: usize,
    /// The moment.
    pub(crate) moment: Moment,
}
