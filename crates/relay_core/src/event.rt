//! The events of a relay, and its answers.

use line_text::Moment;

/// An event, with the number of its reader or its destination, counted from 0.
#[derive(Clone, Copy)]
pub enum Event<'a> {
    /// A reader gets a piece of its connection, received at a moment; or a datagram.
    Piece(usize, &'a [u8], Moment),
    /// A reader's connection ends.
    End(usize),
    /// A reader makes the first offer that waits.
    Offer(usize),
    /// A destination's writer takes a batch from the queue.
    Take(usize),
    /// A destination gets a connection.
    Up(usize),
    /// A destination's connection took this number of bytes.
    Wrote(usize, usize),
    /// A destination's connection is lost.
    Down(usize),
}

/// How a relay answers an event.
#[derive(Clone, Copy, Debug)]
pub enum Answer {
    /// It happened.
    Done,
    /// It happened, and the queue dropped the offered datapoint because it was full.
    Dropped,
    /// It may not happen now, or it names a reader or destination that does not exist. Nothing has
    /// changed.
    NotNow,
    /// It may happen, but 18,446,744,073,709,551,615 events have happened, and no more can be
    /// counted. Nothing has changed.
    Spent,
}
