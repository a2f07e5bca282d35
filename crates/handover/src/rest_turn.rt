//! A turn of sending a rest.

/// What a turn of sending a rest did.
#[derive(Drop)]
pub enum RestTurn<W> {
    /// The connection took the last byte of the rest: it may take other lines.
    Over(W),
    /// The connection is lost, and still there: once it is given up, the next one gets what is left.
    Lost,
    /// The connection, if there is one, stays with the rest.
    Kept,
}
