//! A turn of sending a file.

/// What a turn of sending did.
#[derive(Drop)]
pub enum Turn<W> {
    /// The connection took the last whole line of the file's part ([`crate::DestSpool::end_part`]): it may take other lines.
    Over(W),
    /// The file cannot be read, by this error of the system, 0 if it is shorter than it was. The connection took whole lines
    /// of it, and may take other lines.
    GivenUp { sink: W, code: i32 },
    /// The same, where the connection took a part of a line: nothing else may go behind that.
    Broken { code: i32 },
    /// The connection is lost.
    Lost,
    /// The connection, if there is one, stays with the file.
    Kept,
}
