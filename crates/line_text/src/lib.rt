//! Datapoints as lines of text: metric names, numbers, datapoints, the lines of a connection, and the
//! lines that are written. The rules, with examples, are those of `docs/FORMATS.md`.
//!
//! - A *line* is a datapoint, blank, or the first fault that it has (`specs/Line.antt`).
//!   `Point::read_line` returns which.
//! - A *connection* is its bytes, each with the moment of the piece that held it; how they were cut into
//!   pieces is not part of it. The *accepted* datapoints are those of its lines, in order
//!   (`specs/Connection.antt`). `LineReader::feed` adds to its `out` exactly those that a piece adds.
//! - A *piece* is cut at its newlines into a head, lines and a rest (`specs/Split.antt`). [`split_piece`]
//!   lends them as slices of the piece.
//! - A *datagram* is cut at bytes 10 to 13, and its last line needs no such byte (`specs/Datagram.antt`).
//!   [`datagram`] adds its datapoints, and returns how many of its lines are bad.
//! - A *printed* line is a datapoint's name, value and time, and byte 10 (`specs/Print.antt`).
//!   `print_line` writes it; the law `laws::reads_back` says that it is read as the same datapoint.
//!
//! ```text
//! let mut reader = LineReader::new(alloc);
//! let mut points = Vec::new(alloc);
//! let end = reader.feed(b"a.b 42 1700000000\n", moment, &mut points)?;
//! ```
#![tactic(auto)]

mod block;
mod bytes;
mod datagrams;
mod fault;
mod field;
mod found_lines;
mod halves;
pub mod laws;
mod line_end;
mod moment;
mod name;
mod name_bytes;
mod nearest;
mod number;
mod plain_line;
mod point;
mod powers;
mod print;
mod printed_value;
mod reader;
mod shared_names;
mod short;
mod split;
mod time;
mod value;

pub use datagrams::{datagram, datagram_with};
pub use fault::{LineFault, NameFault, NumberFault};
pub use found_lines::{FoundLines, LONGEST_LINE, NextRest};
pub use moment::{LAST_TIME, Moment};
pub use name::{LONGEST_NAME, Name};
pub use number::Number;
pub use point::Point;
pub use print::{LONGEST_PRINTED, LineBuf, line_length, print_line};
pub use reader::{FeedEnd, LineReader};
pub use relay_base::NoMemory;
pub use shared_names::SharedNames;
pub use split::{Cut, Lines, split_piece};
pub use value::{UNITS_OF_ONE, Value};
