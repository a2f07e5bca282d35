//! A text that goes out in whole lines, by one connection after another: where in it the sending stands.
//!
//! A [`Cursor`] moves past the lines that a connection took to their ends. Once the connection is over, the next one gets the
//! text from the beginning of the first line that was not wholly taken. `specs/Lines.antt` says what the whole lines of a
//! text are, and `specs/Place.antt` where a cursor stands by what each connection took. By the [`laws`] no line is lost: the
//! whole lines that the connections took, and then what is left, are the text.
//!
//! ```text
//! let mut cursor = Cursor::new();
//! cursor.take(b"a 1 2\nb 3");  // of "a 1 2\nb 3 4\n"
//! cursor.reconnect();
//! cursor.next();               // 6: the next connection gets "b 3 4\n"
//! ```
#![tactic(auto)]

mod cursor;
pub mod laws;
mod whole;

pub use cursor::Cursor;
pub use whole::whole_length;
