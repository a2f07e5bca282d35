//! The writer of one destination: a batch in hand, partial writes, connections that come and go.
//!
//! A [`Writer`] holds the batch that it writes, the hand, and how many bytes of the hand's text the
//! connection took. It takes the next batch only while there is a connection and the hand is empty.
//! When the connection is lost, what was wholly taken leaves the hand, and the rest is written
//! again from its first byte on the next connection: every line goes out whole, once.
//!
//! `specs/Writer.antt` has the writer machine, a function from a state and a step to the next
//! state; the calls of [`Writer`] are its steps. [`Writer::drive`] makes up to [`MOST_WRITES`]
//! writes to a stream, and leaves the writer in the machine's state after what the stream took. A
//! [`Counting`] is a stream that counts its calls and failures.
//!
//! The first connection takes eight bytes of a hand of two lines:
//!
//! ```text
//! writer.up()?;
//! writer.fill(&mut hand);  // "a 1 2\nb 3 4\n"
//! writer.wrote(8)?;        // "a 1 2\nb "
//! writer.down()?;
//! writer.up()?;
//! writer.next_bytes();     // "b 3 4\n"
//! ```
#![tactic(auto)]

mod counting;
mod driven;
mod gather_buf;
pub mod laws;
mod place;
mod portion;
mod printing;
mod writer;
mod writes;

pub use counting::{CallCounts, Counting, Outcome};
pub use driven::{DriveReport, Driven, WriterFault};
pub use gather_buf::{ENOUGH_GATHERED, GatherBuf};
pub use relay_base::NoMemory;
pub use writer::Writer;
pub use writes::MOST_WRITES;
