//! One reader of the relay, of any kind: it reads connections of lines or of pickles one after the
//! other, or datagrams; what it reads goes through a plan, and the resulting offers wait in it
//! until its caller takes them out.
//!
//! - A reader's *input* is what it was fed: connections or datagrams, each byte with the moment of
//!   its piece (`specs/Input.antt`). How the bytes were cut into pieces is not part of it.
//! - Its *offers* are what the accepted datapoints of the whole input become under the plan, in
//!   order (`specs/Offers.antt`); `specs/Kinds.antt` defines how each [`ReaderKind`] reads.
//! - [`Reader::feed`] takes a piece whole or not at all: a refusal leaves the reader unchanged. After
//!   it, the offers taken out and then those that wait are the offers of the whole input.
//!
//! [`laws`] has the laws of these definitions. A line, read and then offered:
//!
//! ```text
//! let mut reader = Reader::new(alloc, ReaderKind::Line);
//! let end = reader.feed(&mut plan, b"a.b 42 1700000000\n", moment)?;
//! while let Some((dest, point)) = reader.next_offer() { .. }
//! reader.end();
//! ```
#![tactic(auto)]

mod fault;
mod kind;
pub mod laws;
mod offer;
mod reader;
mod scan;
mod sending;

pub use fault::{FeedFault, ReaderEnd};
pub use kind::ReaderKind;
pub use reader::Reader;
pub use reader_counts::{ReaderCounts, ReaderTotals};
pub use relay_base::NoMemory;
