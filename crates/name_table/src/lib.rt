//! What is remembered of metric names.
//!
//! A [`NameTable`] has entries of a name and a value, at most 131,072. Metrics use the same names again and again,
//! so what was computed for a name once is looked up by its text, and its datapoints share the name in memory.
//!
//! ```text
//! let mut table = NameTable::new(alloc);
//! if table.is_repeated(name.text().as_bytes()) {
//!     table.keep(Entry { name, value });
//! }
//! if let Some(entry) = table.find(b"servers.web1.cpu") { .. }
//! ```
//!
//! In clauses a table is the list of its entries. What is found is an entry with exactly the name looked up
//! (`IsFound` of `specs/NameTable.antt`). Keeping an entry may remove others, and adds only that one (`Keeps`). So a
//! law that holds for each entry holds after every call (`proofs/CallerLemmas.antt`). Nothing else changes an entry.
//! Which entries are kept, and for how long, is left open.
#![tactic(auto)]

mod prefetch;
mod same_text;
mod sightings;
mod slot;
mod table;

pub use table::{Entry, LONGEST_KEPT, MOST_BYTES, NameTable, OwnedBytes};
