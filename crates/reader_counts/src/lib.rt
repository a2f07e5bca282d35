//! What readers count of all that they were fed: one list of these counts for the crates that make, add up, note and
//! show them.
//!
//! - [`ReaderCounts`] says what was wrong.
//! - [`ReaderTotals`] adds how many datapoints were accepted.
//!
//! ```text
//! let totals = ReaderTotals::zero().with(one.totals()).with(other.totals());
//! ```
#![tactic(auto)]

mod counts;
mod totals;

pub use counts::ReaderCounts;
pub use totals::ReaderTotals;
