//! Common orders of lists of numbers: [`common_order`] merges lists into one that has each of them as a subsequence,
//! or says that there is none. `specs/CommonOrder.antt` defines such an order.
//!
//! ```
//! common_order(alloc, &lists)?; // of 1 2, 3 4, 1 4 and 3 2 it has 1 and 3 before 2 and 4
//! ```
#![tactic(auto)]

mod orders;
mod repeats;
mod search;
mod waits;

pub use orders::{OrderFault, common_order};
