//! How a relay runs, apart from its files: what the options of `relayd run` ask for.
//!
//! The command line makes the [`RunOptions`]; what begins a run reads them, and no layer between copies them.
//!
//! ```
//! let options = RunOptions { drain: 5, ..RunOptions::new(2015) };
//! ```
#![tactic(auto)]

mod line_receivers;
mod run_options;
mod senders;

pub use line_receivers::{LineReceivers, line_receivers_in};
pub use run_options::{RunOptions, StatusOptions};
pub use senders::{Senders, senders_in};
