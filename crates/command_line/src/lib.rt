//! The command line of `relayd`: the words that each command takes, and what given words ask for.
//!
//! [`parse_words`] reads the words of a process into an [`Invocation`]. Words that name nothing to do, and
//! `--help` and `--version`, give the text and the status of `clap`, in an [`Error`](clap::Error).
//!
//! ```text
//! match parse_words(alloc, words) {
//!     Ok(Invocation::Check(command)) => ..
//!     Err(error) => error.print(rt)
//! }
//! ```
#![tactic(auto)]

mod client_words;
mod commands;
mod explain;
mod invocation;
mod log_form;
mod long_help;
mod number_option;
mod options;
mod output_form;
mod pass_input;
mod paths;
mod run_options;
mod standard_input;
mod tips;
mod watch_options;
mod words;

pub use client_words::AdminAt;
pub use explain::Explain;
pub use invocation::{
    AskedNames, CheckCommand, Invocation, LiveRouteCommand, PassCommand, ReplayCommand,
    ReplayInput, RouteCommand, RunCommand, parse_words,
};
pub use log_form::LogForm;
pub use output_form::{OutputForm, RouteOutput};
pub use pass_input::PassInput;
pub use paths::Paths;
pub use standard_input::STANDARD_INPUT;
pub use watch_options::{WatchWanted, Watching};
