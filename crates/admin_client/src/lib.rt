//! The protocol of a relay's admin port, and its client on this machine.
//!
//! - [`ask`] sends a command, and copies the answer to an output.
//! - [`stop_and_wait`] sends `stop`, copies the answer, and returns when the relay has ended.
//! - [`answer_to`] sends a command and returns the answer: [`reload_answer_in`] reads that to `reload`, and
//!   [`reload_files_in`] that to `files`.
//! - [`answer_about`] asks where a metric goes, which [`route_answer_in`] reads, or something of a watch, which
//!   [`watch_answer_in`] reads. [`push_watch`] writes what is asked of a watch, and [`watch_request_in`] reads it.
//! - [`asked_in`] reads what a connection asks for, and [`files_answer`] makes the answer to `files`, for the relay's side.
//!
//! Each call takes some seconds at most for a relay that does not answer, and is proved safe and returning.
//! `specs/AdminCommand.antt` says which command the bytes of a connection are, and `specs/AdminAnswer.antt` what answers
//! `stop`.
//!
//! ```text
//! ask(rt, alloc, 2015, AdminCommand::Report, &mut rt.stdout())?;
//! ```
#![tactic(auto)]

mod admin_answer;
mod admin_command;
mod admin_fault;
mod admin_key;
mod client;
mod connection;
mod reload_answer;
mod reload_files;
mod route_answer;
mod watch_answer;
mod watch_request;

pub use admin_command::{
    AdminCommand, LONGEST_COMMAND, LONGEST_ROUTED, STOPPING, UNKNOWN_COMMAND, asked_of_watch,
    routed_name,
};
pub use admin_fault::AdminFault;
pub use admin_key::{Asked, LEAST_KEY, LONGEST_KEY, WRONG_KEY, asked_in, behind_key, key_in};
pub use client::{RelayAt, answer_about, answer_to, ask, stop_and_wait};
pub use reload_answer::{REFUSED_FOR_MEMORY, RELOADED, Refusal, ReloadAnswer, reload_answer_in};
pub use reload_files::{ReloadFiles, can_be_named, files_answer, reload_files_in};
pub use route_answer::{DROPPED, ROUTED, RouteAnswer, route_answer_in};
pub use watch_answer::{
    WATCH_OVER, WATCH_REFUSED, WATCHED, WATCHING, WatchAnswer, watch_answer_in,
};
pub use watch_request::{LinesWatch, WatchRequest, push_watch, watch_request_in};
