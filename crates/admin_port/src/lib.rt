//! The admin port of a running relay: connections that each send one command and take its answer.
//!
//! [`AdminListener`] takes connections, reads their commands, and writes what `admin_client` and [`Answers`] answer. It
//! serves 64 connections side by side, each of which has a second for its command and as long for its answer. If others
//! wait, the oldest that has sent no command gives way. Once the relay stops, silent connections stay until it ends. One
//! that asks for a reload waits until [`AdminListener::answer_reload`], also over the end of a run.
#![tactic(auto)]

mod admin_connection;
mod admin_listener;

pub use admin_listener::{AdminListener, Answers, Refusals};
