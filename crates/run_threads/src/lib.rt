//! The threads of a run: one for each receiver and each sender, and the watching threads.
//!
//! [`run_all_threads`] starts a thread for each of the [`Jobs`], has the first one do its [`FirstWork`] meanwhile, and ends the others
//! in their order ([`ThreadEnds`]). What an end waits for is here too: until receivers have read what was sent ([`ClosingWait`]),
//! senders have sent what they can ([`Drain`], [`GoneDrain`]), and files have the rest ([`SpoolWait`]).
#![tactic(auto)]

mod closing_wait;
mod drain;
mod ending;
mod gone_drain;
mod threads;

pub use closing_wait::ClosingWait;
pub use drain::{Drain, SpoolWait};
pub use ending::{FirstWork, RunEnd, ThreadEnd, ThreadEnds};
pub use gone_drain::GoneDrain;
pub use threads::{Jobs, Receiving, run_all_threads};
