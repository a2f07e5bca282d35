//! The threads that watch a running relay: that of its log, and that of its status server.
//!
//! Both implement `ThreadWork` of `run_state`: they read what receivers and senders note while these run, and end after them, as
//! `Signals` of `run_state` says. [`watchers_of`] makes their work. [`LogJob`] writes the news of each destination and each
//! receiver, in the words of `log_lines`, through a [`LogBuffer`], so that it waits for no reader. [`StatusJob`] serves the pages of `status_page`, and keeps samples of the last
//! minutes for them.
#![tactic(auto)]

mod dest_rest;
mod dest_track;
mod late_news;
mod log_buffer;
mod log_job;
mod log_writes;
mod process;
mod producer_history;
mod receiver_log;
mod receiver_track;
mod status_history;
mod status_job;
mod watchers;

pub use late_news::LateNews;
pub use log_buffer::LogBuffer;
pub use log_job::{LogEnd, LogJob};
pub use process::SystemFacts;
pub use receiver_log::ReceiverLog;
pub use status_job::{StatusJob, StatusServer};
pub use status_page::WatchedAt;
pub use watchers::{Watched, watchers_of};
