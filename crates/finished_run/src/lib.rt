//! What a run leaves when it has ended, for a record of it.
//!
//! [`FinishedRun`] has the configuration and the shape of the run, how its queues settled, and what its threads logged.
//! `relay_run` gives it to a [`Recorder`]; `run_record` makes the replay script of it. Neither depends on the other.
#![tactic(auto)]

mod recorder;
mod run_shape;
mod thread_logs;

pub use recorder::{FinishedRun, NoRecorder, Recorder, RunPlace};
pub use run_shape::RunShape;
pub use thread_logs::{FedLog, ThreadLogs};
