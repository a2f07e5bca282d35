//! The running relay: `relayd run` as a library.
//!
//! [`run`] reads the files of a configuration, listens, starts a thread for each receiver and each sender,
//! answers the commands of its admin port until one is `stop`, joins the threads, and settles: it compares the
//! queues' counts and histories with what the threads recorded, and reports the result in one line. A reload ends a run so that
//! the next goes on with what it held. Its file names its parts.
//!
//! [`RelayRuntime`] is what a run needs of the system; its threads read the time from `mio_loops::SystemTimes`.
//!
//! The command line is read by the program `relayd`, not here.
#![tactic(auto)]

mod admin;
mod admin_desk;
mod closing;
mod ended_run;
mod failed_run;
mod keeper_setup;
mod next_start;
mod prepared_run;
mod receiver_job;
mod receiver_setup;
mod relay;
mod relay_jobs;
mod reload;
mod reload_source;
mod run_command;
mod run_end_work;
mod run_levels;
mod run_setup;
mod runtime;
mod sender_job;
mod sender_setup;
mod shape;
mod shared_parts;
mod shortage;
mod spool_folder;
mod start;

pub use relay_ports::{SystemTables, descriptors_needed, free_descriptors};
pub use reload_source::{FilesAsked, RefusedReload, ReloadSource};
pub use run_command::run;
pub use run_setup::{RunObservers, RunSetup};
pub use runtime::RelayRuntime;
pub use spool_folder::{SpoolFault, SpoolFolder};
