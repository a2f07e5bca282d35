//! What the threads of a running relay share beside its queues.
//!
//! [`RunState`] has it all: the signals between the threads ([`Signals`]), which the first one gives ([`Stopper`]), how many
//! connections each receiver of lines holds, what destinations note of their connections, and what becomes at the end of what is
//! queued ([`EndState`]). Each thread does a [`ThreadWork`]. [`Unsent`] knows what is not sent yet.
#![tactic(auto)]

mod counters;
mod disk_users;
mod gone_dest;
mod rest_notes;
mod run_notes;
mod run_state;
mod signals;
mod thread_work;
mod unsent;

pub use disk_users::{DiskTurns, DiskUser, DiskUsers};
pub use gone_dest::{GoneDest, GoneEnd, GoneNotes, GoneSources};
pub use rest_notes::RestNotes;
pub use run_notes::RunNotes;
pub use run_state::{DestSources, RunState};
pub use signals::{BeginNote, Signals, StopSign, Stopper, bit};
pub use thread_work::ThreadWork;
pub use unsent::{EndState, Unsent};
