//! Notes for people of what a configuration without a fault may not mean: keys without effect, rules that no name
//! reaches, copies on one host, more memory than there is.
//!
//! - [`notes_of_files`] returns the notes of the files of a configuration.
//! - [`most_memory`] returns how much memory a running relay may take.
//!
//! ```text
//! let notes = notes_of_files(alloc, &files, limits, NotesWanted::All)?;
//! rt.stderr().write_all(notes.text().as_bytes())?;
//! ```
//!
//! A note is a line, `relayd: note: ..`; `docs/FAULTS.md` lists them. All calls are proved safe and terminating; the
//! texts are tested (`e2e/cases/explained.py`; of memory `core_tests`).
#![tactic(auto)]

mod carbon_effects;
mod carbon_keys;
mod configuration;
mod good_files;
mod hardening_notes;
mod memory;
mod memory_notes;
mod memory_there;
mod odd_text;
mod reach;
mod receiver_notes;
mod replicas;
mod rewrite_notes;
mod rule_notes;
mod wanted;

pub use good_files::notes_of_files;
pub use line_text::LONGEST_NAME;
pub use memory::most_memory;
pub use memory_there::{group_memory, machine_memory, own_group};
pub use relay_base::MOST_RECEIVERS;
pub use wanted::{NotesWanted, RunLimits};
