//! The record of a run: its replay script, made of what the run left.
//!
//! [`record_run`] asks that the queues of a finished run settled and that no log was sealed. It takes what each reader was
//! fed and what each destination's writer did from the logs, and the steps of the queues from their histories, in the order
//! of the settling. [`script_of_run`] makes one list of events of these parts, applies them to a world of the same plan, and
//! writes them with [`write_script`] and [`write_event`]. There is a script only if each event may happen when it is applied,
//! if the world's queues take exactly the steps of the histories, and if they have the counts of the settling at the end.
//! `Script::read` of [`replay`] reads the text back: the law [`laws::reads_back`] says so of every script whose numbers and
//! bytes the form has room for.
//!
//! ```text
//! write_script(alloc, &[ReaderKind::Line], &[Event::Up(0), Event::Wrote(0, 8)], &mut text)?;
//! // text is "reader line\nup 0\nwrote 0 8\n"
//! ```
//!
//! `specs/ScriptLines.antt` defines what a line is, `specs/Laws.antt` which scripts are read back, `specs/PartEvents.antt`
//! when events have what the parts hold, `specs/QueueSteps.antt` which steps queues record in a run, `specs/RunScript.antt`
//! what a script of a run is, and `specs/Recorded.antt` what the record of a settled run is.
#![tactic(auto)]

mod applying;
mod event_line;
mod events;
mod history;
pub mod laws;
mod parts;
mod queue_step;
mod reader_line;
mod record;
mod record_fault;
mod script;
mod script_lines;

pub use event_line::write_event;
pub use parts::{RunParts, RunScriptFault};
pub use record::record_run;
pub use record_fault::RecordFault;
pub use script::script_of_run;
pub use script_lines::write_script;
