//! Replays: a relay runs a script in one thread, and a text says what happened.
//!
//! [`Script::read`] reads a script whole: the kinds of its readers and its events, each with the number of its
//! line, or its first faulty line. The form is this project's own (`docs/FORMATS.md`).
//!
//! ```text
//! let script = Script::read(alloc, "reader line\npiece 0 9 612e78203120350a\noffer 0\n")?;
//! // script.kinds() is [Line], and script.events() has a piece at line 2 and an offer at line 3
//! ```
//!
//! [`replay_text`] makes a [`World`] of a plan and a script's readers, applies each event of the script to it, and
//! writes which of them were no part of the run, what each connection of each destination got, the report, and a
//! line for each reader. [`replay_lines`] does the same with lines in place of a script.
//!
//! What a script says is `script_of` of `specs/ScriptText.antt`, and what a line says `meaning_of` of
//! `specs/ScriptLine.antt`. `specs/RunText.antt` has the text of a replay as a function of the run (`relay_core`),
//! so it depends on nothing else: the same files give the same text. The modules `script..` read the script, and
//! the modules `run..` run it; `lines_run` runs lines.
//!
//! [`World`]: relay_core::World
#![tactic(auto)]

mod handed_form;
pub mod laws;
mod lines_run;
mod run_events;
mod run_lines;
mod run_text;
mod script;
mod script_event;
mod script_fault;
mod script_line;
mod script_words;

pub use handed_form::HandedForm;
pub use lines_run::replay_lines;
pub use relay_base::NoMemory;
pub use run_text::replay_text;
pub use script::Script;
pub use script_event::{OwnedEvent, ScriptEvent};
pub use script_fault::ScriptFault;
