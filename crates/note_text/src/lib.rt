//! What the notes of `--explain` are made of.
//!
//! - [`Notes`] are lines for people, each of which begins with `relayd: note: `. They may show a line of a file with
//!   carets under an item of it, and escape what a terminal would not show ([`EscapedText`]).
//! - [`Sources`] are the files that notes are made of; [`FileLine`] is a line of one, and [`SectionAt`] a section.
//! - [`NearestKey`] is the key that an unknown one may be meant for.
//!
//! `fault_notes` says why something was refused, `config_notes` what a good configuration may not intend. All calls are
//! proved safe and terminating; the texts are tested (`e2e/cases/explained.py`).
#![tactic(auto)]

mod escaped;
mod excerpt;
mod file_line;
mod nearest;
mod notes;
mod rule_section;
mod section_at;
mod source;
mod text_file;

pub use escaped::{EscapedBytes, EscapedText};
pub use file_line::{
    FileLine, KeyLine, first_like, has_comment, has_key, header_of, is_header, is_indented,
    key_value, line_numbered, line_of_key, rule_in, white_before,
};
pub use nearest::{NearestKey, is_misspelt};
pub use notes::Notes;
pub use rule_section::{RULE_KEYS, add_passed_over, why_passed_over};
pub use section_at::{RELAY, SectionAt};
pub use source::{Source, SourceText, Sources};
pub use text_file::{IniFile, TextFile};
