//! Other forms of the log's lines: behind a time and a level, or as objects of JSON.
//!
//! [`push_timed_lines`] and [`push_json_lines`] take whole lines of the log. [`level_of`] says how much a line matters, and
//! [`LineParts`] whom it is about. [`push_key`] and [`push_string`] write a part of an object. All calls are proved safe and returning; the texts are tested
//! (`e2e/cases/log_forms.py`).
#![tactic(auto)]

mod counts;
mod json;
mod level;
mod line_parts;
mod lines;
mod time_text;

pub use counts::{Count, counts_in};
pub use json::{push_key, push_member, push_string};
pub use level::{Level, level_of};
pub use line_parts::LineParts;
pub use lines::{push_json_lines, push_timed_lines};
pub use time_text::push_time;
