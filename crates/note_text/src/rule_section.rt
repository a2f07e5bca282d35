//! Sections of a file of relay rules, and those that are no rule.

use crate::notes::Notes;
use crate::section_at::SectionAt;
use conf_text::{Section, truth};

/// The keys of a section of relay rules.
pub const RULE_KEYS: [&str; 4] = ["destinations", "pattern", "continue", "default"];

/// Why a section of a good file of rules is no rule, if it is none.
pub fn why_passed_over(section: &Section) -> Option<&'static str> {
    if section.contains_key("pattern") {
        return None;
    }
    match section.get("default") {
        None => Some("since it has neither `pattern` nor `default`"),
        Some(text) if truth(text) == Some(false) => Some("since its `default` says no"),
        Some(_) => None,
    }
}

/// A note of a section that is no rule.
pub fn add_passed_over(notes: &mut Notes, at: SectionAt<'_>, why: &'static str) {
    notes.add(format_args!("{at}: ignored, {why}"));
}
