//! Notes of faults in a rewrite file.

use crate::cause::{Cause, add_cure};
use crate::cure::Cure;
use crate::line_faults::{cause_of_signs, is_foreign_comment};
use crate::other_files::cause_of_other_file;
use crate::pattern_faults::{PatternText, add_bad_pattern};
use note_text::{
    FileLine, KeyLine, Notes, TextFile, has_comment, has_key, line_numbered, rule_in, white_before,
};
use regex::Regex;
use relay_base::strip;
use rewrite_rules::RewriteReadFault;
use std::alloc::Global;

/// Notes of a fault in a rewrite file: the line with carets under what is wrong, why, and the cure.
pub(crate) fn add_rewrite_fault(
    alloc: Global,
    notes: &mut Notes,
    file: TextFile<'_>,
    fault: RewriteReadFault,
) {
    match fault {
        RewriteReadFault::NoSection { line } => {
            let line = line_numbered(file.text, line);
            notes.add_line(file.path, line);
            add_cure(notes, cause_of_header(file.text, line), Cure::PRE_OR_POST)
        }
        RewriteReadFault::NoEquals { line } => {
            add_no_equals(notes, file.path, line_numbered(file.text, line))
        }
        RewriteReadFault::BadPattern { line } | RewriteReadFault::BadReplacement { line } => {
            let line = line_numbered(file.text, line);
            if let Some(rule) = rule_in(line.text) {
                add_bad_rule(alloc, notes, file.path, line, rule);
            }
        }
        RewriteReadFault::NoMemory => notes.cut(),
    }
}

/// Notes of a line that has no `=`.
fn add_no_equals(notes: &mut Notes, path: &str, line: FileLine<'_>) {
    notes.add_line(path, line);
    let is_comment = strip(line.text).starts_with(';');
    add_cure(
        notes,
        is_comment.then_some(Cause::SEMICOLON_COMMENT),
        Cure::WRITE_RULE,
    )
}

/// What a line has in place of `[pre]` and `[post]`.
fn cause_of_header(text: &str, line: FileLine<'_>) -> Option<Cause> {
    if let Some(cause) = cause_of_signs(text, line) {
        Some(cause)
    } else if is_foreign_comment(line.text) {
        Some(Cause::COMMENT_SIGN)
    } else if strip(line.text) == "[relay]" {
        Some(Cause::CONFIG_FILE_AS_OTHER)
    } else if let Some(cause) = cause_of_other_file(text) {
        Some(cause)
    } else if has_destinations(text) {
        Some(Cause::RULES_FILE_AS_REWRITE)
    } else if is_white_header(line.text) {
        Some(Cause::WHITE_IN_HEADER)
    } else if strip(line.text).starts_with('[') && line.text.contains('=') {
        Some(Cause::PATTERN_AS_HEADER)
    } else {
        None
    }
}

/// Whether a line is `[pre]` or `[post]` with white space inside the brackets.
fn is_white_header(line: &str) -> bool {
    let Some(name) = strip(line).strip_prefix('[') else {
        return false;
    };
    match name.strip_suffix(']') {
        Some(name) => is_section(strip(name)),
        None => false,
    }
}

fn is_section(name: &str) -> bool {
    name.eq_ignore_ascii_case("pre") || name.eq_ignore_ascii_case("post")
}

fn has_destinations(text: &str) -> bool {
    for line in text.split('\n') {
        if has_key(line, "destinations") {
            return true;
        }
    }
    false
}

/// Notes of a rule whose pattern or replacement is refused.
fn add_bad_rule(
    alloc: Global,
    notes: &mut Notes,
    path: &str,
    line: FileLine<'_>,
    rule: KeyLine<'_>,
) {
    let cut = cause_of_cut(rule);
    let Some(groups) = group_count(alloc, rule.key) else {
        let text = PatternText {
            text: rule.key,
            start: white_before(line.text),
            ignores_case: false,
            cause: cut,
        };
        return add_bad_pattern(alloc, notes, path, line, text);
    };
    let (at, cause) = fault_in(rule.value, groups);
    let start = rule.start.saturating_add(at);
    notes.add_place(path, line, start, start.saturating_add(1));
    add_cure(notes, cut.or(Some(cause)), Cure::REPLACEMENT)
}

/// How many groups a pattern has, with group 0; `None` if it is refused.
fn group_count(alloc: Global, pattern: &str) -> Option<usize> {
    let pattern = Regex::new(alloc, pattern).ok()?;
    let groups = pattern.captures_len();
    drop(pattern);
    Some(groups)
}

/// What the first `=` of a line has split, if it was not meant to.
fn cause_of_cut(rule: KeyLine<'_>) -> Option<Cause> {
    if rule.key.ends_with("(?") || rule.key.ends_with("(?<") {
        Some(Cause::CUT_IN_LOOK_AROUND)
    } else if rule.value.starts_with('>') {
        Some(Cause::ARROW)
    } else if rule.value.starts_with('=') {
        Some(Cause::SECOND_EQUALS)
    } else if rule.value.contains('=') {
        Some(Cause::CUT_AT_FIRST_EQUALS)
    } else {
        None
    }
}

/// The backslash or the byte at which a replacement is refused, and why; the pattern has `groups` groups, with
/// group 0.
fn fault_in(replacement: &str, groups: usize) -> (usize, Cause) {
    let mut rest = replacement.as_bytes();
    for _step in 0..replacement.len() {
        let at = replacement.len().saturating_sub(rest.len());
        rest = match rest {
            [b'\\', b'\\', rest @ ..] => rest,
            [b'\\', digit, rest @ ..] if is_group(*digit, rest, groups) => rest,
            [b'\\', rest @ ..] => return (at, cause_of_escape(rest)),
            [] => return (at, Cause::ESCAPE_IN_REPLACEMENT),
            [byte, ..] if *byte <= b' ' || *byte == 127 => return (at, cause_of_white(replacement)),
            [_, rest @ ..] => rest,
        };
    }
    (0, Cause::ESCAPE_IN_REPLACEMENT)
}

/// Why a backslash is refused that has this after it.
fn cause_of_escape(rest: &[u8]) -> Cause {
    match rest {
        [b'g', b'<', ..] => Cause::NAMED_GROUP,
        [b'_' | b'^' | b'.', b'0'..=b'9', ..] => Cause::CHANGED_GROUP,
        [b'1'..=b'9', b'0'..=b'9', ..] => Cause::LONG_GROUP_NUMBER,
        [b'1'..=b'9', ..] => Cause::NO_SUCH_GROUP,
        _ => Cause::ESCAPE_IN_REPLACEMENT,
    }
}

/// Why a replacement has white space or a control byte.
fn cause_of_white(replacement: &str) -> Cause {
    if has_comment(replacement) {
        Cause::COMMENT_IN_REPLACEMENT
    } else {
        Cause::WHITE_IN_REPLACEMENT
    }
}

/// Whether a digit names a group, and no other digit follows it.
fn is_group(digit: u8, rest: &[u8], groups: usize) -> bool {
    let is_number = match rest {
        [next, ..] => next.is_ascii_digit(),
        [] => false,
    };
    matches!(digit, b'1'..=b'9') && !is_number && usize::from(digit.saturating_sub(b'0')) < groups
}
