//! Characters that other programs remove from a pattern or a replacement, and relayd keeps.

use note_text::{EscapedText, Notes, has_comment};

/// A note of what is odd in a line of a file.
pub(crate) fn add_odd_text(notes: &mut Notes, path: &str, line: usize, odd: &'static str) {
    notes.add(format_args!("{} line {line}: {odd}", EscapedText(path)));
}

/// What is odd in a pattern.
pub(crate) fn odd_pattern(text: &str) -> Option<&'static str> {
    if is_in_quotes(text) {
        Some("the quotes are part of the pattern, which then finds nothing; write it without them")
    } else if is_between(text, '/') {
        Some("the slashes are part of the pattern, which then finds nothing; write it without them")
    } else if is_of_sed(text) {
        Some(
            "this looks like a command of sed; write the expression alone, and the replacement of a rewrite rule after `=`",
        )
    } else if has_lone_space(text) {
        Some("the pattern has a space, and no metric name has one, so it finds nothing")
    } else if has_end_inside(text) {
        Some(
            "`^` is the beginning of a name and `$` its end, so the pattern finds nothing; write \\^ or \\$ for the sign itself",
        )
    } else if has_comment(text) {
        Some(
            "the comment is part of the pattern, which then finds nothing; write it on a line of its own",
        )
    } else {
        None
    }
}

/// What is odd in a replacement.
pub(crate) fn odd_replacement(text: &str) -> Option<&'static str> {
    if is_in_quotes(text) {
        Some("the quotes become part of the metric name; write the replacement without them")
    } else if has_dollar_group(text) {
        Some(
            "`$` and what follows it become part of the metric name; write \\1 to \\9 for groups of the pattern",
        )
    } else if text.starts_with(['>', '=']) {
        Some(
            "the first sign of the replacement becomes part of the metric name; write one `=` alone between pattern and replacement",
        )
    } else {
        None
    }
}

/// Whether a text begins and ends with a quote, straight or curly.
fn is_in_quotes(text: &str) -> bool {
    let quotes = [
        '"', '\'', '\u{201c}', '\u{201d}', '\u{201e}', '\u{2018}', '\u{2019}',
    ];
    text.chars().count() > 1 && text.starts_with(quotes) && text.ends_with(quotes)
}

/// Whether a text is a substitution of `sed`, as `s/a/b/`.
fn is_of_sed(text: &str) -> bool {
    match text.strip_prefix("s/") {
        Some(rest) => rest.contains('/'),
        None => false,
    }
}

/// Whether a pattern has a space which a name must have, if the pattern is to be found in it: it has no alternatives, and
/// nothing that repeats or leaves out.
fn has_lone_space(text: &str) -> bool {
    text.contains(' ') && !text.contains(['|', '[', '?', '*', '{', '#'])
}

/// Whether a pattern has a `^` behind other text, or a `$` before it, which no name can have there: it has no alternatives, no
/// groups or classes, no escapes but points, and nothing that repeats or leaves out.
fn has_end_inside(text: &str) -> bool {
    if text.contains(['|', '[', '(', '?', '*', '{']) || has_other_escape(text) {
        return false;
    }
    let inner = text.trim_start_matches('^').trim_end_matches('$');
    inner.contains(['^', '$'])
}

/// Whether a pattern has an escape that is not a point.
fn has_other_escape(text: &str) -> bool {
    for rest in text.split('\\').skip(1) {
        if !rest.starts_with('.') {
            return true;
        }
    }
    false
}

/// Patterns that are found as the whole of each name.
const WHOLE_NAMES: [&str; 6] = [".*", "^.*", ".*$", "^.*$", "^.+$", ".+"];

/// What is odd in a whole rule.
pub(crate) fn odd_rule(pattern: &str, replacement: &str) -> Option<&'static str> {
    if replacement.is_empty() && WHOLE_NAMES.contains(&pattern) {
        Some("the rule drops every name")
    } else if pattern.is_empty() && !replacement.is_empty() {
        Some(
            "the rule has no pattern, so it puts its replacement between all letters of every name",
        )
    } else {
        None
    }
}

/// Whether a text begins and ends with a character.
fn is_between(text: &str, sign: char) -> bool {
    text.len() > 1 && text.starts_with(sign) && text.ends_with(sign)
}

/// Whether a text has a `$` with what names a group in other programs.
fn has_dollar_group(text: &str) -> bool {
    for rest in text.split('$').skip(1) {
        if let [b'0'..=b'9' | b'{', ..] = rest.as_bytes() {
            return true;
        }
    }
    false
}
