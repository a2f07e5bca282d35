//! The lines of a file, with their keys and headers.

use relay_base::{is_white, strip};

/// A line of a file, with its number from 1.
#[derive(Clone, Copy)]
pub struct FileLine<'a> {
    pub number: usize,
    pub text: &'a str,
}

/// A line that gives a key its value, and how many of its bytes precede the value.
#[derive(Clone, Copy)]
pub struct KeyLine<'a> {
    pub key: &'a str,
    pub value: &'a str,
    pub start: usize,
}

/// The line of a number; an empty one if the file has no such line.
pub fn line_numbered(text: &str, number: usize) -> FileLine<'_> {
    let line = text.split('\n').nth(number.saturating_sub(1));
    FileLine {
        number,
        text: line.unwrap_or(""),
    }
}

/// The header of the section of a number, from 0.
pub fn header_of(text: &str, section: usize) -> Option<FileLine<'_>> {
    let mut headers: usize = 0;
    let mut number: usize = 0;
    for line in text.split('\n') {
        number = number.saturating_add(1);
        if is_header(line) {
            if headers == section {
                return Some(FileLine { number, text: line });
            }
            headers = headers.saturating_add(1);
        }
    }
    None
}

/// The line of a key in the section of a number, from 0.
pub fn line_of_key<'a>(text: &'a str, section: usize, key: &str) -> Option<FileLine<'a>> {
    let wanted = section.saturating_add(1);
    let mut headers: usize = 0;
    let mut number: usize = 0;
    for line in text.split('\n') {
        number = number.saturating_add(1);
        if is_header(line) {
            headers = headers.saturating_add(1);
        } else if headers == wanted && has_key(line, key) {
            return Some(FileLine { number, text: line });
        }
    }
    None
}

/// The first line before this one that begins the section of a name, or that has a key in the section of the line.
pub fn first_like<'a>(text: &'a str, line: FileLine<'_>) -> Option<FileLine<'a>> {
    let wanted = strip(line.text);
    let key = key_value(line.text);
    let mut first = None;
    let mut number: usize = 0;
    for other in text.split('\n').take(line.number.saturating_sub(1)) {
        number = number.saturating_add(1);
        let is_like = match key {
            Some(pair) => has_key(other, pair.key),
            None => strip(other) == wanted,
        };
        if is_like {
            first = Some(FileLine {
                number,
                text: other,
            });
        } else if key.is_some() && is_header(other) {
            first = None;
        }
    }
    first
}

/// Whether a line begins a section.
pub fn is_header(line: &str) -> bool {
    strip(line).starts_with('[')
}

/// Whether a line begins with white space, as a continued line does in carbon.
pub fn is_indented(line: &str) -> bool {
    match line.as_bytes() {
        [first, ..] => is_white(*first) && !strip(line).is_empty(),
        [] => false,
    }
}

/// Whether a line gives a key its value.
pub fn has_key(line: &str, key: &str) -> bool {
    match key_value(line) {
        Some(pair) => pair.key == key,
        None => false,
    }
}

/// The key and the value of a line, if it has them.
pub fn key_value(line: &str) -> Option<KeyLine<'_>> {
    if let [] | [b'#' | b';' | b'[', ..] = strip(line).as_bytes() {
        return None;
    }
    cut_at(line, line.find(['=', ':'])?)
}

/// A line cut into two texts at a sign, each stripped.
fn cut_at(line: &str, cut: usize) -> Option<KeyLine<'_>> {
    let after = cut.saturating_add(1);
    let rest = line.get(after..)?;
    Some(KeyLine {
        key: strip(line.get(..cut)?),
        value: strip(rest),
        start: after.saturating_add(white_before(rest)),
    })
}

/// A rewrite rule as its line is split: the pattern as the key, the replacement as the value.
pub fn rule_in(line: &str) -> Option<KeyLine<'_>> {
    cut_at(line, line.find('=')?)
}

/// Whether a text has white space and then a `#` or a `;`, as before a comment.
pub fn has_comment(text: &str) -> bool {
    text.contains(" #") || text.contains("\t#") || text.contains(" ;") || text.contains("\t;")
}

/// How many bytes of white space a text begins with.
pub fn white_before(text: &str) -> usize {
    for (place, byte) in text.as_bytes().iter().enumerate() {
        if !is_white(*byte) {
            return place;
        }
    }
    0
}
