//! What is asked of a watch.

use relay_base::{NoMemory, utf8_text, whole_number_up_to};
use std::fmt::Write as _;

/// What is asked of a watch.
#[derive(Clone, Copy)]
pub enum WatchRequest<'a> {
    /// To open one of datapoints.
    Lines(LinesWatch<'a>),
    /// To open one that counts datapoints by so many first parts of their names.
    Names(u64),
    /// What the one of this number has gathered.
    Next(u64),
    /// The same, and to end it.
    End(u64),
}

/// A watch of datapoints.
#[derive(Clone, Copy)]
pub struct LinesWatch<'a> {
    /// Whether each is an object of JSON.
    pub is_json: bool,
    /// The destination to which they go, if one alone is wanted.
    pub dest: Option<&'a str>,
    /// The pattern that is found in a name of theirs, if one is wanted.
    pub pattern: Option<&'a str>,
}

/// Adds what is asked. Refuses if out of memory.
pub fn push_watch(text: &mut String, request: WatchRequest<'_>) -> Result<(), NoMemory> {
    match request {
        WatchRequest::Lines(lines) => push_lines(text, lines)?,
        WatchRequest::Names(parts) => write!(text, "names {parts}")?,
        WatchRequest::Next(number) => write!(text, "next {number}")?,
        WatchRequest::End(number) => write!(text, "end {number}")?,
    }
    Ok(())
}

/// Adds what a watch of datapoints is asked.
fn push_lines(text: &mut String, lines: LinesWatch<'_>) -> Result<(), NoMemory> {
    text.push_str(if lines.is_json { "json" } else { "lines" })?;
    if let Some(dest) = lines.dest {
        text.push_str(" to ")?;
        text.push_str(dest)?;
    }
    if let Some(pattern) = lines.pattern {
        text.push_str(" find ")?;
        text.push_str(pattern)?;
    }
    Ok(())
}

/// What these bytes ask of a watch, if they do.
pub fn watch_request_in(asked: &[u8]) -> Option<WatchRequest<'_>> {
    let text = utf8_text(asked)?;
    let (word, rest) = text.split_once(' ').unwrap_or((text, ""));
    match word {
        "lines" => lines_in(false, rest),
        "json" => lines_in(true, rest),
        "names" => Some(WatchRequest::Names(number_in(rest)?)),
        "next" => Some(WatchRequest::Next(number_in(rest)?)),
        "end" => Some(WatchRequest::End(number_in(rest)?)),
        _ => None,
    }
}

/// The number that a text is, if it is one.
fn number_in(text: &str) -> Option<u64> {
    whole_number_up_to(text, u64::MAX)
}

/// The watch of datapoints that these words ask for.
fn lines_in(is_json: bool, words: &str) -> Option<WatchRequest<'_>> {
    let (dest, words) = dest_in(words);
    let pattern = pattern_in(words)?;
    Some(WatchRequest::Lines(LinesWatch {
        is_json,
        dest,
        pattern,
    }))
}

/// The destination with which words begin, if they do, and what follows it.
fn dest_in(words: &str) -> (Option<&str>, &str) {
    match words.strip_prefix("to ") {
        Some(rest) => {
            let (dest, words) = rest.split_once(' ').unwrap_or((rest, ""));
            (Some(dest), words)
        }
        None => (None, words),
    }
}

/// The pattern that words are, if they name one; `None` if they are something else.
fn pattern_in(words: &str) -> Option<Option<&str>> {
    if words.is_empty() {
        return Some(None);
    }
    Some(Some(words.strip_prefix("find ")?))
}
