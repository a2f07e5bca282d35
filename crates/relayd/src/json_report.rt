//! `relayd report --json`: the report of a relay as objects of JSON.

use log_format::{push_key, push_string};
use relay_base::{utf8_text, whole_number_up_to};
use std::alloc::{AllocError, Global};
use std::fmt::Write as _;

/// The lines of a report, each an object whose members are its pairs of words; `None` if a line has no such pairs.
pub fn json_report(alloc: Global, report: &[u8]) -> Result<Option<String>, AllocError> {
    let Some(report) = utf8_text(report) else {
        return Ok(None);
    };
    let mut text = String::new(alloc);
    for line in report.lines() {
        if !push_line(&mut text, line)? {
            return Ok(None);
        }
    }
    Ok(Some(text))
}

/// Adds the object of a line, and a newline. Returns whether each of its words is one of a pair.
fn push_line(text: &mut String, line: &str) -> Result<bool, AllocError> {
    text.push('{')?;
    let mut key = None;
    for word in line.split(' ') {
        key = match key {
            None => Some(word),
            Some("") => return Ok(false),
            Some(key) => {
                push_key(text, key)?;
                push_value(text, word)?;
                None
            }
        };
    }
    text.push_str("}\n")?;
    Ok(key.is_none())
}

/// Adds a value: a number, if it is one in decimal digits, or a text.
fn push_value(text: &mut String, word: &str) -> Result<(), AllocError> {
    match whole_number_up_to(word, u64::MAX) {
        Some(number) => write!(text, "{number}"),
        None => push_string(text, word),
    }
}
