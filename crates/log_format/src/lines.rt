//! The lines of the log in other forms.

use crate::counts::counts_in;
use crate::json::{push_key, push_member};
use crate::level::level_of;
use crate::line_parts::LineParts;
use crate::time_text::push_time;
use std::alloc::{AllocError, Global};
use std::fmt::Write as _;

/// Adds whole lines of the log, each behind a time, in seconds since 1970, and its level, as
/// `2026-11-28T21:35:07Z warning destination 127.0.0.1:2003 lost: ..`. Fails when out of memory; the text may have some of
/// the lines then.
pub fn push_timed_lines(text: &mut String, lines: &str, seconds: u64) -> Result<(), AllocError> {
    for line in lines.lines() {
        push_time(text, seconds)?;
        text.push(' ')?;
        text.push_str(level_of(line).name())?;
        text.push(' ')?;
        text.push_str(line)?;
        text.push('\n')?;
    }
    Ok(())
}

/// Adds whole lines of the log, each as an object of JSON: `time`, `level`, the destination, receiver or sender that it is
/// about, if it is about one, `what`, and `counts`, if it has some. Fails when out of memory; the text may have some of the
/// lines then.
pub fn push_json_lines(
    alloc: Global,
    text: &mut String,
    lines: &str,
    seconds: u64,
) -> Result<(), AllocError> {
    let mut time = String::new(alloc);
    push_time(&mut time, seconds)?;
    for line in lines.lines() {
        push_object(alloc, text, line, time.as_str())?;
    }
    Ok(())
}

/// Adds a line as an object of JSON, and a newline.
fn push_object(alloc: Global, text: &mut String, line: &str, time: &str) -> Result<(), AllocError> {
    let parts = LineParts::of(line);
    text.push('{')?;
    push_member(text, "time", time)?;
    push_member(text, "level", level_of(line).name())?;
    if !parts.name.is_empty() {
        push_member(text, parts.role, parts.name)?;
    }
    push_member(text, "what", parts.what)?;
    push_counts(alloc, text, parts.what)?;
    text.push_str("}\n")
}

/// Adds the counts of a line, if it has some.
fn push_counts(alloc: Global, text: &mut String, what: &str) -> Result<(), AllocError> {
    let counts = counts_in(alloc, what)?;
    if counts.is_empty() {
        return Ok(());
    }
    push_key(text, "counts")?;
    text.push('{')?;
    for count in &counts {
        push_key(text, count.name)?;
        write!(text, "{}", count.number)?;
    }
    text.push('}')
}
