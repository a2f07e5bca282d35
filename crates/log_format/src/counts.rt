//! The counts that a line of the log has.

use relay_base::whole_number_up_to;
use std::alloc::{AllocError, Global};

/// A count of a line: its name, as `bad_lines`, and its number.
#[derive(Clone, Copy)]
pub struct Count {
    /// The name, in the plural.
    pub name: &'static str,
    /// The number.
    pub number: u64,
}

/// What a count has behind its number, and its name.
static BEHIND: [(&str, &str); 22] = [
    ("lines lost", "lines_lost"),
    ("bad line", "bad_lines"),
    ("bad pickle", "bad_pickles"),
    ("bad row", "bad_rows"),
    ("bad name", "bad_names"),
    ("dropped name", "dropped_names"),
    ("overlong line", "overlong_lines"),
    ("overlong frame", "overlong_frames"),
    ("overlong datagram", "overlong_datagrams"),
    ("unfinished line", "unfinished_lines"),
    ("unfinished frame", "unfinished_frames"),
    ("idle connection", "idle_connections"),
    ("broken connection", "broken_connections"),
    ("memory shortage", "memory_shortages"),
    ("system drop", "system_drops"),
    ("datapoints spooled", "spooled"),
    ("datapoints not sent", "not_sent"),
    ("datapoints", "datapoints"),
    ("bytes", "bytes"),
    ("seconds old", "age_seconds"),
    ("unknown command", "unknown_commands"),
    ("without the key", "without_key"),
];

/// What a count has before its number, and its name.
static BEFORE: [(&str, &str); 2] = [("dropped", "dropped"), ("refused", "refused")];

/// The counts of what a line says, in its order. Refuses if out of memory.
pub fn counts_in(alloc: Global, what: &str) -> Result<Vec<Count>, AllocError> {
    let mut counts = Vec::new(alloc);
    for part in what.split(", ") {
        if let Some(count) = count_in(part) {
            counts.push(count)?;
        }
    }
    Ok(counts)
}

/// The count of a part of a line, if it is one: `12 bad lines`, `log: 12 lines lost`, `dropped 12` or `dropped 12 at a reload`.
fn count_in(part: &str) -> Option<Count> {
    let (_, part) = part.split_once(": ").unwrap_or(("", part));
    let (first, rest) = part.split_once(' ')?;
    if let Some(number) = whole_number_up_to(first, u64::MAX) {
        let name = name_behind(rest)?;
        return Some(Count { name, number });
    }
    let (second, _) = rest.split_once(' ').unwrap_or((rest, ""));
    let number = whole_number_up_to(second, u64::MAX)?;
    let name = name_before(first)?;
    Some(Count { name, number })
}

fn name_behind(rest: &str) -> Option<&'static str> {
    for (text, name) in &BEHIND {
        if rest.starts_with(*text) {
            return Some(*name);
        }
    }
    None
}

fn name_before(before: &str) -> Option<&'static str> {
    for (text, name) in &BEFORE {
        if before == *text {
            return Some(*name);
        }
    }
    None
}
