//! What `relayd watch` writes.

use admin_client::AdminFault;
use log_format::push_string;
use relay_base::{NoMemory, utf8_text, whole_number_up_to};
use std::fmt::Write as _;
use std::io::Write;

/// What a watch has counted: of datapoints, those that were wanted, those of them that were too many to be shown, and reads whose
/// datapoints are not known; of names, all datapoints, and the names that were new. And the reads, with their bytes, that came too
/// fast.
#[derive(Clone, Copy)]
pub struct WatchTotals {
    /// Whether a watch has answered.
    pub is_any: bool,
    all: u64,
    more: u64,
    unread: u64,
    missed_reads: u64,
    missed_bytes: u64,
}

impl WatchTotals {
    /// No watch has answered.
    pub fn none() -> WatchTotals {
        WatchTotals {
            is_any: false,
            all: 0,
            more: 0,
            unread: 0,
            missed_reads: 0,
            missed_bytes: 0,
        }
    }

    /// Both together.
    pub fn with(self, other: WatchTotals) -> WatchTotals {
        WatchTotals {
            is_any: self.is_any || other.is_any,
            all: self.all.saturating_add(other.all),
            more: self.more.saturating_add(other.more),
            unread: self.unread.saturating_add(other.unread),
            missed_reads: self.missed_reads.saturating_add(other.missed_reads),
            missed_bytes: self.missed_bytes.saturating_add(other.missed_bytes),
        }
    }

    /// What the first line of an answer counts, and the lines behind it, if it counts something and they are as many as it says.
    pub fn read(gathered: &[u8]) -> Option<(WatchTotals, &[u8])> {
        let end = gathered.iter().position(|byte| *byte == b'\n')?;
        let (line, rest) = gathered.split_at(end.min(gathered.len()));
        let lines = rest.strip_prefix(b"\n").unwrap_or(rest);
        let mut words = utf8_text(line)?.split(' ');
        let count = number_in(words.next())?;
        let totals = WatchTotals {
            is_any: true,
            all: number_in(words.next())?,
            more: number_in(words.next())?,
            unread: number_in(words.next())?,
            missed_reads: number_in(words.next())?,
            missed_bytes: number_in(words.next())?,
        };
        if count_lines(lines) != count {
            return None;
        }
        Some((totals, lines))
    }
}

/// The number that a word is, if it is one.
fn number_in(word: Option<&str>) -> Option<u64> {
    whole_number_up_to(word?, u64::MAX)
}

/// How many lines there are.
fn count_lines(lines: &[u8]) -> u64 {
    let mut count: u64 = 0;
    for byte in lines {
        count = count.saturating_add(u64::from(*byte == b'\n'));
    }
    count
}

/// Writes the first of these lines, so many at most, and returns how many they are.
pub fn write_lines<W: Write>(output: &mut W, lines: &[u8], most: u64) -> Result<u64, AdminFault> {
    let mut count: u64 = 0;
    let mut end: usize = 0;
    for line in lines.split_inclusive(|byte| *byte == b'\n') {
        if count >= most {
            break;
        }
        count = count.saturating_add(1);
        end = end.saturating_add(line.len());
    }
    let (shown, _) = lines.split_at(end.min(lines.len()));
    if output.write_all(shown).is_err() || output.flush().is_err() {
        return Err(AdminFault::Output);
    }
    Ok(count)
}

/// Adds the first of the greatest, so many at most: each of these lines has how often it came at most, how many of these may be of
/// others, and the first parts of a name.
pub fn push_counted(
    text: &mut String,
    lines: &[u8],
    most: u64,
    is_json: bool,
) -> Result<(), NoMemory> {
    let lines = utf8_text(lines).unwrap_or("");
    let mut count: u64 = 0;
    for line in lines.lines() {
        if count >= most {
            break;
        }
        count = count.saturating_add(1);
        push_count(text, line, is_json)?;
    }
    Ok(())
}

/// Adds one of them.
fn push_count(text: &mut String, line: &str, is_json: bool) -> Result<(), NoMemory> {
    let (count, rest) = split_word(line);
    let (error, name) = split_word(rest);
    if is_json {
        text.push_str("{\"name\":")?;
        push_string(text, name)?;
        write!(
            text,
            ",\"datapoints\":{count},\"too_many_at_most\":{error}}}\n"
        )?;
    } else if error == "0" {
        write!(text, "{count:>12} {name}\n")?;
    } else {
        write!(text, "{count:>12} {name}, at most {error} too many\n")?;
    }
    Ok(())
}

/// The first word of a text, and what is behind the space after it.
fn split_word(text: &str) -> (&str, &str) {
    match text.split_once(' ') {
        Some(parts) => parts,
        None => (text, ""),
    }
}

/// Adds the line for the end: what was counted, and what was not shown.
pub fn push_end(
    text: &mut String,
    totals: WatchTotals,
    are_names: bool,
    again: u64,
) -> Result<(), NoMemory> {
    write!(text, "relayd: watch: {} datapoints", totals.all)?;
    if are_names {
        write!(text, ", {} names new", totals.more)?;
    } else if totals.more > 0 {
        write!(text, ", {} of them not shown", totals.more)?;
    }
    if totals.unread > 0 {
        write!(text, ", {} reads not known", totals.unread)?;
    }
    if totals.missed_reads > 0 {
        write!(
            text,
            ", {} reads of {} bytes not looked at",
            totals.missed_reads, totals.missed_bytes
        )?;
    }
    if again > 0 {
        text.push_str(if are_names {
            "; the relay began another run, and the names are those of the last"
        } else {
            "; the relay began another run"
        })?;
    }
    Ok(text.push('\n')?)
}
