//! A destination with which something is wrong, on the page.

use crate::headline::{is_away, is_filling, is_flapping, is_losing, is_stuck};
use crate::headline_text::{push_trouble, seconds_to_full};
use crate::numbers::{push_count, push_duration, push_millis};
use crate::snapshot::{DestSnapshot, WatchedAt};
use crate::spool_text::{is_waiting, push_waiting};
use std::alloc::AllocError;
use std::fmt::Write as _;

/// Adds a destination, with what is wrong now, what its queue does, what happened to its connection, and how to see what goes
/// there if some of it is lost.
pub(crate) fn push_dest_card(
    text: &mut String,
    dest: &DestSnapshot,
    size: u64,
    watched_at: WatchedAt,
) -> Result<(), AllocError> {
    let class = if is_losing(dest) || is_filling(dest, size) || is_stuck(dest) {
        "ill"
    } else {
        "warn"
    };
    write!(text, "<section class=\"{class}\"><h3>{}</h3><b>", dest.dest)?;
    push_state(text, dest, size)?;
    text.push_str("</b>")?;
    push_bar(text, dest.counts.queued, size)?;
    push_queue(text, dest, size)?;
    push_rates(text, dest)?;
    push_spool(text, dest)?;
    push_connection(text, dest)?;
    if is_losing(dest) {
        push_command(text, dest, watched_at)?;
    }
    text.push_str("</section>\n")
}

/// Adds the command that shows what goes to a destination.
fn push_command(
    text: &mut String,
    dest: &DestSnapshot,
    watched_at: WatchedAt,
) -> Result<(), AllocError> {
    let key = if watched_at.has_key {
        " --admin-key FILE"
    } else {
        ""
    };
    write!(
        text,
        "<br>see what goes there: <code style=\"user-select:all\">relayd watch --admin {}{key} --dest {}</code>",
        watched_at.admin, dest.dest
    )
}

/// Adds what is wrong with it, in its own words.
fn push_state(text: &mut String, dest: &DestSnapshot, size: u64) -> Result<(), AllocError> {
    if is_losing(dest) {
        text.push_str("LOSING ")?;
        push_count(text, dest.rates.dropped)?;
        text.push_str(" a second: ")?;
    } else if is_filling(dest, size) {
        text.push_str("FILLING, full in ")?;
        push_duration(text, seconds_to_full(dest, size))?;
        text.push_str(": ")?;
    } else if is_flapping(dest) && !is_away(dest) && !is_stuck(dest) {
        text.push_str("FLAPPING, connected for ")?;
        return push_duration(text, dest.since);
    }
    push_trouble(text, dest)
}

/// Adds how full the queue is, as a bar.
fn push_bar(text: &mut String, queued: u64, size: u64) -> Result<(), AllocError> {
    let percent = percent_of(queued, size);
    write!(
        text,
        "<div class=\"bar\"><i style=\"width:{percent}%\"></i></div>"
    )
}

/// Adds what the queue holds, and for how long.
fn push_queue(text: &mut String, dest: &DestSnapshot, size: u64) -> Result<(), AllocError> {
    push_count(text, dest.counts.queued)?;
    text.push_str(" of ")?;
    push_count(text, size)?;
    text.push_str(" queued")?;
    if dest.oldest > 0 {
        text.push_str(", the oldest for ")?;
        push_millis(text, dest.oldest)?;
    }
    text.push_str("<br>")
}

/// Adds what comes in, goes out and is lost now.
fn push_rates(text: &mut String, dest: &DestSnapshot) -> Result<(), AllocError> {
    text.push_str("in ")?;
    push_count(text, dest.rates.received)?;
    text.push_str(" a second, out ")?;
    push_count(text, dest.rates.written)?;
    text.push_str("<br>")?;
    let Some(age) = dest.drop_age else {
        return Ok(());
    };
    push_count(text, dest.counts.dropped)?;
    text.push_str(" lost since the start, the last ")?;
    push_duration(text, age)?;
    text.push_str(" ago<br>")
}

/// Adds what waits in its file, if something does.
fn push_spool(text: &mut String, dest: &DestSnapshot) -> Result<(), AllocError> {
    if !is_waiting(&dest.spool) {
        return Ok(());
    }
    push_waiting(text, &dest.spool)?;
    text.push_str("<br>")
}

/// Adds what happened to its connection.
fn push_connection(text: &mut String, dest: &DestSnapshot) -> Result<(), AllocError> {
    if dest.connections.lost > 0 {
        text.push_str("lost connections: ")?;
        push_count(text, dest.connections.lost)?;
        text.push_str(", in the last minute ")?;
        push_count(text, dest.connections.lost_lately)?;
        text.push_str("<br>")?;
    }
    if let Some(why) = dest.last_error {
        write!(text, "last error: {why}, ")?;
        push_duration(text, dest.error_age)?;
        text.push_str(" ago")?;
    }
    Ok(())
}

/// How many hundredths of a size a number is, at most 100.
pub(crate) fn percent_of(count: u64, size: u64) -> u64 {
    if count >= size || size == 0 {
        return if count == 0 { 0 } else { 100 };
    }
    (count as u128 * 100 / size as u128) as u64
}
