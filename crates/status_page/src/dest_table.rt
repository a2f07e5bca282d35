//! The destinations with which nothing is wrong, on the page: a row each.

use crate::dest_card::percent_of;
use crate::headline::is_ill;
use crate::numbers::{push_count, push_duration, push_millis};
use crate::snapshot::DestSnapshot;
use crate::spool_text::{is_waiting, push_waiting};
use std::alloc::AllocError;
use std::fmt::Write as _;

/// From how many milliseconds on the age of the oldest queued datapoint is shown: below, looks at the queue are too rare to
/// tell much.
const LONG_QUEUED_MS: u64 = 1_000;

/// Adds a table of the destinations that have no card, and nothing if there are none.
pub(crate) fn push_dest_table(
    text: &mut String,
    dests: &[DestSnapshot],
    size: u64,
) -> Result<(), AllocError> {
    let mut is_begun = false;
    for dest in dests {
        if is_ill(dest, size) {
            continue;
        }
        if !is_begun {
            text.push_str(
                "<table><tr><th>Destination</th><th>out a second</th><th>queue</th><th>connected</th></tr>\n",
            )?;
            is_begun = true;
        }
        push_row(text, dest, size)?;
    }
    if is_begun {
        text.push_str("</table>\n")?;
    }
    Ok(())
}

fn push_row(text: &mut String, dest: &DestSnapshot, size: u64) -> Result<(), AllocError> {
    write!(text, "<tr><td>{}", dest.dest)?;
    if let Some(age) = dest.drop_age {
        text.push_str("<br><small>")?;
        push_count(text, dest.counts.dropped)?;
        text.push_str(" lost, the last ")?;
        push_duration(text, age)?;
        text.push_str(" ago</small>")?;
    }
    if is_waiting(&dest.spool) {
        text.push_str("<br><small>")?;
        push_waiting(text, &dest.spool)?;
        text.push_str("</small>")?;
    }
    text.push_str("</td><td>")?;
    push_count(text, dest.rates.written)?;
    write!(text, "</td><td>{} %", percent_of(dest.counts.queued, size))?;
    if dest.oldest >= LONG_QUEUED_MS {
        text.push_str(", ")?;
        push_millis(text, dest.oldest)?;
    }
    text.push_str("</td><td>")?;
    push_duration(text, dest.since)?;
    text.push_str("</td></tr>\n")
}
