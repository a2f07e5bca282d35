//! What waits in files, on the page.

use crate::numbers::{push_count, push_duration, push_size};
use crate::snapshot::{DestSnapshot, SpoolSnapshot};
use std::alloc::AllocError;

/// Whether something waits in a file.
pub(crate) fn is_waiting(spool: &SpoolSnapshot) -> bool {
    spool.bytes > 0
}

/// Adds what waits in a file: how much, since when, how fast it goes out, and when there is no more room.
pub(crate) fn push_waiting(text: &mut String, spool: &SpoolSnapshot) -> Result<(), AllocError> {
    text.push_str("spool: ")?;
    push_count(text, spool.datapoints)?;
    text.push_str(" datapoints, ")?;
    push_size(text, spool.bytes)?;
    text.push_str(", ")?;
    push_duration(text, spool.age)?;
    text.push_str(" old")?;
    if spool.rate > 0 {
        text.push_str(", ")?;
        push_count(text, spool.rate)?;
        text.push_str(" a second")?;
    }
    push_full(text, spool)
}

/// Adds when its files will take no more, if they grow.
fn push_full(text: &mut String, spool: &SpoolSnapshot) -> Result<(), AllocError> {
    if spool.is_full {
        return text.push_str(", full");
    }
    match spool.room.checked_div(spool.growth) {
        Some(seconds) if spool.room > 0 => {
            text.push_str(", full in ")?;
            push_duration(text, seconds)
        }
        _ => Ok(()),
    }
}

/// What waits in the files of all destinations: how many have some, and the datapoints.
pub(crate) fn waiting_of(dests: &[DestSnapshot]) -> (u64, u64) {
    let (mut files, mut datapoints): (u64, u64) = (0, 0);
    for dest in dests {
        if is_waiting(&dest.spool) {
            files = files.saturating_add(1);
            datapoints = datapoints.saturating_add(dest.spool.datapoints);
        }
    }
    (files, datapoints)
}
