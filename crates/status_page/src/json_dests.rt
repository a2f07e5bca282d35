//! Destinations as JSON.

ghost use Rattle.std.specs.Prelude.{◌≡◌, ◌++◌, OnOk};
ghost use Rattle.std.specs.String.{string_bytes};
ghost use Rattle.std.specs.List.{flat_map};
ghost use Rattle.status_page.specs.Json.{listed, next_one, truth_json, error_json, counts_json, rates_json, connection_json, dest_name, dest_numbers, last_error_json, dest_json, connection_counts_json, progress_json, full_json, spool_json};

use crate::json::push_member;
use crate::snapshot::{ConnectionCounts, DestSnapshot, Rates, SpoolSnapshot};
use dest_queue::Counts;
use log_lines::Why;
use std::alloc::AllocError;
use std::fmt::Write as _;

/// Adds the destinations, with commas between them.
pub(crate) fn push_dests(text: &mut String, dests: &[DestSnapshot]) -> Result<(), AllocError>
    ensures { OnOk result (string_bytes text.new ≡ string_bytes text.old ++ listed dest_json dests.now) }
{
    let Some((first, others)) = dests.split_first() else {
        return Ok(());
    };
    push_dest(text, first)?;
    push_other_dests(text, others)
}

fn push_other_dests(text: &mut String, dests: &[DestSnapshot]) -> Result<(), AllocError>
    ensures { OnOk result (string_bytes text.new ≡ string_bytes text.old ++ flat_map (next_one dest_json) dests.now) }
{
    for dest in dests {
        push_next_dest(text, dest)?;
    }
    Ok(())
}

#[tactic(auto, unfolding(crate::specs::Json::next_one))]
fn push_next_dest(text: &mut String, dest: &DestSnapshot) -> Result<(), AllocError>
    ensures { OnOk result (string_bytes text.new ≡ string_bytes text.old ++ next_one dest_json dest.now) }
{
    text.push_str(",")?;
    push_dest(text, dest)
}

fn push_dest(text: &mut String, dest: &DestSnapshot) -> Result<(), AllocError>
    ensures { OnOk result (string_bytes text.new ≡ string_bytes text.old ++ dest_json dest.now) }
{
    push_dest_name(text, dest)?;
    push_dest_numbers(text, dest)?;
    push_last_error(text, dest.last_error)?;
    push_connection_counts(text, &dest.connections)?;
    push_progress(text, dest)?;
    push_spool(text, &dest.spool)?;
    text.push_str("}")
}

fn push_dest_numbers(text: &mut String, dest: &DestSnapshot) -> Result<(), AllocError>
    ensures { OnOk result (string_bytes text.new ≡ string_bytes text.old ++ dest_numbers dest.now) }
{
    push_connection(text, dest)?;
    push_counts(text, &dest.counts)?;
    push_rates(text, &dest.rates)
}

fn push_last_error(text: &mut String, error: Option<Why>) -> Result<(), AllocError>
    ensures { OnOk result (string_bytes text.new ≡ string_bytes text.old ++ last_error_json error) }
{
    text.push_str(",\"last_error\":")?;
    push_error(text, error)
}

#[tactic(auto, unfolding(crate::specs::Json::dest_name))]
fn push_dest_name(text: &mut String, dest: &DestSnapshot) -> Result<(), AllocError>
    ensures { OnOk result (string_bytes text.new ≡ string_bytes text.old ++ dest_name dest.now) }
{
    write!(text, "{{\"destination\":\"{}\"", dest.dest)
}

#[tactic(auto, unfolding(crate::specs::Json::connection_json))]
fn push_connection(text: &mut String, dest: &DestSnapshot) -> Result<(), AllocError>
    ensures { OnOk result (string_bytes text.new ≡ string_bytes text.old ++ connection_json dest.now) }
{
    text.push_str(",\"connected\":")?;
    push_truth(text, dest.is_up)?;
    push_member(text, "since_seconds", dest.since)
}

/// Adds whether its files take no more.
#[tactic(auto, unfolding(crate::specs::Json::full_json))]
fn push_full(text: &mut String, is_full: bool) -> Result<(), AllocError>
    ensures { OnOk result (string_bytes text.new ≡ string_bytes text.old ++ full_json is_full) }
{
    text.push_str(",\"spool_full\":")?;
    push_truth(text, is_full)
}

#[tactic(auto, unfolding(crate::specs::Json::truth_json))]
fn push_truth(text: &mut String, is_so: bool) -> Result<(), AllocError>
    ensures { OnOk result (string_bytes text.new ≡ string_bytes text.old ++ truth_json is_so) }
{
    if is_so {
        text.push_str("true")
    } else {
        text.push_str("false")
    }
}

#[tactic(auto, unfolding(crate::specs::Json::counts_json))]
fn push_counts(text: &mut String, counts: &Counts) -> Result<(), AllocError>
    ensures { OnOk result (string_bytes text.new ≡ string_bytes text.old ++ counts_json counts.now) }
{
    push_member(text, "queued", counts.queued)?;
    push_member(text, "offered", counts.offered)?;
    push_member(text, "kept", counts.kept)?;
    push_member(text, "dropped", counts.dropped)?;
    push_member(text, "taken", counts.taken)
}

#[tactic(auto, unfolding(crate::specs::Json::rates_json))]
fn push_rates(text: &mut String, rates: &Rates) -> Result<(), AllocError>
    ensures { OnOk result (string_bytes text.new ≡ string_bytes text.old ++ rates_json rates.now) }
{
    push_member(text, "offered_per_second", rates.received)?;
    push_member(text, "written_per_second", rates.written)?;
    push_member(text, "dropped_per_second", rates.dropped)
}

/// Adds how often it was connected and what went wrong.
fn push_connection_counts(text: &mut String, counts: &ConnectionCounts) -> Result<(), AllocError>
    ensures { OnOk result (string_bytes text.new ≡ string_bytes text.old ++ connection_counts_json counts.now) }
{
    push_member(text, "connections", counts.made)?;
    push_member(text, "connection_losses", counts.lost)?;
    push_member(text, "losses_last_minute", counts.lost_lately)?;
    push_member(text, "failed_tries", counts.failed_tries)
}

/// Adds what its connections took, and how late that is.
fn push_progress(text: &mut String, dest: &DestSnapshot) -> Result<(), AllocError>
    ensures { OnOk result (string_bytes text.new ≡ string_bytes text.old ++ progress_json dest.now) }
{
    push_member(text, "writes", dest.writes.writes)?;
    push_member(text, "written_bytes", dest.writes.bytes)?;
    push_member(text, "last_write_timestamp_seconds", dest.written_at)?;
    push_member(text, "stalled_seconds", dest.stalled)?;
    push_member(text, "oldest_queued_milliseconds", dest.oldest)
}

/// Adds what waits in its file, and how fast that goes out.
fn push_spool(text: &mut String, spool: &SpoolSnapshot) -> Result<(), AllocError>
    ensures { OnOk result (string_bytes text.new ≡ string_bytes text.old ++ spool_json spool.now) }
{
    push_member(text, "spool_datapoints", spool.datapoints)?;
    push_member(text, "spool_bytes", spool.bytes)?;
    push_member(text, "spool_age_seconds", spool.age)?;
    push_member(text, "spool_datapoints_per_second", spool.rate)?;
    push_member(text, "spool_room_bytes", spool.room)?;
    push_full(text, spool.is_full)
}

/// Adds an error, or `null` if there is none.
#[tactic(auto, unfolding(crate::specs::Json::error_json))]
fn push_error(text: &mut String, error: Option<Why>) -> Result<(), AllocError>
    ensures { OnOk result (string_bytes text.new ≡ string_bytes text.old ++ error_json error) }
{
    match error {
        Some(why) => write!(text, "\"{why}\""),
        None => text.push_str("null"),
    }
}
