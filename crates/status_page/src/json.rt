//! The status as JSON.

ghost use Rattle.std.specs.Prelude.{◌≡◌, ◌++◌, OnOk};
ghost use Rattle.std.specs.String.{string_bytes};
ghost use Rattle.std.specs.List.{flat_map};
ghost use Rattle.status_page.specs.Json.{member, listed, next_one, sample_json, version_json, configuration_json, head_json, dest_list, receiver_list, sample_list, status_json, sizes_json, host_json, headline_json, totals_json};

use crate::headline::{Headline, headline_of, state_name};
use crate::json_dests::push_dests;
use crate::json_producers::{push_other_producers, push_producer_list};
use crate::json_receivers::push_receivers;
use crate::plain::plain;
use crate::snapshot::{DestSnapshot, ReceiverSnapshot, Sample, Snapshot};
use std::alloc::AllocError;
use std::fmt::Write as _;

/// Adds the status as one object of JSON and a newline. Fails when out of memory; the text may have a part of it then.
pub fn push_json(text: &mut String, now: &Snapshot) -> Result<(), AllocError>
    ensures { OnOk result (string_bytes text.new ≡ string_bytes text.old ++ status_json now.now) }
{
    push_head(text, now)?;
    push_dest_list(text, now.dests.as_slice())?;
    push_receiver_list(text, now.receivers.as_slice())?;
    push_member(text, "sample_seconds", now.sample_seconds)?;
    push_sample_list(text, now.samples.as_slice())?;
    push_configuration(text, plain(now.configuration.as_str()))?;
    push_producer_list(text, now.producers.as_slice())?;
    push_other_producers(text, now.other_producers)?;
    text.push_str("}\n")
}

/// Adds a member whose value is a number, behind others.
#[tactic(auto, unfolding(crate::specs::Json::member))]
pub(crate) fn push_member(text: &mut String, key: &str, count: u64) -> Result<(), AllocError>
    ensures { OnOk result (string_bytes text.new ≡ string_bytes text.old ++ member key.now count) }
{
    text.push_str(",\"")?;
    text.push_str(key)?;
    write!(text, "\":{count}")
}

fn push_dest_list(text: &mut String, dests: &[DestSnapshot]) -> Result<(), AllocError>
    ensures { OnOk result (string_bytes text.new ≡ string_bytes text.old ++ dest_list dests.now) }
{
    text.push_str(",\"destinations\":[")?;
    push_dests(text, dests)?;
    text.push_str("]")
}

fn push_receiver_list(text: &mut String, receivers: &[ReceiverSnapshot]) -> Result<(), AllocError>
    ensures { OnOk result (string_bytes text.new ≡ string_bytes text.old ++ receiver_list receivers.now) }
{
    text.push_str(",\"receivers\":[")?;
    push_receivers(text, receivers)?;
    text.push_str("]")
}

fn push_sample_list(text: &mut String, samples: &[Sample]) -> Result<(), AllocError>
    ensures { OnOk result (string_bytes text.new ≡ string_bytes text.old ++ sample_list samples.now) }
{
    text.push_str(",\"samples\":[")?;
    push_samples(text, samples)?;
    text.push_str("]")
}

/// Adds the version, the uptime, the size of a queue, and what holds for all.
fn push_head(text: &mut String, now: &Snapshot) -> Result<(), AllocError>
    ensures { OnOk result (string_bytes text.new ≡ string_bytes text.old ++ head_json now.now) }
{
    push_version(text, plain(now.version.as_str()))?;
    push_sizes(text, now)?;
    push_host(text, plain(now.host.as_str()))?;
    push_headline(text, headline_of(now))?;
    push_totals(text, now)
}

fn push_sizes(text: &mut String, now: &Snapshot) -> Result<(), AllocError>
    ensures { OnOk result (string_bytes text.new ≡ string_bytes text.old ++ sizes_json now.now) }
{
    push_member(text, "uptime_seconds", now.uptime)?;
    push_member(text, "queue_size", now.queue_size)
}

#[tactic(auto, unfolding(crate::specs::Json::host_json))]
fn push_host(text: &mut String, host: &str) -> Result<(), AllocError>
    ensures { OnOk result (string_bytes text.new ≡ string_bytes text.old ++ host_json host.now) }
{
    write!(text, ",\"host\":\"{host}\"")
}

#[tactic(auto, unfolding(crate::specs::Json::headline_json))]
fn push_headline(text: &mut String, headline: Headline) -> Result<(), AllocError>
    ensures { OnOk result (string_bytes text.new ≡ string_bytes text.old ++ headline_json headline) }
{
    write!(text, ",\"state\":\"{}\"", state_name(headline))
}

/// Adds what all receivers and queues count.
#[tactic(auto, unfolding(crate::specs::Json::totals_json))]
fn push_totals(text: &mut String, now: &Snapshot) -> Result<(), AllocError>
    ensures { OnOk result (string_bytes text.new ≡ string_bytes text.old ++ totals_json now.now) }
{
    push_member(text, "received_per_second", now.rates.received)?;
    push_member(text, "written_per_second", now.rates.written)?;
    push_member(text, "dropped_per_second", now.rates.dropped)?;
    push_member(text, "queued", now.queued)?;
    push_member(text, "seconds_without_input", now.silence)
}

#[tactic(auto, unfolding(crate::specs::Json::version_json))]
fn push_version(text: &mut String, version: &str) -> Result<(), AllocError>
    ensures { OnOk result (string_bytes text.new ≡ string_bytes text.old ++ version_json version.now) }
{
    write!(text, "{{\"version\":\"{version}\"")
}

#[tactic(auto, unfolding(crate::specs::Json::configuration_json))]
fn push_configuration(text: &mut String, configuration: &str) -> Result<(), AllocError>
    ensures { OnOk result (string_bytes text.new ≡ string_bytes text.old ++ configuration_json configuration.now) }
{
    write!(text, ",\"configuration\":\"{configuration}\"")
}

/// Adds the samples, with commas between them.
fn push_samples(text: &mut String, samples: &[Sample]) -> Result<(), AllocError>
    ensures { OnOk result (string_bytes text.new ≡ string_bytes text.old ++ listed sample_json samples.now) }
{
    let Some((first, others)) = samples.split_first() else {
        return Ok(());
    };
    push_sample(text, first)?;
    push_other_samples(text, others)
}

fn push_other_samples(text: &mut String, samples: &[Sample]) -> Result<(), AllocError>
    ensures { OnOk result (string_bytes text.new ≡ string_bytes text.old ++ flat_map (next_one sample_json) samples.now) }
{
    for sample in samples {
        push_next_sample(text, sample)?;
    }
    Ok(())
}

#[tactic(auto, unfolding(crate::specs::Json::next_one))]
fn push_next_sample(text: &mut String, sample: &Sample) -> Result<(), AllocError>
    ensures { OnOk result (string_bytes text.new ≡ string_bytes text.old ++ next_one sample_json sample.now) }
{
    text.push_str(",")?;
    push_sample(text, sample)
}

#[tactic(auto, unfolding(crate::specs::Json::sample_json))]
fn push_sample(text: &mut String, sample: &Sample) -> Result<(), AllocError>
    ensures { OnOk result (string_bytes text.new ≡ string_bytes text.old ++ sample_json sample.now) }
{
    text.push_str("{\"received\":")?;
    write!(text, "{}", sample.received)?;
    push_member(text, "written", sample.written)?;
    push_member(text, "dropped", sample.dropped)?;
    push_member(text, "milliseconds", sample.millis)?;
    text.push_str("}")
}
