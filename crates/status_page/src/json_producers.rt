//! Producers as JSON.

ghost use Rattle.std.specs.Prelude.{◌≡◌, ◌++◌, OnOk};
ghost use Rattle.std.specs.String.{string_bytes};
ghost use Rattle.std.specs.List.{flat_map};
ghost use Rattle.status_page.specs.Json.{listed, next_one, other_addresses, other_producers_json, producer_address, producer_json, producer_list, producer_rates_json};

use crate::json::push_member;
use crate::plain::plain_address;
use crate::snapshot::{OtherProducers, ProducerSnapshot};
use log_lines::ProducerCounts;
use std::alloc::AllocError;
use std::fmt::Write as _;

/// Adds the producers that are shown, as a member.
pub(crate) fn push_producer_list(
    text: &mut String,
    producers: &[ProducerSnapshot],
) -> Result<(), AllocError>
    ensures { OnOk result (string_bytes text.new ≡ string_bytes text.old ++ producer_list producers.now) }
{
    text.push_str(",\"producers\":[")?;
    push_producers(text, producers)?;
    text.push_str("]")
}

/// Adds the others, as a member.
pub(crate) fn push_other_producers(
    text: &mut String,
    others: OtherProducers,
) -> Result<(), AllocError>
    ensures { OnOk result (string_bytes text.new ≡ string_bytes text.old ++ other_producers_json others) }
{
    push_other_addresses(text, others.addresses)?;
    push_rates(text, others.rates)?;
    text.push_str("}")
}

#[tactic(auto, unfolding(crate::specs::Json::other_addresses))]
fn push_other_addresses(text: &mut String, addresses: u64) -> Result<(), AllocError>
    ensures { OnOk result (string_bytes text.new ≡ string_bytes text.old ++ other_addresses addresses) }
{
    write!(text, ",\"other_producers\":{{\"addresses\":{addresses}")
}

/// Adds the producers, with commas between them.
fn push_producers(text: &mut String, producers: &[ProducerSnapshot]) -> Result<(), AllocError>
    ensures { OnOk result (string_bytes text.new ≡ string_bytes text.old ++ listed producer_json producers.now) }
{
    let Some((first, others)) = producers.split_first() else {
        return Ok(());
    };
    push_producer(text, first)?;
    push_more_producers(text, others)
}

fn push_more_producers(text: &mut String, producers: &[ProducerSnapshot]) -> Result<(), AllocError>
    ensures { OnOk result (string_bytes text.new ≡ string_bytes text.old ++ flat_map (next_one producer_json) producers.now) }
{
    for producer in producers {
        push_next_producer(text, producer)?;
    }
    Ok(())
}

#[tactic(auto, unfolding(crate::specs::Json::next_one))]
fn push_next_producer(text: &mut String, producer: &ProducerSnapshot) -> Result<(), AllocError>
    ensures { OnOk result (string_bytes text.new ≡ string_bytes text.old ++ next_one producer_json producer.now) }
{
    text.push_str(",")?;
    push_producer(text, producer)
}

fn push_producer(text: &mut String, producer: &ProducerSnapshot) -> Result<(), AllocError>
    ensures { OnOk result (string_bytes text.new ≡ string_bytes text.old ++ producer_json producer.now) }
{
    push_address(text, plain_address(producer.address.as_str()))?;
    push_rates(text, producer.rates)?;
    push_member(text, "connections", producer.connections)?;
    push_member(text, "connected_seconds", producer.age)?;
    text.push_str("}")
}

#[tactic(auto, unfolding(crate::specs::Json::producer_address))]
fn push_address(text: &mut String, address: &str) -> Result<(), AllocError>
    ensures { OnOk result (string_bytes text.new ≡ string_bytes text.old ++ producer_address address.now) }
{
    write!(text, "{{\"address\":\"{address}\"")
}

/// Adds what came in a second.
fn push_rates(text: &mut String, rates: ProducerCounts) -> Result<(), AllocError>
    ensures { OnOk result (string_bytes text.new ≡ string_bytes text.old ++ producer_rates_json rates) }
{
    push_member(text, "datapoints_per_second", rates.datapoints)?;
    push_member(text, "bytes_per_second", rates.bytes)?;
    push_member(text, "bad_per_second", rates.bad)
}
