//! Receivers as JSON.

ghost use Rattle.std.specs.Prelude.{◌≡◌, ◌++◌, OnOk};
ghost use Rattle.std.specs.String.{string_bytes};
ghost use Rattle.std.specs.List.{flat_map};
ghost use Rattle.status_page.specs.Json.{listed, next_one, state_word, state_error, state_json, bad_json, accepted_json, received_json, receiver_name, receiver_json, loss_json, losses_json, receiver_rates_json};

use crate::json::push_member;
use crate::loss_words::loss_name;
use crate::plain::plain;
use crate::snapshot::ReceiverSnapshot;
use log_lines::{LOSS_REASONS, LossCounts, LossReason, ReceiverCounts, ReceiverState};
use std::alloc::AllocError;
use std::fmt::Write as _;

/// Adds the receivers, with commas between them.
pub(crate) fn push_receivers(
    text: &mut String,
    receivers: &[ReceiverSnapshot],
) -> Result<(), AllocError>
    ensures { OnOk result (string_bytes text.new ≡ string_bytes text.old ++ listed receiver_json receivers.now) }
{
    let Some((first, others)) = receivers.split_first() else {
        return Ok(());
    };
    push_receiver(text, first)?;
    push_other_receivers(text, others)
}

fn push_other_receivers(text: &mut String, receivers: &[ReceiverSnapshot]) -> Result<(), AllocError>
    ensures { OnOk result (string_bytes text.new ≡ string_bytes text.old ++ flat_map (next_one receiver_json) receivers.now) }
{
    for receiver in receivers {
        push_next_receiver(text, receiver)?;
    }
    Ok(())
}

#[tactic(auto, unfolding(crate::specs::Json::next_one))]
fn push_next_receiver(text: &mut String, receiver: &ReceiverSnapshot) -> Result<(), AllocError>
    ensures { OnOk result (string_bytes text.new ≡ string_bytes text.old ++ next_one receiver_json receiver.now) }
{
    text.push_str(",")?;
    push_receiver(text, receiver)
}

fn push_receiver(text: &mut String, receiver: &ReceiverSnapshot) -> Result<(), AllocError>
    ensures { OnOk result (string_bytes text.new ≡ string_bytes text.old ++ receiver_json receiver.now) }
{
    push_receiver_name(text, receiver)?;
    push_state(text, receiver.state)?;
    push_received(text, &receiver.counts)?;
    push_losses(text, &receiver.losses)?;
    push_receiver_rates(text, receiver)?;
    text.push_str("}")
}

#[tactic(auto, unfolding(crate::specs::Json::receiver_name))]
fn push_receiver_name(text: &mut String, receiver: &ReceiverSnapshot) -> Result<(), AllocError>
    ensures { OnOk result (string_bytes text.new ≡ string_bytes text.old ++ receiver_name receiver.now) }
{
    write!(text, "{{\"receiver\":\"{}\"", plain(receiver.name.as_str()))
}

fn push_state(text: &mut String, state: ReceiverState) -> Result<(), AllocError>
    ensures { OnOk result (string_bytes text.new ≡ string_bytes text.old ++ state_json state) }
{
    text.push_str(",\"state\":\"")?;
    push_state_word(text, state)?;
    text.push_str("\",\"last_error\":")?;
    push_state_error(text, state)
}

#[tactic(auto, unfolding(crate::specs::Json::state_word))]
fn push_state_word(text: &mut String, state: ReceiverState) -> Result<(), AllocError>
    ensures { OnOk result (string_bytes text.new ≡ string_bytes text.old ++ state_word state) }
{
    match state {
        ReceiverState::Open => text.push_str("open"),
        ReceiverState::Paused { .. } => text.push_str("paused"),
        ReceiverState::Failed { .. } => text.push_str("failed"),
    }
}

#[tactic(auto, unfolding(crate::specs::Json::state_error))]
fn push_state_error(text: &mut String, state: ReceiverState) -> Result<(), AllocError>
    ensures { OnOk result (string_bytes text.new ≡ string_bytes text.old ++ state_error state) }
{
    match state {
        ReceiverState::Open => text.push_str("null"),
        ReceiverState::Paused { why } => write!(text, "\"{why}\""),
        ReceiverState::Failed { why } => write!(text, "\"{why}\""),
    }
}

fn push_received(text: &mut String, counts: &ReceiverCounts) -> Result<(), AllocError>
    ensures { OnOk result (string_bytes text.new ≡ string_bytes text.old ++ received_json counts.now) }
{
    push_accepted(text, counts)?;
    push_bad(text, counts)?;
    push_member(text, "emptied_names", counts.emptied)?;
    push_member(text, "refused", counts.refused)
}

fn push_accepted(text: &mut String, counts: &ReceiverCounts) -> Result<(), AllocError>
    ensures { OnOk result (string_bytes text.new ≡ string_bytes text.old ++ accepted_json counts.now) }
{
    push_member(text, "connections", counts.connections)?;
    push_member(text, "datapoints", counts.readers.datapoints)
}

#[tactic(auto, unfolding(crate::specs::Json::bad_json))]
fn push_bad(text: &mut String, counts: &ReceiverCounts) -> Result<(), AllocError>
    ensures { OnOk result (string_bytes text.new ≡ string_bytes text.old ++ bad_json counts.now) }
{
    push_member(text, "bad_lines", counts.readers.faults.bad_lines)?;
    push_member(text, "bad_pickles", counts.readers.faults.bad_pickles)?;
    push_member(text, "bad_rows", counts.readers.faults.bad_rows)?;
    push_member(text, "bad_names", counts.readers.faults.bad_names)
}

/// Adds what it lost or closed, by the reason.
#[tactic(auto, unfolding(crate::specs::Json::losses_json))]
fn push_losses(text: &mut String, losses: &LossCounts) -> Result<(), AllocError>
    ensures { OnOk result (string_bytes text.new ≡ string_bytes text.old ++ losses_json losses.now) }
{
    for reason in LOSS_REASONS {
        push_loss(text, losses, reason)?;
    }
    Ok(())
}

#[tactic(auto, unfolding(crate::specs::Json::loss_json))]
fn push_loss(text: &mut String, losses: &LossCounts, reason: LossReason) -> Result<(), AllocError>
    ensures { OnOk result (string_bytes text.new ≡ string_bytes text.old ++ loss_json losses.now reason) }
{
    push_member(text, loss_name(reason), losses.count_of(reason))
}

/// Adds how many connections it has taken, and what it counted in each second.
fn push_receiver_rates(text: &mut String, receiver: &ReceiverSnapshot) -> Result<(), AllocError>
    ensures { OnOk result (string_bytes text.new ≡ string_bytes text.old ++ receiver_rates_json receiver.now) }
{
    push_member(text, "accepted_connections", receiver.taken)?;
    push_member(text, "datapoints_per_second", receiver.rate)?;
    push_member(text, "bad_per_second", receiver.bad_rate)
}
