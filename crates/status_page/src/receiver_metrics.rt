//! The metrics of receivers.

ghost use Rattle.std.specs.Prelude.{◌≡◌, ◌++◌, OnOk};
ghost use Rattle.std.specs.String.{string_bytes};
ghost use Rattle.std.specs.List.{flat_map};
ghost use Rattle.status_page.specs.Metrics.{receiver_label, receiver_sample, receiver_part, reason_part, reason_label, reason_sample, reason_samples, rejection_samples, loss_samples};

use crate::loss_words::loss_name;
use crate::metric_table::{ReceiverMetric, receiver_value};
use crate::metrics::push_value;
use crate::plain::plain;
use crate::snapshot::ReceiverSnapshot;
use log_lines::LossReason;
use std::alloc::AllocError;
use std::fmt::Write as _;

/// Adds a metric of all receivers.
pub(crate) fn push_receiver_samples(
    text: &mut String,
    name: &str,
    metric: ReceiverMetric,
    receivers: &[ReceiverSnapshot],
) -> Result<(), AllocError>
    ensures { OnOk result (string_bytes text.new
        ≡ string_bytes text.old ++ flat_map (receiver_sample name.now metric) receivers.now) }
{
    for receiver in receivers {
        push_receiver_sample(text, name, metric, receiver)?;
    }
    Ok(())
}

fn push_receiver_sample(
    text: &mut String,
    name: &str,
    metric: ReceiverMetric,
    receiver: &ReceiverSnapshot,
) -> Result<(), AllocError>
    ensures { OnOk result (string_bytes text.new
        ≡ string_bytes text.old ++ receiver_sample name.now metric receiver.now) }
{
    text.push_str(name)?;
    push_receiver_label(text, receiver)?;
    push_value(text, receiver_value(metric, receiver), "")
}

/// Adds what each receiver could not use, by the reason.
pub(crate) fn push_rejection_samples(
    text: &mut String,
    name: &str,
    receivers: &[ReceiverSnapshot],
) -> Result<(), AllocError>
    ensures { OnOk result (string_bytes text.new ≡ string_bytes text.old ++ rejection_samples name.now receivers.now) }
{
    push_reason_samples(text, name, ReceiverMetric::BadLines, "line", receivers)?;
    push_reason_samples(text, name, ReceiverMetric::BadPickles, "pickle", receivers)?;
    push_reason_samples(text, name, ReceiverMetric::BadRows, "row", receivers)?;
    push_reason_samples(text, name, ReceiverMetric::BadNames, "name", receivers)
}

/// Adds what each receiver closed or lost for these reasons.
pub(crate) fn push_loss_samples(
    text: &mut String,
    name: &str,
    receivers: &[ReceiverSnapshot],
    reasons: &[LossReason],
) -> Result<(), AllocError>
    ensures { OnOk result (string_bytes text.new
        ≡ string_bytes text.old ++ flat_map (loss_samples name.now receivers.now) reasons.now) }
{
    for reason in reasons {
        push_loss_samples_of(text, name, receivers, *reason)?;
    }
    Ok(())
}

#[tactic(auto, unfolding(crate::specs::Metrics::loss_samples))]
fn push_loss_samples_of(
    text: &mut String,
    name: &str,
    receivers: &[ReceiverSnapshot],
    reason: LossReason,
) -> Result<(), AllocError>
    ensures { OnOk result (string_bytes text.new
        ≡ string_bytes text.old ++ loss_samples name.now receivers.now reason) }
{
    push_reason_samples(
        text,
        name,
        ReceiverMetric::Lost(reason),
        loss_name(reason),
        receivers,
    )
}

/// Adds of which receiver a metric is.
#[tactic(auto, unfolding(crate::specs::Metrics::receiver_label))]
fn push_receiver_label(text: &mut String, receiver: &ReceiverSnapshot) -> Result<(), AllocError>
    ensures { OnOk result (string_bytes text.new ≡ string_bytes text.old ++ receiver_label receiver.now) }
{
    write!(text, "{{receiver=\"{}\"}} ", plain(receiver.name.as_str()))
}

/// Adds what a metric that has reasons says of each receiver for one of them.
fn push_reason_samples(
    text: &mut String,
    name: &str,
    metric: ReceiverMetric,
    reason: &str,
    receivers: &[ReceiverSnapshot],
) -> Result<(), AllocError>
    ensures { OnOk result (string_bytes text.new
        ≡ string_bytes text.old ++ reason_samples name.now metric reason.now receivers.now) }
{
    for receiver in receivers {
        push_reason_sample(text, name, metric, reason, receiver)?;
    }
    Ok(())
}

fn push_reason_sample(
    text: &mut String,
    name: &str,
    metric: ReceiverMetric,
    reason: &str,
    receiver: &ReceiverSnapshot,
) -> Result<(), AllocError>
    ensures { OnOk result (string_bytes text.new
        ≡ string_bytes text.old ++ reason_sample name.now metric reason.now receiver.now) }
{
    text.push_str(name)?;
    push_reason_label(text, plain(receiver.name.as_str()), reason)?;
    push_value(text, receiver_value(metric, receiver), "")
}

/// Adds of which receiver a metric is, and for which reason.
fn push_reason_label(text: &mut String, receiver: &str, reason: &str) -> Result<(), AllocError>
    ensures { OnOk result (string_bytes text.new ≡ string_bytes text.old ++ reason_label receiver.now reason.now) }
{
    push_receiver_part(text, receiver)?;
    push_reason_part(text, reason)
}

#[tactic(auto, unfolding(crate::specs::Metrics::receiver_part))]
fn push_receiver_part(text: &mut String, name: &str) -> Result<(), AllocError>
    ensures { OnOk result (string_bytes text.new ≡ string_bytes text.old ++ receiver_part name.now) }
{
    write!(text, "{{receiver=\"{name}\"")
}

#[tactic(auto, unfolding(crate::specs::Metrics::reason_part))]
fn push_reason_part(text: &mut String, reason: &str) -> Result<(), AllocError>
    ensures { OnOk result (string_bytes text.new ≡ string_bytes text.old ++ reason_part reason.now) }
{
    write!(text, ",reason=\"{reason}\"}} ")
}
