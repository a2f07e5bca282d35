//! The status as metrics, in Prometheus' text format.

ghost use Rattle.std.specs.Prelude.{◌≡◌, ◌++◌, OnOk, map};
ghost use Rattle.std.specs.String.{string_bytes};
ghost use Rattle.std.specs.List.{flat_map};
ghost use Rattle.status_page.specs.MetricTable.{row_of, truth_number, open_number};
ghost use Rattle.status_page.specs.Metrics.{help_line, type_line, kind_word, metric_head, value_line, relay_scale, relay_sample, build_labels, build_sample, samples, metric_text, status_metrics};

use crate::dest_metrics::push_dest_samples;
use crate::metric_table::{METRICS, Metric, MetricKind, RelayMetric, Shown, relay_value};
use crate::plain::plain;
use crate::receiver_metrics::{push_loss_samples, push_receiver_samples, push_rejection_samples};
use crate::snapshot::Snapshot;
use log_lines::{LOSS_REASONS, ReceiverState};
use std::alloc::AllocError;
use std::fmt::Write as _;

/// Adds the status as metrics. Fails when out of memory; the text may have a part of them then.
pub fn push_metrics(text: &mut String, now: &Snapshot) -> Result<(), AllocError>
    ensures { OnOk result (string_bytes text.new ≡ string_bytes text.old ++ status_metrics now.now) }
{
    push_each(text, &METRICS, now)
}

/// Adds these metrics.
fn push_each(text: &mut String, metrics: &[Metric], now: &Snapshot) -> Result<(), AllocError>
    ensures { OnOk result (string_bytes text.new
        ≡ string_bytes text.old ++ flat_map (metric_text now.now) (map row_of metrics.now)) }
{
    for metric in metrics {
        push_metric(text, metric, now)?;
    }
    Ok(())
}

fn push_metric(text: &mut String, metric: &Metric, now: &Snapshot) -> Result<(), AllocError>
    ensures { OnOk result (string_bytes text.new
        ≡ string_bytes text.old ++ metric_text now.now (row_of metric.now)) }
{
    push_head(text, metric)?;
    push_samples(text, metric.name, metric.shows, now)
}

/// Adds the lines that explain a metric.
fn push_head(text: &mut String, metric: &Metric) -> Result<(), AllocError>
    ensures { OnOk result (string_bytes text.new ≡ string_bytes text.old ++ metric_head (row_of metric.now)) }
{
    push_help(text, metric.name, metric.help)?;
    push_type(text, metric.name, kind_word(metric.kind))
}

#[tactic(auto, unfolding(crate::specs::Metrics::help_line))]
fn push_help(text: &mut String, name: &str, help: &str) -> Result<(), AllocError>
    ensures { OnOk result (string_bytes text.new ≡ string_bytes text.old ++ help_line name.now help.now) }
{
    write!(text, "# HELP {name} {help}\n")
}

#[tactic(auto, unfolding(crate::specs::Metrics::type_line))]
fn push_type(text: &mut String, name: &str, kind: &str) -> Result<(), AllocError>
    ensures { OnOk result (string_bytes text.new ≡ string_bytes text.old ++ type_line name.now kind.now) }
{
    write!(text, "# TYPE {name} {kind}\n")
}

fn kind_word(kind: MetricKind) -> &'static str
    ensures { result.now ≡ kind_word kind }
{
    match kind {
        MetricKind::Counter => "counter",
        MetricKind::Gauge => "gauge",
    }
}

/// Adds the numbers of a metric, with its labels.
fn push_samples(
    text: &mut String,
    name: &str,
    shows: Shown,
    now: &Snapshot,
) -> Result<(), AllocError>
    ensures { OnOk result (string_bytes text.new ≡ string_bytes text.old ++ samples name.now shows now.now) }
{
    match shows {
        Shown::Build => push_build(text, name, now),
        Shown::Relay(metric) => push_relay_sample(text, name, metric, now),
        Shown::Dests(metric) => push_dest_samples(text, name, metric, now.dests.as_slice()),
        Shown::Receivers(metric) => {
            push_receiver_samples(text, name, metric, now.receivers.as_slice())
        }
        Shown::Rejections => push_rejection_samples(text, name, now.receivers.as_slice()),
        Shown::Losses => push_loss_samples(text, name, now.receivers.as_slice(), &LOSS_REASONS),
    }
}

fn push_build(text: &mut String, name: &str, now: &Snapshot) -> Result<(), AllocError>
    ensures { OnOk result (string_bytes text.new ≡ string_bytes text.old ++ build_sample name.now now.now) }
{
    text.push_str(name)?;
    push_build_labels(
        text,
        plain(now.version.as_str()),
        plain(now.configuration.as_str()),
    )
}

/// Adds the version and the configuration, as labels.
#[tactic(auto, unfolding(crate::specs::Metrics::build_labels))]
fn push_build_labels(
    text: &mut String,
    version: &str,
    configuration: &str,
) -> Result<(), AllocError>
    ensures { OnOk result (string_bytes text.new
        ≡ string_bytes text.old ++ build_labels version.now configuration.now) }
{
    write!(
        text,
        "{{version=\"{version}\",configuration=\"{configuration}\"}} 1\n"
    )
}

/// Adds a metric of the relay.
fn push_relay_sample(
    text: &mut String,
    name: &str,
    metric: RelayMetric,
    now: &Snapshot,
) -> Result<(), AllocError>
    ensures { OnOk result (string_bytes text.new ≡ string_bytes text.old ++ relay_sample name.now metric now.now) }
{
    text.push_str(name)?;
    text.push_str(" ")?;
    push_value(text, relay_value(metric, now), relay_scale(metric))
}

/// The power of ten of a metric's number: hundredths of a second, or none.
fn relay_scale(metric: RelayMetric) -> &'static str
    ensures { result.now ≡ relay_scale metric }
{
    match metric {
        RelayMetric::Processor => "e-2",
        _ => "",
    }
}

/// Adds a number, a power of ten, as in `5e-3`, or none, and a newline.
#[tactic(auto, unfolding(crate::specs::Metrics::value_line))]
pub(crate) fn push_value(text: &mut String, value: u64, scale: &str) -> Result<(), AllocError>
    ensures { OnOk result (string_bytes text.new ≡ string_bytes text.old ++ value_line value scale.now) }
{
    write!(text, "{value}{scale}\n")
}

pub(crate) fn truth_number(is_so: bool) -> u64
    ensures { result ≡ truth_number is_so }
{
    if is_so { 1 } else { 0 }
}

/// 1 if it receives, 0 if not.
pub(crate) fn open_number(state: ReceiverState) -> u64
    ensures { result ≡ open_number state }
{
    match state {
        ReceiverState::Open => 1,
        ReceiverState::Paused { .. } | ReceiverState::Failed { .. } => 0,
    }
}
