//! The receivers, on the page: a row each.

use crate::headline::{is_bad, is_deaf};
use crate::loss_words::loss_words;
use crate::numbers::{push_count, push_duration};
use crate::plain::plain;
use crate::snapshot::ReceiverSnapshot;
use log_lines::{LOSS_REASONS, ReceiverState};
use std::alloc::AllocError;
use std::fmt::Write as _;

/// Adds a table of the receivers.
pub(crate) fn push_receiver_table(
    text: &mut String,
    receivers: &[ReceiverSnapshot],
) -> Result<(), AllocError> {
    text.push_str(
        "<table><tr><th>Receiver</th><th>in a second</th><th>datapoints</th><th>connections</th></tr>\n",
    )?;
    for receiver in receivers {
        push_row(text, receiver)?;
    }
    text.push_str("</table>\n")
}

/// Adds a receiver. What can only be 0 at a receiver of its kind is shown once it is more.
fn push_row(text: &mut String, receiver: &ReceiverSnapshot) -> Result<(), AllocError> {
    write!(text, "<tr><td>{}", plain(receiver.name.as_str()))?;
    push_state(text, receiver)?;
    push_bad(text, receiver)?;
    push_lost(text, receiver)?;
    text.push_str("</td><td>")?;
    push_count(text, receiver.rate)?;
    text.push_str("</td><td>")?;
    push_count(text, receiver.counts.readers.datapoints)?;
    text.push_str("</td><td>")?;
    if receiver.taken > 0 || receiver.counts.connections > 0 {
        push_count(text, receiver.counts.connections)?;
    }
    text.push_str("</td></tr>\n")
}

/// Adds why it takes nothing, if it does not.
fn push_state(text: &mut String, receiver: &ReceiverSnapshot) -> Result<(), AllocError> {
    if !is_deaf(receiver) {
        return Ok(());
    }
    match receiver.state {
        ReceiverState::Open => Ok(()),
        ReceiverState::Paused { why } => {
            write!(
                text,
                "<br><b class=\"bad\">NOT RECEIVING, it pauses</b>: {why}"
            )
        }
        ReceiverState::Failed { why } => {
            write!(
                text,
                "<br><b class=\"bad\">NOT RECEIVING, it has failed</b>: {why}"
            )
        }
    }
}

/// Adds what input was bad, how much of it now, and when the last.
fn push_bad(text: &mut String, receiver: &ReceiverSnapshot) -> Result<(), AllocError> {
    let Some(age) = receiver.bad_age else {
        return Ok(());
    };
    let class = if is_bad(receiver) {
        " class=\"warn\""
    } else {
        ""
    };
    write!(text, "<br><small{class}>bad: ")?;
    let faults = receiver.counts.readers.faults;
    push_kind(text, faults.bad_lines, " line ", " lines ")?;
    push_kind(text, faults.bad_pickles, " pickle ", " pickles ")?;
    push_kind(text, faults.bad_rows, " row ", " rows ")?;
    push_kind(text, faults.bad_names, " name ", " names ")?;
    if is_bad(receiver) {
        text.push_str("(")?;
        push_count(text, receiver.bad_rate)?;
        text.push_str(" a second)</small>")
    } else {
        text.push_str("(the last ")?;
        push_duration(text, age)?;
        text.push_str(" ago)</small>")
    }
}

/// Adds how many datapoints were dropped on purpose, what connections it refused or closed, and what the system dropped.
fn push_lost(text: &mut String, receiver: &ReceiverSnapshot) -> Result<(), AllocError> {
    push_small(
        text,
        receiver.counts.emptied,
        " name emptied by rewriting",
        " names emptied by rewriting",
    )?;
    push_small(
        text,
        receiver.counts.refused,
        " connection refused",
        " connections refused",
    )?;
    for reason in LOSS_REASONS {
        let words = loss_words(reason);
        push_small(
            text,
            receiver.losses.count_of(reason),
            words.one,
            words.many,
        )?;
    }
    Ok(())
}

/// Adds a small line of a number with its words, if it is not 0.
fn push_small(text: &mut String, count: u64, one: &str, many: &str) -> Result<(), AllocError> {
    if count == 0 {
        return Ok(());
    }
    text.push_str("<br><small>")?;
    push_kind(text, count, one, many)?;
    text.push_str("</small>")
}

/// Adds a number with its words, those for one or those for many, if it is not 0.
fn push_kind(text: &mut String, count: u64, one: &str, many: &str) -> Result<(), AllocError> {
    if count == 0 {
        return Ok(());
    }
    push_count(text, count)?;
    text.push_str(if count == 1 { one } else { many })
}
