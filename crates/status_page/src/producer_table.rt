//! The producers, on the page: a row each.

use crate::numbers::{push_count, push_duration};
use crate::plain::plain_address;
use crate::snapshot::{OtherProducers, ProducerSnapshot, Snapshot};
use log_lines::ProducerCounts;
use std::alloc::AllocError;
use std::fmt::Write as _;

/// Adds a table of the producers, if there are some.
pub(crate) fn push_producer_table(text: &mut String, now: &Snapshot) -> Result<(), AllocError> {
    if now.producers.is_empty() {
        return Ok(());
    }
    text.push_str("<h2>Producers, of the last ten seconds</h2>\n<table><tr><th>Address</th>")?;
    text.push_str("<th>datapoints in a second</th><th>bytes</th><th>connections</th></tr>\n")?;
    for producer in now.producers.as_slice() {
        push_row(text, producer)?;
    }
    push_others(text, now.other_producers)?;
    text.push_str("</table>\n")
}

/// Adds a producer.
fn push_row(text: &mut String, producer: &ProducerSnapshot) -> Result<(), AllocError> {
    write!(text, "<tr><td>{}", plain_address(producer.address.as_str()))?;
    push_rates(text, producer.rates)?;
    text.push_str("<td>")?;
    if producer.connections > 0 {
        push_count(text, producer.connections)?;
        text.push_str(", ")?;
        push_duration(text, producer.age)?;
    }
    text.push_str("</td></tr>\n")
}

/// Adds the other ones, if they sent something.
fn push_others(text: &mut String, others: OtherProducers) -> Result<(), AllocError> {
    let rates = others.rates;
    if rates.datapoints == 0 && rates.bytes == 0 && rates.bad == 0 {
        return Ok(());
    }
    text.push_str("<tr><td>others")?;
    push_rates(text, rates)?;
    text.push_str("<td></td></tr>\n")
}

/// Adds what came in a second: what of it was bad to the first cell, if there was such, and the next two.
fn push_rates(text: &mut String, rates: ProducerCounts) -> Result<(), AllocError> {
    if rates.bad > 0 {
        text.push_str("<br><small class=\"warn\">bad: ")?;
        push_count(text, rates.bad)?;
        text.push_str(" a second</small>")?;
    }
    text.push_str("</td><td>")?;
    push_count(text, rates.datapoints)?;
    text.push_str("</td><td>")?;
    push_count(text, rates.bytes)?;
    text.push_str("</td>")
}
