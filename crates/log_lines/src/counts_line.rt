//! The lines for what a receiver has counted, and for look-ups.

ghost use Rattle.std.specs.Prelude.{◌≡◌, ◌++◌, OnOk};
ghost use Rattle.std.specs.String.{string_bytes};
ghost use Rattle.log_lines.specs.CountsLine.{bad_words, counts_line, kind_words, lookup_line, lookup_words, mark, plural, refusal_words, refusals_line};

use crate::logged_counts::RefusalEvent;
use crate::logged_lookup::LookupEvent;
use crate::receiver_counts::ReceiverCounts;
use conf_text::Dest;
use std::alloc::AllocError;
use std::fmt::Write as _;

/// Adds the line for the bad input of a receiver of a name since the start: the kinds with a count, as in
/// `receiver line: 12 bad lines, 1 bad name`. Fails when out of memory; the text may have a part of the line
/// then.
pub fn push_receiver_counts_line(
    text: &mut String,
    name: &str,
    counts: &ReceiverCounts,
) -> Result<(), AllocError>
    ensures { OnOk result
        (string_bytes text.new ≡ string_bytes text.old ++ counts_line name.now counts.now) }
{
    write!(text, "receiver {name}")?;
    push_bad(text, counts)?;
    text.push('\n')
}

/// Adds how much was bad, by kind.
fn push_bad(text: &mut String, counts: &ReceiverCounts) -> Result<(), AllocError>
    ensures { OnOk result (string_bytes text.new ≡ string_bytes text.old ++ bad_words counts.now) }
{
    push_kind(text, true, counts.readers.faults.bad_lines, "bad line")?;
    let is_first = counts.readers.faults.bad_lines == 0;
    push_kind(
        text,
        is_first,
        counts.readers.faults.bad_pickles,
        "bad pickle",
    )?;
    let is_first = is_first && counts.readers.faults.bad_pickles == 0;
    push_kind(text, is_first, counts.readers.faults.bad_rows, "bad row")?;
    let is_first = is_first && counts.readers.faults.bad_rows == 0;
    push_kind(text, is_first, counts.readers.faults.bad_names, "bad name")
}

/// Adds the number of one kind, with what separates it from the text before it; nothing if the number is 0.
pub(crate) fn push_kind(
    text: &mut String,
    is_first: bool,
    count: u64,
    kind: &str,
) -> Result<(), AllocError>
    ensures { OnOk result
        (string_bytes text.new ≡ string_bytes text.old ++ kind_words is_first count kind.now) }
{
    if count == 0 {
        return Ok(());
    }
    write!(text, "{}{count} {kind}{}", mark(is_first), plural(count))
}

/// What separates a count from the text before it.
fn mark(is_first: bool) -> &'static str
    ensures { result.now ≡ mark is_first }
{
    if is_first { ": " } else { ", " }
}

/// The ending of a noun after this number.
pub(crate) fn plural(count: u64) -> &'static str
    ensures { result.now ≡ plural count }
{
    if count == 1 { "" } else { "s" }
}

/// Adds the line for a receiver of a name that refuses connections, or does so no more. Fails when out of
/// memory; the text may have a part of the line then.
pub fn push_refusals_line(
    text: &mut String,
    name: &str,
    event: RefusalEvent,
) -> Result<(), AllocError>
    ensures { OnOk result
        (string_bytes text.new ≡ string_bytes text.old ++ refusals_line name.now event) }
{
    write!(text, "receiver {name} ")?;
    push_refusal_words(text, event)?;
    text.push('\n')
}

/// Adds what a receiver does with connections for which it has no room.
fn push_refusal_words(text: &mut String, event: RefusalEvent) -> Result<(), AllocError>
    ensures { OnOk result (string_bytes text.new ≡ string_bytes text.old ++ refusal_words event) }
{
    match event {
        RefusalEvent::BeginsToRefuse => text.push_str("has 1,024 connections, refusing more"),
        RefusalEvent::RefusesNoMore { refused } => write!(
            text,
            "stopped refusing, refused {refused}"
        ),
    }
}

/// Adds the line for a look-up of a destination's host. Fails when out of memory; the text may have a part of the line
/// then.
pub fn push_lookup_line(
    text: &mut String,
    dest: &Dest,
    event: LookupEvent,
) -> Result<(), AllocError>
    ensures { OnOk result
        (string_bytes text.new ≡ string_bytes text.old ++ lookup_line dest.now event) }
{
    write!(text, "destination {dest} ")?;
    push_lookup_words(text, event)?;
    text.push('\n')
}

/// Adds the state of a look-up.
fn push_lookup_words(text: &mut String, event: LookupEvent) -> Result<(), AllocError>
    ensures { OnOk result (string_bytes text.new ≡ string_bytes text.old ++ lookup_words event) }
{
    match event {
        LookupEvent::Hangs => text.push_str("still looking up its host after a second"),
        LookupEvent::Ended => text.push_str("looked up its host"),
    }
}
