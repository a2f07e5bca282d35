//! The line for what a receiver lost or closed.

ghost use Rattle.std.specs.Prelude.{◌≡◌, ◌++◌, OnOk, true};
ghost use Rattle.std.specs.String.{string_bytes};
ghost use Rattle.log_lines.specs.LossesLine.{loss_noun, loss_words, loss_words_of, losses_line, overlong_noun, unfinished_noun};

use crate::counts_line::push_kind;
use crate::losses::{LOSS_REASONS, LossCounts, LossReason};
use std::alloc::AllocError;
use std::fmt::Write as _;

/// What a receiver's readers read whole.
#[derive(Clone, Copy, Debug, PartialEq)]
pub enum InputUnit {
    /// Lines of connections.
    Line,
    /// Frames of pickles.
    Frame,
    /// Datagrams of lines.
    Datagram,
}

/// Adds the line for what a receiver of a name lost or closed since the start: the reasons with a count, as in
/// `receiver line: 2 overlong lines, 1 idle connection`. Fails when out of memory; the text may have a part of the line
/// then.
pub fn push_losses_line(
    text: &mut String,
    name: &str,
    unit: InputUnit,
    counts: &LossCounts,
) -> Result<(), AllocError>
    ensures { OnOk result
        (string_bytes text.new ≡ string_bytes text.old ++ losses_line name.now unit counts.now) }
{
    write!(text, "receiver {name}")?;
    push_losses(text, unit, counts)?;
    text.push('\n')
}

/// Adds how much was lost or closed, by reason.
#[tactic(auto, unfolding(crate::specs::LossesLine::loss_words))]
fn push_losses(text: &mut String, unit: InputUnit, counts: &LossCounts) -> Result<(), AllocError>
    ensures { OnOk result
        (string_bytes text.new ≡ string_bytes text.old ++ loss_words unit counts.now) }
{
    push_losses_of(text, unit, counts, &LOSS_REASONS)
}

/// Adds how much was lost or closed for these reasons.
fn push_losses_of(
    text: &mut String,
    unit: InputUnit,
    counts: &LossCounts,
    reasons: &[LossReason],
) -> Result<(), AllocError>
    ensures { OnOk result
        (string_bytes text.new ≡ string_bytes text.old ++ loss_words_of unit counts.now true reasons.now) }
{
    let mut is_first = true;
    for reason in reasons {
        let count = counts.count_of(*reason);
        push_kind(text, is_first, count, loss_noun(unit, *reason))?;
        is_first &= count == 0;
    }
    Ok(())
}

/// What was lost or closed for a reason.
fn loss_noun(unit: InputUnit, reason: LossReason) -> &'static str
    ensures { result.now ≡ loss_noun unit reason }
{
    match reason {
        LossReason::Overlong => overlong_noun(unit),
        LossReason::Unfinished => unfinished_noun(unit),
        LossReason::Idle => "idle connection",
        LossReason::MemoryShort => "memory shortage",
        LossReason::Broken => "broken connection",
        LossReason::SystemDrop => "system drop",
    }
}

/// What is too long.
fn overlong_noun(unit: InputUnit) -> &'static str
    ensures { result.now ≡ overlong_noun unit }
{
    match unit {
        InputUnit::Line => "overlong line",
        InputUnit::Frame => "overlong frame",
        InputUnit::Datagram => "overlong datagram",
    }
}

/// What has no end. A datagram always has one.
fn unfinished_noun(unit: InputUnit) -> &'static str
    ensures { result.now ≡ unfinished_noun unit }
{
    match unit {
        InputUnit::Line => "unfinished line",
        InputUnit::Frame => "unfinished frame",
        InputUnit::Datagram => "unfinished datagram",
    }
}
