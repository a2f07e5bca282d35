//! The sentence that the page and its tab begin with.

ghost use Rattle.std.specs.Prelude.{◌≡◌, ◌++◌, codes, decimal, length, OnOk};
ghost use Rattle.std.specs.List.{count_by};
ghost use Rattle.std.specs.String.{string_bytes};
ghost use Rattle.status_page.specs.Headline.{class_of, heading_start, is_away, is_of_away, opening, opening_words, tag_of, title_start, words_in_colour};

use crate::headline::{Headline, headline_of, is_away, is_losing, is_stuck};
use crate::numbers::{push_count, push_duration, push_millis};
use crate::plain::plain;
use crate::snapshot::{DestSnapshot, ReceiverSnapshot, Snapshot};
use crate::spool_text::waiting_of;
use log_lines::ReceiverState;
use std::alloc::AllocError;
use std::fmt::Write as _;

/// Begins the title, which is the browser's tab, with the first words of what the status says first.
pub(crate) fn push_title(text: &mut String, now: &Snapshot) -> Result<(), AllocError>
    ensures { OnOk result (string_bytes text.new ≡ string_bytes text.old ++ title_start now.now) }
{
    text.push_str("<title>")?;
    push_opening(text, now.dests.as_slice(), headline_of(now))
}

/// Begins the heading with them, in its colour.
pub(crate) fn push_heading(text: &mut String, now: &Snapshot) -> Result<(), AllocError>
    ensures { OnOk result (string_bytes text.new ≡ string_bytes text.old ++ heading_start now.now) }
{
    push_words_in_colour(text, now.dests.as_slice(), headline_of(now))
}

/// Adds a heading's tag in the colour of a headline, and the first words of that.
fn push_words_in_colour(
    text: &mut String,
    dests: &[DestSnapshot],
    headline: Headline,
) -> Result<(), AllocError>
    ensures { OnOk result (string_bytes text.new ≡ string_bytes text.old ++ words_in_colour dests.now headline) }
{
    push_tag(text, class_of(headline))?;
    push_opening(text, dests, headline)
}

/// Adds the tag of a heading of a class.
fn push_tag(text: &mut String, class: &str) -> Result<(), AllocError>
    ensures { OnOk result (string_bytes text.new ≡ string_bytes text.old ++ tag_of class.now) }
{
    write!(text, "<h1 class=\"{class}\">")
}

/// How it is coloured: red where data is lost or soon will be, green where all is well.
pub(crate) fn class_of(headline: Headline) -> &'static str
    ensures { result.now ≡ class_of headline }
{
    match headline {
        Headline::Losing { .. }
        | Headline::Deaf { .. }
        | Headline::Filling { .. }
        | Headline::Stuck { .. } => "ill",
        Headline::Well => "good",
        _ => "warn",
    }
}

/// Adds what follows these words.
pub(crate) fn push_sentence(
    text: &mut String,
    now: &Snapshot,
    headline: Headline,
) -> Result<(), AllocError> {
    match headline {
        Headline::Stopping => push_stopping(text, now),
        Headline::Losing { place } => push_losing(text, now, place),
        Headline::Deaf { place } => push_deaf(text, now, place),
        Headline::Filling { place } => push_filling(text, now, place),
        Headline::Stuck { place } => push_stuck(text, now, place),
        Headline::Away { place } => push_away(text, now, place),
        Headline::Flapping { place } => push_flapping(text, now, place),
        Headline::Bad { place } => push_bad(text, now, place),
        Headline::Silent => push_duration(text, now.silence),
        Headline::Well => push_well(text, now),
    }
}

/// Adds the beginning of the sentence, by which the headlines differ.
fn push_opening(
    text: &mut String,
    dests: &[DestSnapshot],
    headline: Headline,
) -> Result<(), AllocError>
    ensures { OnOk result (string_bytes text.new ≡ string_bytes text.old ++ opening dests.now headline) }
{
    if is_of_away(headline) {
        push_away_count(text, dests)?;
    }
    text.push_str(opening_words(headline))
}

fn is_of_away(headline: Headline) -> bool
    ensures { result ≡ is_of_away headline }
{
    matches!(headline, Headline::Away { .. })
}

/// Adds how many destinations are away, and of how many.
fn push_away_count(text: &mut String, dests: &[DestSnapshot]) -> Result<(), AllocError>
    ensures { OnOk result (string_bytes text.new ≡ string_bytes text.old
        ++ decimal (count_by is_away dests.now) ++ codes " of " ++ decimal (length dests.now)) }
{
    write!(text, "{} of {}", away_count(dests), dests.len())
}

fn away_count(dests: &[DestSnapshot]) -> usize
    ensures { result ≡ count_by is_away dests.now }
{
    dests.iter().filter(|dest| is_away(dest)).count()
}

/// The words with which the sentence begins.
fn opening_words(headline: Headline) -> &'static str
    ensures { result.now ≡ opening_words headline }
{
    match headline {
        Headline::Stopping => "STOPPING: ",
        Headline::Losing { .. } => "LOSING ",
        Headline::Deaf { .. } => "NOT RECEIVING",
        Headline::Filling { .. } => "FILLING: ",
        Headline::Stuck { .. } => "STUCK: ",
        Headline::Away { .. } => " away",
        Headline::Flapping { .. } => "FLAPPING: ",
        Headline::Bad { .. } => "bad input: ",
        Headline::Silent => "no input for ",
        Headline::Well => "all well: ",
    }
}

fn push_stopping(text: &mut String, now: &Snapshot) -> Result<(), AllocError> {
    push_count(text, now.queued)?;
    text.push_str(" datapoints queued")
}

/// Adds how much is lost, by which destination and why, and how many others lose too.
fn push_losing(text: &mut String, now: &Snapshot, place: usize) -> Result<(), AllocError> {
    push_count(text, now.rates.dropped)?;
    text.push_str(" a second: ")?;
    let dests = now.dests.as_slice();
    let Some(dest) = dests.get(place) else {
        return Ok(());
    };
    write!(text, "{} ", dest.dest)?;
    push_trouble(text, dest)?;
    text.push_str(", queue full")?;
    let others = losing_count(dests).saturating_sub(1);
    if others > 0 {
        write!(text, ", and {others} more")?;
    }
    Ok(())
}

fn losing_count(dests: &[DestSnapshot]) -> usize {
    let mut count: usize = 0;
    for dest in dests {
        if is_losing(dest) {
            count = count.saturating_add(1);
        }
    }
    count
}

/// Adds why datapoints stay in the queue of a destination.
pub(crate) fn push_trouble(text: &mut String, dest: &DestSnapshot) -> Result<(), AllocError> {
    if is_away(dest) {
        text.push_str("not connected for ")?;
        push_duration(text, dest.since)
    } else if is_stuck(dest) {
        text.push_str("takes nothing for ")?;
        push_duration(text, dest.stalled)
    } else {
        text.push_str("takes ")?;
        push_count(text, dest.rates.written)?;
        text.push_str(" of ")?;
        push_count(text, dest.rates.received)?;
        text.push_str(" a second")
    }
}

fn push_deaf(text: &mut String, now: &Snapshot, place: usize) -> Result<(), AllocError> {
    let Some(receiver) = now.receivers.as_slice().get(place) else {
        return Ok(());
    };
    write!(text, " at {}: ", plain(receiver.name.as_str()))?;
    push_why(text, receiver)
}

fn push_why(text: &mut String, receiver: &ReceiverSnapshot) -> Result<(), AllocError> {
    match receiver.state {
        ReceiverState::Open => Ok(()),
        ReceiverState::Paused { why } => write!(text, "it pauses, {why}"),
        ReceiverState::Failed { why } => write!(text, "it has failed, {why}"),
    }
}

fn push_filling(text: &mut String, now: &Snapshot, place: usize) -> Result<(), AllocError> {
    let Some(dest) = now.dests.as_slice().get(place) else {
        return Ok(());
    };
    write!(text, "{} full in ", dest.dest)?;
    push_duration(text, seconds_to_full(dest, now.queue_size))?;
    text.push_str(", ")?;
    push_trouble(text, dest)
}

/// After how many seconds a queue of this size is full, if it fills as in the last sample.
pub(crate) fn seconds_to_full(dest: &DestSnapshot, size: u64) -> u64 {
    let room = size.saturating_sub(dest.counts.queued);
    let gain = dest.rates.received.saturating_sub(dest.rates.written);
    room / gain.max(1)
}

fn push_stuck(text: &mut String, now: &Snapshot, place: usize) -> Result<(), AllocError> {
    let Some(dest) = now.dests.as_slice().get(place) else {
        return Ok(());
    };
    write!(text, "{} ", dest.dest)?;
    push_trouble(text, dest)?;
    text.push_str(", ")?;
    push_count(text, dest.counts.queued)?;
    text.push_str(" queued")
}

/// Adds which destination is away, if it is one, and how full the queues are at most.
fn push_away(text: &mut String, now: &Snapshot, place: usize) -> Result<(), AllocError> {
    let dests = now.dests.as_slice();
    let mut fullest: u64 = 0;
    for dest in dests {
        fullest = fullest.max(dest.counts.queued);
    }
    if away_count(dests) == 1 {
        if let Some(dest) = dests.get(place) {
            write!(text, ": {}", dest.dest)?;
        }
    }
    if fullest >= now.queue_size {
        return text.push_str(", a queue full");
    }
    let percent = next_tenth(fullest, now.queue_size);
    write!(text, ", queues below {percent} %")
}

/// The first multiple of ten hundredths of a size above a number that is less.
fn next_tenth(count: u64, size: u64) -> u64 {
    let tenths = (count as u128 * 10 / size.max(1) as u128).min(9) as u64;
    (tenths + 1) * 10
}

fn push_flapping(text: &mut String, now: &Snapshot, place: usize) -> Result<(), AllocError> {
    let Some(dest) = now.dests.as_slice().get(place) else {
        return Ok(());
    };
    write!(
        text,
        "{} lost its connection {} times in a minute",
        dest.dest, dest.connections.lost_lately
    )
}

fn push_bad(text: &mut String, now: &Snapshot, place: usize) -> Result<(), AllocError> {
    let Some(receiver) = now.receivers.as_slice().get(place) else {
        return Ok(());
    };
    push_count(text, receiver.bad_rate)?;
    write!(text, " a second at {}", plain(receiver.name.as_str()))
}

fn push_well(text: &mut String, now: &Snapshot) -> Result<(), AllocError> {
    push_count(text, now.rates.received)?;
    text.push_str(" a second in, ")?;
    push_count(text, now.rates.written)?;
    text.push_str(" out, ")?;
    let (files, waiting) = waiting_of(now.dests.as_slice());
    if files > 0 {
        push_count(text, waiting)?;
        return text.push_str(" wait in files");
    }
    let oldest = oldest_of(now.dests.as_slice());
    if oldest == 0 {
        return text.push_str("nothing queued");
    }
    text.push_str("oldest queued ")?;
    push_millis(text, oldest)
}

/// For how many milliseconds at most the oldest datapoint of all queues has been there.
fn oldest_of(dests: &[DestSnapshot]) -> u64 {
    let mut oldest = 0;
    for dest in dests {
        oldest = dest.oldest.max(oldest);
    }
    oldest
}
