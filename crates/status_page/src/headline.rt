//! What the status says first.

ghost use Rattle.std.specs.Prelude.{◌≡◌};
ghost use Rattle.std.specs.List.{list_all, position};
ghost use Rattle.status_page.specs.Headline.{is_losing, drops_at_most, is_losing_most, is_deaf, is_filling, is_stuck, is_away, is_flapping, is_bad, is_silent, is_ill, input_headline, connection_headline, running_headline, state_name, headline};

use crate::snapshot::{DestSnapshot, ReceiverSnapshot, Snapshot};
use log_lines::ReceiverState;

/// For how many seconds a queue may have datapoints and give none to a connection before its destination is stuck.
pub(crate) const LONG_STALL_SECONDS: u64 = 3;

/// How many connections a destination that flaps has lost in the last minute, at least.
pub(crate) const MANY_LOSSES: u64 = 3;

/// After how many seconds without a datapoint the status says that there is no input: producers mostly send once a
/// minute.
pub(crate) const LONG_SILENCE_SECONDS: u64 = 75;

/// What the status says first: the worst that is true. A loss it names of the destination that loses most, all else of the
/// first destination or receiver of which it is true.
#[derive(Clone, Copy)]
pub(crate) enum Headline {
    /// The relay is about to end.
    Stopping,
    /// The queue of this destination drops datapoints, and no other drops more.
    Losing { place: usize },
    /// This receiver takes nothing.
    Deaf { place: usize },
    /// The queue of this destination fills.
    Filling { place: usize },
    /// This destination is connected, and takes nothing of what is queued.
    Stuck { place: usize },
    /// This destination has no connection.
    Away { place: usize },
    /// This destination loses its connection again and again.
    Flapping { place: usize },
    /// Input at this receiver is bad.
    Bad { place: usize },
    /// No datapoint arrives.
    Silent,
    /// All is well.
    Well,
}

/// What the status says first.
pub(crate) fn headline_of(now: &Snapshot) -> Headline
    ensures { result ≡ headline now.now }
{
    if now.is_stopping {
        return Headline::Stopping;
    }
    let receivers = now.receivers.as_slice();
    running_headline(now.dests.as_slice(), receivers, now.queue_size, now.silence)
}

/// What it says first of a relay that goes on: of losses, or else of connections and input.
fn running_headline(
    dests: &[DestSnapshot],
    receivers: &[ReceiverSnapshot],
    size: u64,
    silence: u64,
) -> Headline
    ensures { result ≡ running_headline dests.now receivers.now size silence }
{
    if let Some(place) = losing_place(dests) {
        return Headline::Losing { place };
    }
    if let Some(place) = deaf_place(receivers) {
        return Headline::Deaf { place };
    }
    if let Some(place) = filling_place(dests, size) {
        return Headline::Filling { place };
    }
    connection_headline(dests, receivers, silence)
}

/// What it says first of connections, or else of input.
fn connection_headline(
    dests: &[DestSnapshot],
    receivers: &[ReceiverSnapshot],
    silence: u64,
) -> Headline
    ensures { result ≡ connection_headline dests.now receivers.now silence }
{
    if let Some(place) = stuck_place(dests) {
        return Headline::Stuck { place };
    }
    if let Some(place) = away_place(dests) {
        return Headline::Away { place };
    }
    if let Some(place) = flapping_place(dests) {
        return Headline::Flapping { place };
    }
    input_headline(receivers, silence)
}

/// What it says first of input.
fn input_headline(receivers: &[ReceiverSnapshot], silence: u64) -> Headline
    ensures { result ≡ input_headline receivers.now silence }
{
    if let Some(place) = bad_place(receivers) {
        return Headline::Bad { place };
    }
    if is_silent(silence) {
        Headline::Silent
    } else {
        Headline::Well
    }
}

/// The name of a headline in JSON.
pub(crate) fn state_name(headline: Headline) -> &'static str
    ensures { result.now ≡ state_name headline }
{
    match headline {
        Headline::Stopping => "stopping",
        Headline::Losing { .. } => "losing",
        Headline::Deaf { .. } => "not_receiving",
        Headline::Filling { .. } => "filling",
        Headline::Stuck { .. } => "stuck",
        Headline::Away { .. } => "away",
        Headline::Flapping { .. } => "flapping",
        Headline::Bad { .. } => "bad_input",
        Headline::Silent => "no_input",
        Headline::Well => "well",
    }
}

/// Whether the page shows a destination as a card, before the others: it has no connection, or something else is wrong
/// with it.
pub(crate) fn is_ill(dest: &DestSnapshot, size: u64) -> bool
    ensures { result ≡ is_ill size dest.now }
{
    is_losing(dest)
        || is_filling(dest, size)
        || is_stuck(dest)
        || is_away(dest)
        || is_flapping(dest)
}

fn losing_place(dests: &[DestSnapshot]) -> Option<usize>
    ensures { result ≡ position (is_losing_most dests.now) dests.now }
{
    dests.iter().position(|dest| is_losing_most(dest, dests))
}

fn filling_place(dests: &[DestSnapshot], size: u64) -> Option<usize>
    ensures { result ≡ position (is_filling size) dests.now }
{
    dests.iter().position(|dest| is_filling(dest, size))
}

fn stuck_place(dests: &[DestSnapshot]) -> Option<usize>
    ensures { result ≡ position is_stuck dests.now }
{
    dests.iter().position(|dest| is_stuck(dest))
}

fn away_place(dests: &[DestSnapshot]) -> Option<usize>
    ensures { result ≡ position is_away dests.now }
{
    dests.iter().position(|dest| is_away(dest))
}

fn flapping_place(dests: &[DestSnapshot]) -> Option<usize>
    ensures { result ≡ position is_flapping dests.now }
{
    dests.iter().position(|dest| is_flapping(dest))
}

fn deaf_place(receivers: &[ReceiverSnapshot]) -> Option<usize>
    ensures { result ≡ position is_deaf receivers.now }
{
    receivers.iter().position(|receiver| is_deaf(receiver))
}

fn bad_place(receivers: &[ReceiverSnapshot]) -> Option<usize>
    ensures { result ≡ position is_bad receivers.now }
{
    receivers.iter().position(|receiver| is_bad(receiver))
}

/// Whether its queue drops datapoints.
pub(crate) fn is_losing(dest: &DestSnapshot) -> bool
    ensures { result ≡ is_losing dest.now }
{
    0 < dest.rates.dropped
}

/// Whether its queue drops datapoints, and no queue of these destinations drops more.
fn is_losing_most(dest: &DestSnapshot, dests: &[DestSnapshot]) -> bool
    ensures { result ≡ is_losing_most dests.now dest.now }
{
    is_losing(dest) && drop_at_most(dests, dest.rates.dropped)
}

/// Whether each of them drops at most this many datapoints a second.
fn drop_at_most(dests: &[DestSnapshot], rate: u64) -> bool
    ensures { result ≡ list_all (drops_at_most rate) dests.now }
{
    dests.iter().all(|dest| drops_at_most(dest, rate))
}

fn drops_at_most(dest: &DestSnapshot, rate: u64) -> bool
    ensures { result ≡ drops_at_most rate dest.now }
{
    dest.rates.dropped <= rate
}

/// Whether its queue, of this size, is a tenth full or more and fills.
pub(crate) fn is_filling(dest: &DestSnapshot, size: u64) -> bool
    ensures { result ≡ is_filling size dest.now }
{
    size / 10 <= dest.counts.queued && dest.rates.written < dest.rates.received
}

/// Whether it has a connection that takes nothing of what is queued.
pub(crate) fn is_stuck(dest: &DestSnapshot) -> bool
    ensures { result ≡ is_stuck dest.now }
{
    dest.is_up && LONG_STALL_SECONDS <= dest.stalled
}

/// Whether it has no connection, and all addresses of its host were tried.
pub(crate) fn is_away(dest: &DestSnapshot) -> bool
    ensures { result ≡ is_away dest.now }
{
    !dest.is_up && !dest.is_starting
}

/// Whether it loses its connection again and again.
pub(crate) fn is_flapping(dest: &DestSnapshot) -> bool
    ensures { result ≡ is_flapping dest.now }
{
    MANY_LOSSES <= dest.connections.lost_lately
}

/// Whether it takes nothing that producers send.
pub(crate) fn is_deaf(receiver: &ReceiverSnapshot) -> bool
    ensures { result ≡ is_deaf receiver.now }
{
    match receiver.state {
        ReceiverState::Open => false,
        ReceiverState::Paused { .. } | ReceiverState::Failed { .. } => true,
    }
}

/// Whether its input is bad now.
pub(crate) fn is_bad(receiver: &ReceiverSnapshot) -> bool
    ensures { result ≡ is_bad receiver.now }
{
    0 < receiver.bad_rate
}

/// Whether so many seconds without a datapoint are too many.
fn is_silent(seconds: u64) -> bool
    ensures { result ≡ is_silent seconds }
{
    LONG_SILENCE_SECONDS <= seconds
}
