//! What the log reports of a destination.

ghost use Rattle.std.specs.Prelude.{◌≡◌};
ghost use Rattle.log_lines.specs.LoggedDest.{IsConnectionEvent, IsDropEvent, IsDestEvent, dest_logged_after, logged_up_to, nothing_logged, with_connection, with_drops};

use crate::dest_notes::DestStatus;
use crate::why::Why;
use std::net::SocketAddr;

/// An event of a destination.
#[derive(Clone, Copy)]
pub enum DestEvent {
    /// It is connected.
    Connected,
    /// It is connected, after its connection was lost for this.
    ConnectedAgain { why: Why },
    /// Its connection is lost.
    Lost { why: Why },
    /// It cannot be connected; the try went to this address, if to any.
    CannotConnect { why: Why, to: Option<SocketAddr> },
    /// Its queue is full, and drops new datapoints.
    BeginsToDrop,
    /// Its queue has room again, and had dropped this number of datapoints.
    DropsNoMore { dropped: u64 },
}

/// What the log has reported of a destination.
#[derive(Clone, Copy)]
pub struct LoggedDest {
    pub(crate) is_up: bool,
    pub(crate) losses: u64,
    // Why it could not be connected, if that was reported after the last connection.
    pub(crate) failure: Option<Why>,
    pub(crate) is_dropping: bool,
    // The number dropped at the last look at drops, and before the queue began to drop.
    pub(crate) dropped: u64,
    pub(crate) before: u64,
}

impl LoggedDest {
    /// Nothing was reported.
    pub fn new() -> LoggedDest
        ensures { result ≡ nothing_logged }
    {
        LoggedDest {
            is_up: false,
            losses: 0,
            failure: None,
            is_dropping: false,
            dropped: 0,
            before: 0,
        }
    }

    /// All was reported that led to this state.
    pub fn after(now: &DestStatus) -> LoggedDest
        ensures { result ≡ logged_up_to now.now }
    {
        LoggedDest {
            is_up: now.is_up,
            losses: now.losses,
            failure: now.failure,
            is_dropping: false,
            dropped: now.dropped,
            before: now.dropped,
        }
    }

    /// Returns what the log reports of a destination in this state: one event at most, and the connection before
    /// drops. A later look reports what remains, if it still holds.
    pub fn look(&mut self, now: &DestStatus) -> Option<DestEvent>
        ensures event { IsDestEvent self.old now.now result }
        ensures logged { self.new ≡ dest_logged_after self.old now.now result }
    {
        let event = match connection_event(self, now) {
            Some(event) => Some(event),
            None => drop_event(self, now),
        };
        *self = logged_after(self, now, event);
        event
    }
}

/// What the log reports of the connection.
fn connection_event(logged: &LoggedDest, now: &DestStatus) -> Option<DestEvent>
    ensures { IsConnectionEvent logged.now now.now result }
{
    if now.losses != logged.losses {
        return Some(if now.is_up {
            DestEvent::ConnectedAgain { why: now.loss }
        } else {
            DestEvent::Lost { why: now.loss }
        });
    }
    if now.is_up && !logged.is_up {
        return Some(DestEvent::Connected);
    }
    match now.failure {
        Some(why) if !now.is_up && now.failure != logged.failure => {
            Some(DestEvent::CannotConnect {
                why,
                to: now.failed_at,
            })
        }
        _ => None,
    }
}

/// What the log reports of drops.
fn drop_event(logged: &LoggedDest, now: &DestStatus) -> Option<DestEvent>
    ensures { IsDropEvent logged.now now.now result }
{
    let drops = now.dropped != logged.dropped;
    if logged.is_dropping && now.has_room && !drops {
        Some(DestEvent::DropsNoMore {
            dropped: now.dropped.saturating_sub(logged.before),
        })
    } else if drops && !logged.is_dropping {
        Some(DestEvent::BeginsToDrop)
    } else {
        None
    }
}

/// What the log has reported once it reports this event.
fn logged_after(logged: &LoggedDest, now: &DestStatus, event: Option<DestEvent>) -> LoggedDest
    ensures { result ≡ dest_logged_after logged.now now.now event }
{
    match event {
        Some(DestEvent::Connected | DestEvent::ConnectedAgain { .. } | DestEvent::Lost { .. }) => {
            with_connection(logged, now, None)
        }
        Some(DestEvent::CannotConnect { why, .. }) => with_connection(logged, now, Some(why)),
        Some(DestEvent::BeginsToDrop) => with_drops(logged, now, true, logged.dropped),
        Some(DestEvent::DropsNoMore { .. }) => with_drops(logged, now, false, logged.before),
        None => with_drops(logged, now, logged.is_dropping, logged.before),
    }
}

/// What the log has reported, with the connection as it is now.
fn with_connection(logged: &LoggedDest, now: &DestStatus, failure: Option<Why>) -> LoggedDest
    ensures { result ≡ with_connection logged.now now.now failure }
{
    LoggedDest {
        is_up: now.is_up,
        losses: now.losses,
        failure,
        ..*logged
    }
}

/// What the log has reported, with the drops as they are now.
fn with_drops(logged: &LoggedDest, now: &DestStatus, is_dropping: bool, before: u64) -> LoggedDest
    ensures { result ≡ with_drops logged.now now.now is_dropping before }
{
    LoggedDest {
        is_dropping,
        dropped: now.dropped,
        before,
        ..*logged
    }
}
