//! The events of a script.
ghost use Rattle.std.specs.Prelude.{◌≡◌};
ghost use Rattle.replay.specs.ScriptEvent.{event_seen};

use line_text::Moment;
use std::marker::Model;

/// What happens to a world of readers and destinations, both numbered from 0. A piece has bytes of its own.
#[derive(Drop)]
pub enum OwnedEvent {
    /// A reader is fed a piece at a moment.
    Piece(usize, Vec<u8>, Moment),
    /// A reader's connection ends.
    End(usize),
    /// A reader makes the first offer that waits.
    Offer(usize),
    /// A destination's writer takes a batch.
    Take(usize),
    /// A destination has a connection.
    Up(usize),
    /// A destination's connection took this many bytes.
    Wrote(usize, usize),
    /// A destination's connection is lost.
    Down(usize),
}

/// An event of a script, and the number of its line.
///
/// Clauses see it as these two, the event as `relay_core` has it.
#[derive(Drop)]
pub struct ScriptEvent {
    line: usize,
    event: OwnedEvent,
}

impl Model for ScriptEvent {
    ghost use Rattle.replay.specs.ScriptEvent.{NumberedEvent, event_seen};

    ghost Value = { NumberedEvent };

    ghost view = { λ e. record { line = e.line; event = event_seen e.event } };
}

impl ScriptEvent {
    pub(crate) fn new(line: usize, event: OwnedEvent) -> ScriptEvent
        ensures line { result.line ≡ line }
        ensures event { result.event ≡ event_seen event }
    {
        ScriptEvent { line, event }
    }

    /// The number of its line, from 1.
    pub fn line(&self) -> usize
        ensures { result ≡ self.now.line }
    {
        self.line
    }

    /// The event.
    pub fn event(&self) -> &OwnedEvent
        ensures { event_seen result.now ≡ self.now.event }
    {
        &self.event
    }
}
