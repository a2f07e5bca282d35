//! What ended runs left for a destination.

ghost use Rattle.std.specs.Prelude.{◌≡◌, ◌⊎◌, ◌++◌, Some, None, IfSome, IsSome, MatchOption};
ghost use Rattle.std.specs.Io.KnownBytes.{Appends};
ghost use Rattle.line_text.specs.Print.{printed_lines};
ghost use Rattle.dest_writer.specs.Counting.{stream_of};
ghost use Rattle.dest_writer.specs.Writer.{bytes_left};
ghost use Rattle.dest_writer.specs.declared.counting.Counting.{Counting};
ghost use Rattle.handover.specs.Rest.{RestState, TookFirst, rest_text, left_text, without_connection};

use crate::dest_carry_over::counts_of;
use dest_writer::GatherBuf;
use handover::{Rest, RestConnection, RestTurn};
use run_state::RestNotes;
use std::io::Write;

/// What ended runs left for a destination: a rest, if there is one, and one that had no room behind it, for which the first is to
/// go to the file.
#[derive(Drop)]
pub(crate) struct DestRests<W> {
    pub(crate) rest: Option<RestConnection<W>>,
    pub(crate) later: Option<Rest>,
    // Whether the file was not tried yet.
    pub(crate) may_spool: bool,
}

impl<W: Drop> DestRests<W> {
    /// Nothing is left.
    pub(crate) fn none() -> DestRests<W> {
        DestRests {
            rest: None,
            later: None,
            may_spool: false,
        }
    }

    /// This rest is to be sent, and then the later one, if there is one: the connection that its writer had goes on, if it is
    /// there.
    pub(crate) fn begin(rest: Rest, later: Option<Rest>, sink: Option<W>) -> DestRests<W>
        ensures rest { IsSome result.rest × IfSome result.rest (λ begun. MatchOption sink
            (rest_text begun ≡ bytes_left (without_connection rest.writer) ++ printed_lines rest.queued)
            (λ _. rest_text begun ≡ left_text rest)) }
        ensures later { result.later ≡ later }
    {
        let mut rest = rest;
        if sink.is_none() {
            rest.lose();
        }
        let mut connection = RestConnection::new(rest);
        if let Some(sink) = sink {
            connection.go_on(sink);
        }
        DestRests {
            rest: Some(connection),
            may_spool: later.is_some(),
            later,
        }
    }

    /// Takes the rest, its connection, if there is one, and the later rest, if there is one.
    pub(crate) fn take(&mut self) -> Option<(Rest, Option<W>, Option<Rest>)>
        ensures rest { IfSome self.old.rest (λ rest. IsSome result × IfSome result (λ left.
            (left.0.writer ≡ rest.writer) × (left.0.queued ≡ rest.queued) × (left.2 ≡ self.old.later))) }
        ensures none { self.old.rest ≡ None → result ≡ None }
    {
        let (rest, sink) = self.rest.take()?.into_parts();
        Some((rest, sink, self.later.take()))
    }

    /// The later rest is the first one now, if there is one, on this connection, if there is one. Returns the connection if there
    /// is no rest.
    pub(crate) fn go_on(&mut self, sink: Option<W>) -> Option<W>
        ensures last { self.old.later ≡ None
            → (result ≡ sink) × (self.new.rest ≡ self.old.rest) × (self.new.later ≡ None) }
        ensures later { IfSome self.old.later (λ later. (result ≡ None) × (self.new.later ≡ None)
            × IsSome self.new.rest
            × IfSome self.new.rest (λ rest. MatchOption sink
            ((rest.writer ≡ later.writer) × (rest.queued ≡ later.queued))
            (λ _. rest_text rest ≡ bytes_left (without_connection later.writer) ++ printed_lines later.queued))) }
    {
        let Some(later) = self.later.take() else {
            return sink;
        };
        let mut connection = RestConnection::new(later);
        if let Some(sink) = sink {
            connection.begin(sink);
        }
        self.rest = Some(connection);
        None
    }

    /// Notes how much is left.
    pub(crate) fn note(&self, notes: Option<&RestNotes>) {
        let Some(notes) = notes else {
            return;
        };
        let (later, _none_in_hand) = counts_of(&self.later);
        match &self.rest {
            Some(rest) => {
                let rest = rest.rest();
                notes.note(rest.queued().saturating_add(later), rest.in_hand());
            }
            None => notes.note(later, 0),
        }
    }
}

impl<W: Write + Drop> DestRests<W> {
    /// Sends some of what is left, and returns the connection once it took all of that.
    pub(crate) fn send(&mut self, gathered: &mut GatherBuf) -> Option<W>
        // The connection is given out only if it took the whole rest, and nothing is left.
        ensures whole { IfSome result (λ sink. (rest : RestState W) × (had : Counting W)
            × (self.old.rest ≡ Some rest) × (rest.sink ≡ Some had)
            × Appends (W.contents (stream_of had)) (W.contents sink) (rest_text rest)) }
        ensures over { IfSome result (λ _. (self.old.later ≡ None)
            × (self.new.rest ≡ None) × (self.new.later ≡ None)) }
        ensures stays { result ≡ None → IsSome self.old.rest → IsSome self.new.rest }
        // The later rest stays behind the first one, and is sent whole once that is over.
        ensures later { IfSome self.old.later (λ later. (self.new.later ≡ Some later)
            ⊎ ((self.new.later ≡ None) × IfSome self.new.rest (λ rest.
            rest_text rest ≡ bytes_left (without_connection later.writer) ++ printed_lines later.queued))) }
    {
        match send_rest(&mut self.rest, gathered) {
            Some(sink) => self.go_on(Some(sink)),
            None => None,
        }
    }
}

/// Sends some of a rest, if there is one. Returns the connection once it took the whole rest, which is over then.
fn send_rest<W: Write + Drop>(
    slot: &mut Option<RestConnection<W>>,
    gathered: &mut GatherBuf,
) -> Option<W>
    ensures whole { IfSome result (λ sink. (rest : RestState W) × (had : Counting W)
        × (slot.old ≡ Some rest) × (rest.sink ≡ Some had)
        × Appends (W.contents (stream_of had)) (W.contents sink) (rest_text rest)) }
    ensures over { IfSome result (λ _. slot.new ≡ None) }
    // Otherwise the rest stays, also after a loss.
    ensures stays { result ≡ None → IsSome slot.old → IsSome slot.new }
    // While its connection stays, that gets what comes next of the rest and nothing else, and the rest has what it did not get.
    ensures kept { IfSome slot.old (λ rest. IfSome rest.sink (λ had.
        IfSome slot.new (λ left. IfSome left.sink (λ has.
        TookFirst (rest_text rest) (rest_text left) (W.contents (stream_of had)) (W.contents (stream_of has)))))) }
    // Once it is lost, the rest has what it did not get from the first line on that it did not take whole.
    ensures lost { IfSome slot.old (λ rest. IfSome rest.sink (λ had.
        IfSome slot.new (λ left. left.sink ≡ None → (sent : RestState W) × (has : Counting W)
        × TookFirst (rest_text rest) (rest_text sent) (W.contents (stream_of had)) (W.contents (stream_of has))
        × (left.writer ≡ without_connection sent.writer) × (left.queued ≡ sent.queued)))) }
{
    let Some(left) = slot else {
        return None;
    };
    match left.send(gathered) {
        RestTurn::Over(sink) => {
            *slot = None;
            Some(sink)
        }
        RestTurn::Lost => {
            left.lose();
            None
        }
        RestTurn::Kept => None,
    }
}
