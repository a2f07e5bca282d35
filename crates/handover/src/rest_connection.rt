//! What an ended run left for a destination, and the connection that it goes out on.

ghost use Rattle.std.specs.Prelude.{◌≡◌, ◌↔◌, [], ◌++◌, true, false, Some, None, IfSome, IsSome, MatchOption, IsTrue};
ghost use Rattle.std.specs.Io.KnownBytes.{Appends};
ghost use Rattle.dest_writer.specs.Counting.{stream_of};
ghost use Rattle.dest_writer.specs.Writer.{bytes_left};
ghost use Rattle.dest_writer.specs.declared.counting.Counting.{Counting};
ghost use Rattle.dest_writer.specs.declared.driven.Driven.TheVariants.{Idle};
ghost use Rattle.line_text.specs.Print.{printed_lines};
ghost use Rattle.handover.specs.Rest.{TookFirst, rest_text, left_text, without_connection};
ghost use Rattle.handover.specs.RestTurn.{IfOver, IfNotOver};

use crate::rest::Rest;
use crate::rest_turn::RestTurn;
use dest_writer::{Counting, Driven, GatherBuf};
use std::io::Write;
use std::marker::Model;

/// How many batches one turn sends at most.
pub const MOST_BATCHES: usize = 16;

/// What an ended run left for a destination, and the connection that this goes out on, if there is one. The connection is the
/// rest's own, so that nothing else is written to it, until all is sent.
///
/// Clauses see it as the writer of that run, what was queued behind its hand, and the connection.
#[derive(Drop)]
pub struct RestConnection<W> {
    rest: Rest,
    sink: Option<Counting<W>>,
    // Whether the connection takes no more before it is ready.
    is_blocked: bool,
    ghost up: { IsSome sink → rest.writer.up ≡ true },
}

impl<W> Model for RestConnection<W> {
    ghost use Rattle.line_text.specs.Print.{printed_lines};
    ghost use Rattle.handover.specs.Rest.{RestState};

    ghost Value = { RestState W };

    ghost view = { λ r. record {
      writer = r.rest.writer;
      queued = r.rest.queued;
      sink = r.sink;
      blocked = r.is_blocked;
    } };
}

impl<W: Drop> RestConnection<W> {
    /// What was left, without a connection; the writer may have had one.
    pub fn new(rest: Rest) -> RestConnection<W>
        ensures writer { result.writer ≡ rest.writer }
        ensures queued { result.queued ≡ rest.queued }
        ensures none { (result.sink ≡ None) × (result.blocked ≡ false) }
    {
        RestConnection {
            rest,
            sink: None,
            is_blocked: false,
        }
    }

    /// What is left, and the connection, if there is one: it may go on elsewhere ([`RestConnection::go_on`]).
    pub fn into_parts(self) -> (Rest, Option<W>)
        ensures writer { result.0.writer ≡ self.writer }
        ensures queued { result.0.queued ≡ self.queued }
        ensures sink { MatchOption self.sink (result.1 ≡ None) (λ had. result.1 ≡ Some (stream_of had)) }
    {
        let RestConnection {
            rest,
            sink,
            is_blocked: _,
        } = self;
        match sink {
            Some(sink) => (rest, Some(sink.into_stream())),
            None => (rest, None),
        }
    }

    /// What is left.
    pub fn rest(&self) -> &Rest
        ensures writer { result.now.writer ≡ self.now.writer }
        ensures queued { result.now.queued ≡ self.now.queued }
    {
        &self.rest
    }

    /// Whether there is a connection.
    pub fn is_open(&self) -> bool
        ensures { IsTrue result ↔ IsSome self.now.sink }
    {
        self.sink.is_some()
    }

    /// Whether there is a connection that takes more at once.
    pub fn goes_on(&self) -> bool
        ensures { IsTrue result ↔ (IsSome self.now.sink × (self.now.blocked ≡ false)) }
    {
        self.sink.is_some() && !self.is_blocked
    }

    /// The connection is ready.
    pub fn note_ready(&mut self)
        ensures { self.new ≡ record self.old { blocked = false } }
    {
        self.is_blocked = false;
    }

    /// The connection that the writer had goes on: it gets the rest from the very byte on that it took last.
    pub fn go_on(&mut self, sink: W)
        ensures text { rest_text self.new ≡ rest_text self.old }
        ensures sink { (has : Counting W) × (self.new.sink ≡ Some has) × (stream_of has ≡ sink) }
        ensures open { self.new.blocked ≡ false }
    {
        // The writer that had it has it still.
        self.rest.connect();
        self.is_blocked = false;
        self.sink = Some(Counting::new(sink));
    }

    /// This is another connection than the writer had: it gets the rest from the first line that was not wholly taken.
    pub fn begin(&mut self, sink: W)
        ensures text { rest_text self.new
            ≡ bytes_left (without_connection self.old.writer) ++ printed_lines self.old.queued }
        ensures sink { (has : Counting W) × (self.new.sink ≡ Some has) × (stream_of has ≡ sink) }
        ensures open { self.new.blocked ≡ false }
    {
        self.lose();
        self.rest.connect();
        self.is_blocked = false;
        self.sink = Some(Counting::new(sink));
    }

    /// The connection is gone, if there is one: the next one gets the rest from the first line that it did not take whole.
    pub fn lose(&mut self)
        ensures gone { self.new.sink ≡ None }
        ensures writer { self.new.writer ≡ without_connection self.old.writer }
        ensures queued { self.new.queued ≡ self.old.queued }
    {
        self.sink = None;
        self.rest.lose();
    }
}

impl<W: Write + Drop> RestConnection<W> {
    /// Sends some of the rest, and gives the connection out once it took all of it. One that is lost is still there, for
    /// whoever calls [`RestConnection::lose`] then. It takes no memory.
    pub fn send(&mut self, gathered: &mut GatherBuf) -> RestTurn<W>
        // While it is there it gets what comes next of the rest and nothing else, and the rest has what it did not get.
        ensures kept { IfSome self.old.sink (λ had. IfSome self.new.sink (λ has.
            TookFirst (rest_text self.old) (rest_text self.new)
            (W.contents (stream_of had)) (W.contents (stream_of has)))) }
        // It is there unless it is given out.
        ensures stays { IsSome self.old.sink → IfNotOver result (IsSome self.new.sink) }
        // It is given out with the whole rest,
        ensures whole { IfSome self.old.sink (λ had. IfOver result (λ sink.
            Appends (W.contents (stream_of had)) (W.contents sink) (rest_text self.old))) }
        // and never before.
        ensures over { IfOver result (λ _. rest_text self.new ≡ []) }
        ensures blocked { self.old.blocked ≡ true → self.new ≡ self.old }
        ensures none { self.old.sink ≡ None → (self.new ≡ self.old) × IfOver result (λ _. ⊥) }
    {
        if self.is_blocked {
            return RestTurn::Kept;
        }
        let Some(sink) = self.sink.take() else {
            return RestTurn::Kept;
        };
        let mut sink = sink;
        match send_batches(&mut self.rest, gathered, &mut sink) {
            Driven::Idle => RestTurn::Over(sink.into_stream()),
            Driven::Failed => {
                self.sink = Some(sink);
                RestTurn::Lost
            }
            Driven::Blocked => {
                self.is_blocked = true;
                self.sink = Some(sink);
                RestTurn::Kept
            }
            Driven::Again => {
                self.sink = Some(sink);
                RestTurn::Kept
            }
        }
    }
}

/// Sends some batches of a rest to its connection. Returns how the last drive ended; `Idle` only if nothing is left.
fn send_batches<W: Write + Drop>(
    rest: &mut Rest,
    gathered: &mut GatherBuf,
    sink: &mut Counting<W>,
) -> Driven
    requires up { rest.old.writer.up ≡ true }
    ensures up { rest.new.writer.up ≡ true }
    ensures took { TookFirst (left_text rest.old) (left_text rest.new)
        (W.contents (stream_of sink.old)) (W.contents (stream_of sink.new)) }
    ensures idle { result ≡ Idle → left_text rest.new ≡ [] }
{
    for _ in 0..MOST_BATCHES {
        let driven = rest.send_batch(gathered, sink);
        let is_idle = matches!(driven, Driven::Idle);
        if !is_idle || rest.is_last_batch() {
            return driven;
        }
    }
    Driven::Again
}
