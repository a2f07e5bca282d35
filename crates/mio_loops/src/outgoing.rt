//! One destination of a write loop.
ghost use Rattle.std.specs.Prelude.{◌≡◌, ℕ, ◌≤◌, Bool, true, false, Option, None, Some, ◌||◌, IfOk, OnOk, IfErr, MatchOption};
ghost use Rattle.dest_writer.specs.Counting.{stream_of, counts_of};
ghost use Rattle.dest_writer.specs.Writer.{fresh_writer, writer_after_up};
ghost use Rattle.dest_writer.specs.Log.{UpEntry};
ghost use Rattle.mio_loops.specs.WriterLog.{empty_log, log_after};
ghost use Rattle.mio_loops.specs.WriteServe.{is_failed};
ghost use Rattle.mio_loops.specs.WriteAnswers.{is_blocked, is_again};
ghost use Rattle.queue_records.specs.Takes.{IsHandedBy};

use crate::left_writer::{LeftBatch, LeftWriter};
use crate::logged_writer::LoggedWriter;
use crate::write_log::{WriteLog, WriterEntry};
use crate::write_serve::{is_failed, serve_connection};
use dest_queue::Hand;
use dest_writer::{Counting, Driven, GatherBuf, Outcome, Writer};
use queue_records::Supply;
use relay_base::{DestId, LARGEST_MESSAGE, NoMemory};
use std::alloc::Global;
use std::io::Write;
use std::marker::Model;

/// One destination: its writer, its connection, if any, and its log.
///
/// Clauses see it as these, with the limit of a batch and how the last drive ended.
#[derive(Drop)]
pub(crate) struct Outgoing<W> {
    logged: LoggedWriter,
    sink: Option<Counting<W>>,
    // How the last drive of the connection ended; nothing if it was not driven yet.
    last: Option<Driven>,
}

impl<W> Model for Outgoing<W> {
    ghost use Rattle.std.specs.Prelude.{◌≡◌};
    ghost use Rattle.std.specs.Option.{is_some};
    ghost use Rattle.mio_loops.specs.OutgoingState.{OutgoingState, IsSoundOutgoing};

    ghost Value = { OutgoingState W };

    ghost view = { λ o. record {
      limit = o.logged.limit;
      writer = o.logged.writer.writer;
      sink = o.sink;
      log = o.logged.log;
      last = o.last;
    } };

    ghost invariant = { λ o. IsSoundOutgoing o.logged.limit o.logged.writer o.logged.hand
        × (o.logged.writer.writer.up ≡ is_some o.sink) };
}

impl<W: Write + Drop> Outgoing<W> {
    ghost use Rattle.mio_loops.specs.LeftWriter.{IsLeftOf};
    ghost use Rattle.mio_loops.specs.WriteLoop.{fresh_outgoing, with_connection, detached};
    ghost use Rattle.mio_loops.specs.WriteTurn.{is_in_again_list, goes_on, IsTurn};

    /// A destination without a connection, for batches of at most `limit` datapoints. Refuses if out of
    /// memory.
    pub(crate) fn new(alloc: Global, limit: usize) -> Result<Outgoing<W>, NoMemory>
        requires limit { (1 ≤ limit) × (limit ≤ LARGEST_MESSAGE) }
        ensures { IfOk result (λ o. o ≡ fresh_outgoing limit) }
    {
        let log = WriteLog::new(alloc)?;
        let hand = Hand::new(alloc, limit)?;
        let writer = Writer::new(alloc, limit)?;
        Ok(Outgoing {
            logged: LoggedWriter {
                limit,
                writer,
                log,
                hand,
            },
            sink: None,
            last: None,
        })
    }

    /// Takes a connection. Returns it if there is one already.
    pub(crate) fn attach(&mut self, sink: W) -> Result<(), W>
        ensures attached { OnOk result ((held : Counting W)
            × (stream_of held ≡ sink)
            × (counts_of held ≡ record { calls = 0; failures = 0; last = Outcome.Moved })
            × (self.new ≡ with_connection held self.old)) }
        ensures up { IfErr result (λ back. (back ≡ sink) × (self.new ≡ self.old)
            × (self.old.writer.up ≡ true)) }
        ensures down { OnOk result (self.old.writer.up ≡ false) }
    {
        let Ok(()) = self.logged.writer.up() else {
            return Err(sink);
        };
        self.logged.log.add(WriterEntry::Up);
        self.sink = Some(Counting::new(sink));
        self.last = None;
        Ok(())
    }

    /// The connection, if any, goes down and is dropped.
    pub(crate) fn detach(&mut self)
        ensures { self.new ≡ detached self.old }
    {
        let Ok(()) = self.logged.writer.down() else {
            return;
        };
        self.logged.log.add(WriterEntry::Down);
        self.sink = None;
        self.last = None;
    }

    /// Whether there is a connection.
    pub(crate) fn is_up(&self) -> bool
        ensures { result ≡ self.now.writer.up }
    {
        self.logged.writer.is_up()
    }

    /// The log of the writer.
    pub(crate) fn log(&self) -> &WriteLog
        ensures { result.now ≡ self.now.log }
    {
        &self.logged.log
    }

    /// The log of the writer, and what is left of the destination.
    pub(crate) fn into_parts(self) -> (WriteLog, LeftWriter<W>)
        ensures log { result.0 ≡ self.log }
        ensures left { IsLeftOf self result.1 }
    {
        let Outgoing {
            logged,
            sink,
            last: _,
        } = self;
        let LoggedWriter {
            limit,
            writer,
            log,
            hand,
        } = logged;
        let sink = match sink {
            Some(sink) => Some(sink.into_stream()),
            None => None,
        };
        let batch = LeftBatch {
            limit,
            writer,
            lent: hand,
        };
        (log, LeftWriter { batch, sink })
    }

    /// Whether the last drive ended after as many writes as one may make, with bytes left.
    pub(crate) fn goes_on(&self) -> bool
        ensures { result ≡ goes_on self.now }
    {
        is_again(self.last)
    }

    /// Whether a turn serves the connection: it is ready, or is in the again list.
    fn is_due(&self, is_ready: bool) -> bool
        ensures { result ≡ (is_ready || is_in_again_list self.now) }
    {
        is_ready || !is_blocked(self.last)
    }

    /// One turn: serves the connection, if there is one and it is due. Returns how its drive ended.
    pub(crate) fn take_turn<S: Supply>(
        &mut self,
        dest: DestId,
        is_ready: bool,
        gathered: &mut GatherBuf,
        supply: &mut S,
    ) -> Option<Driven>
        requires owned { self.old.writer.up ≡ true → S.is_owned supply.old dest.0 ≡ true }
        ensures turn { IsTurn W.contents (IsHandedBy S.record_of S.may_hand) dest.0 is_ready
            (record { old = self.old; new = self.new; answer = result })
            (S.record_of supply.old) (S.record_of supply.new) }
        ensures ups { self.new.writer.up ≡ true → self.old.writer.up ≡ true }
        ensures owners { (dest : ℕ) → S.is_owned supply.new dest ≡ S.is_owned supply.old dest }
    {
        if !self.is_due(is_ready) {
            return None;
        }
        let Some(sink) = &mut self.sink else {
            return None;
        };
        let driven = serve_connection(dest, &mut self.logged, sink, gathered, supply);
        self.last = Some(driven);
        if is_failed(driven) {
            self.sink = None;
        }
        Some(driven)
    }
}

/// Whether a drive ended because a write would have had to wait.
fn is_blocked(last: Option<Driven>) -> bool
    ensures { result ≡ is_blocked last }
{
    matches!(last, Some(Driven::Blocked))
}

/// Whether a drive ended after as many writes as it may make, with bytes left.
fn is_again(last: Option<Driven>) -> bool
    ensures { result ≡ is_again last }
{
    matches!(last, Some(Driven::Again))
}
