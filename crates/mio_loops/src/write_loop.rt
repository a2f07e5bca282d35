//! The loop over the connections to destinations.
ghost use Rattle.std.specs.Prelude.{◌≡◌, ◌⊎◌, ℕ, ◌≤◌, ◌<◌, List, Option, true, false, length, map, slice_set, replicate, Some, IfOk, OnOk, IfErr, OnErr};
ghost use Rattle.std.specs.List.{slice_get, list_any};
ghost use Rattle.dest_writer.specs.Counting.{stream_of, counts_of};
ghost use Rattle.queue_records.specs.Takes.{IsHandedBy};
ghost use Rattle.mio_loops.specs.WriteTurn.{TurnAt};

use crate::all_destinations::take_turns;
use crate::left_writer::LeftTaker;
use crate::outgoing::Outgoing;
use crate::write_log::WriteLog;
use crate::write_report::WriteReport;
use dest_writer::{Counting, GatherBuf, Outcome};
use queue_records::{MOST_DESTS, Supply};
use relay_base::{DestId, LARGEST_MESSAGE, NoMemory};
use std::alloc::Global;
use std::io::Write;
use std::marker::Model;
use thiserror::Error;

/// Why a connection was not attached. The loop is unchanged.
#[derive(Clone, Copy, Debug, Error)]
pub enum AttachFault {
    /// The destination has a connection already.
    #[error("connected already")]
    AlreadyUp,
    /// There is no such destination.
    #[error("no such destination")]
    NoSuchDest,
}

/// The destinations of a sender, each with its writer, its log, and its connection, if any.
///
/// Clauses see it as the list of its destinations.
#[derive(Drop)]
pub struct WriteLoop<W> {
    destinations: Vec<Outgoing<W>>,
    // Empty, with the room for the log of each destination.
    logs: Vec<WriteLog>,
    // The lines that one write offers, of one destination after another.
    gathered: GatherBuf,
}

impl<W> Model for WriteLoop<W> {
    ghost use Rattle.std.specs.Prelude.{◌≡◌, ◌≤◌, List, [], length, vec_capacity};
    ghost use Rattle.mio_loops.specs.OutgoingState.{OutgoingState};

    ghost Value = { List (OutgoingState W) };

    ghost view = { λ l. l.destinations.items };

    ghost invariant = { λ l. (length l.destinations.items ≤ 64)
        × (l.logs.items ≡ []) × (length l.destinations.items ≤ vec_capacity l.logs) };
}

impl<W: Write + Drop> WriteLoop<W> {
    ghost use Rattle.mio_loops.specs.OutgoingState.{OutgoingState};
    ghost use Rattle.mio_loops.specs.WriteLoop.{fresh_outgoing, with_connection, detached, is_up_at, is_among, IsReportOf, IsLoopTurn};
    ghost use Rattle.mio_loops.specs.WriteTurn.{goes_on};
    ghost use Rattle.mio_loops.specs.LeftWriter.{IsGivenEach};

    /// A loop over this number of destinations, none of which has a connection, for batches of at most `limit`
    /// datapoints. There are 1 to [`MOST_DESTS`] destinations, and the limit is 1 to
    /// [`LARGEST_MESSAGE`]. Refuses if out of memory, also for the logs.
    pub fn new(alloc: Global, dests: usize, limit: usize) -> Result<WriteLoop<W>, NoMemory>
        requires dests { (1 ≤ dests) × (dests ≤ MOST_DESTS) }
        requires limit { (1 ≤ limit) × (limit ≤ LARGEST_MESSAGE) }
        ensures { IfOk result (λ loop. loop ≡ replicate dests (fresh_outgoing limit)) }
    {
        let logs = Vec::with_capacity(alloc, dests)?;
        let mut destinations = Vec::with_capacity(alloc, dests)?;
        for _ in 0..dests {
            destinations.push_reserved(Outgoing::new(alloc, limit)?);
        }
        Ok(WriteLoop {
            destinations,
            logs,
            gathered: GatherBuf::new(alloc)?,
        })
    }

    /// Attaches a connection to a destination. It is in the again list, and is served in the next
    /// turn. Refuses, and returns the connection: a destination that has one (`AlreadyUp`), and one that the loop
    /// does not have (`NoSuchDest`).
    pub fn attach(&mut self, dest: DestId, sink: W) -> Result<(), (W, AttachFault)>
        ensures attached { OnOk result ((held : Counting W) × (old : OutgoingState W)
            × (slice_get self.old dest.0 ≡ Some old) × (old.writer.up ≡ false)
            × (stream_of held ≡ sink)
            × (counts_of held ≡ record { calls = 0; failures = 0; last = Outcome.Moved })
            × (self.new ≡ slice_set self.old dest.0 (with_connection held old))) }
        ensures dests { length self.new ≡ length self.old }
        ensures ups { (other : ℕ) → is_up_at self.new other ≡ true
            → (other ≡ dest.0) ⊎ (is_up_at self.old other ≡ true) }
        ensures back { IfErr result (λ e. e.0 ≡ sink) }
        ensures already_up { IfErr result (λ e. e.1 ≡ AttachFault.AlreadyUp
            → is_up_at self.old dest.0 ≡ true) }
        ensures no_such_dest { IfErr result (λ e. e.1 ≡ AttachFault.NoSuchDest
            → length self.old ≤ dest.0) }
        ensures unchanged { OnErr result (self.new ≡ self.old) }
    {
        if dest.0 >= self.destinations.len() {
            return Err((sink, AttachFault::NoSuchDest));
        }
        if let Err(sink) = self.destinations[dest.0].attach(sink) {
            return Err((sink, AttachFault::AlreadyUp));
        }
        Ok(())
    }

    /// Drops the connection of a destination, which goes down: its peer was seen to have
    /// closed it. Does nothing if there is none, or no such destination.
    pub fn detach(&mut self, dest: DestId)
        ensures detached { (old : OutgoingState W) → slice_get self.old dest.0 ≡ Some old
            → self.new ≡ slice_set self.old dest.0 (detached old) }
        ensures no_such_dest { length self.old ≤ dest.0 → self.new ≡ self.old }
        ensures dests { length self.new ≡ length self.old }
        ensures ups { (other : ℕ) → is_up_at self.new other ≡ true
            → is_up_at self.old other ≡ true }
    {
        if dest.0 < self.destinations.len() {
            self.destinations[dest.0].detach();
        }
    }

    /// How many destinations there are. No other has a connection.
    pub fn dests(&self) -> usize
        ensures count { result ≡ length self.now }
        ensures no_more { (dest : ℕ) → is_up_at self.now dest ≡ true → dest < result }
    {
        self.destinations.len()
    }

    /// Whether a destination, which exists, has a connection.
    pub fn is_up(&self, dest: DestId) -> bool
        requires { dest.0 < length self.now }
        ensures { result ≡ is_up_at self.now dest.0 }
    {
        self.destinations[dest.0].is_up()
    }

    /// The log of a destination, which exists.
    pub fn log(&self, dest: DestId) -> &WriteLog
        requires { dest.0 < length self.now }
        ensures { (o : OutgoingState W) → slice_get self.now dest.0 ≡ Some o → result.now ≡ o.log }
    {
        self.destinations[dest.0].log()
    }

    /// Whether a connection has bytes left that it may take at once: its last drive ended after as many
    /// writes as one may make. If so, do not wait for readiness.
    pub fn goes_on(&self) -> bool
        ensures { result ≡ list_any goes_on self.now }
    {
        self.destinations.iter().any(|d| d.goes_on())
    }

    /// The logs, one for each destination, in their order. What is left of each destination, with its connection, goes to this
    /// taker, in the same order. It takes no memory.
    pub fn release<T: LeftTaker<W>>(self, taker: &mut T) -> Vec<WriteLog>
        ensures logs { result.items ≡ map (λ o. o.log) self }
        ensures left { IsGivenEach T.takes 0 self taker.old taker.new }
    {
        let WriteLoop {
            destinations,
            mut logs,
            gathered: _,
        } = self;
        let mut dest: usize = 0;
        for destination in destinations {
            let (log, left) = destination.into_parts();
            logs.push_reserved(log);
            taker.take_left(DestId(dest), left);
            dest = dest.saturating_add(1);
        }
        logs
    }

    /// One turn: serves each connection that is ready or is in the again list, once, in the order of
    /// the destinations. It takes one batch if the writer wants one, and drives the writer once. A
    /// connection that failed leaves. The supply owns each destination that has a connection; a ready token without
    /// a connection is passed over, and so is one that is no destination of the loop.
    pub fn turn<S: Supply>(&mut self, ready: &[DestId], supply: &mut S) -> WriteReport
        requires owned { (dest : ℕ) → is_up_at self.old dest ≡ true
            → S.is_owned supply.old dest ≡ true }
        ensures turn { (turns : List (TurnAt W))
            × IsLoopTurn W.contents (IsHandedBy S.record_of S.may_hand) (is_among ready.now) turns self.old self.new
            (S.record_of supply.old) (S.record_of supply.new)
            × IsReportOf turns result }
        ensures dests { length self.new ≡ length self.old }
        ensures ups { (dest : ℕ) → is_up_at self.new dest ≡ true → is_up_at self.old dest ≡ true }
        ensures owners { (dest : ℕ) → S.is_owned supply.new dest ≡ S.is_owned supply.old dest }
    {
        take_turns(&mut self.destinations, ready, &mut self.gathered, supply)
    }
}
