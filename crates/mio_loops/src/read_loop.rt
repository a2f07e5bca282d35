//! The connections of one receiver.
ghost use Rattle.std.specs.Prelude.{◌≡◌, ◌≢◌, ◌*◌, ◌+◌, ◌<◌, ◌≤◌, ℕ, List, [], length, true, false, Option, Some, None, IfOk, IfErr, OnErr, MatchOption, is_some, slice_get, map};
ghost use Rattle.slab.specs.Slab.{get, slab_len, Updates};
ghost use Rattle.dest_writer.specs.Counting.{counts_of, stream_of};
ghost use Rattle.dest_writer.specs.declared.counting.Counting.{Counting};
ghost use Rattle.dest_writer.specs.declared.counting.Outcome.TheVariants.{Moved};
ghost use Rattle.router.specs.Plan.{Plan as PlanValue};
ghost use Rattle.reader_counts.specs.Counts.{totals_of};
ghost use Rattle.reader_core.specs.Configuration.{Dispatch};
ghost use Rattle.reader_core.specs.Entries.{InputEntry};
ghost use Rattle.reader_core.specs.Input.{fresh_input};
ghost use Rattle.reader_core.specs.Reader.{ReaderModel, Represents};
ghost use Rattle.reader_core.specs.Scan.{rest_of};
ghost use Rattle.mio_loops.specs.LoopState.{is_held, is_listed, has_listed, is_full, NoneForgotten};
ghost use Rattle.mio_loops.specs.Reading.{entries_by, offers_by};
ghost use Rattle.mio_loops.specs.ReadTurn.{TokenProgress, TurnProgress, is_due};
ghost use Rattle.mio_loops.specs.StoredLoop.{AllFresh};
ghost use Rattle.mio_loops.specs.LoopSteps.{LoopProgress, ConnectionProgress, NoneHeldBack, is_again};
ghost use Rattle.queue_records.specs.Offers.{IsRefusedBy};

use crate::admit_fault::AdmitFault;
use crate::input_log::InputLog;
use crate::read_room::ReadRoom;
use crate::read_totals::{ReadTotals, totals_of};
use crate::reader_turn::ReaderTurn;
use crate::ready_tokens::marks_of;
use crate::serve::{MOST_READ, serve, stays};
use crate::served::Served;
use crate::token::Token;
use crate::turn_report::TurnReport;
use dest_writer::Counting;
use line_text::Moment;
use queue_records::{Door, MOST_RECEIVERS, READERS_EACH};
use reader_core::{Reader, ReaderKind, ReaderTotals};
use relay_base::NoMemory;
use router::Plan;
use slab::Slab;
use std::alloc::Global;
use std::io::Read;
use std::marker::Model;

/// The greatest number of connections that a loop holds, each with a reader of its own.
pub const MOST_CONNECTIONS: usize = READERS_EACH;

/// The connections of one receiver under their tokens, with a reader for each token.
///
/// A connection that may have more to read is in the again list, and is served in the next turn, also
/// where no readiness is reported for it.
///
/// Clauses see the connections, the readers, the again list and the log.
#[derive(Drop)]
pub struct ReadLoop<S: Drop> {
    first: usize,
    sources: Slab<Counting<S>>,
    readers: Vec<Reader>,
    again: Vec<bool>,
    room: ReadRoom,
}

impl<S: Drop> Model for ReadLoop<S> {
    ghost use Rattle.std.specs.Prelude.{length};
    ghost use Rattle.mio_loops.specs.LoopState.{LoopState};

    ghost Value = { LoopState S };

    ghost use Rattle.mio_loops.specs.StoredLoop.{IsSoundLoop, loop_of};

    ghost view = { λ l. loop_of l.first l.sources l.readers.items l.again.items l.room.log };

    ghost invariant = { λ l. IsSoundLoop
        (loop_of l.first l.sources l.readers.items l.again.items l.room.log) (length l.room.buffer.items) };
}

impl<S: Read + Drop> ReadLoop<S> {
    /// The loop of a receiver, which is below [`MOST_RECEIVERS`], with readers of a kind, `Line` or `Pickle`. It holds
    /// no connection, and has the room for all. Refuses if out of memory (`NoMemory`).
    pub fn new(alloc: Global, kind: ReaderKind, receiver: usize) -> Result<ReadLoop<S>, NoMemory>
        requires receiver { receiver < MOST_RECEIVERS }
        ensures first { IfOk result (λ loop. loop.first ≡ READERS_EACH * receiver) }
        ensures none { IfOk result (λ loop. (token : ℕ) → get loop.sources token ≡ None) }
        ensures readers { IfOk result (λ loop. (length loop.readers ≡ MOST_CONNECTIONS)
            × ((token : ℕ) (reader : ReaderModel) → slice_get loop.readers token ≡ Some reader
            → (plan : PlanValue) → Represents reader kind plan (fresh_input kind) [])) }
        ensures listed { IfOk result (λ loop. (token : ℕ) → is_listed loop token ≡ false) }
        ensures log { IfOk result (λ loop.
            loop.log ≡ record { entries = []; byte_count = 0; sealed = false }) }
    {
        let again = vec![in alloc; false; MOST_CONNECTIONS]?;
        let buffer = vec![in alloc; 0; MOST_READ]?;
        let readers = fresh_readers(alloc, kind)?;
        let sources = Slab::with_capacity(alloc, MOST_CONNECTIONS)?;
        let log = InputLog::new(alloc)?;
        Ok(ReadLoop {
            first: READERS_EACH * receiver,
            sources,
            readers,
            again,
            room: ReadRoom { buffer, log },
        })
    }

    /// The token that the next [`ReadLoop::admit`] gives, or `None` if that is refused as `Full`.
    pub fn next_token(&self) -> Option<Token>
        ensures { MatchOption result (is_full self.now ≡ true)
            (λ token. (is_full self.now ≡ false) × (token.0 ≡ self.now.sources.vacant_key)) }
    {
        let token = self.sources.vacant_key();
        if self.sources.len() < MOST_CONNECTIONS && token < MOST_CONNECTIONS {
            Some(Token(token))
        } else {
            None
        }
    }

    /// Whether the connection of a token is held.
    pub fn holds(&self, token: Token) -> bool
        ensures { result ≡ is_held self.now token.0 }
    {
        self.sources.get(token.0).is_some()
    }

    /// Whether some token is in the again list. If so, the wait before the next turn should return at once.
    pub fn has_again(&self) -> bool
        ensures { result ≡ has_listed self.now }
    {
        self.again.iter().any(|listed| *listed)
    }

    /// Takes a connection under the next token. It is in the again list, so that the next turn serves it.
    /// It takes no memory. If the loop holds as many as it may, it returns the connection with `Full`.
    pub fn admit(&mut self, source: S) -> Result<Token, (S, AdmitFault)>
        ensures token { IfOk result (λ token. (is_full self.old ≡ false)
            × (token.0 ≡ self.old.sources.vacant_key)) }
        ensures held { IfOk result (λ token. (added : Counting S)
            × Updates self.old.sources self.new.sources token.0 (Some added)
            × (stream_of added ≡ source)
            × (counts_of added ≡ record { calls = 0; failures = 0; last = Moved })) }
        ensures listed { IfOk result (λ token. is_listed self.new token.0 ≡ true) }
        ensures others { IfOk result (λ token. (other : ℕ) → other ≢ token.0
            → is_listed self.new other ≡ is_listed self.old other) }
        ensures rest { (self.new.first ≡ self.old.first) × (self.new.readers ≡ self.old.readers)
            × (self.new.log ≡ self.old.log) }
        ensures full { IfErr result (λ refused. (is_full self.old ≡ true)
            × (refused.0 ≡ source) × (refused.1 ≡ AdmitFault.Full)) }
        ensures err { OnErr result (self.new ≡ self.old) }
    {
        let token = self.sources.vacant_key();
        if self.sources.len() >= MOST_CONNECTIONS || token >= MOST_CONNECTIONS {
            return Err((source, AdmitFault::Full));
        }
        let key = self.sources.insert_reserved(Counting::new(source));
        self.again[key] = true;
        Ok(Token(key))
    }

    /// Serves the connection of a token, which is held; the door has all destinations of the plan. It makes the
    /// offers that wait first, and then at most `MOST_READS` reads of at most `MOST_READ` bytes; it feeds each
    /// piece, and makes all its offers, before the next read.
    ///
    /// Answers `Drained` if the last read would have to wait, `Again` if the turn made all its reads, `Ended` if a
    /// read gave nothing or a line or a frame was too long, `Failed` if the last read failed, `Starved` if there was
    /// no memory for its bytes, which no reader is fed then, and `Refused` if an offer was refused. After the last
    /// four the connection leaves, and its reader has ended.
    pub fn serve_one<D: Door>(
        &mut self,
        token: Token,
        plan: &mut Plan,
        door: &mut D,
        moment: Moment,
    ) -> Served
        requires held { is_held self.old token.0 ≡ true }
        requires dests { plan.old.destinations ≤ length (D.record_of door.old).totals }
        ensures went { (entries : List InputEntry) × (made : List Dispatch)
            × LoopProgress plan.old (entries_by (self.old.first + token.0) entries)
            (offers_by (self.old.first + token.0) made) self.old self.new
            (D.record_of door.old) (D.record_of door.new)
            × ConnectionProgress S.remaining plan.old moment (Some result) entries made
            (slice_get self.old.readers token.0) (slice_get self.new.readers token.0)
            (get self.old.sources token.0) (get self.new.sources token.0) }
        // The offers of each reader are made, unless the door refused one.
        ensures waits { NoneHeldBack (IsRefusedBy D.may_refuse) plan.old.destinations self.old
            → NoneHeldBack (IsRefusedBy D.may_refuse) plan.old.destinations self.new }
        ensures listed { is_listed self.new token.0 ≡ is_again result }
        ensures others { (other : ℕ) → other ≢ token.0
            → (get self.new.sources other ≡ get self.old.sources other)
            × (slice_get self.new.readers other ≡ slice_get self.old.readers other)
            × (is_listed self.new other ≡ is_listed self.old other) }
        ensures none_forgotten { NoneForgotten self.new }
        ensures dests { plan.old.destinations ≤ length (D.record_of door.new).totals }
        ensures plan { plan.new ≡ plan.old }
    {
        let turn = ReaderTurn {
            number: self.first + token.0,
            moment,
        };
        let Some(source) = self.sources.get_mut(token.0) else {
            unreachable!();
        };
        let reader = &mut self.readers[token.0];
        let served = serve(source, &mut self.room, reader, turn, plan, door);
        self.again[token.0] = is_again(served);
        if stays(served) {
            return served;
        }
        drop(self.sources.try_remove(token.0));
        served
    }

    /// One turn: serves each connection that is held and is ready or is in the again list, once, in the
    /// order of the tokens, as [`ReadLoop::serve_one`] does; a ready token that is not held is passed over. The
    /// door has all destinations of the plan.
    ///
    /// The report counts the connections that were served, and those of them that left, by their answers.
    /// Then each held connection whose last read would not have had to wait is in the again list.
    pub fn turn<D: Door>(
        &mut self,
        ready: &[Token],
        plan: &mut Plan,
        door: &mut D,
        moment: Moment,
    ) -> TurnReport
        requires dests { plan.old.destinations ≤ length (D.record_of door.old).totals }
        ensures turn { TurnProgress S.remaining plan.old moment ready.now result self.old self.new
            (D.record_of door.old) (D.record_of door.new) }
        // The offers of each reader are made, unless the door refused one.
        ensures waits { NoneHeldBack (IsRefusedBy D.may_refuse) plan.old.destinations self.old
            → NoneHeldBack (IsRefusedBy D.may_refuse) plan.old.destinations self.new }
        ensures none_forgotten { NoneForgotten self.new }
        ensures dests { plan.old.destinations ≤ length (D.record_of door.new).totals }
        ensures plan { plan.new ≡ plan.old }
    {
        let marks = marks_of(ready);
        let mut report = TurnReport::new();
        for token in 0..self.tokens() {
            report.count(self.serve_if_due(Token(token), marks[token], plan, door, moment));
        }
        report
    }

    /// The bytes of the connection of a token behind its last whole line or frame.
    pub(crate) fn rest(&self, token: Token) -> &[u8]
        requires within { token.0 < MOST_CONNECTIONS }
        ensures { (reader : ReaderModel) → slice_get self.now.readers token.0 ≡ Some reader
            → result.now ≡ rest_of reader.scan }
    {
        self.readers[token.0].rest()
    }

    /// Takes out the connection of a token, if it is held. Its reader stays as it is, and has not ended: so only a loop that
    /// admits none from then on (`LeavingLoop`) does it.
    pub(crate) fn take_out(&mut self, token: Token) -> Option<S>
        ensures stream { MatchOption result (get self.old.sources token.0 ≡ None)
            (λ stream. (held : Counting S) × (get self.old.sources token.0 ≡ Some held)
            × (stream_of held ≡ stream)) }
        ensures left { get self.new.sources token.0 ≡ None }
        ensures others { (other : ℕ) → other ≢ token.0
            → get self.new.sources other ≡ get self.old.sources other }
        ensures listed { (any : ℕ) → is_listed self.new any ≡ is_listed self.old any }
        ensures rest { (self.new.first ≡ self.old.first) × (self.new.readers ≡ self.old.readers)
            × (self.new.log ≡ self.old.log) }
    {
        let source = self.sources.try_remove(token.0)?;
        Some(source.into_stream())
    }

    /// How many tokens there are.
    fn tokens(&self) -> usize
        ensures count { result ≡ MOST_CONNECTIONS }
        ensures no_more { (token : ℕ) → is_held self.now token ≡ true → token < result }
    {
        self.readers.len()
    }

    /// Serves the connection of a token, if it is due, and returns how.
    fn serve_if_due<D: Door>(
        &mut self,
        token: Token,
        ready: bool,
        plan: &mut Plan,
        door: &mut D,
        moment: Moment,
    ) -> Option<Served>
        requires within { token.0 < MOST_CONNECTIONS }
        requires dests { plan.old.destinations ≤ length (D.record_of door.old).totals }
        ensures went { (entries : List InputEntry) × (made : List Dispatch)
            × LoopProgress plan.old (entries_by (self.old.first + token.0) entries)
            (offers_by (self.old.first + token.0) made) self.old self.new
            (D.record_of door.old) (D.record_of door.new)
            × TokenProgress S.remaining plan.old moment token.0 result entries made self.old self.new }
        // The offers of each reader are made, unless the door refused one.
        ensures waits { NoneHeldBack (IsRefusedBy D.may_refuse) plan.old.destinations self.old
            → NoneHeldBack (IsRefusedBy D.may_refuse) plan.old.destinations self.new }
        ensures chosen { is_some result ≡ is_due ready self.old token.0 }
        ensures none_forgotten { NoneForgotten self.new }
        ensures others { (other : ℕ) → other ≢ token.0
            → (get self.new.sources other ≡ get self.old.sources other)
            × (slice_get self.new.readers other ≡ slice_get self.old.readers other)
            × (is_listed self.new other ≡ is_listed self.old other) }
        ensures dests { plan.old.destinations ≤ length (D.record_of door.new).totals }
        ensures plan { plan.new ≡ plan.old }
    {
        if self.is_due(token, ready) {
            Some(self.serve_one(token, plan, door, moment))
        } else {
            None
        }
    }

    /// Whether a turn serves the connection of a token, which is or is not ready.
    pub fn is_due(&self, token: Token, ready: bool) -> bool
        requires within { token.0 < MOST_CONNECTIONS }
        ensures due { result ≡ is_due ready self.now token.0 }
        ensures none_forgotten { NoneForgotten self.now }
    {
        (ready || self.again[token.0]) && self.holds(token)
    }

    /// Puts a token into the again list, so that the next turn serves its connection, if it is held. It takes no memory.
    pub fn list_again(&mut self, token: Token)
        requires within { token.0 < MOST_CONNECTIONS }
        ensures listed { is_listed self.new token.0 ≡ true }
        ensures others { (other : ℕ) → other ≢ token.0
            → is_listed self.new other ≡ is_listed self.old other }
        ensures sources { self.new.sources ≡ self.old.sources }
        ensures rest { (self.new.first ≡ self.old.first) × (self.new.readers ≡ self.old.readers)
            × (self.new.log ≡ self.old.log) }
    {
        self.again[token.0] = true;
    }

    /// The counts of all readers together, and how many connections are held. It looks at each reader.
    pub fn totals(&self) -> ReadTotals
        ensures readers { result.readers ≡ totals_of (map (λ r. r.totals) self.now.readers) }
        ensures connections { result.connections ≡ slab_len self.now.sources }
    {
        ReadTotals {
            readers: totals_of(&self.readers),
            connections: self.sources.len() as u64,
        }
    }

    /// What the reader of a token has counted.
    pub fn totals_at(&self, token: Token) -> ReaderTotals
        requires within { token.0 < MOST_CONNECTIONS }
        ensures { (reader : ReaderModel) → slice_get self.now.readers token.0 ≡ Some reader
            → result ≡ reader.totals }
    {
        self.readers[token.0].totals()
    }

    /// The room for reads. It begins with the bytes of the last read that gave some.
    pub fn buffer(&self) -> &[u8] {
        self.room.buffer.as_slice()
    }

    /// What the readers were fed.
    pub fn log(&self) -> &InputLog
        ensures { result.now ≡ self.now.log }
    {
        &self.room.log
    }

    /// Ends the loop: closes its connections, and returns what the readers were fed.
    pub fn close(self) -> InputLog
        ensures { result ≡ self.log }
    {
        let room = self.room;
        room.log
    }
}

/// A reader of a kind for each token.
fn fresh_readers(alloc: Global, kind: ReaderKind) -> Result<Vec<Reader>, NoMemory>
    ensures count { IfOk result (λ readers. length readers.items ≡ MOST_CONNECTIONS) }
    ensures fresh { IfOk result (λ readers. AllFresh kind readers.items) }
{
    let mut readers = Vec::with_capacity(alloc, MOST_CONNECTIONS)?;
    for _ in 0..MOST_CONNECTIONS {
        readers.push_reserved(Reader::new(alloc, kind));
    }
    Ok(readers)
}

/// Whether a connection that was served this way is to be served again, without waiting for readiness.
fn is_again(served: Served) -> bool
    ensures { result ≡ is_again served }
{
    matches!(served, Served::Again)
}
