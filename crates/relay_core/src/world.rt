//! A relay as a value: readers, a plan, and destinations, to which events are applied one after another.
ghost use Rattle.std.specs.Prelude.{◌≡◌, ◌≤◌, ◌<◌, ◌↔◌, List, None, [], ◌∷◌, length, map, slice_get, slice_index, option_copied, IfOk, IfSome, IsSome, MatchOption, OnOk, OnErr};
ghost use Rattle.std.specs.Arc.{arc_value};
ghost use Rattle.line_text.specs.Connection.{arrivals};
ghost use Rattle.dest_queue.specs.Counts.{counts_of};
ghost use Rattle.reader_core.specs.Input.{Stream, input_after_piece};
ghost use Rattle.reader_core.specs.Kinds.{relay_reading};
ghost use Rattle.reader_core.specs.Configuration.{Dispatch};
ghost use Rattle.reader_core.specs.PlanConfiguration.{PlanSends};
ghost use Rattle.reader_core.specs.Laws.{ClosedLaw};
ghost use Rattle.reader_core.specs.Reader.{Represents, refusal};
ghost use Rattle.relay_core.specs.Event.{run_event};
ghost use Rattle.relay_core.specs.Agreement.{event_of};
ghost use Rattle.relay_core.specs.World.{Piece, End, Offer, waiting_of};
ghost use Rattle.relay_core.specs.Run.{dest_in, reader_in};
ghost use Rattle.relay_core.specs.Relay.{counts_read};
ghost use Rattle.relay_core.specs.WorldModel.{RepresentsRun, OfItsRuns, HasAsMany, Applies, NeedsMemory, act_of, may_be_fed, may_offer, may_act_at};

use crate::destination::{Act, Destination};
use crate::event::{Answer, Event};
use crate::making::fresh;
use crate::offering::offer_first;
use dest_queue::{Counts, LARGEST_SIZE, MOST_READERS};
use line_text::{Moment, Point};
use reader_core::{FeedFault, Reader, ReaderCounts, ReaderKind};
use relay_base::{DestId, LARGEST_MESSAGE, NoMemory};
use router::Plan;
use std::alloc::Global;
use std::marker::Model;
use std::sync::Arc;

/// The greatest number of datapoints that a batch may have.
pub const LARGEST_BATCH: usize = LARGEST_MESSAGE;

/// Readers, the plan by which they send, and destinations.
///
/// Clauses see it as what it keeps of each, and how many events happened, and say of which runs it
/// is the end (`RepresentsRun`).
#[derive(Drop)]
pub struct World {
    alloc: Global,
    plan: Plan,
    readers: Vec<Reader>,
    destinations: Vec<Destination>,
    events: u64,
}

impl Model for World {
    ghost use Rattle.relay_core.specs.WorldModel.{WorldModel};

    ghost Value = { WorldModel };

    ghost use Rattle.relay_core.specs.Stored.{world_model_of, IsSound};

    ghost view = { world_model_of };

    ghost invariant = { IsSound };
}

impl World {
    /// A world without events: a reader of each kind of the list, in this order, and the
    /// destinations of the plan, each with a queue of at most `size` datapoints, 1 to
    /// [`LARGEST_SIZE`], and batches of at most `limit`, 1 to [`LARGEST_BATCH`]. There are 1 to
    /// [`MOST_READERS`] readers. Out of memory, it drops the plan.
    pub fn new(
        alloc: Global,
        plan: Plan,
        size: usize,
        limit: usize,
        destinations: usize,
        kinds: &[ReaderKind],
    ) -> Result<World, NoMemory>
        requires size { (1 ≤ size) × (size ≤ LARGEST_SIZE) }
        requires limit { (1 ≤ limit) × (limit ≤ LARGEST_BATCH) }
        requires destinations { plan.destinations ≡ destinations }
        requires readers { (1 ≤ length kinds.now) × (length kinds.now ≤ MOST_READERS) }
        ensures plan { IfOk result (λ world. world.plan ≡ plan) }
        ensures represents { IfOk result (λ world. RepresentsRun world size limit kinds.now []) }
        ensures readers { IfOk result (λ world. length world.readers ≡ length kinds.now) }
        ensures destinations { IfOk result
            (λ world. length world.destinations ≡ destinations) }
        ensures events { IfOk result (λ world. world.events ≡ 0) }
    {
        match fresh(alloc, size, limit, destinations, kinds) {
            Ok((readers, destinations)) => Ok(World {
                alloc,
                plan,
                readers,
                destinations,
                events: 0,
            }),
            Err(fault) => {
                drop(plan);
                Err(fault)
            }
        }
    }

    /// Applies an event. If the run allows it, it happens: returns `Done`, or `Dropped` for an offer
    /// to a full queue. Returns `NotNow` exactly if the run does not allow it, or if it names a reader
    /// or destination that is not there, and `Spent` if `u64::MAX` events happened before. Refuses out
    /// of memory only if neither is due, and only an event that takes memory: a piece, an offer, a new
    /// connection, or a write of some bytes. After `NotNow`, `Spent` and out of memory, nothing has
    /// changed.
    pub fn apply(&mut self, event: Event<'_>) -> Result<Answer, NoMemory>
        ensures applies { IfOk result
            (λ answer. Applies self.old (run_event event.entry) answer self.new) }
        ensures plan { self.new.plan ≡ self.old.plan }
        ensures places { HasAsMany self.new self.old }
        ensures err { OnErr result (self.new ≡ self.old) }
        ensures memory { OnErr result (NeedsMemory self.old (run_event event.entry)) }
    {
        match event {
            Event::Piece(reader, piece, moment) => self.feed(reader, piece, moment),
            Event::End(reader) => Ok(self.end(reader)),
            Event::Offer(reader) => self.offer(reader),
            Event::Take(dest) => self.act(dest, Act::Take),
            Event::Up(dest) => self.act(dest, Act::Connect),
            Event::Wrote(dest, count) => self.act(dest, Act::Write(count)),
            Event::Down(dest) => self.act(dest, Act::Lose),
        }
    }

    /// What each connection of a destination got, the newest connection last. The destination must
    /// exist.
    pub fn handed(&self, dest: usize) -> &[Vec<u8>]
        requires { dest < length self.now.destinations }
        ensures { OfItsRuns self.now (λ run. map (λ bytes. bytes.items) result.now
            ≡ (dest_in relay_reading run dest).connections) }
    {
        self.destinations[dest].connections()
    }

    /// What the queue of a destination has counted. The destination must exist.
    pub fn counts(&self, dest: usize) -> Counts
        requires { dest < length self.now.destinations }
        ensures { OfItsRuns self.now
            (λ run. result ≡ counts_of (dest_in relay_reading run dest).queue) }
    {
        self.destinations[dest].counts()
    }

    /// How many datapoints a destination's full queue dropped. The destination must exist.
    pub fn dropped(&self, dest: usize) -> u64
        requires { dest < length self.now.destinations }
        ensures { OfItsRuns self.now
            (λ run. result ≡ (dest_in relay_reading run dest).queue.dropped) }
    {
        self.destinations[dest].counts().dropped
    }

    /// How many offers of a reader wait. The reader must exist.
    pub fn waiting(&self, reader: usize) -> usize
        requires { reader < length self.now.readers }
        ensures { OfItsRuns self.now (λ run. result ≡ length
            (waiting_of relay_reading run.configuration (reader_in relay_reading run reader))) }
    {
        read_laws();
        self.readers[reader].waiting()
    }

    /// The first offer of a reader that waits: its destination and its datapoint. There is none if no
    /// offer waits, or if there is no such reader.
    pub fn first_offer(&self, reader: usize) -> Option<(DestId, &Arc<Point>)>
        ensures { MatchOption result
            (OfItsRuns self.now (λ run. waiting_of relay_reading run.configuration
            (reader_in relay_reading run reader) ≡ []))
            (λ offer. OfItsRuns self.now (λ run. (others : List Dispatch)
            × (waiting_of relay_reading run.configuration (reader_in relay_reading run reader)
            ≡ record { dest = offer.0.0; point = arc_value offer.1.now } ∷ others))) }
    {
        read_laws();
        match reader_at(&self.readers, reader) {
            Some(reader) => reader.first_offer(),
            None => None,
        }
    }

    /// The number that a reader's next offer to a destination has, counted from 0. There is none if
    /// the reader or the destination does not exist.
    pub fn next_number(&self, reader: usize, dest: usize) -> Option<u64>
        ensures there { IsSome result
            ↔ ((reader < length self.now.readers) × (dest < length self.now.destinations)) }
        ensures number { IfSome result (λ number. OfItsRuns self.now (λ run.
            number ≡ slice_index (dest_in relay_reading run dest).queue.next reader)) }
    {
        destination_at(&self.destinations, dest)?.next_number(reader)
    }

    /// How much bad input a reader was fed. The reader must exist.
    pub fn reader_counts(&self, reader: usize) -> ReaderCounts
        requires { reader < length self.now.readers }
        ensures { OfItsRuns self.now
            (λ run. result ≡ counts_read self.now.plan (reader_in relay_reading run reader)) }
    {
        self.readers[reader].counts()
    }

    /// Feeds a piece to a reader.
    fn feed(&mut self, reader: usize, piece: &[u8], moment: Moment) -> Result<Answer, NoMemory>
        ensures applies { IfOk result
            (λ answer. Applies self.old (Piece reader piece.now moment) answer self.new) }
        ensures plan { self.new.plan ≡ self.old.plan }
        ensures places { HasAsMany self.new self.old }
        ensures err { OnErr result (self.new ≡ self.old) }
        ensures memory { OnErr result
            (NeedsMemory self.old (Piece reader piece.now moment)) }
    {
        read_laws();
        if !may_be_fed(reader_at(&self.readers, reader)) {
            return Ok(Answer::NotNow);
        }
        if self.events == u64::MAX {
            return Ok(Answer::Spent);
        }
        feed_reader(&mut self.readers[reader], &mut self.plan, piece, moment)?;
        self.events += 1;
        Ok(Answer::Done)
    }

    /// Ends a reader's connection.
    fn end(&mut self, reader: usize) -> Answer
        ensures applies { Applies self.old (End reader) result self.new }
        ensures plan { self.new.plan ≡ self.old.plan }
        ensures places { HasAsMany self.new self.old }
    {
        read_laws();
        if reader >= self.readers.len() {
            return Answer::NotNow;
        }
        if self.events == u64::MAX {
            return Answer::Spent;
        }
        self.readers[reader].end();
        self.events += 1;
        Answer::Done
    }

    /// Makes the first offer of a reader that waits.
    fn offer(&mut self, reader: usize) -> Result<Answer, NoMemory>
        ensures applies { IfOk result
            (λ answer. Applies self.old (Offer reader) answer self.new) }
        ensures plan { self.new.plan ≡ self.old.plan }
        ensures places { HasAsMany self.new self.old }
        ensures err { OnErr result (self.new ≡ self.old) }
        ensures memory { OnErr result (NeedsMemory self.old (Offer reader)) }
    {
        read_laws();
        if !may_offer(reader_at(&self.readers, reader)) {
            return Ok(Answer::NotNow);
        }
        if self.events == u64::MAX {
            return Ok(Answer::Spent);
        }
        let answer = offer_first(&mut self.readers[reader], reader, &mut self.destinations)?;
        self.events += 1;
        Ok(answer)
    }

    /// Does an act at a destination.
    fn act(&mut self, dest: usize, act: Act) -> Result<Answer, NoMemory>
        ensures applies { IfOk result
            (λ answer. Applies self.old (event_of dest (act_of act)) answer self.new) }
        ensures plan { self.new.plan ≡ self.old.plan }
        ensures places { HasAsMany self.new self.old }
        ensures err { OnErr result (self.new ≡ self.old) }
        ensures memory { OnErr result (NeedsMemory self.old (event_of dest (act_of act))) }
    {
        read_laws();
        if !may_act(destination_at(&self.destinations, dest), act) {
            return Ok(Answer::NotNow);
        }
        if self.events == u64::MAX {
            return Ok(Answer::Spent);
        }
        self.destinations[dest].act(self.alloc, act)?;
        self.events += 1;
        Ok(Answer::Done)
    }
}

/// No effect at run time: the proofs read the laws.
fn read_laws()
    ensures sends { PlanSends }
    ensures closed { ClosedLaw }
{
    reader_core::laws::configuration_of_plan();
    reader_core::laws::closed_as_read();
}

/// Feeds a piece to a reader that may be fed.
fn feed_reader(
    reader: &mut Reader,
    plan: &mut Plan,
    piece: &[u8],
    moment: Moment,
) -> Result<(), NoMemory>
    requires { refusal reader.old ≡ None }
    ensures represents { OnOk result
        ((kind : ReaderKind) (input : List Stream) (taken : List Dispatch)
        → Represents reader.old kind plan.old input taken
        → Represents reader.new kind plan.old
        (input_after_piece kind (arrivals piece.now moment) input) taken) }
    ensures plan { plan.new ≡ plan.old }
    ensures err { OnErr result (reader.new ≡ reader.old) }
{
    match reader.feed(plan, piece, moment) {
        Ok(_) => Ok(()),
        Err(FeedFault::NoMemory) => Err(NoMemory),
        Err(_) => unreachable!(),
    }
}

fn reader_at(readers: &[Reader], reader: usize) -> Option<&Reader>
    ensures { option_copied result ≡ slice_get readers.now reader }
{
    readers.get(reader)
}

fn destination_at(destinations: &[Destination], dest: usize) -> Option<&Destination>
    ensures { option_copied result ≡ slice_get destinations.now dest }
{
    destinations.get(dest)
}

/// Whether there is a reader that may be fed: its connection is open, and nothing waits.
fn may_be_fed(reader: Option<&Reader>) -> bool
    ensures { result ≡ may_be_fed (option_copied reader.entry) }
{
    match reader {
        Some(reader) => !reader.is_closed() && reader.waiting() == 0,
        None => false,
    }
}

/// Whether there is a reader with an offer that waits.
fn may_offer(reader: Option<&Reader>) -> bool
    ensures { result ≡ may_offer (option_copied reader.entry) }
{
    match reader {
        Some(reader) => reader.waiting() > 0,
        None => false,
    }
}

/// Whether there is a destination where the act may happen.
fn may_act(destination: Option<&Destination>, act: Act) -> bool
    ensures { result ≡ may_act_at (act_of act) (option_copied destination.entry) }
{
    match destination {
        Some(destination) => destination.may(act),
        None => false,
    }
}
