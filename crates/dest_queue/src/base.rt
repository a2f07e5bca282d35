//! A queue at the last seal of its history.
ghost use Rattle.std.specs.Prelude.{◌≡◌, ◌+◌, ◌-◌, ◌^◌, ◌<◌, ◌≤◌, ◌↔◌, ◌*◌, [], ◌∷◌, ◌++◌, length, map, drop, slice_index_or, IfOk, IfSome, IsSome};
ghost use Rattle.std.specs.Vec.{vec_len, vec_capacity};
ghost use Rattle.std.specs.VecDeque.{deque_len, deque_capacity};
ghost use Rattle.dest_queue.specs.Queue.{empty_queue, most_steps};
ghost use Rattle.dest_queue.specs.Counts.{counts_at_seal};
ghost use Rattle.dest_queue.specs.History.{points_queued, count_taken};
ghost use Rattle.dest_queue.specs.Step.{recorded_of};
ghost use Rattle.dest_queue.specs.Stored.{queue_of};

use crate::counts::Counts;
use crate::current::CurrentQueue;
use crate::front::lie_in_front;
use crate::offer::Kept;
use crate::past::{GROUP, IDLE_GROUP, MOST_STEPS};
use crate::step::Step;
use crate::tally::Tally;
use line_text::{Name, Point};
use relay_base::{LARGEST_QUEUE_SIZE, NoMemory};
use std::alloc::Global;
use std::collections::VecDeque;
use std::marker::Model;
use std::sync::Arc;

/// The queue at the last seal: its datapoints, the counts and each reader's next number. Before the
/// first seal it is the empty queue.
///
/// In clauses it is that queue and its room for datapoints.
#[derive(Drop)]
pub struct Base {
    // The first `dead` datapoints had left the queue before the seal, and wait to be freed.
    points: VecDeque<Point>,
    dead: usize,
    // How many of these the last step of each group frees, so that none is left at the next seal.
    freed_per_group: usize,
    // The names of the datapoints that the queue had dropped, which wait to be freed too.
    dropped: Vec<Arc<Name>>,
    // What was read of the datapoints that were freed last. Nothing uses it: see `prefetch`.
    prefetched: u64,
    tally: Tally,
    seals: u64,
}

impl Model for Base {
    ghost use Rattle.dest_queue.specs.BaseWithRoom.{BaseWithRoom};

    ghost Value = { BaseWithRoom };

    ghost use Rattle.dest_queue.specs.Base.{base_with_room, IsSoundBase};

    ghost view = { base_with_room };

    ghost invariant = { IsSoundBase };
}

impl Base {
    /// The empty queue of this many readers, with the room that seals of a queue of this size need.
    pub(crate) fn new(alloc: Global, size: usize, readers: usize) -> Result<Base, NoMemory>
        requires size { size ≤ LARGEST_QUEUE_SIZE }
        ensures empty { IfOk result (λ base. base.queue ≡ empty_queue readers) }
        ensures room { IfOk result (λ base. size + most_steps ≤ base.room) }
    {
        let points = VecDeque::with_capacity(alloc, size + MOST_STEPS)?;
        let dropped = Vec::with_capacity(alloc, MOST_STEPS)?;
        let tally = Tally::new(alloc, readers)?;
        Ok(Base {
            points,
            dead: 0,
            freed_per_group: 0,
            dropped,
            prefetched: 0,
            tally,
            seals: 0,
        })
    }

    /// Resets it to the state of a new one. The room stays.
    pub(crate) fn restart(&mut self)
        ensures empty { self.new.queue ≡ empty_queue (length self.old.queue.next) }
        ensures room { self.new.room ≡ self.old.room }
    {
        self.points.clear();
        self.dead = 0;
        self.dropped.clear();
        self.tally.restart();
        self.seals = 0;
    }

    /// How many datapoints it held.
    pub fn len(&self) -> usize
        ensures { result ≡ length self.now.queue.points }
    {
        self.points.len() - self.dead
    }

    /// The datapoint at a place, the oldest at 0; none past the last one.
    pub fn point(&self, place: usize) -> Option<&Point>
        ensures there { IsSome result ↔ (place < length self.now.queue.points) }
        ensures point { IfSome result (λ found.
            found.now ≡ slice_index_or self.now.queue.points place found.now) }
    {
        if place < self.len() {
            self.points.get(self.dead + place)
        } else {
            None
        }
    }

    /// The counts at the seal, with that seal counted; zeros before the first.
    pub fn counts(&self) -> Counts
        ensures { result ≡ counts_at_seal self.now.queue }
    {
        self.tally.counts(self.len(), self.seals)
    }

    /// How often the history was sealed.
    pub(crate) fn seals(&self) -> u64
        ensures { self.now.queue.recorded ≡ most_steps * result }
    {
        self.seals
    }

    /// Each reader's next number at the seal.
    pub fn next_numbers(&self) -> &[u64]
        ensures { result.now ≡ self.now.queue.next }
    {
        self.tally.next.as_slice()
    }

    /// Frees some of the datapoints that have left: enough at each [`GROUP`] of steps that all are freed before a
    /// history is full again, and few enough that no call takes long.
    #[inline(never)]
    pub(crate) fn release_some(&mut self)
        ensures { self.new ≡ self.old }
    {
        self.release(self.freed_per_group, GROUP);
    }

    /// Frees more of them, in a call that has nothing else to do. So their memory also comes back while no step is
    /// made: when out of memory, nobody can make a datapoint to offer.
    #[inline(never)]
    pub(crate) fn release_more(&mut self)
        ensures { self.new ≡ self.old }
    {
        self.release(IDLE_GROUP, IDLE_GROUP);
    }

    /// Frees at most `most_dead` of the datapoints that have left the queue, and at most `most_dropped` of those
    /// that it dropped.
    fn release(&mut self, most_dead: usize, most_dropped: usize)
        ensures { self.new ≡ self.old }
    {
        let count = self.dead.min(most_dead);
        self.prefetched = prefetch(&self.points, count);
        release_front(&mut self.points, count);
        self.dead -= count;
        self.dropped
            .truncate(self.dropped.len().saturating_sub(most_dropped));
    }

    /// Becomes the current queue, to which the steps of a full history led, and empties the history. Its datapoints
    /// move over, and only those are freed that earlier steps should have freed.
    #[inline(never)]
    pub(crate) fn seal(&mut self, history: &mut Vec<Step>, current: &CurrentQueue)
        requires full { vec_len history.old ≡ most_steps }
        requires room { length self.old.queue.points + most_steps ≤ self.old.room }
        requires readers { length self.old.queue.next ≡ vec_len current.now.tally.next }
        requires seals { self.old.queue.recorded < most_steps * (2 ^ 64 - 1) }
        requires taken { current.now.tally.taken ≡ self.old.queue.taken
            + count_taken (map recorded_of history.old.items) }
        requires taken_of_these { count_taken (map recorded_of history.old.items)
            ≤ length (self.old.queue.points ++ points_queued (map recorded_of history.old.items)) }
        requires points { current.now.points.items
            ≡ drop (count_taken (map recorded_of history.old.items))
            (self.old.queue.points ++ points_queued (map recorded_of history.old.items)) }
        ensures queue { self.new.queue
            ≡ queue_of (self.old.queue.recorded + most_steps) current.now }
        ensures room { self.new.room ≡ self.old.room }
        ensures history { history.new.items ≡ [] }
        ensures history_room { vec_capacity history.new ≡ vec_capacity history.old }
    {
        release_front(&mut self.points, self.dead);
        lie_in_front(&mut self.points, MOST_STEPS);
        self.dropped.clear();
        share_points(history, &mut self.points, &mut self.dropped);
        self.dead = (current.tally.taken - self.tally.taken) as usize;
        self.freed_per_group = GROUP * (self.dead / MOST_STEPS + 1);
        self.tally.copy_from(&current.tally);
        self.seals += 1;
    }
}

/// Reads the first `count` datapoints, and how many share their names, so that the processor fetches their memory at
/// once: they were last touched long ago, and freeing them one by one would wait for each. The result keeps the
/// compiler from leaving the reads out.
fn prefetch(points: &VecDeque<Point>, count: usize) -> u64 {
    let mut read = 0;
    for place in 0..count {
        if let Some(point) = points.get(place) {
            read ^= point.time ^ Arc::strong_count(&point.name) as u64;
        }
    }
    read
}

/// Frees the first `count` datapoints.
fn release_front(points: &mut VecDeque<Point>, count: usize)
    requires { count ≤ deque_len points.old }
    ensures left { points.new.items ≡ drop count points.old.items }
    ensures capacity { deque_capacity points.new ≡ deque_capacity points.old }
{
    for _ in 0..count {
        points.pop_front();
    }
}

/// Moves the datapoints of a history out of it: those that were queued after the others, and the names of those
/// that were dropped, apart from them.
fn share_points(history: &mut Vec<Step>, points: &mut VecDeque<Point>, dropped: &mut Vec<Arc<Name>>)
    requires room { deque_len points.old + vec_len history.old ≤ deque_capacity points.old }
    requires room_for_dropped { vec_len dropped.old + vec_len history.old ≤ vec_capacity dropped.old }
    ensures points { points.new.items
        ≡ points.old.items ++ points_queued (map recorded_of history.old.items) }
    ensures capacity { deque_capacity points.new ≡ deque_capacity points.old }
    ensures dropped_capacity { vec_capacity dropped.new ≡ vec_capacity dropped.old }
    ensures history { history.new.items ≡ [] }
    ensures history_room { vec_capacity history.new ≡ vec_capacity history.old }
{
    for step in history.drain(..) {
        share_point(step, points, dropped);
    }
}

/// Moves the datapoint of a step, if it has one, to where it belongs.
fn share_point(step: Step, points: &mut VecDeque<Point>, dropped: &mut Vec<Arc<Name>>)
    requires room { deque_len points.old < deque_capacity points.old }
    requires room_for_dropped { vec_len dropped.old < vec_capacity dropped.old }
    ensures points { points.new.items
        ≡ points.old.items ++ points_queued (recorded_of step ∷ []) }
    ensures count { deque_len points.new ≤ deque_len points.old + 1 }
    ensures dropped_count { vec_len dropped.new ≤ vec_len dropped.old + 1 }
    ensures capacity { deque_capacity points.new ≡ deque_capacity points.old }
    ensures dropped_capacity { vec_capacity dropped.new ≡ vec_capacity dropped.old }
{
    match step {
        Step::Offer { point, kept, .. } => match kept {
            Kept::Queued => points.push_back_reserved(point),
            Kept::Dropped => dropped.push_reserved(name_of(point)),
        },
        Step::Take { .. } => {}
    }
}

/// The name of a datapoint, which is all of it that has to be freed.
fn name_of(point: Point) -> Arc<Name> {
    let Point {
        name,
        value: _,
        time: _,
    } = point;
    name
}
