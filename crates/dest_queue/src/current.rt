//! What a queue holds and has counted now.
ghost use Rattle.std.specs.Prelude.{◌≡◌, ◌<◌, ◌≤◌, [], ◌∷◌, ◌++◌, None, IfOk, IfSome, IsSome};
ghost use Rattle.std.specs.Vec.{vec_len};
ghost use Rattle.std.specs.VecDeque.{deque_len, deque_capacity};
ghost use Rattle.dest_queue.specs.Queue.{empty_queue};
ghost use Rattle.dest_queue.specs.Stored.{queue_of};

use crate::offer::Kept;
use crate::tally::Tally;
use line_text::Point;
use relay_base::NoMemory;
use std::alloc::Global;
use std::collections::VecDeque;

/// The datapoints that are queued, and what the queue has counted.
#[derive(Drop)]
pub(crate) struct CurrentQueue {
    pub(crate) points: VecDeque<Point>,
    pub(crate) tally: Tally,
}

impl CurrentQueue {
    /// Nothing, for a queue of this size and this many readers, with the room for all datapoints.
    pub(crate) fn new(alloc: Global, size: usize, readers: usize) -> Result<CurrentQueue, NoMemory>
        ensures empty { IfOk result (λ current. queue_of 0 current ≡ empty_queue readers) }
        ensures room { IfOk result (λ current. size ≤ deque_capacity current.points) }
    {
        let points = VecDeque::with_capacity(alloc, size)?;
        let tally = Tally::new(alloc, readers)?;
        Ok(CurrentQueue { points, tally })
    }

    /// Resets it to the state of a new one. The room stays.
    pub(crate) fn restart(&mut self)
        ensures empty { queue_of 0 self.new ≡ empty_queue (vec_len self.old.tally.next) }
        ensures readers { vec_len self.new.tally.next ≡ vec_len self.old.tally.next }
        ensures room { deque_capacity self.new.points ≡ deque_capacity self.old.points }
    {
        self.points.clear();
        self.tally.restart();
    }

    /// Queues a datapoint for which there is room; there is none for one that the queue drops.
    #[inline(always)]
    pub(crate) fn queue_or_drop(&mut self, queued: Option<Point>) -> Kept
        requires room { IsSome queued → deque_len self.old.points < deque_capacity self.old.points }
        ensures queued { IfSome queued (λ point. (result ≡ Kept.Queued)
            × (self.new.points.items ≡ self.old.points.items ++ point ∷ [])) }
        ensures dropped { queued ≡ None → (result ≡ Kept.Dropped)
            × (self.new.points.items ≡ self.old.points.items) }
        ensures room { deque_capacity self.new.points ≡ deque_capacity self.old.points }
        ensures tally { self.new.tally ≡ self.old.tally }
    {
        match queued {
            Some(point) => {
                self.points.push_back_reserved(point);
                Kept::Queued
            }
            None => Kept::Dropped,
        }
    }
}
