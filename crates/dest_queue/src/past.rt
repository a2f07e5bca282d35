//! The steps that led to what a queue holds now.
ghost use Rattle.std.specs.Prelude.{◌≡◌, ◌*◌, ◌-◌, ◌^◌, ◌<◌, ◌≤◌, ◌==◌, if◌then◌else◌, [], ◌∷◌, ◌++◌, length, IfOk};
ghost use Rattle.std.specs.Vec.{vec_len, vec_capacity};
ghost use Rattle.dest_queue.specs.Queue.{empty_queue, most_steps};
ghost use Rattle.dest_queue.specs.Stored.{queue_of, steps_until_now, history_of, HasRoom, IsPastOf, LeadsTo};

use crate::base::Base;
use crate::current::CurrentQueue;
use crate::step::Step;
use relay_base::{LARGEST_QUEUE_SIZE, NoMemory};
use std::alloc::Global;

/// How many steps a history holds. The step that finds it full seals it first.
pub const MOST_STEPS: usize = 65_536;

/// The last of this many steps frees some of what a seal left.
pub(crate) const GROUP: usize = 16;

/// A take of nothing frees this many of them: the sender makes ten a second or more, so all are freed in some seconds.
pub(crate) const IDLE_GROUP: usize = 1_024;

// A full history has a whole number of groups, so that all of it is freed by its end.
const _: () = prove!(MOST_STEPS % GROUP == 0);

/// The queue at the last seal, and the steps since then.
#[derive(Drop)]
pub(crate) struct PastQueue {
    pub(crate) base: Base,
    pub(crate) history: Vec<Step>,
}

impl PastQueue {
    /// No steps yet, with the room that a queue of this size and this many readers needs.
    pub(crate) fn new(alloc: Global, size: usize, readers: usize) -> Result<PastQueue, NoMemory>
        requires size { size ≤ LARGEST_QUEUE_SIZE }
        ensures base { IfOk result (λ past. past.base.queue ≡ empty_queue readers) }
        ensures history { IfOk result (λ past. past.history.items ≡ []) }
        ensures room { IfOk result (λ past. HasRoom size past) }
    {
        let base = Base::new(alloc, size, readers)?;
        let history = Vec::with_capacity(alloc, MOST_STEPS)?;
        Ok(PastQueue { base, history })
    }

    /// Resets it to the state of a new one. The room stays.
    pub(crate) fn restart(&mut self)
        ensures base { self.new.base.queue ≡ empty_queue (length self.old.base.queue.next) }
        ensures base_room { self.new.base.room ≡ self.old.base.room }
        ensures history { self.new.history.items ≡ [] }
        ensures room { vec_capacity self.new.history ≡ vec_capacity self.old.history }
    {
        self.base.restart();
        self.history.clear();
    }

    /// Seals a full history, so that there is room for a step: the current queue, of this
    /// size, becomes the base, and the history is emptied.
    #[inline(always)]
    pub(crate) fn make_room(&mut self, size: usize, current: &CurrentQueue)
        requires past { IsPastOf size self.old current.now }
        requires seals { self.old.base.queue.recorded < most_steps * (2 ^ 64 - 1) }
        ensures room { HasRoom size self.new }
        ensures leads { LeadsTo size self.new current.now }
        ensures steps { steps_until_now self.new ≡ steps_until_now self.old }
        ensures length { vec_len self.new.history < most_steps }
        ensures base { self.new.base.queue ≡ (if vec_len self.old.history == most_steps
            then queue_of (steps_until_now self.old) current.now else self.old.base.queue) }
        ensures history { history_of self.new ≡ (if vec_len self.old.history == most_steps
            then [] else history_of self.old) }
    {
        prove!(current.points.len() <= size);
        if self.history.len() == MOST_STEPS {
            self.base.seal(&mut self.history, current);
        }
    }

    /// Records a step for which there is room. The last one of a group frees some of what a seal left.
    #[inline(always)]
    pub(crate) fn record(&mut self, step: Step)
        requires length { vec_len self.old.history < most_steps }
        requires room { most_steps ≤ vec_capacity self.old.history }
        ensures base { self.new.base ≡ self.old.base }
        ensures history { self.new.history.items ≡ self.old.history.items ++ step ∷ [] }
        ensures capacity { vec_capacity self.new.history ≡ vec_capacity self.old.history }
    {
        self.history.push_reserved(step);
        if self.history.len() % GROUP == 0 {
            self.base.release_some();
        }
    }
}
