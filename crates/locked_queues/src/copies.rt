//! Copies of the counts and histories behind the locks.
ghost use Rattle.std.specs.Prelude.{◌≡◌, ℕ, ◌*◌, ◌<◌, Some, length, map, slice_get, slice_index_or, IfOk};
ghost use Rattle.std.specs.Vec.{vec_len};
ghost use Rattle.dest_queue.specs.Step.{recorded_of};
ghost use Rattle.queue_records.specs.Offers.{readers_each};
ghost use Rattle.queue_records.specs.Settling.{Begins, AreBegun};

use crate::locked::LockedQueue;
use crate::shares::Set;
use crossbeam_utils::CachePadded;
use dest_queue::{Counts, Step, share};
use relay_base::NoMemory;
use std::alloc::Global;
use std::sync::Mutex;

/// Copies of counts and histories, queue by queue.
#[derive(Drop)]
pub(crate) struct Copies {
    pub(crate) counts: Vec<Counts>,
    pub(crate) histories: Vec<Vec<Step>>,
}

/// What one queue has counted, and a copy of its history.
#[derive(Drop)]
struct Copied {
    counts: Counts,
    steps: Vec<Step>,
}

/// What each queue has counted. No thread has a lock, since they are borrowed as a whole.
pub(crate) fn counts_of_all<B: Set>(
    alloc: Global,
    locks: &mut Vec<CachePadded<Mutex<LockedQueue<B>>>>,
) -> Result<Vec<Counts>, NoMemory>
    ensures locks { vec_len locks.new ≡ vec_len locks.old }
    ensures counts { IfOk result (λ counts. vec_len counts ≡ vec_len locks.old) }
{
    let mut counts = Vec::with_capacity(alloc, locks.len())?;
    for dest in 0..locks.len() {
        counts.push_reserved(counts_under(&mut locks[dest]));
    }
    Ok(counts)
}

/// What a queue has counted.
fn counts_under<B: Set>(lock: &mut CachePadded<Mutex<LockedQueue<B>>>) -> Counts {
    lock.get_mut().queue.counts()
}

/// Copies the counts and the history of each queue.
pub(crate) fn copy_all<B: Set>(
    alloc: Global,
    locks: &mut Vec<CachePadded<Mutex<LockedQueue<B>>>>,
) -> Result<Copies, NoMemory>
    ensures locks { vec_len locks.new ≡ vec_len locks.old }
    ensures begun { IfOk result (λ copies. AreBegun B.size (readers_each * B.receivers) copies.counts.items
        (map (λ history. map recorded_of history.items) copies.histories.items)) }
    ensures counts { IfOk result (λ copies. vec_len copies.counts ≡ vec_len locks.old) }
    ensures histories { IfOk result (λ copies. vec_len copies.histories ≡ vec_len locks.old) }
{
    let mut counts = Vec::with_capacity(alloc, locks.len())?;
    let mut histories = Vec::with_capacity(alloc, locks.len())?;
    for dest in 0..locks.len() {
        let copied = copy_of(alloc, &mut locks[dest])?;
        counts.push_reserved(copied.counts);
        histories.push_reserved(copied.steps);
    }
    Ok(Copies { counts, histories })
}

/// Copies the counts and the history of a queue. No thread has its lock, since it is borrowed as a whole.
fn copy_of<B: Set>(
    alloc: Global,
    lock: &mut CachePadded<Mutex<LockedQueue<B>>>,
) -> Result<Copied, NoMemory>
    ensures { IfOk result (λ copied. Begins B.size (readers_each * B.receivers) copied.counts
        (map recorded_of copied.steps.items)) }
{
    lock.get_mut().copied(alloc)
}

impl<B: Set> LockedQueue<B> {
    /// Copies what was counted, and the history.
    fn copied(&self, alloc: Global) -> Result<Copied, NoMemory>
        ensures { IfOk result (λ copied. Begins B.size (readers_each * B.receivers) copied.counts
            (map recorded_of copied.steps.items)) }
    {
        let counts = self.queue.counts();
        let _base = self.queue.base();
        let steps = copy_steps(alloc, self.queue.history())?;
        Ok(Copied { counts, steps })
    }
}

/// A copy of the steps.
fn copy_steps(alloc: Global, steps: &[Step]) -> Result<Vec<Step>, NoMemory>
    ensures { IfOk result (λ copies. map recorded_of copies.items ≡ map recorded_of steps.now) }
{
    let mut copies = Vec::with_capacity(alloc, steps.len())?;
    for step in steps {
        copies.push_reserved(copy_of_step(step)?);
    }
    Ok(copies)
}

/// A copy of a step.
fn copy_of_step(step: &Step) -> Result<Step, NoMemory>
    ensures { IfOk result (λ copy. recorded_of copy ≡ recorded_of step.now) }
{
    let copy = match step {
        Step::Offer {
            reader,
            number,
            point,
            kept,
        } => Step::Offer {
            reader: *reader,
            number: *number,
            point: share(point)?,
            kept: *kept,
        },
        Step::Take { limit, taken } => Step::Take {
            limit: *limit,
            taken: *taken,
        },
    };
    Ok(copy)
}
