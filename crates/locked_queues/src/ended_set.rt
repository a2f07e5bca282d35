//! A set of queues that has ended.
ghost use Rattle.std.specs.Prelude.{◌≡◌, ◌*◌, ◌≤◌, [], ◌++◌, map, IfOk, IfErr, IfNone, IsErrOf};
ghost use Rattle.std.specs.Option.{option_to_list};
ghost use Rattle.std.specs.Vec.{vec_len, vec_capacity};
ghost use Rattle.dest_queue.specs.Step.{recorded_of};
ghost use Rattle.queue_records.specs.Offers.{readers_each};
ghost use Rattle.queue_records.specs.Settling.{AreUnsealed, HaveSums};
ghost use Rattle.queue_records.specs.Records.{SettlesBy};
ghost use Rattle.queue_records.specs.Strangers.{AreOfSet};
ghost use Rattle.locked_queues.specs.Ended.{IsLeft, AreLeft};
ghost use Rattle.locked_queues.specs.SettleFault.{sealed_counts, HasAllCounts};

use crate::copies::Copies;
use crate::locked::LockedQueue;
use crate::queues::Queues;
use crate::settle::compare;
use crate::settled::{SettleFault, Settled};
use crate::shares::Set;
use crossbeam_utils::CachePadded;
use dest_queue::{Counts, EndedQueue, FreedQueue, QueuedPoints, Step};
use queue_records::{DoorRecord, OutletRecord, READERS_EACH, are_of_set};
use relay_base::NoMemory;
use std::alloc::Global;
use std::marker::PhantomData;
use std::sync::Mutex;

/// Room for what the queues of a set leave, so that they end without a need of memory.
#[derive(Drop)]
pub struct EndRoom<B: Set> {
    counts: Vec<Counts>,
    histories: Vec<Vec<Step>>,
    freed: Vec<FreedQueue>,
    points: Vec<QueuedPoints>,
    of: PhantomData<B>,
    ghost empty: { (counts.items ≡ []) × (histories.items ≡ []) × (freed.items ≡ []) × (points.items ≡ []) },
    ghost room: { (B.dests ≤ vec_capacity counts) × (B.dests ≤ vec_capacity histories)
        × (B.dests ≤ vec_capacity freed) × (B.dests ≤ vec_capacity points) },
}

/// A set of queues that has ended, without their datapoints: what each had counted and recorded. It can settle when there is
/// time, and frees what the queues had then.
#[derive(Drop)]
pub struct EndedSet {
    name: u64,
    receivers: usize,
    senders: usize,
    counts: Vec<Counts>,
    histories: Vec<Vec<Step>>,
    freed: Vec<FreedQueue>,
    // What each queue held, the oldest first; taken out by `take_points`.
    points: Vec<QueuedPoints>,
    ghost few: { vec_len histories ≤ 64 },
    ghost readers: { receivers ≤ 8 },
}

/// What a queue leaves.
#[derive(Drop)]
struct QueueEnd {
    counts: Counts,
    history: Vec<Step>,
    freed: FreedQueue,
    points: QueuedPoints,
}

impl EndedSet {
    /// What the queue of each destination had counted.
    pub fn counts(&self) -> &[Counts]
        ensures { result.now ≡ self.now.counts.items }
    {
        self.counts.as_slice()
    }

    /// Takes what the queue of the last destination held of which that was not taken, if there is one: the destinations in
    /// reverse.
    pub fn take_points(&mut self) -> Option<QueuedPoints>
        ensures points { self.old.points.items ≡ self.new.points.items ++ option_to_list result }
        ensures none { IfNone result (self.old.points.items ≡ []) }
        ensures set { (self.new.name ≡ self.old.name) × (self.new.receivers ≡ self.old.receivers)
            × (self.new.senders ≡ self.old.senders) }
        ensures counts { self.new.counts ≡ self.old.counts }
        ensures histories { self.new.histories ≡ self.old.histories }
    {
        self.points.pop()
    }

    /// Compares what the queues counted and recorded with what doors and outlets recorded, as [`Queues::settle`] does; but the
    /// histories are not copied.
    pub fn settle(
        self,
        alloc: Global,
        doors: &[DoorRecord],
        outlets: &[OutletRecord],
    ) -> Result<Settled, SettleFault>
        ensures counts { IfOk result (λ settled. settled.counts ≡ self.counts) }
        ensures histories { IfOk result (λ settled. settled.histories ≡ self.histories) }
        ensures totals { IfOk result (λ settled.
            HaveSums doors.now outlets.now settled.counts.items) }
        ensures sealed_totals { IfErr result (λ fault.
            HaveSums doors.now outlets.now (sealed_counts fault)) }
        ensures sealed_all { IfErr result (HasAllCounts (vec_len self.counts)) }
        ensures unsealed { IfOk result (λ settled. AreUnsealed settled.counts.items) }
        ensures order { IfOk result (λ settled. SettlesBy (readers_each * self.receivers)
            (map (λ history. map recorded_of history.items) settled.histories.items)
            doors.now outlets.now settled.order.items) }
        ensures of_set { IfOk result (λ settled.
            AreOfSet self.name (vec_len self.counts) self.receivers self.senders doors.now outlets.now) }
        ensures strangers { IsErrOf result SettleFault.Strangers
            → ¬ AreOfSet self.name (vec_len self.counts) self.receivers self.senders doors.now outlets.now }
    {
        let EndedSet {
            name,
            receivers,
            senders,
            ..
        } = self;
        let dests = self.counts.len();
        if !are_of_set(name, dests, receivers, senders, doors, outlets) {
            drop(self);
            return Err(SettleFault::Strangers);
        }
        let EndedSet {
            counts,
            histories,
            freed,
            points,
            ..
        } = self;
        drop((freed, points));
        let copies = Copies { counts, histories };
        compare(alloc, copies, READERS_EACH * receivers, doors, outlets)
    }
}

impl<B: Set> Queues<B> {
    /// Room for what these queues leave at their end ([`Queues::end`]). Refuses if out of memory.
    pub fn end_room(&self, alloc: Global) -> Result<EndRoom<B>, NoMemory> {
        let dests = self.locks.len();
        Ok(EndRoom {
            counts: Vec::with_capacity(alloc, dests)?,
            histories: Vec::with_capacity(alloc, dests)?,
            freed: Vec::with_capacity(alloc, dests)?,
            points: Vec::with_capacity(alloc, dests)?,
            of: PhantomData,
        })
    }

    /// Ends the queues. It waits for no lock, and takes no memory.
    pub fn end(self, room: EndRoom<B>) -> EndedSet
        // The counts and the datapoints are those of queues of the set's size, to which the histories lead.
        ensures left { AreLeft B.size (readers_each * B.receivers) result.counts.items result.points.items
            (map (λ history. map recorded_of history.items) result.histories.items) }
        ensures all { (vec_len result.counts ≡ B.dests) × (vec_len result.points ≡ B.dests) }
        ensures set { (result.name ≡ B.name) × (result.receivers ≡ B.receivers) × (result.senders ≡ B.senders) }
    {
        let Queues {
            name,
            receivers,
            senders,
            table,
            locks,
        } = self;
        let EndRoom {
            mut counts,
            mut histories,
            mut freed,
            mut points,
            of: _,
        } = room;
        for lock in locks {
            let end = end_of(lock);
            counts.push_reserved(end.counts);
            histories.push_reserved(end.history);
            freed.push_reserved(end.freed);
            points.push_reserved(end.points);
        }
        drop(table);
        EndedSet {
            name,
            receivers,
            senders,
            counts,
            histories,
            freed,
            points,
        }
    }
}

/// What the queue behind a lock leaves.
fn end_of<B: Set>(lock: CachePadded<Mutex<LockedQueue<B>>>) -> QueueEnd
    ensures { IsLeft B.size (readers_each * B.receivers) result.counts result.points
        (map recorded_of result.history.items) }
{
    lock.into_inner().into_inner().end()
}

impl<B: Set> LockedQueue<B> {
    /// What the queue leaves.
    fn end(self) -> QueueEnd
        ensures { IsLeft B.size (readers_each * B.receivers) result.counts result.points
            (map recorded_of result.history.items) }
    {
        let LockedQueue {
            dest: _,
            queue,
            patience: _,
            offered,
            dropped,
            taken,
        } = self;
        drop((offered, dropped, taken));
        let counts = queue.counts();
        let _base = queue.base();
        let _steps = queue.history();
        let (points, left) = queue.into_parts();
        let EndedQueue { history, freed } = left;
        QueueEnd {
            counts,
            history,
            freed,
            points,
        }
    }
}
