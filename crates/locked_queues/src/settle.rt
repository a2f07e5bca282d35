//! Settling: the counts and histories behind the locks, compared with what doors and outlets recorded.
ghost use Rattle.std.specs.Prelude.{◌≡◌, ℕ, ◌*◌, ◌<◌, ◌≤◌, length, map, IfOk, IfErr, IfNone, OnOk, IsErrOf};
ghost use Rattle.std.specs.Vec.{vec_len};
ghost use Rattle.dest_queue.specs.Step.{recorded_of};
ghost use Rattle.queue_records.specs.Offers.{readers_each};
ghost use Rattle.queue_records.specs.Settling.{AreBegun, AreUnsealed, HaveSums};
ghost use Rattle.queue_records.specs.Records.{SettlesBy};
ghost use Rattle.locked_queues.specs.SettleFault.{sealed_counts, HasAllCounts, IsPlain};
ghost use Rattle.queue_records.specs.Strangers.{AreOfSet};

use crate::copies::{Copies, copy_all, counts_of_all};
use crate::queues::Queues;
use crate::settled::{SettleFault, Settled, StepMaker};
use crate::shares::Set;
use common_orders::{OrderFault, common_order};
use dest_queue::{Counts, MOST_READERS, Step};
use queue_records::{
    Difference, DoorRecord, MOST_DESTS, OrderLists, OutletRecord, READERS_EACH, are_of_set,
    first_left_out, first_without_sums, lists_to_order,
};
use relay_base::DestId;
use std::alloc::Global;

impl<B: Set> Queues<B> {
    /// Compares the counts and histories behind the locks with what doors and outlets recorded. Queues and records
    /// are unchanged. It waits for no lock, since the queues are borrowed as a whole.
    ///
    /// Refuses, the first that fits: records that are not those of the seats of this set, each once
    /// (`Strangers`), out of memory (`NoMemory`), counts that are not the sums of the records' totals
    /// (`Totals`), a history that was sealed or an offer or take that was left out of a record (`Sealed`), a
    /// history that differs from a record (`Differs`), and steps that have no common order (`NoOrder`).
    pub fn settle(
        &mut self,
        alloc: Global,
        doors: &[DoorRecord],
        outlets: &[OutletRecord],
    ) -> Result<Settled, SettleFault>
        // The sums of the records are the counts of the queues, also if a history was sealed.
        ensures totals { IfOk result (λ settled.
            HaveSums doors.now outlets.now settled.counts.items) }
        ensures sealed_totals { IfErr result (λ fault.
            HaveSums doors.now outlets.now (sealed_counts fault)) }
        ensures sealed_all { IfErr result (HasAllCounts B.dests) }
        // Each history begins with the empty queue, and replays to the counts in a queue of the set's size.
        ensures unsealed { IfOk result (λ settled. AreUnsealed settled.counts.items) }
        ensures begun { IfOk result (λ settled. AreBegun B.size (readers_each * B.receivers)
            settled.counts.items (map (λ history. map recorded_of history.items) settled.histories.items)) }
        ensures all { IfOk result (λ settled. vec_len settled.counts ≡ B.dests) }
        // The records have the histories' steps, and the order is a common one of all of them.
        ensures order { IfOk result (λ settled. SettlesBy (readers_each * B.receivers)
            (map (λ history. map recorded_of history.items) settled.histories.items)
            doors.now outlets.now settled.order.items) }
        // The records are those of the set's seats; `Strangers` is answered only if they are not.
        ensures of_set { IfOk result (λ settled.
            AreOfSet B.name B.dests B.receivers B.senders doors.now outlets.now) }
        ensures strangers { IsErrOf result SettleFault.Strangers
            → ¬ AreOfSet B.name B.dests B.receivers B.senders doors.now outlets.now }
    {
        let dests = self.locks.len();
        if !are_of_set(
            self.name,
            dests,
            self.receivers,
            self.senders,
            doors,
            outlets,
        ) {
            return Err(SettleFault::Strangers);
        }
        // A sealed history, which each long run has, is not copied.
        let counts = counts_of_all(alloc, &mut self.locks)?;
        check_whole(alloc, counts, doors, outlets)?;
        let copies = copy_all(alloc, &mut self.locks)?;
        let readers = READERS_EACH * self.receivers;
        compare(alloc, copies, readers, doors, outlets)
    }
}

/// Refuses counts that are not the sums of the records' totals (`Totals`), and a history that was sealed or an offer or a take
/// that was left out of a record (`Sealed`).
fn check_whole(
    alloc: Global,
    counts: Vec<Counts>,
    doors: &[DoorRecord],
    outlets: &[OutletRecord],
) -> Result<(), SettleFault>
    ensures sealed_totals { IfErr result (λ fault.
        HaveSums doors.now outlets.now (sealed_counts fault)) }
    ensures sealed_all { IfErr result (HasAllCounts (vec_len counts)) }
    ensures known { IfErr result (λ fault. ¬ (fault ≡ SettleFault.Strangers)) }
{
    match first_not_whole(alloc, counts.as_slice(), doors, outlets) {
        Ok(None) => {
            drop(counts);
            Ok(())
        }
        Ok(Some(dest)) => Err(SettleFault::Sealed {
            dest: DestId(dest),
            counts,
        }),
        Err(fault) => {
            drop(counts);
            Err(fault)
        }
    }
}

/// Compares copies of the counts and histories of a set with this number of readers with the records.
pub(crate) fn compare(
    alloc: Global,
    copies: Copies,
    readers: usize,
    doors: &[DoorRecord],
    outlets: &[OutletRecord],
) -> Result<Settled, SettleFault>
    requires histories { vec_len copies.histories ≤ MOST_DESTS }
    requires readers { readers ≤ MOST_READERS }
    ensures counts { IfOk result (λ settled. settled.counts ≡ copies.counts) }
    ensures histories { IfOk result (λ settled. settled.histories ≡ copies.histories) }
    ensures totals { IfOk result (λ settled.
        HaveSums doors.now outlets.now settled.counts.items) }
    ensures unsealed { IfOk result (λ settled. AreUnsealed settled.counts.items) }
    ensures order { IfOk result (λ settled. SettlesBy readers
        (map (λ history. map recorded_of history.items) settled.histories.items)
        doors.now outlets.now settled.order.items) }
    ensures sealed_totals { IfErr result (λ fault.
        HaveSums doors.now outlets.now (sealed_counts fault)) }
    ensures sealed_all { IfErr result (HasAllCounts (vec_len copies.counts)) }
    ensures known { IfErr result (λ fault. ¬ (fault ≡ SettleFault.Strangers)) }
{
    match first_not_whole(alloc, copies.counts.as_slice(), doors, outlets) {
        Ok(None) => {}
        Ok(Some(dest)) => {
            drop(copies.histories);
            return Err(SettleFault::Sealed {
                dest: DestId(dest),
                counts: copies.counts,
            });
        }
        Err(fault) => {
            drop(copies);
            return Err(fault);
        }
    }
    match order_of(alloc, copies.histories.as_slice(), readers, doors, outlets) {
        Ok(order) => Ok(Settled {
            counts: copies.counts,
            histories: copies.histories,
            order,
        }),
        Err(fault) => {
            drop(copies);
            Err(fault)
        }
    }
}

/// The least destination whose history was sealed, or of which an offer or a take was left out of a record. Refuses
/// counts that are not the sums of the records' totals (`Totals`).
fn first_not_whole(
    alloc: Global,
    counts: &[Counts],
    doors: &[DoorRecord],
    outlets: &[OutletRecord],
) -> Result<Option<usize>, SettleFault>
    ensures sums { OnOk result (HaveSums doors.now outlets.now counts.now) }
    ensures whole { IfOk result (λ found. IfNone found (AreUnsealed counts.now)) }
    ensures plain { IfErr result IsPlain }
{
    if let Some(dest) = first_without_sums(counts, doors, outlets) {
        return Err(SettleFault::Totals { dest: DestId(dest) });
    }
    Ok(first_left_out(alloc, counts, doors, outlets)?)
}

/// A common order of the steps of histories and records. Refuses a history that differs from a record (`Differs`), and
/// steps that have no common order (`NoOrder`).
fn order_of(
    alloc: Global,
    histories: &[Vec<Step>],
    readers: usize,
    doors: &[DoorRecord],
    outlets: &[OutletRecord],
) -> Result<Vec<u64>, SettleFault>
    requires histories { length histories.now ≤ MOST_DESTS }
    requires readers { readers ≤ MOST_READERS }
    ensures order { IfOk result (λ order. SettlesBy readers
        (map (λ history. map recorded_of history.items) histories.now)
        doors.now outlets.now order.items) }
    ensures plain { IfErr result IsPlain }
{
    let lists = match lists_to_order(alloc, histories, readers, doors, outlets)? {
        OrderLists::Agree(lists) => lists,
        OrderLists::Differ(difference) => return Err(fault_of(difference, readers)),
    };
    let order = common_order(alloc, lists.as_slice());
    drop(lists);
    match order {
        Ok(order) => Ok(order),
        Err(OrderFault::NoMemory) => Err(SettleFault::NoMemory),
        Err(_) => Err(SettleFault::NoOrder),
    }
}

/// The fault of a difference, in a set with this number of readers.
fn fault_of(difference: Difference, readers: usize) -> SettleFault
    requires { readers ≤ MOST_READERS }
    ensures { IsPlain result }
{
    let maker = difference.key % (readers + 1);
    SettleFault::Differs {
        dest: DestId(difference.key / (readers + 1)),
        whose: if maker == readers {
            StepMaker::Sender
        } else {
            StepMaker::Reader(maker)
        },
        place: difference.place,
    }
}
