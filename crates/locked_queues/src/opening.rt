//! How a set of queues is opened.
ghost use Rattle.std.specs.Prelude.{◌≡◌, ℕ, ◌+◌, ◌*◌, ◌<◌, ◌≤◌, slice_index, IfOk};
ghost use Rattle.std.specs.List.{range_with_len};
ghost use Rattle.std.specs.Vec.{vec_len};
ghost use Rattle.queue_records.specs.Offers.{readers_each};
ghost use Rattle.locked_queues.specs.Shares.{keeper_of, table_words};

use crate::locked::LockedQueue;
use crate::patience::Patience;
use crate::seats::{DoorSeat, OutletSeat};
use crate::shares::{Common, FIRST_PLACE, LastPlace, Set, Shares, Total, View, WORDS};
use atomic_table::Seat;
use crossbeam_utils::CachePadded;
use dest_queue::{DestQueue, LARGEST_SIZE, MOST_READERS};
use queue_records::{DoorBook, MOST_DESTS, MOST_RECEIVERS, MOST_SENDERS, OutletBook};
use relay_base::NoMemory;
use std::alloc::Global;
use std::sync::Mutex;

/// A lock for each queue, in order. Each takes its totals from the seat, the last place first.
pub(crate) fn make_locks<B: Set>(
    alloc: Global,
    common: &Common,
    first: &mut Seat<u64, View>,
    dests: usize,
    size: usize,
    readers: usize,
) -> Result<Vec<CachePadded<Mutex<LockedQueue<B>>>>, NoMemory>
    requires table { (common.now.table_id ≡ B.table)
        × (common.now.table_id.words ≡ table_words) }
    requires first { (first.old.table_id ≡ B.table) × (first.old.me.0 ≡ keeper_of table_words) }
    requires dests { (1 ≤ dests) × (dests ≤ MOST_DESTS) }
    requires size { (size ≡ B.size) × (1 ≤ size) × (size ≤ LARGEST_SIZE) }
    requires readers { (1 ≤ readers) × (readers ≤ MOST_READERS) }
    requires own { readers ≡ readers_each * B.receivers }
    ensures dests { IfOk result (λ locks. vec_len locks ≡ dests) }
    ensures first { first.new.table_id ≡ B.table }
{
    skip_totals::<B>(common, first, dests);
    let mut locks = Vec::with_capacity(alloc, dests)?;
    for place in 0..dests {
        let dest = dests - 1 - place;
        locks.push_reserved(make_lock(alloc, common, first, dest, size, readers)?);
    }
    locks.reverse();
    Ok(locks)
}

/// The lock of an empty queue, with the three totals of its number.
fn make_lock<B: Set>(
    alloc: Global,
    common: &Common,
    first: &mut Seat<u64, View>,
    dest: usize,
    size: usize,
    readers: usize,
) -> Result<CachePadded<Mutex<LockedQueue<B>>>, NoMemory>
    requires table { (common.now.table_id ≡ B.table)
        × (common.now.table_id.words ≡ table_words) }
    requires first { (first.old.table_id ≡ B.table)
        × (first.old.me.0 ≡ keeper_of (8 + 3 * dest + 3)) }
    requires dest { dest < MOST_DESTS }
    requires size { (size ≡ B.size) × (1 ≤ size) × (size ≤ LARGEST_SIZE) }
    requires readers { (1 ≤ readers) × (readers ≤ MOST_READERS) }
    requires own { readers ≡ readers_each * B.receivers }
    ensures first { (first.new.table_id ≡ B.table) × (first.new.me.0 ≡ keeper_of (8 + 3 * dest)) }
{
    let taken = next_total(common, first, FIRST_PLACE + 3 * dest + 2);
    let dropped = next_total(common, first, FIRST_PLACE + 3 * dest + 1);
    let offered = next_total(common, first, FIRST_PLACE + 3 * dest);
    let queue = DestQueue::new(alloc, size, readers)?;
    let locked = LockedQueue {
        dest,
        queue,
        patience: Patience::none(),
        offered,
        dropped,
        taken,
    };
    Ok(CachePadded::new(Mutex::new(locked)))
}

/// Gives up the totals of the queues that do not exist, the last place first.
fn skip_totals<B: Set>(common: &Common, first: &mut Seat<u64, View>, dests: usize)
    requires table { (common.now.table_id ≡ B.table)
        × (common.now.table_id.words ≡ table_words) }
    requires first { (first.old.table_id ≡ B.table) × (first.old.me.0 ≡ keeper_of table_words) }
    requires dests { dests ≤ MOST_DESTS }
    ensures first { (first.new.table_id ≡ B.table) × (first.new.me.0 ≡ keeper_of (8 + 3 * dests)) }
{
    for skipped in 0..3 * (MOST_DESTS - dests) {
        next_total::<B>(common, first, WORDS - 1 - skipped);
    }
}

/// The total at the last place that a seat keeps. It is 0.
fn next_total<B: Set>(common: &Common, first: &mut Seat<u64, View>, place: usize) -> Total<B>
    requires table { (common.now.table_id ≡ B.table)
        × (common.now.table_id.words ≡ table_words) }
    requires first { (first.old.table_id ≡ B.table) × (first.old.me.0 ≡ keeper_of (place + 1)) }
    ensures first { (first.new.table_id ≡ B.table) × (first.new.me.0 ≡ keeper_of place) }
    ensures total { (result.place ≡ place) × (slice_index result.seat.me.0.totals place ≡ 0) }
{
    let seat = common.split_seat::<LastPlace>(first);
    Total::of(seat, place)
}

/// A seat for each receiver's door, with no shares yet.
pub(crate) fn make_doors<B: Set>(
    alloc: Global,
    common: &Common,
    first: &mut Seat<u64, View>,
    name: u64,
    dests: usize,
    receivers: usize,
) -> Result<Vec<DoorSeat<B>>, NoMemory>
    requires table { (common.now.table_id ≡ B.table)
        × (common.now.table_id.words ≡ table_words) }
    requires first { first.old.table_id ≡ B.table }
    requires dests { (dests ≡ B.dests) × (1 ≤ dests) × (dests ≤ MOST_DESTS) }
    requires name { name ≡ B.name }
    requires receivers { receivers ≤ MOST_RECEIVERS }
    ensures doors { IfOk result (λ doors. doors.items ≡ range_with_len 0 receivers) }
    ensures first { first.new.table_id ≡ B.table }
{
    let mut doors = Vec::with_capacity(alloc, receivers)?;
    for seat in 0..receivers {
        let book = DoorBook::new(alloc, dests, seat)?;
        let shares = Shares::none(common, first);
        doors.push_reserved(DoorSeat::of(name, seat, book, shares));
    }
    Ok(doors)
}

/// A seat for each sender's outlet, with no shares yet.
pub(crate) fn make_outlets<B: Set>(
    alloc: Global,
    common: &Common,
    first: &mut Seat<u64, View>,
    name: u64,
    dests: usize,
    senders: usize,
) -> Result<Vec<OutletSeat<B>>, NoMemory>
    requires table { (common.now.table_id ≡ B.table)
        × (common.now.table_id.words ≡ table_words) }
    requires first { first.old.table_id ≡ B.table }
    requires dests { (dests ≡ B.dests) × (1 ≤ dests) × (dests ≤ MOST_DESTS) }
    requires name { name ≡ B.name }
    requires senders { (senders ≡ B.senders) × (senders ≤ MOST_SENDERS) }
    ensures outlets { IfOk result (λ outlets. outlets.items ≡ range_with_len 0 senders) }
{
    let mut outlets = Vec::with_capacity(alloc, senders)?;
    for seat in 0..senders {
        let book = OutletBook::new(alloc, dests)?;
        let shares = Shares::none(common, first);
        outlets.push_reserved(OutletSeat::of(name, seat, senders, book, shares));
    }
    Ok(outlets)
}
