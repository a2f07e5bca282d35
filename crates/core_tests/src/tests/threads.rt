//! Doors and outlets in threads of their own.
ghost use Rattle.std.specs.Prelude.{◌≡◌};

use crate::tests::points::point;
use crate::tests::sets::{Records, keep, offer_all};
use crate::tests::shapes::{Shape, open_set};
use dest_queue::Hand;
use line_text::Point;
use locked_queues::{
    BlankTotals, DoorRecord, DoorSeat, LockedDoor, OpenGate, Opened, Outlet, OutletRecord,
    OutletSeat, Queues, READERS_EACH, Set, SettleFault, Settled, Supply,
};
use relay_base::DestId;
use std::alloc::Global;
use std::marker::Brand;
use std::sync::{Arc, Wait};
use std::thread;
use std::thread::{JoinHandle, Threads};

/// What a thread does: offers to a destination and takes from it, each this many times, in turns.
#[derive(Clone, Copy)]
struct Work {
    dests: usize,
    offers: u64,
    takes: u64,
}

/// What the door and the outlet of a thread recorded; `None` if there is none, or it failed.
#[derive(Drop)]
struct Share {
    door: Option<DoorRecord>,
    outlet: Option<OutletRecord>,
}

/// The next random destination of this many, by the next number of a linear congruential generator.
fn next_dest(random: &mut u64, dests: usize) -> usize {
    *random = random
        .wrapping_mul(6_364_136_223_846_793_005)
        .wrapping_add(1_442_695_040_888_963_407);
    (*random >> 33) as usize % dests.max(1)
}

/// Takes at most three datapoints, if the outlet may.
fn take_three<B: Set, R: Wait>(
    outlet: &mut Outlet<'_, '_, '_, B, R, OpenGate>,
    dest: usize,
    hand: &mut Hand,
) {
    hand.clear();
    if outlet.owns(DestId(dest)) && hand.room() >= 3 {
        outlet.take(DestId(dest), 3, hand);
    }
}

/// Offers in a random order of destinations, and returns whether all offers were answered.
fn offer_each<B: Set, R: Wait>(
    door: &mut LockedDoor<'_, B, R, OpenGate>,
    reader: usize,
    todo: Work,
    random: &mut u64,
    point: &Arc<Point>,
) -> bool {
    for _ in 0..todo.offers {
        let dest = next_dest(random, todo.dests);
        if !offer_all(door, reader, dest, point, 1) {
            return false;
        }
    }
    true
}

/// Takes in a random order of destinations, and returns whether it could.
fn take_each<B: Set, R: Wait>(
    alloc: Global,
    outlet: &mut Outlet<'_, '_, '_, B, R, OpenGate>,
    todo: Work,
    random: &mut u64,
) -> bool {
    let Ok(mut hand) = Hand::new(alloc, 3) else {
        return false;
    };
    for _ in 0..todo.takes {
        take_three(outlet, next_dest(random, todo.dests), &mut hand);
    }
    true
}

/// Offers through the door of a seat, and returns what it recorded; `None` if an offer was refused.
fn offer_from<B: Set, R: Wait>(
    rt: &R,
    queues: &Queues<B>,
    seat: DoorSeat<B>,
    reader: usize,
    todo: Work,
    random: &mut u64,
    point: &Arc<Point>,
) -> Option<DoorRecord> {
    let gate = OpenGate;
    let mut door = LockedDoor::new(rt, queues, seat, &gate);
    let is_done = offer_each(&mut door, reader, todo, random, point);
    let record = door.close();
    is_done.then_some(record)
}

/// Takes through the outlet of a seat, and returns what it recorded; `None` if there is no seat, or out of memory.
fn take_from<B: Set, R: Wait>(
    rt: &R,
    alloc: Global,
    queues: &Queues<B>,
    seat: Option<OutletSeat<B>>,
    todo: Work,
    random: &mut u64,
) -> Option<OutletRecord> {
    let gate = OpenGate;
    let mut outlet = Outlet::new(rt, queues, seat?, &gate);
    let is_done = take_each(alloc, &mut outlet, todo, random);
    let record = outlet.close();
    is_done.then_some(record)
}

/// Offers as the first reader of a receiver and then takes, and returns what was recorded.
fn offer_and_take<B: Set, R: Wait>(
    rt: &R,
    alloc: Global,
    queues: &Queues<B>,
    door: DoorSeat<B>,
    outlet: Option<OutletSeat<B>>,
    receiver: usize,
    todo: Work,
    point: &Arc<Point>,
) -> Share {
    let reader = READERS_EACH.saturating_mul(receiver);
    let mut random = reader as u64;
    Share {
        door: offer_from(rt, queues, door, reader, todo, &mut random, point),
        outlet: take_from(rt, alloc, queues, outlet, todo, &mut random),
    }
}

/// What threads recorded, which are joined.
fn shares_of<R: Threads + Wait + Sync>(
    rt: &R,
    alloc: Global,
    children: Vec<JoinHandle<Share>>,
) -> Option<Records> {
    let mut records = Records {
        doors: Vec::new(alloc),
        outlets: Vec::new(alloc),
    };
    let mut is_whole = true;
    for child in children {
        let Share { door, outlet } = child.join(rt);
        let is_kept = keep(&mut records.doors, door);
        is_whole = keep(&mut records.outlets, outlet) && is_kept && is_whole;
    }
    is_whole.then_some(records)
}

/// Does the work of all in threads of their own, one for each receiver.
fn in_threads<B: Set + Send + Sync, R: Threads + Wait + Sync>(
    rt: &R,
    alloc: Global,
    queues: &Queues<B>,
    doors: Vec<DoorSeat<B>>,
    outlets: Vec<OutletSeat<B>>,
    todo: Work,
    point: &Arc<Point>,
) -> Option<Records> {
    thread::scope(thread::scope_env(), rt, |scope| -> Option<Records> {
        let mut children = Vec::new(alloc);
        let mut seats = outlets.into_iter();
        for door in doors {
            let outlet = seats.next();
            let receiver = children.len();
            let child = scope
                .spawn(move || {
                    offer_and_take(rt, alloc, queues, door, outlet, receiver, todo, point)
                })
                .ok()?;
            children.push(child).ok()?;
        }
        shares_of(rt, alloc, children)
    })
}

struct Case {
    shape: Shape,
    todo: Work,
    offered: u64,
    // At least this many of them are kept, and all others are dropped.
    kept: u64,
}

static CASES: [Case; 2] = [
    // Two doors in two threads offer to one queue that has room for all.
    Case {
        shape: Shape {
            name: 1,
            dests: 1,
            size: 2_000,
            receivers: 2,
            senders: 1,
        },
        todo: Work {
            dests: 1,
            offers: 1_000,
            takes: 0,
        },
        offered: 2_000,
        kept: 2_000,
    },
    // A million calls: eight threads, each with a door and an outlet, at 64 queues.
    Case {
        shape: Shape {
            name: 2,
            dests: 64,
            size: 100,
            receivers: 8,
            senders: 8,
        },
        todo: Work {
            dests: 64,
            offers: 62_500,
            takes: 62_500,
        },
        offered: 500_000,
        kept: 6_400,
    },
];

/// Whether a set settles, and its counts add up to those of the case.
fn adds_up(settled: &Result<Settled, SettleFault>, case: &Case) -> bool {
    let Ok(settled) = settled else {
        return false;
    };
    let (mut offered, mut kept, mut dropped, mut taken) = (0u64, 0u64, 0u64, 0u64);
    for counts in &settled.counts {
        offered = offered.saturating_add(counts.offered);
        kept = kept.saturating_add(counts.kept);
        dropped = dropped.saturating_add(counts.dropped);
        taken = taken.saturating_add(counts.taken);
    }
    offered == case.offered
        && kept >= case.kept
        && kept.saturating_add(dropped) == offered
        && taken <= kept
        && settled.order.len() as u64 >= offered
}

/// Whether a set settles so with these records, but not without those of the last door.
fn settles_so<B: Set>(
    alloc: Global,
    queues: &mut Queues<B>,
    records: &mut Records,
    case: &Case,
) -> bool {
    let settled = queues.settle(alloc, records.doors.as_slice(), records.outlets.as_slice());
    let adds_up = adds_up(&settled, case);
    drop(settled);
    drop(records.doors.pop());
    let with_less = queues.settle(alloc, records.doors.as_slice(), records.outlets.as_slice());
    let is_stranger = matches!(&with_less, Err(SettleFault::Strangers));
    drop(with_less);
    adds_up && is_stranger
}

/// Whether a set settles so after the work of its threads.
fn settles_after<B: Set + Send + Sync, R: Threads + Wait + Sync>(
    rt: &R,
    alloc: Global,
    queues: &mut Queues<B>,
    doors: Vec<DoorSeat<B>>,
    outlets: Vec<OutletSeat<B>>,
    case: &Case,
) -> Option<bool> {
    let shared = point(alloc, "a.b")?;
    let mut records = in_threads(rt, alloc, queues, doors, outlets, case.todo, &shared)?;
    let settles = settles_so(alloc, queues, &mut records, case);
    drop(records);
    Some(settles)
}

/// Whether a set of the case's shape does.
fn set_settles<B: Set + Send + Sync, R: Threads + Wait + Sync>(
    rt: &R,
    alloc: Global,
    blank: BlankTotals,
    case: &Case,
) -> Option<bool>
    requires table { blank ≡ B.table }
    requires set { (case.now.shape.name ≡ B.name) × (case.now.shape.dests ≡ B.dests)
        × (case.now.shape.receivers ≡ B.receivers) × (case.now.shape.senders ≡ B.senders)
        × (case.now.shape.size ≡ B.size) }
{
    let Opened {
        mut queues,
        doors,
        outlets,
    } = open_set::<B>(alloc, blank, case.shape)?;
    let settles = settles_after(rt, alloc, &mut queues, doors, outlets, case);
    drop(queues);
    settles
}

// Whether the counts add up after the work of the threads, and the records settle, but not with one of them left out.
fn is_settled<R: Threads + Wait + Sync>(rt: &R, alloc: Global, case: &Case) -> bool {
    match BlankTotals::new(alloc) {
        Ok(blank) => set_settles::<Brand, R>(rt, alloc, blank, case) == Some(true),
        Err(_) => false,
    }
}

#[test]
fn threads_add_up(rt: HostRuntime) {
    let mut all = true;
    for case in &CASES {
        all = all && is_settled(&rt, rt.alloc(), case);
    }
    assert!(rt; all);
}
