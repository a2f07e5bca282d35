//! When a door gives up a lock that it holds: after 64 offers, and before it takes the next one.
ghost use Rattle.std.specs.Prelude.{◌≡◌};

use crate::tests::gates::{Holds, comes_true};
use crate::tests::points::point;
use line_text::Point;
use locked_queues::{BlankTotals, Door, DoorSeat, LockedDoor, OpenGate, Opened, Queues, Set};
use relay_base::DestId;
use std::alloc::Global;
use std::marker::Brand;
use std::sync::atomic::Ordering;
use std::sync::{Arc, Wait};
use std::test::Fail;
use std::thread;
use std::thread::Threads;

/// How many offers are made in a row.
const OFFERS: u64 = 130;

/// How many offers a door makes under one lock.
const UNDER_ONE_LOCK: u64 = 64;

/// The numbers of the offers to one queue, counted from 1, after which a door holds no lock are the multiples of 64.
fn lets_go_in_time<B: Set, R: Wait>(
    door: &mut LockedDoor<'_, B, R, OpenGate>,
    point: &Arc<Point>,
) -> bool {
    let mut hold = None;
    for number in 1..=OFFERS {
        if door.dests() == 0 || door.offer_with(&mut hold, 0, DestId(0), point).is_err() {
            return false;
        }
        if hold.is_none() != (number % UNDER_ONE_LOCK == 0) {
            return false;
        }
    }
    true
}

/// Whether the door of a seat does.
fn door_lets_go<B: Set, R: Wait>(
    rt: &R,
    queues: &Queues<B>,
    seat: Option<DoorSeat<B>>,
    point: &Arc<Point>,
) -> bool {
    let Some(seat) = seat else {
        return false;
    };
    let mut door = LockedDoor::new(rt, queues, seat, &OpenGate);
    let lets_go = lets_go_in_time(&mut door, point);
    drop(door);
    lets_go
}

/// Whether the door of a new set does, and its queue can be used then.
fn set_lets_go<B: Set, R: Wait>(rt: &R, alloc: Global, blank: BlankTotals) -> Option<bool>
    requires table { blank ≡ B.table }
    requires set { (1 ≡ B.name) × (1 ≡ B.dests) × (1 ≡ B.receivers) × (1 ≡ B.senders)
        × (10 ≡ B.size) }
{
    let shared = point(alloc, "a.b")?;
    let Opened {
        queues,
        mut doors,
        outlets,
    } = Queues::<B>::new(alloc, blank, 1, 1, 10, 1, 1).ok()?;
    let lets_go = door_lets_go(rt, &queues, doors.pop(), &shared);
    let counts = queues.counts(rt, DestId(0));
    drop((queues, doors, outlets));
    Some(lets_go && counts.offered == OFFERS)
}

#[test]
fn a_lock_is_held_for_64_offers(rt: HostRuntime) -> Result<(), Fail> {
    let blank = BlankTotals::new(rt.alloc())?;
    assert!(rt; set_lets_go::<Brand, _>(&rt, rt.alloc(), blank) == Some(true));
    Ok(())
}

/// Offers to destination 0 and then to destination 1, under locks that the door may keep, and returns whether both were answered.
fn offer_to_both<B: Set, R: Wait>(
    rt: &R,
    queues: &Queues<B>,
    seat: Option<DoorSeat<B>>,
    gate: &Holds,
    point: &Arc<Point>,
) -> bool {
    let Some(seat) = seat else {
        return false;
    };
    let mut door = LockedDoor::new(rt, queues, seat, gate);
    let mut hold = None;
    let mut is_answered = true;
    for dest in 0..2 {
        is_answered = is_answered
            && dest < door.dests()
            && door.offer_with(&mut hold, 0, DestId(dest), point).is_ok();
    }
    drop(hold);
    drop(door);
    is_answered
}

/// Whether another thread gets the lock of queue 0 while the offer to queue 1 that follows is held.
fn is_first_free<B: Set + Send + Sync, R: Threads + Wait + Sync>(
    rt: &R,
    queues: &Queues<B>,
    seat: Option<DoorSeat<B>>,
    gate: &Holds,
    point: &Arc<Point>,
) -> Option<bool>
    requires { 2 ≡ B.dests }
{
    thread::scope(
        thread::scope_env(),
        rt,
        |scope| -> Option<bool>
            requires { 2 ≡ B.dests }
        {
            let child = scope
                .spawn(move || offer_to_both(rt, queues, seat, gate, point))
                .ok()?;
            let is_held = comes_true(&gate.is_held);
            let counts = queues.counts(rt, DestId(0));
            gate.is_released.store(true, Ordering::SeqCst);
            Some(child.join(rt) && is_held && counts.offered == 1)
        },
    )
}

/// Whether that is so in a new set.
fn set_has_one_lock<B: Set + Send + Sync, R: Threads + Wait + Sync>(
    rt: &R,
    alloc: Global,
    blank: BlankTotals,
) -> Option<bool>
    requires table { blank ≡ B.table }
    requires set { (1 ≡ B.name) × (2 ≡ B.dests) × (1 ≡ B.receivers) × (1 ≡ B.senders)
        × (10 ≡ B.size) }
{
    let shared = point(alloc, "a.b")?;
    let gate = Holds::offers_to(1, false);
    let Opened {
        queues,
        mut doors,
        outlets,
    } = Queues::<B>::new(alloc, blank, 1, 2, 10, 1, 1).ok()?;
    let is_free = is_first_free(rt, &queues, doors.pop(), &gate, &shared) == Some(true);
    drop((queues, doors, outlets));
    Some(is_free && !gate.has_given_up.load(Ordering::SeqCst))
}

#[test]
fn no_two_locks_are_held(rt: HostRuntime) -> Result<(), Fail> {
    let blank = BlankTotals::new(rt.alloc())?;
    assert!(rt; set_has_one_lock::<Brand, _>(&rt, rt.alloc(), blank) == Some(true));
    Ok(())
}
