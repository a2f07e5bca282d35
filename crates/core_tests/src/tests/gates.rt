//! A gate holds one queue, and another goes on: it is offered to, and taken from.
ghost use Rattle.std.specs.Prelude.{◌≡◌};

use crate::tests::points::point;
use dest_queue::Hand;
use line_text::Point;
use locked_queues::{
    BlankTotals, Door, DoorSeat, Gate, GatePoint, LockedDoor, Opened, Outlet, OutletSeat, Queues,
    READERS_EACH, Set, Supply,
};
use relay_base::DestId;
use std::alloc::Global;
use std::marker::Brand;
use std::sync::atomic::{AtomicBool, Ordering};
use std::sync::{Arc, Wait};
use std::test::Fail;
use std::thread;
use std::thread::Threads;

// How often a thread looks whether another has got on, before it gives up.
pub(crate) const MOST_TURNS: u64 = 1_000_000;

/// Holds the offers to a destination until they are released.
#[derive(Drop)]
pub(crate) struct Holds {
    dest: DestId,
    pub(crate) is_held: AtomicBool,
    pub(crate) is_released: AtomicBool,
    pub(crate) has_given_up: AtomicBool,
}

impl Holds {
    /// Offers to this destination are held, or released from the start.
    pub(crate) fn offers_to(dest: usize, is_released: bool) -> Holds {
        Holds {
            dest: DestId(dest),
            is_held: AtomicBool::new(false),
            is_released: AtomicBool::new(is_released),
            has_given_up: AtomicBool::new(false),
        }
    }
}

impl Gate for Holds {
    fn at(&self, point: GatePoint) {
        let GatePoint::InOffer { dest, .. } = point else {
            return;
        };
        if dest == self.dest {
            self.is_held.store(true, Ordering::SeqCst);
            if !comes_true(&self.is_released) {
                self.has_given_up.store(true, Ordering::SeqCst);
            }
        }
    }

    fn give_way<R: Wait>(&self, _rt: &R, _dest: DestId, most: usize) -> usize {
        most
    }
}

/// Waits for a flag, but not for ever.
pub(crate) fn comes_true(flag: &AtomicBool) -> bool {
    for _ in 0..MOST_TURNS {
        if flag.load(Ordering::SeqCst) {
            return true;
        }
        thread::yield_now();
    }
    false
}

/// Offers once through the door of a seat, and returns whether that was answered.
fn offer_once<B: Set, R: Wait>(
    rt: &R,
    queues: &Queues<B>,
    seat: Option<DoorSeat<B>>,
    gate: &Holds,
    reader: usize,
    dest: usize,
    point: &Arc<Point>,
) -> bool {
    let Some(seat) = seat else {
        return false;
    };
    let mut door = LockedDoor::new(rt, queues, seat, gate);
    let is_answered = dest < door.dests() && door.offer(reader, DestId(dest), point).is_ok();
    drop(door);
    is_answered
}

/// Takes from queue 1 through the outlet of a seat, and returns whether it got one datapoint.
fn takes_one<B: Set, R: Wait>(
    rt: &R,
    alloc: Global,
    queues: &Queues<B>,
    seat: Option<OutletSeat<B>>,
    gate: &Holds,
) -> bool {
    let Some(seat) = seat else {
        return false;
    };
    let mut outlet = Outlet::new(rt, queues, seat, gate);
    let count = take_from(alloc, &mut outlet, DestId(1));
    drop(outlet);
    count == Some(1)
}

fn take_from<B: Set, R: Wait>(
    alloc: Global,
    outlet: &mut Outlet<'_, '_, '_, B, R, Holds>,
    dest: DestId,
) -> Option<usize> {
    let mut hand = Hand::new(alloc, 5).ok()?;
    if !outlet.owns(dest) {
        return None;
    }
    Some(outlet.take(dest, 5, &mut hand))
}

/// One thread is held inside queue 0 until another has offered to queue 1 and taken from it.
fn held_by_one<B: Set + Send + Sync, R: Threads + Wait + Sync>(
    rt: &R,
    alloc: Global,
    queues: &Queues<B>,
    doors: Vec<DoorSeat<B>>,
    outlets: Vec<OutletSeat<B>>,
    gate: &Holds,
    point: &Arc<Point>,
) -> Option<bool> {
    thread::scope(thread::scope_env(), rt, |scope| -> Option<bool> {
        let mut seats = doors.into_iter();
        let first = seats.next();
        let child = scope
            .spawn(move || offer_once(rt, queues, first, gate, 0, 0, point))
            .ok()?;
        let is_offered = comes_true(&gate.is_held)
            && offer_once(rt, queues, seats.next(), gate, READERS_EACH, 1, point);
        let is_taken = takes_one(rt, alloc, queues, outlets.into_iter().next(), gate);
        gate.is_released.store(true, Ordering::SeqCst);
        Some(child.join(rt) && is_offered && is_taken)
    })
}

/// Whether queue 1 goes on while queue 0 is held.
fn goes_on<B: Set + Send + Sync, R: Threads + Wait + Sync>(
    rt: &R,
    alloc: Global,
    queues: &Queues<B>,
    doors: Vec<DoorSeat<B>>,
    outlets: Vec<OutletSeat<B>>,
) -> Option<bool>
    requires { 2 ≡ B.dests }
{
    let shared = point(alloc, "a.b")?;
    let gate = Holds::offers_to(0, false);
    let is_held = held_by_one(rt, alloc, queues, doors, outlets, &gate, &shared) == Some(true);
    let counts = queues.counts(rt, DestId(1));
    Some(is_held && !gate.has_given_up.load(Ordering::SeqCst) && counts.taken == 1)
}

fn is_held_alone<B: Set + Send + Sync, R: Threads + Wait + Sync>(
    rt: &R,
    alloc: Global,
    blank: BlankTotals,
) -> Option<bool>
    requires table { blank ≡ B.table }
    requires set { (1 ≡ B.name) × (2 ≡ B.dests) × (2 ≡ B.receivers) × (1 ≡ B.senders)
        × (10 ≡ B.size) }
{
    let Opened {
        queues,
        doors,
        outlets,
    } = Queues::<B>::new(alloc, blank, 1, 2, 10, 2, 1).ok()?;
    let goes_on = goes_on(rt, alloc, &queues, doors, outlets);
    drop(queues);
    goes_on
}

#[test]
fn two_queues_at_once(rt: HostRuntime) -> Result<(), Fail> {
    let blank = BlankTotals::new(rt.alloc())?;
    assert!(rt; is_held_alone::<Brand, _>(&rt, rt.alloc(), blank) == Some(true));
    Ok(())
}
