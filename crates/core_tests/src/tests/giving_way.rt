//! A door gives way to a sender that keeps up, until it has waited for 60 naps.
ghost use Rattle.std.specs.Prelude.{◌≡◌, ◌≤◌};

use crate::tests::points::point;
use dest_queue::Hand;
use line_text::Point;
use locked_queues::{
    BlankTotals, Door, Gate, GatePoint, LockedDoor, Opened, Outlet, Queues, Set, Supply,
};
use relay_base::DestId;
use std::alloc::Global;
use std::marker::Brand;
use std::sync::atomic::{AtomicU64, Ordering};
use std::sync::{Arc, Wait};
use std::test::Fail;

/// Counts how often a door gives way, and says that it has waited so many naps, if it may.
#[derive(Drop)]
struct Waits {
    naps: usize,
    calls: AtomicU64,
}

impl Waits {
    /// A gate at which each wait takes so many naps.
    fn of(naps: usize) -> Waits {
        Waits {
            naps,
            calls: AtomicU64::new(0),
        }
    }

    /// How often a door has given way.
    fn calls(&self) -> u64 {
        self.calls.load(Ordering::SeqCst)
    }
}

impl Gate for Waits {
    fn at(&self, _point: GatePoint) {}

    fn give_way<R: Wait>(&self, _rt: &R, _dest: DestId, most: usize) -> usize {
        let _before = self.calls.fetch_add(1, Ordering::SeqCst);
        self.naps.min(most)
    }
}

/// Offers a datapoint to destination 0, and returns how often the door has given way by then.
fn calls_after_offer<B: Set, R: Wait>(
    door: &mut LockedDoor<'_, B, R, Waits>,
    gate: &Waits,
    point: &Arc<Point>,
) -> Option<u64> {
    if door.dests() == 0 || door.offer(0, DestId(0), point).is_err() {
        return None;
    }
    Some(gate.calls())
}

/// Takes from destination 0, at most so many datapoints.
fn take<B: Set, R: Wait>(
    alloc: Global,
    outlet: &mut Outlet<'_, '_, '_, B, R, Waits>,
    limit: usize,
) -> Option<usize>
    requires { 1 ≤ limit }
{
    let mut hand = Hand::new(alloc, limit).ok()?;
    if !outlet.owns(DestId(0)) {
        return None;
    }
    Some(outlet.take(DestId(0), limit, &mut hand))
}

/// How often a door has given way after offers before any take, after three into a filling queue that a take has emptied, after
/// one behind a take that left something, and after one behind another take that emptied the queue. It holds four datapoints, and
/// is filling from one on.
fn calls_with<B: Set, R: Wait>(
    rt: &R,
    alloc: Global,
    blank: BlankTotals,
    gate: &Waits,
) -> Option<[u64; 6]>
    requires table { blank ≡ B.table }
    requires set { (1 ≡ B.name) × (1 ≡ B.dests) × (1 ≡ B.receivers) × (1 ≡ B.senders)
        × (4 ≡ B.size) }
{
    let Opened {
        queues,
        doors,
        outlets,
    } = Queues::<B>::new(alloc, blank, 1, 1, 4, 1, 1).ok()?;
    let shared = point(alloc, "a.b")?;
    let mut door = LockedDoor::new(rt, &queues, doors.into_iter().next()?, gate);
    let mut outlet = Outlet::new(rt, &queues, outlets.into_iter().next()?, gate);
    let _first = calls_after_offer(&mut door, gate, &shared)?;
    let before_takes = calls_after_offer(&mut door, gate, &shared)?;
    let _all = take(alloc, &mut outlet, 5)?;
    let _first = calls_after_offer(&mut door, gate, &shared)?;
    let second = calls_after_offer(&mut door, gate, &shared)?;
    let third = calls_after_offer(&mut door, gate, &shared)?;
    let fourth = calls_after_offer(&mut door, gate, &shared)?;
    let _one = take(alloc, &mut outlet, 1)?;
    let behind_a_take = calls_after_offer(&mut door, gate, &shared)?;
    let _all = take(alloc, &mut outlet, 5)?;
    let _first = calls_after_offer(&mut door, gate, &shared)?;
    let behind_the_last = calls_after_offer(&mut door, gate, &shared)?;
    drop((door, outlet));
    drop(queues);
    Some([
        before_takes,
        second,
        third,
        fourth,
        behind_a_take,
        behind_the_last,
    ])
}

#[test]
fn a_wait_in_vain_is_the_only_one(rt: HostRuntime) -> Result<(), Fail> {
    let blank = BlankTotals::new(rt.alloc())?;
    let gate = Waits::of(1_000);
    assert!(rt; calls_with::<Brand, _>(&rt, rt.alloc(), blank, &gate) == Some([0, 1, 1, 1, 1, 2]));
    Ok(())
}

#[test]
fn a_door_waits_for_sixty_naps(rt: HostRuntime) -> Result<(), Fail> {
    let blank = BlankTotals::new(rt.alloc())?;
    let gate = Waits::of(25);
    assert!(rt; calls_with::<Brand, _>(&rt, rt.alloc(), blank, &gate) == Some([0, 1, 2, 3, 3, 4]));
    Ok(())
}
