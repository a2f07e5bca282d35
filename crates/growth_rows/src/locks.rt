//! Rows of `locked_queues`: one queue of ten, two receivers and one sender.

ghost use Rattle.std.specs.Prelude.{◌≡◌};

use crate::books::{OFFERS, print_made};
use crate::marks::{
    CALLS, RowAnswer, begin, end, is_made, print_answer, print_points, print_state,
};
use crate::queues::point_of;
use dest_queue::Hand;
use locked_queues::{
    BlankTotals, Door, DoorRecord, DoorSeat, LockedDoor, OpenGate, Opened, Outlet, OutletRecord,
    OutletSeat, Queues, Set, SettleFault, Settled, Supply,
};
use relay_base::DestId;
use std::alloc::Global;
use std::marker::Brand;
use std::sync::Wait;

pub(crate) const NAMES: &[&str] = &["Queues::new", "LockedDoor::offer", "Queues::settle"];

pub(crate) fn run<R: Wait>(rt: &HostRuntime, waits: &R, alloc: Global, name: &str) -> Option<()> {
    match name {
        "Queues::new" => open_twice(rt, alloc),
        "LockedDoor::offer" => open_and(rt, waits, alloc, Act::Offer),
        "Queues::settle" => open_and(rt, waits, alloc, Act::Settle),
        _ => None,
    }
}

// The call takes the totals, so it is made again with new ones.
fn open_twice(rt: &HostRuntime, alloc: Global) -> Option<()> {
    if is_opened_once(rt, alloc)? || is_opened_once(rt, alloc)? {
        Some(())
    } else {
        None
    }
}

fn is_opened_once(rt: &HostRuntime, alloc: Global) -> Option<bool> {
    let blank = BlankTotals::new(alloc).ok()?;
    Some(is_opened::<Brand>(rt, alloc, blank))
}

/// Opens the queue. Returns whether it was not refused.
fn is_opened<B: Set>(rt: &HostRuntime, alloc: Global, blank: BlankTotals) -> bool
    requires table { blank ≡ B.table }
    requires set { (1 ≡ B.name) × (1 ≡ B.dests) × (2 ≡ B.receivers) × (1 ≡ B.senders)
        × (10 ≡ B.size) }
{
    begin(rt);
    let answer = Queues::<B>::new(alloc, blank, 1, 1, 10, 2, 1);
    end(rt);
    is_made(rt, answer)
}

/// Prints how many doors and outlets were opened.
impl<B: Set> RowAnswer for Opened<B> {
    fn print(&mut self, rt: &HostRuntime) {
        let _ = println!(rt; "answer {} {}", self.doors.len(), self.outlets.len());
    }
}

/// The queue.
fn open<B: Set>(alloc: Global, blank: BlankTotals) -> Option<Opened<B>>
    requires table { blank ≡ B.table }
    requires set { (1 ≡ B.name) × (1 ≡ B.dests) × (2 ≡ B.receivers) × (1 ≡ B.senders)
        × (10 ≡ B.size) }
{
    Queues::<B>::new(alloc, blank, 1, 1, 10, 2, 1).ok()
}

/// What is done with the queue once it is open.
#[derive(Clone, Copy)]
enum Act {
    Offer,
    Settle,
}

fn open_and<R: Wait>(rt: &HostRuntime, waits: &R, alloc: Global, act: Act) -> Option<()> {
    let blank = BlankTotals::new(alloc).ok()?;
    act_on_set::<Brand, R>(rt, waits, alloc, blank, act)
}

fn act_on_set<B: Set, R: Wait>(
    rt: &HostRuntime,
    waits: &R,
    alloc: Global,
    blank: BlankTotals,
    act: Act,
) -> Option<()>
    requires table { blank ≡ B.table }
    requires set { (1 ≡ B.name) × (1 ≡ B.dests) × (2 ≡ B.receivers) × (1 ≡ B.senders)
        × (10 ≡ B.size) }
{
    let mut opened = open::<B>(alloc, blank)?;
    let done = match act {
        Act::Offer => offer(rt, waits, alloc, &mut opened),
        Act::Settle => settle(rt, waits, alloc, &mut opened),
    };
    drop(opened);
    done
}

/// Makes the offers, and prints what the queue has counted then.
fn offer<B: Set, R: Wait>(
    rt: &HostRuntime,
    waits: &R,
    alloc: Global,
    opened: &mut Opened<B>,
) -> Option<()>
    requires { 1 ≡ B.dests }
{
    let offered = offer_at_seat(rt, waits, alloc, &opened.queues, &mut opened.doors);
    print_state(rt, &opened.queues.counts(waits, DestId(0)));
    offered
}

/// Makes the offers through the door of receiver 0.
fn offer_at_seat<B: Set, R: Wait>(
    rt: &HostRuntime,
    waits: &R,
    alloc: Global,
    queues: &Queues<B>,
    seats: &mut Vec<DoorSeat<B>>,
) -> Option<()> {
    let _last = seats.pop()?;
    let mut door = LockedDoor::new(waits, queues, seats.pop()?, &OpenGate);
    let offered = offer_through(rt, alloc, &mut door);
    print_made(rt, door.made());
    drop(door);
    offered
}

// The call needs no memory, so it is made once.
fn offer_through<B: Set, R: Wait>(
    rt: &HostRuntime,
    alloc: Global,
    door: &mut LockedDoor<'_, B, R, OpenGate>,
) -> Option<()> {
    for offer in &OFFERS {
        let point = point_of(alloc, offer.line)?;
        if door.dests() == 0 {
            return None;
        }
        begin(rt);
        let answer = door.offer(offer.reader, DestId(0), &point);
        end(rt);
        print_answer(rt, &answer);
    }
    Some(())
}

fn settle<B: Set, R: Wait>(
    rt: &HostRuntime,
    waits: &R,
    alloc: Global,
    opened: &mut Opened<B>,
) -> Option<()> {
    let second = door_record(waits, alloc, &opened.queues, &mut opened.doors, 1_024)?;
    let first = door_record(waits, alloc, &opened.queues, &mut opened.doors, 0)?;
    let doors = [first, second];
    let settled = settle_with(rt, waits, alloc, opened, &doors);
    drop(doors);
    settled
}

fn settle_with<B: Set, R: Wait>(
    rt: &HostRuntime,
    waits: &R,
    alloc: Global,
    opened: &mut Opened<B>,
    doors: &[DoorRecord],
) -> Option<()> {
    let outlets = [outlet_record(rt, waits, alloc, &opened.queues, &mut opened.outlets)?];
    let settled = settle_by(rt, alloc, &mut opened.queues, doors, &outlets);
    drop(outlets);
    settled
}

/// What the door of the last seat recorded, after the offers of this reader.
fn door_record<B: Set, R: Wait>(
    waits: &R,
    alloc: Global,
    queues: &Queues<B>,
    seats: &mut Vec<DoorSeat<B>>,
    reader: usize,
) -> Option<DoorRecord> {
    let mut door = LockedDoor::new(waits, queues, seats.pop()?, &OpenGate);
    for offer in &OFFERS {
        if offer.reader == reader && !is_offered(alloc, &mut door, reader, offer.line) {
            drop(door);
            return None;
        }
    }
    Some(door.close())
}

/// Whether an offer is answered.
fn is_offered<B: Set, R: Wait>(
    alloc: Global,
    door: &mut LockedDoor<'_, B, R, OpenGate>,
    reader: usize,
    line: &[u8],
) -> bool {
    match point_of(alloc, line) {
        Some(point) => door.dests() > 0 && door.offer(reader, DestId(0), &point).is_ok(),
        None => false,
    }
}

/// How many datapoints a batch has at most.
const LIMIT: usize = 500;

/// What the outlet of the last seat recorded, of one take.
fn outlet_record<B: Set, R: Wait>(
    rt: &HostRuntime,
    waits: &R,
    alloc: Global,
    queues: &Queues<B>,
    seats: &mut Vec<OutletSeat<B>>,
) -> Option<OutletRecord> {
    let mut hand = Hand::new(alloc, LIMIT).ok()?;
    let mut outlet = Outlet::new(waits, queues, seats.pop()?, &OpenGate);
    if outlet.owns(DestId(0)) {
        outlet.take(DestId(0), LIMIT, &mut hand);
    }
    print_points(rt, hand.points());
    drop(hand);
    Some(outlet.close())
}

fn settle_by<B: Set>(
    rt: &HostRuntime,
    alloc: Global,
    queues: &mut Queues<B>,
    doors: &[DoorRecord],
    outlets: &[OutletRecord],
) -> Option<()> {
    for _ in 0..CALLS {
        begin(rt);
        let answer = queues.settle(alloc, doors, outlets);
        end(rt);
        if is_settled(rt, answer) {
            return Some(());
        }
    }
    None
}

/// Prints how a set settled. Returns whether memory sufficed.
fn is_settled(rt: &HostRuntime, answer: Result<Settled, SettleFault>) -> bool {
    match answer {
        Ok(settled) => {
            let steps = settled.histories.first().map_or(0, |steps| steps.len());
            let _ = println!(rt;
                "answer {:?} {steps} {}",
                settled.counts,
                settled.order.len()
            );
            true
        }
        Err(fault) => {
            print_answer(rt, &fault);
            !matches!(fault, SettleFault::NoMemory)
        }
    }
}
