//! Sets of queues for the tests: what is done to them through doors and outlets, and what they report then.
ghost use Rattle.std.specs.Prelude.{◌≡◌, ◌≤◌};

use crate::tests::points::point;
use crate::tests::shapes::{Shape, open_set};
use dest_queue::{Counts, Hand, QueuedPoints};
use line_text::Point;
use locked_queues::{
    BlankTotals, Door, DoorRecord, DoorSeat, EndedSet, LockedDoor, OpenGate, Opened, Outlet,
    OutletRecord, OutletSeat, Queues, READERS_EACH, Set, SettleFault, Settled, Supply,
};
use relay_base::DestId;
use std::alloc::Global;
use std::marker::Brand;
use std::sync::{Arc, Wait};

/// What is done to a set.
pub(crate) enum Act {
    /// This many offers of a receiver's first reader to a destination, of a datapoint of this name.
    Offer(usize, usize, &'static str, u64),
    /// A take from a destination, with this limit.
    Take(usize, usize),
}

/// The records of all doors and outlets.
#[derive(Drop)]
pub(crate) struct Records {
    pub(crate) doors: Vec<DoorRecord>,
    pub(crate) outlets: Vec<OutletRecord>,
}

/// What a set reported.
#[derive(Drop)]
pub(crate) struct SetReport {
    pub(crate) records: Records,
    pub(crate) settled: Result<Settled, SettleFault>,
    /// What the first queue has counted after the settling.
    pub(crate) counts: Counts,
    pub(crate) seen: Observations,
    pub(crate) end: SetEnd,
}

/// What the queues of a set left at their end.
#[derive(Drop)]
pub(crate) struct SetEnd {
    /// What each had counted.
    pub(crate) counts: Vec<Counts>,
    /// The names of the datapoints that each held, one after another: the last destination first.
    pub(crate) left: Vec<String>,
    /// How they settle then.
    pub(crate) settled: Result<Settled, SettleFault>,
}

/// What was seen of a set while it was used.
#[derive(Drop)]
pub(crate) struct Observations {
    /// What every queue had counted at first, and after each act.
    pub(crate) counts: Vec<Vec<Counts>>,
    /// The names of the datapoints that the takes gave, one after another.
    pub(crate) taken: String,
}

/// Offers a datapoint this many times, and returns whether all offers were answered.
pub(crate) fn offer_all<B: Set, R: Wait>(
    door: &mut LockedDoor<'_, B, R, OpenGate>,
    reader: usize,
    dest: usize,
    point: &Arc<Point>,
    count: u64,
) -> bool {
    for _ in 0..count {
        if dest >= door.dests() || door.offer(reader, DestId(dest), point).is_err() {
            return false;
        }
    }
    true
}

/// Takes a batch, and notes the names of its datapoints.
fn take_some<B: Set, R: Wait>(
    alloc: Global,
    outlet: &mut Outlet<'_, '_, '_, B, R, OpenGate>,
    dest: usize,
    limit: usize,
    taken: &mut String,
) -> Option<()> {
    if limit == 0 || !outlet.owns(DestId(dest)) {
        return None;
    }
    let mut hand = Hand::new(alloc, limit).ok()?;
    outlet.take(DestId(dest), limit, &mut hand);
    let noted = note_names(hand.points(), taken);
    drop(hand);
    noted
}

fn note_names(points: &[Point], taken: &mut String) -> Option<()> {
    for point in points {
        taken.push_str(point.name.text()).ok()?;
    }
    Some(())
}

/// A door for each seat.
fn doors_of<'d, B: Set, R: Wait>(
    rt: &'d R,
    alloc: Global,
    queues: &'d Queues<B>,
    gate: &'d OpenGate,
    seats: Vec<DoorSeat<B>>,
) -> Option<Vec<LockedDoor<'d, B, R, OpenGate>>> {
    let mut doors = Vec::new(alloc);
    for seat in seats {
        doors.push(LockedDoor::new(rt, queues, seat, gate)).ok()?;
    }
    Some(doors)
}

/// An outlet for each seat.
fn outlets_of<'r, 'q, 'g, B: Set, R: Wait>(
    rt: &'r R,
    alloc: Global,
    queues: &'q Queues<B>,
    gate: &'g OpenGate,
    seats: Vec<OutletSeat<B>>,
) -> Option<Vec<Outlet<'r, 'q, 'g, B, R, OpenGate>>> {
    let mut outlets = Vec::new(alloc);
    for seat in seats {
        outlets.push(Outlet::new(rt, queues, seat, gate)).ok()?;
    }
    Some(outlets)
}

/// What doors and outlets recorded.
fn records_of<B: Set, R: Wait>(
    alloc: Global,
    doors: Vec<LockedDoor<'_, B, R, OpenGate>>,
    outlets: Vec<Outlet<'_, '_, '_, B, R, OpenGate>>,
) -> Option<Records> {
    let mut records = Records {
        doors: Vec::new(alloc),
        outlets: Vec::new(alloc),
    };
    let mut is_whole = true;
    for door in doors {
        is_whole = keep(&mut records.doors, Some(door.close())) && is_whole;
    }
    for outlet in outlets {
        is_whole = keep(&mut records.outlets, Some(outlet.close())) && is_whole;
    }
    is_whole.then_some(records)
}

/// Keeps a record, if there is one, and returns whether it could.
pub(crate) fn keep<T: Drop>(records: &mut Vec<T>, record: Option<T>) -> bool {
    match record {
        Some(record) => records.push(record).is_ok(),
        None => true,
    }
}

/// Offers as the first reader of a receiver, and returns whether all offers were answered.
fn offer_as<B: Set, R: Wait>(
    alloc: Global,
    doors: &mut Vec<LockedDoor<'_, B, R, OpenGate>>,
    receiver: usize,
    dest: usize,
    name: &str,
    count: u64,
) -> Option<bool> {
    let door = doors.get_mut(receiver)?;
    let reader = READERS_EACH.saturating_mul(receiver);
    let point = point(alloc, name)?;
    Some(offer_all(door, reader, dest, &point, count))
}

/// Takes from a destination by the outlet of its sender.
fn take_from<B: Set, R: Wait>(
    alloc: Global,
    outlets: &mut Vec<Outlet<'_, '_, '_, B, R, OpenGate>>,
    dest: usize,
    limit: usize,
    taken: &mut String,
) -> Option<()> {
    let sender = dest.checked_rem(outlets.len())?;
    take_some(alloc, outlets.get_mut(sender)?, dest, limit, taken)
}

/// Does one thing to a set, and returns whether it could.
fn do_one<B: Set, R: Wait>(
    alloc: Global,
    doors: &mut Vec<LockedDoor<'_, B, R, OpenGate>>,
    outlets: &mut Vec<Outlet<'_, '_, '_, B, R, OpenGate>>,
    act: &Act,
    taken: &mut String,
) -> bool {
    match *act {
        Act::Offer(receiver, dest, name, count) => {
            offer_as(alloc, doors, receiver, dest, name, count) == Some(true)
        }
        Act::Take(dest, limit) => take_from(alloc, outlets, dest, limit, taken).is_some(),
    }
}

/// Notes what every queue has counted.
fn note_counts<B: Set, R: Wait>(
    rt: &R,
    alloc: Global,
    queues: &Queues<B>,
    dests: usize,
    seen: &mut Observations,
) -> Option<()>
    requires { dests ≡ B.dests }
{
    let mut counts = Vec::new(alloc);
    for dest in 0..dests {
        counts.push(queues.counts(rt, DestId(dest))).ok()?;
    }
    seen.counts.push(counts).ok()
}

/// Does all of this to a set, in order, and notes what every queue has counted at first, and after each.
fn do_each<B: Set, R: Wait>(
    rt: &R,
    alloc: Global,
    queues: &Queues<B>,
    doors: &mut Vec<LockedDoor<'_, B, R, OpenGate>>,
    outlets: &mut Vec<Outlet<'_, '_, '_, B, R, OpenGate>>,
    acts: &[Act],
    dests: usize,
    seen: &mut Observations,
) -> Option<()>
    requires { dests ≡ B.dests }
{
    note_counts(rt, alloc, queues, dests, seen)?;
    for one in acts {
        if !do_one(alloc, doors, outlets, one, &mut seen.taken) {
            return None;
        }
        note_counts(rt, alloc, queues, dests, seen)?;
    }
    Some(())
}

/// Does all of this through a door and an outlet for each seat, and returns what they recorded.
fn do_all<B: Set, R: Wait>(
    rt: &R,
    alloc: Global,
    queues: &Queues<B>,
    seats: Vec<DoorSeat<B>>,
    outlet_seats: Vec<OutletSeat<B>>,
    acts: &[Act],
    dests: usize,
    seen: &mut Observations,
) -> Option<Records>
    requires { dests ≡ B.dests }
{
    let gate = OpenGate;
    let mut doors = doors_of(rt, alloc, queues, &gate, seats)?;
    let mut outlets = outlets_of(rt, alloc, queues, &gate, outlet_seats)?;
    do_each(
        rt,
        alloc,
        queues,
        &mut doors,
        &mut outlets,
        acts,
        dests,
        seen,
    )?;
    records_of(alloc, doors, outlets)
}

/// Ends the queues, and settles them with these records then.
fn end_set<B: Set>(alloc: Global, queues: Queues<B>, records: &Records) -> Option<SetEnd> {
    let room = queues.end_room(alloc).ok()?;
    let mut ended = queues.end(room);
    let noted = note_end(alloc, &mut ended);
    let settled = ended.settle(alloc, records.doors.as_slice(), records.outlets.as_slice());
    let (counts, left) = noted?;
    Some(SetEnd {
        counts,
        left,
        settled,
    })
}

/// What each queue had counted, and the names of the datapoints that each held, the last destination first.
fn note_end(alloc: Global, ended: &mut EndedSet) -> Option<(Vec<Counts>, Vec<String>)> {
    let mut counts = Vec::new(alloc);
    counts.extend_from_slice(ended.counts()).ok()?;
    let mut left = Vec::new(alloc);
    for _ in 0..counts.len() {
        let points = ended.take_points()?;
        left.push(names_of(alloc, points)?).ok()?;
    }
    Some((counts, left))
}

/// The names of datapoints that were queued, one after another.
fn names_of(alloc: Global, points: QueuedPoints) -> Option<String> {
    let mut points = points;
    let mut names = String::new(alloc);
    let count = points.len();
    let mut hand = Hand::new(alloc, count).ok()?;
    points.take(count, &mut hand);
    let noted = note_names(hand.points(), &mut names);
    drop((points, hand));
    noted?;
    Some(names)
}

/// Does all of this to a set and settles it, with its own records or with those of another, before its end and then.
fn report_of<B: Set, R: Wait>(
    rt: &R,
    alloc: Global,
    mut queues: Queues<B>,
    seats: Vec<DoorSeat<B>>,
    outlet_seats: Vec<OutletSeat<B>>,
    acts: &[Act],
    dests: usize,
    others: Option<&Records>,
) -> Option<SetReport>
    requires { (dests ≡ B.dests) × (1 ≤ dests) }
{
    let mut seen = Observations {
        counts: Vec::new(alloc),
        taken: String::new(alloc),
    };
    let records = do_all(
        rt,
        alloc,
        &queues,
        seats,
        outlet_seats,
        acts,
        dests,
        &mut seen,
    )?;
    let compared = others.unwrap_or(&records);
    let settled = queues.settle(
        alloc,
        compared.doors.as_slice(),
        compared.outlets.as_slice(),
    );
    let counts = queues.counts(rt, DestId(0));
    let end = end_set(alloc, queues, compared)?;
    Some(SetReport {
        records,
        settled,
        counts,
        seen,
        end,
    })
}

/// Opens a set, and does so to it.
pub(crate) fn settle_set<B: Set, R: Wait>(
    rt: &R,
    alloc: Global,
    blank: BlankTotals,
    shape: Shape,
    acts: &[Act],
    others: Option<&Records>,
) -> Option<SetReport>
    requires table { blank ≡ B.table }
    requires set { (shape.name ≡ B.name) × (shape.dests ≡ B.dests)
        × (shape.receivers ≡ B.receivers) × (shape.senders ≡ B.senders)
        × (shape.size ≡ B.size) }
{
    if shape.dests == 0 {
        return None;
    }
    let Opened {
        queues,
        doors,
        outlets,
    } = open_set::<B>(alloc, blank, shape)?;
    report_of(rt, alloc, queues, doors, outlets, acts, shape.dests, others)
}

/// What a set reports after all of this.
pub(crate) fn set_of<R: Wait>(
    rt: &R,
    alloc: Global,
    shape: Shape,
    acts: &[Act],
    others: Option<&Records>,
) -> Option<SetReport> {
    let blank = BlankTotals::new(alloc).ok()?;
    settle_set::<Brand, R>(rt, alloc, blank, shape, acts, others)
}
