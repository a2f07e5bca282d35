//! Rows of `queue_records`.

use crate::marks::{CALLS, RowAnswer, begin, end, is_made, print_answer, print_point, print_state};
use crate::queues::point_of;
use dest_queue::DestQueue;
use locked_queues::{Door, DoorBook, ListDoor, OutletBook};
use relay_base::DestId;
use std::alloc::Global;
use test_doubles::FaultyDoor;

pub(crate) const NAMES: &[&str] = &["DoorBook::new", "OutletBook::new", "DoorBook::offer_under"];

/// Rows that are refused no growth.
pub(crate) const WORKED: &[&str] = &["a door that refuses its second offer"];

pub(crate) fn run(rt: &HostRuntime, alloc: Global, name: &str) -> Option<()> {
    match name {
        "DoorBook::new" => new_door_book(rt, alloc),
        "OutletBook::new" => new_outlet_book(rt, alloc),
        "DoorBook::offer_under" => offer_under(rt, alloc),
        "a door that refuses its second offer" => offer_to_faulty(rt, alloc),
        _ => None,
    }
}

fn new_door_book(rt: &HostRuntime, alloc: Global) -> Option<()> {
    for _ in 0..CALLS {
        begin(rt);
        let answer = DoorBook::new(alloc, 1, 0);
        end(rt);
        if is_made(rt, answer) {
            return Some(());
        }
    }
    None
}

impl RowAnswer for DoorBook {
    fn print(&mut self, rt: &HostRuntime) {
        print_answer(rt, &self.made().len());
    }
}

fn new_outlet_book(rt: &HostRuntime, alloc: Global) -> Option<()> {
    for _ in 0..CALLS {
        begin(rt);
        let answer = OutletBook::new(alloc, 1);
        end(rt);
        if is_made(rt, answer) {
            return Some(());
        }
    }
    None
}

impl RowAnswer for OutletBook {
    fn print(&mut self, rt: &HostRuntime) {
        print_answer(rt, &self.takes().len());
    }
}

/// What is offered to the one queue, and as whose: reader 0 is receiver 0's first, and 1,024 is receiver 1's.
pub(crate) struct Offer {
    pub(crate) reader: usize,
    pub(crate) line: &'static [u8],
}

/// The offers of receiver 0, and one of a reader that is not its own.
pub(crate) static OFFERS: [Offer; 3] = [
    Offer {
        reader: 0,
        line: b"a.1 1 5",
    },
    Offer {
        reader: 0,
        line: b"a.2 2 5",
    },
    Offer {
        reader: 1_024,
        line: b"a.3 3 5",
    },
];

/// Makes each offer through a book of its own, to a queue of its own.
fn offer_under(rt: &HostRuntime, alloc: Global) -> Option<()> {
    for offer in &OFFERS {
        let mut queue = DestQueue::new(alloc, 10, 2_048).ok()?;
        let offered = offer_point(rt, alloc, &mut queue, offer);
        print_state(rt, &queue.counts());
        drop(queue);
        offered?;
    }
    Some(())
}

// The call needs no memory, so it is made once.
fn offer_point(
    rt: &HostRuntime,
    alloc: Global,
    queue: &mut DestQueue,
    offer: &Offer,
) -> Option<()> {
    let point = point_of(alloc, offer.line)?;
    let mut book = DoorBook::new(alloc, 1, 0).ok()?;
    begin(rt);
    let answer = book.offer_under(queue, offer.reader, DestId(0), &point);
    end(rt);
    print_answer(rt, &answer);
    print_made(rt, book.made());
    drop(book);
    Some(())
}

/// Prints offers on record: the reader, the destination, the number, the answer, and the line.
pub(crate) fn print_made(rt: &HostRuntime, made: &[locked_queues::Made]) {
    for one in made {
        let _ = println!(rt;
            "state {} {:?} {} {:?}",
            one.reader, one.dest, one.number, one.kept
        );
        print_point(rt, "state", &one.point);
    }
}

/// A door in memory that refuses its second offer.
fn offer_to_faulty(rt: &HostRuntime, alloc: Global) -> Option<()> {
    let door = ListDoor::new(alloc, 1, 10, 0).ok()?;
    let mut door = FaultyDoor::new(door, 2);
    let offered = offer_thrice(rt, alloc, &mut door);
    print_made(rt, door.door().made());
    drop(door);
    offered
}

fn offer_thrice(rt: &HostRuntime, alloc: Global, door: &mut FaultyDoor) -> Option<()> {
    for line in &[b"a 1 2", b"b 1 2", b"c 1 2"] {
        if door.door().dests() == 0 {
            return None;
        }
        let answer = door.offer(0, DestId(0), &point_of(alloc, *line)?);
        print_answer(rt, &answer);
    }
    Some(())
}
