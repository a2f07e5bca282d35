//! What a queue holds in memory, which no clause says, by the number of owners of a datapoint; and its seals.

ghost use Rattle.std.specs.Prelude.{◌≤◌};

use crate::tests::points::point;
use dest_queue::{Counts, DestQueue, Hand, Kept, LARGEST_SIZE, MOST_STEPS, NoMemory, Step};
use line_text::Point;
use std::alloc::Global;
use std::sync::Arc;

#[test]
fn a_hand_too_large_for_memory(rt: HostRuntime) {
    assert!(rt; matches!(Hand::new(rt.alloc(), usize::MAX), Err(NoMemory)));
}

/// How many offers and takes of one datapoint each fill a history.
const HALF_A_HISTORY: usize = MOST_STEPS / 2;

/// A queue, a hand with room for one datapoint that takes from it, and two datapoints, which this owns too.
#[derive(Drop)]
struct Passing {
    point: Arc<Point>,
    other: Arc<Point>,
    hand: Hand,
    queue: DestQueue,
    // The number of the reader's next offer.
    next: u64,
}

impl Passing {
    // With a queue of this size.
    fn new(alloc: Global, size: usize) -> Option<Passing>
        requires { (1 ≤ size) × (size ≤ LARGEST_SIZE) }
    {
        Some(Passing {
            point: point(alloc, "a.b")?,
            other: point(alloc, "c.d")?,
            hand: Hand::new(alloc, 1).ok()?,
            queue: DestQueue::new(alloc, size, 1).ok()?,
            next: 0,
        })
    }

    // How many owners the name of the first datapoint has: one for each share of the datapoint.
    fn owners(&self) -> usize {
        Arc::strong_count(&self.point.name)
    }

    // Offers the first datapoint this many times.
    fn offer(&mut self, times: usize) -> Option<()> {
        offer_to(&mut self.queue, &mut self.next, &self.point, times)
    }

    // Offers the other datapoint this many times.
    fn offer_other(&mut self, times: usize) -> Option<()> {
        offer_to(&mut self.queue, &mut self.next, &self.other, times)
    }

    // Frees the datapoint in hand, and takes another one, if one is queued.
    fn take(&mut self) {
        self.hand.clear();
        if self.hand.room() >= 1 {
            self.queue.take(1, &mut self.hand);
        }
    }

    // The owners while it is queued, while another offer of it is dropped, in hand, and freed: the queue or the hand, the
    // history for each offer, and this.
    fn owners_on_the_way(&mut self) -> Option<[usize; 4]> {
        self.offer(1)?;
        let queued = self.owners();
        self.offer(1)?;
        let dropped = self.owners();
        self.take();
        let in_hand = self.owners();
        self.hand.clear();
        Some([queued, dropped, in_hand, self.owners()])
    }

    // Whether a queue that has sealed a history holds its datapoints, and frees them in takes that find nothing.
    fn is_freed_by_takes(&mut self) -> Option<bool> {
        for _ in 0..HALF_A_HISTORY + 1 {
            self.offer(1)?;
            self.take();
        }
        let held = self.owners();
        for _ in 0..100 {
            self.take();
        }
        Some(self.queue.counts().seals == 1 && held > 32_000 && self.owners() < 10)
    }

    // Whether a queue that has sealed a history of one datapoint frees it while others pass: not all at once, and all before
    // the next history is full.
    fn is_freed_as_others_pass(&mut self) -> Option<bool> {
        for _ in 0..HALF_A_HISTORY {
            self.offer(1)?;
            self.take();
        }
        let mut held = 0;
        for _ in 0..HALF_A_HISTORY {
            self.offer_other(1)?;
            self.take();
            held = held.max(self.owners());
        }
        Some(self.queue.counts().seals == 1 && held > 32_000 && self.owners() < 10)
    }

    // The owners of a datapoint that was dropped: while the history has it, and once the steps after the seal have freed it,
    // the last of which fills the next history.
    fn owners_once_dropped(&mut self) -> Option<[usize; 2]> {
        self.offer_other(1)?;
        self.offer(1)?;
        let before = self.owners();
        self.offer_other(MOST_STEPS * 2 - 2)?;
        Some([before, self.owners()])
    }

    // The owners of a datapoint that was dropped, queued and taken: before the queue starts anew, after it, and once it took
    // the reader's first offer again.
    fn owners_anew(&mut self) -> Option<[usize; 3]> {
        self.offer(2)?;
        self.take();
        self.hand.clear();
        self.offer(1)?;
        let before = self.owners();
        self.queue.restart();
        let after = self.owners();
        self.next = 0;
        self.offer(1)?;
        Some([before, after, self.owners()])
    }

    // Whether the queue, after 131,073 offers, has sealed two histories, and has the last offer alone in the third, which it
    // dropped. The base holds the first two, and is full, so one drop more leads from it to the queue.
    fn seals_twice(&mut self) -> Option<bool> {
        self.offer(MOST_STEPS * 2 + 1)?;
        let base = self.queue.base();
        let mut replayed = base.counts();
        replayed.offered = replayed.offered.saturating_add(1);
        replayed.dropped = replayed.dropped.saturating_add(1);
        Some(
            is_dropped_alone(self.queue.history(), 131_072)
                && base.next_numbers() == [131_072].as_slice()
                && base.counts() == FULL_BASE
                && base.len() == 2
                && is_named(base.point(0), "a.b")
                && is_named(base.point(1), "a.b")
                && replayed == self.queue.counts(),
        )
    }
}

// Offers a datapoint this many times, as the offers of reader 0 from `next` on.
fn offer_to(queue: &mut DestQueue, next: &mut u64, point: &Arc<Point>, times: usize) -> Option<()> {
    for _ in 0..times {
        queue.offer(0, *next, point).ok()?;
        *next = next.checked_add(1)?;
    }
    Some(())
}

// What a queue of size 2 has counted at its second seal, after that many offers.
const FULL_BASE: Counts = Counts {
    offered: 131_072,
    kept: 2,
    dropped: 131_070,
    taken: 0,
    queued: 2,
    seals: 2,
};

// Whether this is a datapoint of this name.
fn is_named(point: Option<&Point>, name: &str) -> bool {
    match point {
        Some(point) => point.name.text() == name,
        None => false,
    }
}

// Whether these steps are one offer with this number, which was dropped.
fn is_dropped_alone(steps: &[Step], want: u64) -> bool {
    match steps {
        [Step::Offer { number, kept, .. }] => *number == want && *kept == Kept::Dropped,
        _ => false,
    }
}

#[test]
fn a_datapoint_is_shared(rt: HostRuntime) {
    let Some(mut passing) = Passing::new(rt.alloc(), 1) else {
        panic!(rt; "out of memory");
    };
    let owners = passing.owners_on_the_way();
    drop(passing);
    assert!(rt; owners == Some([3, 4, 4, 3]));
}

#[test]
fn what_a_seal_left_is_freed_by_takes(rt: HostRuntime) {
    let Some(mut passing) = Passing::new(rt.alloc(), 1) else {
        panic!(rt; "out of memory");
    };
    let is_freed = passing.is_freed_by_takes();
    drop(passing);
    assert!(rt; is_freed == Some(true));
}

#[test]
fn what_a_seal_left_is_freed_as_others_pass(rt: HostRuntime) {
    let Some(mut passing) = Passing::new(rt.alloc(), 1) else {
        panic!(rt; "out of memory");
    };
    let is_freed = passing.is_freed_as_others_pass();
    drop(passing);
    assert!(rt; is_freed == Some(true));
}

#[test]
fn what_was_dropped_is_freed_after_a_seal(rt: HostRuntime) {
    let Some(mut passing) = Passing::new(rt.alloc(), 1) else {
        panic!(rt; "out of memory");
    };
    let owners = passing.owners_once_dropped();
    drop(passing);
    assert!(rt; owners == Some([2, 1]));
}

#[test]
fn a_queue_starts_anew(rt: HostRuntime) {
    let Some(mut passing) = Passing::new(rt.alloc(), 1) else {
        panic!(rt; "out of memory");
    };
    let owners = passing.owners_anew();
    drop(passing);
    assert!(rt; owners == Some([5, 1, 3]));
}

#[test]
fn a_queue_seals_twice(rt: HostRuntime) {
    let Some(mut passing) = Passing::new(rt.alloc(), 2) else {
        panic!(rt; "out of memory");
    };
    let seals = passing.seals_twice();
    drop(passing);
    assert!(rt; seals == Some(true));
}
