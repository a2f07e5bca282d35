//! Rows of `dest_queue` and `dest_writer`.

ghost use Rattle.std.specs.Prelude.{◌≡◌, ◌≤◌, length};

use crate::marks::{
    CALLS, RowAnswer, begin, end, is_made, print_answer, print_points, print_state,
};
use dest_queue::{DestQueue, Hand};
use dest_writer::Writer;
use line_text::{Moment, Point};
use std::alloc::Global;
use std::sync::Arc;

pub(crate) const NAMES: &[&str] = &[
    "DestQueue::new",
    "DestQueue::offer",
    "Hand::new",
    "Writer::new",
];

pub(crate) fn run(rt: &HostRuntime, alloc: Global, name: &str) -> Option<()> {
    match name {
        "DestQueue::new" => new_queue(rt, alloc),
        "DestQueue::offer" => offer_all(rt, alloc),
        "Hand::new" => new_hand(rt, alloc),
        "Writer::new" => new_writer(rt, alloc),
        _ => None,
    }
}

fn new_queue(rt: &HostRuntime, alloc: Global) -> Option<()> {
    for _ in 0..CALLS {
        begin(rt);
        let answer = DestQueue::new(alloc, 2, 1);
        end(rt);
        if is_made(rt, answer) {
            return Some(());
        }
    }
    None
}

impl RowAnswer for DestQueue {
    fn print(&mut self, rt: &HostRuntime) {
        print_answer(rt, &self.counts());
    }
}

/// The datapoint of a line.
pub(crate) fn point_of(alloc: Global, line: &[u8]) -> Option<Arc<Point>> {
    let point = Point::read_line(alloc, line, Moment::new(0)?).ok()??;
    Arc::new(alloc, point).ok()
}

/// What is done to a queue.
enum QueueStep {
    /// An offer of a reader, with its number, of a line.
    Offer(usize, u64, &'static [u8]),
    /// A take with a limit.
    Take(usize),
}

/// The steps of a queue of two with one reader.
static QUEUE_STEPS: [QueueStep; 9] = [
    QueueStep::Offer(0, 0, b"p1 1 5"),
    QueueStep::Offer(0, 1, b"p2 2 5"),
    QueueStep::Offer(0, 2, b"p3 3 5"),
    QueueStep::Take(1),
    QueueStep::Offer(0, 3, b"p4 4 5"),
    QueueStep::Take(5),
    QueueStep::Offer(0, 9, b"p5 5 5"),
    QueueStep::Offer(1, 0, b"p5 5 5"),
    QueueStep::Take(5),
];

fn offer_all(rt: &HostRuntime, alloc: Global) -> Option<()> {
    let mut queue = DestQueue::new(alloc, 2, 1).ok()?;
    let done = take_steps(rt, alloc, &mut queue);
    print_state(rt, &queue.counts());
    print_state(rt, &queue.history().len());
    drop(queue);
    done
}

fn take_steps(rt: &HostRuntime, alloc: Global, queue: &mut DestQueue) -> Option<()> {
    for step in &QUEUE_STEPS {
        match step {
            QueueStep::Offer(reader, number, line) => {
                offer(rt, queue, *reader, *number, &point_of(alloc, line)?);
            }
            QueueStep::Take(limit) => take(rt, alloc, queue, *limit)?,
        }
    }
    Some(())
}

// The call needs no memory, so it is made once.
fn offer(rt: &HostRuntime, queue: &mut DestQueue, reader: usize, number: u64, point: &Arc<Point>) {
    begin(rt);
    let answer = queue.offer(reader, number, point);
    end(rt);
    print_answer(rt, &answer);
}

/// How many datapoints a take hands over at most.
const MOST_TAKEN: usize = 5;

fn take(rt: &HostRuntime, alloc: Global, queue: &mut DestQueue, limit: usize) -> Option<()> {
    let mut hand = Hand::new(alloc, MOST_TAKEN).ok()?;
    let count = queue.take(limit.max(1).min(MOST_TAKEN), &mut hand);
    print_answer(rt, &count);
    print_points(rt, hand.points());
    drop(hand);
    Some(())
}

fn new_hand(rt: &HostRuntime, alloc: Global) -> Option<()> {
    for _ in 0..CALLS {
        begin(rt);
        let answer = Hand::new(alloc, 2);
        end(rt);
        if is_made(rt, answer) {
            return Some(());
        }
    }
    None
}

impl RowAnswer for Hand {
    fn print(&mut self, rt: &HostRuntime) {
        print_answer(rt, &self.room());
    }
}

fn new_writer(rt: &HostRuntime, alloc: Global) -> Option<()> {
    for _ in 0..CALLS {
        begin(rt);
        let answer = Writer::new(alloc, 2);
        end(rt);
        if is_made(rt, answer) {
            return Some(());
        }
    }
    None
}

impl RowAnswer for Writer {
    fn print(&mut self, rt: &HostRuntime) {
        let _ = println!(rt; "answer {} {}", self.is_up(), self.left());
    }
}
