//! Writers with lines in hand, for the tests.

ghost use Rattle.std.specs.Prelude.{◌≡◌, true, IfSome};

use crate::tests::points::point_of_line;
use dest_queue::{DestQueue, Hand};
use dest_writer::Writer;
use std::alloc::Global;

/// Lines of six bytes each.
pub static LINES: [&[u8]; 3] = [b"a 1 2", b"b 3 4", b"c 5 6"];

/// Their text.
pub const TEXT: &[u8] = b"a 1 2\nb 3 4\nc 5 6\n";

/// The most lines of a writer.
const MOST_LINES: usize = 1_000;

/// A writer with a connection and `count` lines in hand, at most 1,000: these, repeated. `None` if there is no memory.
pub fn writer_of(alloc: Global, count: usize) -> Option<Writer>
    ensures { IfSome result (λ writer. writer.writer.up ≡ true) }
{
    let mut hand = hand_of(alloc, count)?;
    let writer = writer_with(alloc, &mut hand);
    drop(hand);
    writer
}

/// A writer with a connection, and what is in a hand.
fn writer_with(alloc: Global, hand: &mut Hand) -> Option<Writer>
    ensures { IfSome result (λ writer. writer.writer.up ≡ true) }
{
    let mut writer = Writer::new(alloc, MOST_LINES).ok()?;
    if writer.up().is_err() || !writer.wants_batch() || hand.len() > MOST_LINES {
        drop(writer);
        return None;
    }
    writer.fill(hand);
    Some(writer)
}

/// A hand with `count` lines.
fn hand_of(alloc: Global, count: usize) -> Option<Hand> {
    let mut queue = queue_of(alloc, count)?;
    let hand = hand_from(alloc, &mut queue);
    drop(queue);
    hand
}

/// A queue with `count` lines, at most 1,000. `None` if there is no memory.
pub fn queue_of(alloc: Global, count: usize) -> Option<DestQueue> {
    let mut queue = DestQueue::new(alloc, MOST_LINES, 1).ok()?;
    if offer_lines(alloc, &mut queue, count).is_none() {
        drop(queue);
        return None;
    }
    Some(queue)
}

fn hand_from(alloc: Global, queue: &mut DestQueue) -> Option<Hand> {
    let mut hand = Hand::new(alloc, MOST_LINES).ok()?;
    queue.take(MOST_LINES, &mut hand);
    Some(hand)
}

/// Offers `count` lines to a queue.
fn offer_lines(alloc: Global, queue: &mut DestQueue, count: usize) -> Option<()> {
    for number in 0..count {
        offer_line(alloc, queue, number)?;
    }
    Some(())
}

/// Offers a line to a queue as the reader's offer of this number.
fn offer_line(alloc: Global, queue: &mut DestQueue, number: usize) -> Option<()> {
    let point = point_of_line(alloc, LINES[number % LINES.len()])?;
    queue.offer(0, number as u64, &point).ok()?;
    Some(())
}
