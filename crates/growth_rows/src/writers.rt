//! The steps of a writer with two lines in hand, which need no memory.

use crate::marks::{print_answer, print_text};
use crate::queues::point_of;
use dest_queue::{DestQueue, Hand};
use dest_writer::Writer;
use std::alloc::Global;

/// Rows that are refused no growth.
pub(crate) const WORKED: &[&str] = &[
    "a connection lost in mid line",
    "a connection lost after a line",
    "a connection lost before its newline",
    "a writer that goes on in mid line",
];

pub(crate) fn run(rt: &HostRuntime, alloc: Global, name: &str) -> Option<()> {
    match name {
        "a connection lost in mid line" => write(rt, alloc, &LOST_IN_MID_LINE),
        "a connection lost after a line" => write(rt, alloc, &LOST_AFTER_A_LINE),
        "a connection lost before its newline" => write(rt, alloc, &LOST_BEFORE_ITS_NEWLINE),
        "a writer that goes on in mid line" => write(rt, alloc, &[WriterStep::Wrote(3)]),
        _ => None,
    }
}

/// What is done to a writer.
enum WriterStep {
    Up,
    Down,
    Wrote(usize),
}

static LOST_IN_MID_LINE: [WriterStep; 6] = [
    WriterStep::Wrote(8),
    WriterStep::Down,
    WriterStep::Up,
    WriterStep::Wrote(7),
    WriterStep::Wrote(6),
    WriterStep::Up,
];

static LOST_AFTER_A_LINE: [WriterStep; 6] = [
    WriterStep::Wrote(0),
    WriterStep::Wrote(6),
    WriterStep::Down,
    WriterStep::Down,
    WriterStep::Wrote(0),
    WriterStep::Up,
];

static LOST_BEFORE_ITS_NEWLINE: [WriterStep; 3] = [
    WriterStep::Wrote(5),
    WriterStep::Down,
    WriterStep::Up,
];

/// The most lines of a batch.
const LIMIT: usize = 2;

/// A hand with two lines.
fn hand_of(alloc: Global) -> Option<Hand> {
    let mut queue = DestQueue::new(alloc, LIMIT, 1).ok()?;
    let hand = hand_from(alloc, &mut queue);
    drop(queue);
    hand
}

fn hand_from(alloc: Global, queue: &mut DestQueue) -> Option<Hand> {
    queue.offer(0, 0, &point_of(alloc, b"a 1 2")?).ok()?;
    queue.offer(0, 1, &point_of(alloc, b"b 3 4")?).ok()?;
    let mut hand = Hand::new(alloc, LIMIT).ok()?;
    queue.take(LIMIT, &mut hand);
    Some(hand)
}

fn write(rt: &HostRuntime, alloc: Global, steps: &[WriterStep]) -> Option<()> {
    let mut hand = hand_of(alloc)?;
    let writer = writer_with(alloc, &mut hand);
    drop(hand);
    let mut writer = writer?;
    for step in steps {
        take_step(rt, &mut writer, step);
    }
    drop(writer);
    Some(())
}

/// A writer with a connection, and what is in a hand.
fn writer_with(alloc: Global, hand: &mut Hand) -> Option<Writer> {
    let mut writer = Writer::new(alloc, LIMIT).ok()?;
    if writer.up().is_err() || !writer.wants_batch() || hand.len() > LIMIT {
        drop(writer);
        return None;
    }
    writer.fill(hand);
    Some(writer)
}

/// Takes a step, and prints how it is answered, how many bytes are left, and what is left of the line.
fn take_step(rt: &HostRuntime, writer: &mut Writer, step: &WriterStep) {
    let answer = match step {
        WriterStep::Up => writer.up(),
        WriterStep::Down => writer.down(),
        WriterStep::Wrote(count) => writer.wrote(*count),
    };
    print_answer(rt, &answer);
    let _ = println!(rt; "state {} {}", writer.left(), writer.wants_batch());
    print_text(rt, "state", writer.next_bytes());
}
