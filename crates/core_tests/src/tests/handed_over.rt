//! What a run hands to the next one: a stream with bytes that come first, and the rest of a destination, over streams that take
//! little, block and fail.

use crate::tests::writer_lines::{TEXT, queue_of};
use dest_queue::{Hand, QueuedPoints};
use dest_writer::{GatherBuf, Writer};
use handover::{FirstBytes, Rest, RestConnection, RestTurn};
use std::alloc::Global;
use std::io::Read;
use test_doubles::{FaultyStep, FaultyWriter};

/// The limit of a batch: a hand of three lines.
const LIMIT: usize = 3;

/// How many turns a rest may take here at most.
const MOST_TURNS: usize = 100;

// All that a stream gives, in reads of at most three bytes.
fn all_of<S: Read>(alloc: Global, stream: &mut S) -> Option<Vec<u8>> {
    let mut all = Vec::new(alloc);
    let mut room = [0u8; 3];
    for _ in 0..MOST_TURNS {
        let count = stream.read(&mut room).ok()?;
        if count == 0 {
            return Some(all);
        }
        all.extend_from_slice(&room[..count.min(3)]).ok()?;
    }
    None
}

// Whether a stream with bytes before it gives these, and then its own.
fn gives_both(alloc: Global) -> bool {
    let mut first = Vec::new(alloc);
    if first.extend_from_slice(b"a.b 4").is_err() {
        return false;
    }
    let mut stream = FirstBytes::new(alloc, first, b"2 1700000000\n".as_slice());
    match all_of(alloc, &mut stream) {
        Some(all) => all.as_slice() == b"a.b 42 1700000000\n".as_slice() && !stream.has_bytes(),
        None => false,
    }
}

#[test]
fn bytes_come_first(rt: HostRuntime) {
    assert!(rt; gives_both(rt.alloc()));
}

// A connection takes at most five bytes a write, and after each of the first three it would have to wait.
const SLOW: [FaultyStep; 6] = [
    FaultyStep::Pass(5),
    FaultyStep::Block,
    FaultyStep::Pass(5),
    FaultyStep::Block,
    FaultyStep::Pass(5),
    FaultyStep::Block,
];

// It takes one byte, would have to wait, and fails.
const CUT: [FaultyStep; 3] = [FaultyStep::Pass(1), FaultyStep::Block, FaultyStep::Fail];

fn stream_by(alloc: Global, steps: &'static [FaultyStep]) -> FaultyWriter<'static> {
    FaultyWriter::new(Vec::new(alloc), steps)
}

// Three lines in hand, of which the connection took eight bytes, and the three behind them.
fn rest_of(alloc: Global) -> Option<RestConnection<FaultyWriter<'static>>> {
    let Ok(mut writer) = Writer::new(alloc, LIMIT) else {
        return None;
    };
    let Ok(mut hand) = Hand::new(alloc, LIMIT) else {
        drop(writer);
        return None;
    };
    let mut lines = points_of(alloc)?;
    writer.up().ok()?;
    if !writer.wants_batch() {
        return None;
    }
    let _taken = lines.take(LIMIT, &mut hand);
    writer.fill(&mut hand);
    writer.wrote(8).ok()?;
    let rest = Rest::new(LIMIT, writer, hand, points_of(alloc)?);
    Some(RestConnection::new(rest))
}

// Three lines that a queue held.
fn points_of(alloc: Global) -> Option<QueuedPoints> {
    let (points, ended) = queue_of(alloc, 3)?.into_parts();
    drop(ended);
    Some(points)
}

// The connection that took all of a rest, if one did.
fn sent(
    alloc: Global,
    rest: &mut RestConnection<FaultyWriter<'static>>,
) -> Option<FaultyWriter<'static>> {
    let mut gathered = GatherBuf::new(alloc).ok()?;
    for _ in 0..MOST_TURNS {
        match rest.send(&mut gathered) {
            RestTurn::Over(sink) => return Some(sink),
            RestTurn::Lost => {
                rest.lose();
                return None;
            }
            RestTurn::Kept => rest.note_ready(),
        }
    }
    None
}

// Whether a stream got this part of the hand's text, and then the queue's.
fn got(stream: &FaultyWriter<'_>, from: usize) -> bool {
    let Some(part) = TEXT.get(from..) else {
        return false;
    };
    match stream.taken().strip_prefix(part) {
        Some(queue) => queue == TEXT,
        None => false,
    }
}

// Whether the connection goes on within the line that it had begun.
fn goes_on_at_its_byte(alloc: Global) -> bool {
    let Some(mut rest) = rest_of(alloc) else {
        return false;
    };
    rest.go_on(stream_by(alloc, &SLOW));
    match sent(alloc, &mut rest) {
        Some(stream) => got(&stream, 8) && rest.rest().is_empty(),
        None => false,
    }
}

#[test]
fn a_rest_goes_on_at_its_byte(rt: HostRuntime) {
    assert!(rt; goes_on_at_its_byte(rt.alloc()));
}

// Whether another connection gets the line that was cut whole.
fn begins_at_a_line(alloc: Global) -> bool {
    let Some(mut rest) = rest_of(alloc) else {
        return false;
    };
    rest.go_on(stream_by(alloc, &CUT));
    if sent(alloc, &mut rest).is_some() || rest.is_open() {
        return false;
    }
    rest.begin(stream_by(alloc, &SLOW));
    match sent(alloc, &mut rest) {
        Some(stream) => got(&stream, 6),
        None => false,
    }
}

#[test]
fn a_rest_goes_on_at_a_line_after_a_loss(rt: HostRuntime) {
    assert!(rt; begins_at_a_line(rt.alloc()));
}
