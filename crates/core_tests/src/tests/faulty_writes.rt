//! Connections whose writes block, are interrupted and fail: each line goes out whole, once.

use crate::tests::sinks::{Sink, got, wire_of};
use crate::tests::supplies::two_lines;
use crate::tests::write_turns::{DEST, turn};
use mio_loops::WriteLoop;
use queue_records::ListSupply;
use std::alloc::Global;
use std::cell::RefCell;
use std::io::Write;
use test_doubles::{FaultyStep, FaultyWriter};

const TEXT: &[u8] = b"a 1 2\nb 3 4\n";

/// A line in two writes with one between them that blocks, and a line in three writes.
const STEPS: [FaultyStep; 6] = [
    FaultyStep::Pass(3),
    FaultyStep::Block,
    FaultyStep::Pass(3),
    FaultyStep::Pass(2),
    FaultyStep::Pass(2),
    FaultyStep::Pass(2),
];

/// These writes, of which one is faulty.
fn steps_of(at: usize, fault: FaultyStep) -> [FaultyStep; 6] {
    let mut steps = STEPS;
    if at < steps.len() {
        steps[at] = fault;
    }
    steps
}

/// Makes six turns in which the destination is ready, and returns how many of them fail.
fn failures_of<W: Write + Drop>(writes: &mut WriteLoop<W>, supply: &mut ListSupply) -> usize {
    let mut failures: usize = 0;
    for _ in 0..6 {
        if let Some(report) = turn(writes, &[DEST], supply) {
            failures = failures.saturating_add(report.failed);
        }
    }
    failures
}

/// What two connections get, the second of which is attached if the first fails.
struct Gets {
    first: &'static [u8],
    second: &'static [u8],
}

/// What they get if this write fails: the second begins with the line that the first got in part.
static CUT: [Gets; 6] = [
    Gets {
        first: b"",
        second: TEXT,
    },
    Gets {
        first: b"a 1",
        second: TEXT,
    },
    Gets {
        first: b"a 1",
        second: TEXT,
    },
    Gets {
        first: b"a 1 2\n",
        second: b"b 3 4\n",
    },
    Gets {
        first: b"a 1 2\nb ",
        second: b"b 3 4\n",
    },
    Gets {
        first: b"a 1 2\nb 3 ",
        second: b"b 3 4\n",
    },
];

/// What they get if no write fails.
const UNCUT: Gets = Gets {
    first: TEXT,
    second: b"",
};

/// Whether a connection can be attached, and fails this often.
fn is_driven<'w, 's>(
    writes: &mut WriteLoop<Sink<'w, 's>>,
    supply: &mut ListSupply,
    wire: &'w RefCell<FaultyWriter<'s>>,
    failures: usize,
) -> bool {
    let is_attached = writes.attach(DEST, Sink { wire }).is_ok();
    is_attached && failures_of(writes, supply) == failures
}

/// Whether what this supply has goes out, in batches of a line, on a connection that fails this often, and only then on
/// another one.
fn are_sent<'w, 's>(
    alloc: Global,
    supply: &mut ListSupply,
    first: &'w RefCell<FaultyWriter<'s>>,
    second: &'w RefCell<FaultyWriter<'s>>,
    failures: usize,
) -> Option<bool> {
    let mut writes = WriteLoop::new(alloc, 1, 1).ok()?;
    let is_first = is_driven(&mut writes, supply, first, failures);
    let is_second = is_driven(&mut writes, supply, second, 0);
    drop(writes);
    Some(is_first && is_second == (failures == 1))
}

/// Whether two lines, a batch each, go out on a connection that fails this often, and only then on another one.
fn are_driven<'w, 's>(
    alloc: Global,
    first: &'w RefCell<FaultyWriter<'s>>,
    second: &'w RefCell<FaultyWriter<'s>>,
    failures: usize,
) -> Option<bool> {
    let mut supply = two_lines(alloc)?;
    let are_driven = are_sent(alloc, &mut supply, first, second, failures);
    drop(supply);
    are_driven
}

/// Whether two connections get that, and the first fails this often.
fn is_written(alloc: Global, steps: &[FaultyStep], failures: usize, gets: &Gets) -> bool {
    let first = wire_of(alloc, steps);
    let second = wire_of(alloc, &[]);
    are_driven(alloc, &first, &second, failures) == Some(true)
        && got(&first, gets.first)
        && got(&second, gets.second)
}

/// Whether both lines go out on one connection, whichever write is faulty.
fn is_each_written(alloc: Global, fault: FaultyStep) -> bool {
    for at in 0..STEPS.len() {
        if !is_written(alloc, &steps_of(at, fault), 0, &UNCUT) {
            return false;
        }
    }
    true
}

#[test]
fn each_write_blocks_in_turn(rt: HostRuntime) {
    assert!(rt; is_each_written(rt.alloc(), FaultyStep::Block));
}

#[test]
fn each_write_is_interrupted_in_turn(rt: HostRuntime) {
    assert!(rt; is_each_written(rt.alloc(), FaultyStep::Interrupt));
}

/// Whether the lines that the first connection did not get whole go out on the next, whichever write fails.
fn is_each_cut(alloc: Global) -> bool {
    for (at, gets) in CUT.iter().enumerate() {
        if !is_written(alloc, &steps_of(at, FaultyStep::Fail), 1, gets) {
            return false;
        }
    }
    true
}

#[test]
fn each_write_fails_in_turn(rt: HostRuntime) {
    assert!(rt; is_each_cut(rt.alloc()));
}
