//! Connections whose reads block, are interrupted and fail: what was read is offered, whatever comes next.

use crate::tests::servings::Serving;
use mio_loops::{MOST_READS, Served};
use std::alloc::Global;
use test_doubles::{FaultyReader, FaultyStep};

/// Seventeen lines, whose names are a letter each.
const LINES: &[u8] =
    b"a 1 2\nb 1 2\nc 1 2\nd 1 2\ne 1 2\nf 1 2\ng 1 2\nh 1 2\ni 1 2\nj 1 2\nk 1 2\nl 1 2\nm 1 2\nn 1 2\no 1 2\np 1 2\nq 1 2\n";

const NAMES: &str = "abcdefghijklmnopq";

/// How many reads there are, one of which is faulty, before those that block.
const READS: usize = 18;

const LINE: FaultyStep = FaultyStep::Pass(6);

const BLOCK: FaultyStep = FaultyStep::Block;

static STEPS: [FaultyStep; 24] = [
    LINE, LINE, LINE, LINE, LINE, LINE, LINE, LINE, LINE, LINE, LINE, LINE, LINE, LINE, LINE, LINE,
    LINE, LINE, BLOCK, BLOCK, BLOCK, BLOCK, BLOCK, BLOCK,
];

/// A read for each line, and among them one that is faulty.
fn steps_of(at: usize, fault: FaultyStep) -> [FaultyStep; 24] {
    let mut steps = STEPS;
    if at < steps.len() {
        steps[at] = fault;
    }
    steps
}

/// How the first turn is answered if this read is faulty: one after the sixteenth is not met.
fn first_answer(at: usize, fault: FaultyStep) -> Served {
    match fault {
        FaultyStep::Block if at < MOST_READS => Served::Drained,
        FaultyStep::Fail if at < MOST_READS => Served::Failed,
        _ => Served::Again,
    }
}

/// How many lines the first turn reads if this read is faulty.
fn first_lines(at: usize, fault: FaultyStep) -> usize {
    match fault {
        FaultyStep::Interrupt if at < MOST_READS => MOST_READS - 1,
        FaultyStep::Block | FaultyStep::Fail => at.min(MOST_READS),
        _ => MOST_READS,
    }
}

/// Whether one of three turns fails.
fn fails_later(serving: &mut Serving<FaultyReader<'_>>) -> bool {
    for _ in 0..3 {
        if serving.serve() == Some(Served::Failed) {
            return true;
        }
    }
    false
}

/// Whether the first turn offers what it read, and all turns together offer all lines, or those before the read that
/// fails.
fn offers_all(
    serving: &mut Serving<FaultyReader<'_>>,
    at: usize,
    fault: FaultyStep,
) -> Option<bool> {
    let first = serving.serve();
    let is_begun = first == Some(first_answer(at, fault))
        && serving.has_offered(NAMES.get(..first_lines(at, fault))?);
    let has_failed = first == Some(Served::Failed) || fails_later(serving);
    let fails = fault == FaultyStep::Fail;
    let names = if fails { NAMES.get(..at)? } else { NAMES };
    let is_left = has_failed == fails && serving.is_held() != fails;
    Some(is_begun && is_left && serving.has_offered(names))
}

fn is_offered(alloc: Global, at: usize, fault: FaultyStep) -> Option<bool> {
    let steps = steps_of(at, fault);
    let mut serving = Serving::new(alloc, FaultyReader::new(LINES, &steps), 0)?;
    let is_offered = offers_all(&mut serving, at, fault);
    drop(serving);
    is_offered
}

/// Whether that holds of each read.
fn is_each_offered(alloc: Global, fault: FaultyStep) -> bool {
    for at in 0..READS {
        if is_offered(alloc, at, fault) != Some(true) {
            return false;
        }
    }
    true
}

#[test]
fn each_read_blocks_in_turn(rt: HostRuntime) {
    assert!(rt; is_each_offered(rt.alloc(), FaultyStep::Block));
}

#[test]
fn each_read_is_interrupted_in_turn(rt: HostRuntime) {
    assert!(rt; is_each_offered(rt.alloc(), FaultyStep::Interrupt));
}

#[test]
fn each_read_fails_in_turn(rt: HostRuntime) {
    assert!(rt; is_each_offered(rt.alloc(), FaultyStep::Fail));
}

/// A connection that gives a line and a begun one and then fails, before or between which a read may be faulty.
struct Cut {
    steps: &'static [FaultyStep],
    first: Served,
    second: Option<Served>,
    names: &'static str,
}

const WHOLE: FaultyStep = FaultyStep::Pass(7);

const FAIL: FaultyStep = FaultyStep::Fail;

const INTERRUPT: FaultyStep = FaultyStep::Interrupt;

static CUTS: [Cut; 6] = [
    Cut {
        steps: &[WHOLE, FAIL],
        first: Served::Failed,
        second: None,
        names: "a",
    },
    Cut {
        steps: &[WHOLE, BLOCK, FAIL],
        first: Served::Drained,
        second: Some(Served::Failed),
        names: "a",
    },
    Cut {
        steps: &[WHOLE, INTERRUPT, FAIL],
        first: Served::Failed,
        second: None,
        names: "a",
    },
    Cut {
        steps: &[BLOCK, WHOLE, FAIL],
        first: Served::Drained,
        second: Some(Served::Failed),
        names: "a",
    },
    Cut {
        steps: &[INTERRUPT, WHOLE, FAIL],
        first: Served::Failed,
        second: None,
        names: "a",
    },
    Cut {
        steps: &[FAIL, WHOLE, FAIL],
        first: Served::Failed,
        second: None,
        names: "",
    },
];

/// Whether the line is offered, and not the begun one, and the connection leaves.
fn is_cut(alloc: Global, cut: &Cut) -> Option<bool> {
    let mut serving = Serving::new(alloc, FaultyReader::new(b"a 1 2\nb", cut.steps), 0)?;
    let first = serving.serve() == Some(cut.first);
    let second = serving.serve() == cut.second;
    let is_left = !serving.is_held() && serving.has_offered(cut.names);
    drop(serving);
    Some(first && second && is_left)
}

fn are_cut(alloc: Global) -> bool {
    for cut in &CUTS {
        if is_cut(alloc, cut) != Some(true) {
            return false;
        }
    }
    true
}

#[test]
fn a_connection_that_fails_leaves(rt: HostRuntime) {
    assert!(rt; are_cut(rt.alloc()));
}

static INTERRUPTS: [FaultyStep; 48] = [INTERRUPT; 48];

// Whether three turns read nothing, and leave the connection for the next.
fn reads_nothing(serving: &mut Serving<FaultyReader<'_>>) -> bool {
    for _ in 0..3 {
        let answer = serving.serve();
        if answer != Some(Served::Again) || !serving.has_again() || serving.offers() != 0 {
            return false;
        }
    }
    true
}

// The reads of three turns are interrupted, and then the line is read.
fn is_only_interrupted(alloc: Global) -> Option<bool> {
    let mut serving = Serving::new(alloc, FaultyReader::new(b"a 1 2\n", &INTERRUPTS), 0)?;
    let is_read = reads_nothing(&mut serving)
        && serving.serve() == Some(Served::Ended)
        && serving.has_offered("a");
    drop(serving);
    Some(is_read)
}

#[test]
fn a_connection_that_only_interrupts(rt: HostRuntime) {
    assert!(rt; is_only_interrupted(rt.alloc()) == Some(true));
}
