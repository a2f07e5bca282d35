//! What every queue reports: its own steps, and what it has counted at each moment; and what its takes give.

use crate::tests::sets::{Act, SetReport, set_of};
use crate::tests::shapes::Shape;
use dest_queue::{Counts, Kept, Step};
use std::alloc::Global;
use std::sync::Wait;

const SHAPE: Shape = Shape {
    name: 9,
    dests: 3,
    size: 2,
    receivers: 2,
    senders: 2,
};

// The second receiver comes first, so that records put one after the other are not the history.
const ACTS: [Act; 10] = [
    Act::Offer(1, 0, "b0", 1),
    Act::Offer(0, 0, "a0", 1),
    Act::Take(0, 1),
    Act::Offer(1, 0, "b1", 2),
    Act::Offer(1, 1, "c", 1),
    Act::Take(1, 7),
    Act::Take(1, 3),
    Act::Offer(0, 2, "d", 3),
    Act::Take(2, 2),
    Act::Take(0, 5),
];

// What each queue has counted at first and after each act: offered, kept, taken.
static COUNTS: [[[u64; 3]; 3]; 11] = [
    [[0, 0, 0], [0, 0, 0], [0, 0, 0]],
    [[1, 1, 0], [0, 0, 0], [0, 0, 0]],
    [[2, 2, 0], [0, 0, 0], [0, 0, 0]],
    [[2, 2, 1], [0, 0, 0], [0, 0, 0]],
    [[4, 3, 1], [0, 0, 0], [0, 0, 0]],
    [[4, 3, 1], [1, 1, 0], [0, 0, 0]],
    [[4, 3, 1], [1, 1, 1], [0, 0, 0]],
    [[4, 3, 1], [1, 1, 1], [0, 0, 0]],
    [[4, 3, 1], [1, 1, 1], [3, 2, 0]],
    [[4, 3, 1], [1, 1, 1], [3, 2, 2]],
    [[4, 3, 3], [1, 1, 1], [3, 2, 2]],
];

// A step of a history.
enum Want {
    // The reader, its number at the queue, the datapoint's name, and whether it was kept.
    Offer(u16, u64, &'static str, bool),
    // The limit, and how many datapoints were taken.
    Take(usize, usize),
}

static HISTORIES: [&[Want]; 3] = [
    &[
        Want::Offer(1_024, 0, "b0", true),
        Want::Offer(0, 0, "a0", true),
        Want::Take(1, 1),
        Want::Offer(1_024, 1, "b1", true),
        Want::Offer(1_024, 2, "b1", false),
        Want::Take(5, 2),
    ],
    &[Want::Offer(1_024, 0, "c", true), Want::Take(7, 1)],
    &[
        Want::Offer(0, 0, "d", true),
        Want::Offer(0, 1, "d", true),
        Want::Offer(0, 2, "d", false),
        Want::Take(2, 2),
    ],
];

fn are_counts(counts: &Counts, want: &[u64; 3]) -> bool {
    let [offered, kept, taken] = *want;
    counts.offered == offered
        && counts.kept == kept
        && counts.dropped == offered.saturating_sub(kept)
        && counts.taken == taken
        && counts.queued == kept.saturating_sub(taken)
        && counts.seals == 0
}

// Whether each queue has counted this.
fn are_all_counts(counts: &[Counts], want: &[[u64; 3]]) -> bool {
    for (one, want) in counts.iter().zip(want.iter()) {
        if !are_counts(one, want) {
            return false;
        }
    }
    counts.len() == want.len()
}

fn is_step(step: &Step, want: &Want) -> bool {
    match (step, want) {
        (
            Step::Offer {
                reader,
                number,
                point,
                kept,
            },
            Want::Offer(of, count, name, is_kept),
        ) => {
            *reader == *of
                && *number == *count
                && point.name.text() == *name
                && (*kept == Kept::Queued) == *is_kept
        }
        (Step::Take { limit, taken }, Want::Take(most, count)) => {
            *limit == *most && *taken == *count
        }
        _ => false,
    }
}

fn is_history(steps: &[Step], want: &[Want]) -> bool {
    for (step, want) in steps.iter().zip(want.iter()) {
        if !is_step(step, want) {
            return false;
        }
    }
    steps.len() == want.len()
}

fn reported_of<R: Wait>(rt: &R, alloc: Global) -> Option<SetReport> {
    set_of(rt, alloc, SHAPE, &ACTS, None)
}

// Whether the counts that were seen are these, at first and after each act.
fn were_seen(reported: &SetReport) -> bool {
    for (counts, want) in reported.seen.counts.iter().zip(COUNTS.iter()) {
        if !are_all_counts(counts.as_slice(), want) {
            return false;
        }
    }
    reported.seen.counts.len() == COUNTS.len()
}

#[test]
fn counts_are_recent(rt: HostRuntime) {
    let reported = reported_of(&rt, rt.alloc());
    let are_recent = reported.as_ref().is_some_and(were_seen);
    drop(reported);
    assert!(rt; are_recent);
}

// The datapoints of all takes, by their names.
const TAKEN: &str = "b0cdda0b1";

// Whether a set with this report settles, with those histories, and its takes gave those datapoints.
fn are_histories(reported: &SetReport) -> bool {
    let Ok(settled) = &reported.settled else {
        return false;
    };
    for (steps, want) in settled.histories.iter().zip(HISTORIES.iter()) {
        if !is_history(steps.as_slice(), want) {
            return false;
        }
    }
    settled.histories.len() == HISTORIES.len() && reported.seen.taken.as_str() == TAKEN
}

#[test]
fn histories_are_the_queues_own(rt: HostRuntime) {
    let reported = reported_of(&rt, rt.alloc());
    let are_own = reported.as_ref().is_some_and(are_histories);
    drop(reported);
    assert!(rt; are_own);
}
