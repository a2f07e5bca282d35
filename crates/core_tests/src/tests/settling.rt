//! Settling: the worked examples of queues and records that agree, and of those that do not; and what queues leave at their end.

use crate::tests::sets::{Act, Records, SetReport, set_of};
use crate::tests::shapes::Shape;
use dest_queue::Counts;
use locked_queues::{SettleFault, Settled, StepMaker};
use relay_base::DestId;
use std::alloc::Global;
use std::sync::Wait;

const ONE: Shape = Shape {
    name: 5,
    dests: 1,
    size: 10,
    receivers: 1,
    senders: 1,
};

const TWO: Shape = Shape {
    name: 5,
    dests: 2,
    size: 10,
    receivers: 2,
    senders: 1,
};

// What a set should say: that it settles with these counts of destination 0, or a fault. A sealed history comes with
// the counts of all queues, of which these are destination 0's.
enum Want {
    Settles(Counts, usize),
    Sealed(usize, Counts),
    Totals(usize),
    Differs(usize, StepMaker, usize),
    NoOrder,
    Strangers,
}

struct Case {
    shape: Shape,
    acts: &'static [Act],
    // What was done to the set whose records are taken, if it is another.
    others: Option<(Shape, &'static [Act])>,
    want: Want,
}

static CASES: [Case; 13] = [
    Case {
        // Nothing was done.
        shape: TWO,
        acts: &[],
        others: None,
        want: Want::Settles(
            Counts {
                offered: 0,
                kept: 0,
                dropped: 0,
                taken: 0,
                queued: 0,
                seals: 0,
            },
            0,
        ),
    },
    Case {
        // A full record and a full history.
        shape: ONE,
        acts: &[Act::Offer(0, 0, "a.b", 65_536)],
        others: None,
        want: Want::Settles(
            Counts {
                offered: 65_536,
                kept: 10,
                dropped: 65_526,
                taken: 0,
                queued: 10,
                seals: 0,
            },
            65_536,
        ),
    },
    Case {
        // One more offer.
        shape: ONE,
        acts: &[Act::Offer(0, 0, "a.b", 65_537)],
        others: None,
        want: Want::Sealed(
            0,
            Counts {
                offered: 65_537,
                kept: 10,
                dropped: 65_527,
                taken: 0,
                queued: 10,
                seals: 1,
            },
        ),
    },
    Case {
        // One more offer than two histories have.
        shape: ONE,
        acts: &[Act::Offer(0, 0, "a.b", 131_073)],
        others: None,
        want: Want::Sealed(
            0,
            Counts {
                offered: 131_073,
                kept: 10,
                dropped: 131_063,
                taken: 0,
                queued: 10,
                seals: 2,
            },
        ),
    },
    Case {
        // Offers left out of a record, with no history sealed.
        shape: TWO,
        acts: &[
            Act::Offer(0, 0, "a.b", 60_000),
            Act::Offer(0, 1, "a.b", 6_000),
        ],
        others: None,
        want: Want::Sealed(
            1,
            Counts {
                offered: 60_000,
                kept: 10,
                dropped: 59_990,
                taken: 0,
                queued: 10,
                seals: 0,
            },
        ),
    },
    Case {
        // Offers and takes of two doors at two queues.
        shape: TWO,
        acts: &[
            Act::Offer(0, 0, "a", 7),
            Act::Offer(1, 0, "b", 7),
            Act::Take(0, 3),
            Act::Offer(1, 1, "b", 2),
            Act::Take(1, 5),
            Act::Take(0, 50),
        ],
        others: None,
        want: Want::Settles(
            Counts {
                offered: 14,
                kept: 10,
                dropped: 4,
                taken: 10,
                queued: 0,
                seals: 0,
            },
            19,
        ),
    },
    Case {
        // Records of another set that did the same.
        shape: ONE,
        acts: &[Act::Offer(0, 0, "a", 1)],
        others: Some((ONE, &[Act::Offer(0, 0, "a", 1)])),
        want: Want::Settles(
            Counts {
                offered: 1,
                kept: 1,
                dropped: 0,
                taken: 0,
                queued: 1,
                seals: 0,
            },
            1,
        ),
    },
    Case {
        // Records of another datapoint.
        shape: ONE,
        acts: &[Act::Offer(0, 0, "a", 1)],
        others: Some((ONE, &[Act::Offer(0, 0, "b", 1)])),
        want: Want::Differs(0, StepMaker::Reader(0), 0),
    },
    Case {
        // Records of another datapoint at the second queue, and of a take with another limit.
        shape: TWO,
        acts: &[
            Act::Offer(1, 1, "a", 1),
            Act::Offer(1, 1, "c", 1),
            Act::Take(1, 5),
        ],
        others: Some((
            TWO,
            &[
                Act::Offer(1, 1, "a", 1),
                Act::Offer(1, 1, "b", 1),
                Act::Take(1, 6),
            ],
        )),
        want: Want::Differs(1, StepMaker::Reader(1_024), 1),
    },
    Case {
        // Records of a take with another limit.
        shape: ONE,
        acts: &[Act::Offer(0, 0, "a", 1), Act::Take(0, 5)],
        others: Some((ONE, &[Act::Offer(0, 0, "a", 1), Act::Take(0, 6)])),
        want: Want::Differs(0, StepMaker::Sender, 0),
    },
    Case {
        // Records with no offer.
        shape: ONE,
        acts: &[Act::Offer(0, 0, "a", 1)],
        others: Some((ONE, &[])),
        want: Want::Totals(0),
    },
    Case {
        // Records of offers that crossed in another way.
        shape: TWO,
        acts: &[
            Act::Offer(0, 0, "x0", 1),
            Act::Offer(1, 0, "y0", 1),
            Act::Offer(1, 1, "y1", 1),
            Act::Offer(0, 1, "x1", 1),
        ],
        others: Some((
            TWO,
            &[
                Act::Offer(0, 1, "x1", 1),
                Act::Offer(0, 0, "x0", 1),
                Act::Offer(1, 0, "y0", 1),
                Act::Offer(1, 1, "y1", 1),
            ],
        )),
        want: Want::NoOrder,
    },
    Case {
        // Records of a set of another name.
        shape: ONE,
        acts: &[],
        others: Some((
            Shape {
                name: 6,
                dests: 1,
                size: 10,
                receivers: 1,
                senders: 1,
            },
            &[],
        )),
        want: Want::Strangers,
    },
];

// Whether a set reports what the case wants, before its end and then.
fn is_report(reported: &SetReport, case: &Case) -> bool {
    is_settled_so(&reported.settled, reported, case)
        && is_settled_so(&reported.end.settled, reported, case)
        && reported.end.counts.len() == case.shape.dests
}

// Whether a set settles as the case wants.
fn is_settled_so(
    settled: &Result<Settled, SettleFault>,
    reported: &SetReport,
    case: &Case,
) -> bool {
    match (settled, &case.want) {
        (Ok(settled), Want::Settles(counts, steps)) => {
            settled.order.len() == *steps
                && has_counted(reported, settled.counts.as_slice(), counts)
        }
        (Err(SettleFault::Sealed { dest, counts }), Want::Sealed(want, first)) => {
            *dest == DestId(*want)
                && counts.len() == case.shape.dests
                && has_counted(reported, counts.as_slice(), first)
        }
        (Err(fault), want) => is_fault(fault, want),
        _ => false,
    }
}

// Whether that is what the first queue has counted, by the settling and at its end too.
fn has_counted(reported: &SetReport, counts: &[Counts], want: &Counts) -> bool {
    reported.counts == *want
        && counts.first() == Some(want)
        && reported.end.counts.first() == Some(want)
}

// Whether a fault that has no counts is the one that the case wants.
fn is_fault(fault: &SettleFault, want: &Want) -> bool {
    match (fault, want) {
        (SettleFault::Totals { dest }, Want::Totals(want)) => *dest == DestId(*want),
        (SettleFault::Differs { dest, whose, place }, Want::Differs(at, of, number)) => {
            *dest == DestId(*at) && *whose == *of && *place == *number
        }
        (SettleFault::NoOrder, Want::NoOrder) => true,
        (SettleFault::Strangers, Want::Strangers) => true,
        _ => false,
    }
}

// Whether the set of a case, with its own records or with these, reports what the case wants.
fn reports_so<R: Wait>(
    rt: &R,
    alloc: Global,
    case: &Case,
    others: Option<&Records>,
) -> Option<bool> {
    let reported = set_of(rt, alloc, case.shape, case.acts, others)?;
    let is_so = is_report(&reported, case);
    drop(reported);
    Some(is_so)
}

fn is_wanted<R: Wait>(rt: &R, alloc: Global, case: &Case) -> Option<bool> {
    let Some((shape, acts)) = case.others else {
        return reports_so(rt, alloc, case, None);
    };
    let others = set_of(rt, alloc, shape, acts, None)?;
    let is_so = reports_so(rt, alloc, case, Some(&others.records));
    drop(others);
    is_so
}

#[test]
fn settles_after_a_run(rt: HostRuntime) {
    let mut all = true;
    for case in &CASES {
        all = all && is_wanted(&rt, rt.alloc(), case) == Some(true);
    }
    assert!(rt; all);
}

// What leaves the oldest of `a` and then nine of `d` in the first queue, whose history is sealed, and `b` and `c` in the second.
static LEAVING: [Act; 6] = [
    Act::Offer(0, 0, "a", 3),
    Act::Offer(0, 1, "b", 2),
    Act::Offer(1, 1, "c", 1),
    Act::Take(0, 2),
    Act::Offer(1, 0, "d", 65_536),
    Act::Take(1, 1),
];

// Whether queues leave what each held, the oldest first, the last queue first.
fn leaves_what_it_held<R: Wait>(rt: &R, alloc: Global) -> Option<bool> {
    let reported = set_of(rt, alloc, TWO, &LEAVING, None)?;
    let left = reported.end.left.as_slice();
    let is_left = match left {
        [second, first] => second.as_str() == "bc" && first.as_str() == "addddddddd",
        _ => false,
    };
    drop(reported);
    Some(is_left)
}

#[test]
fn queues_leave_what_they_held(rt: HostRuntime) {
    assert!(rt; leaves_what_it_held(&rt, rt.alloc()) == Some(true));
}
