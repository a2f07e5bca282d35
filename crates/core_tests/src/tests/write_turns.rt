//! Turns of a write loop over memory: whose turn it is, and what goes out.

use crate::tests::sinks::{Sink, got, wire_of};
use crate::tests::supplies::{supply_of, with_line};
use mio_loops::{WriteLoop, WriteReport};
use queue_records::{ListSupply, Supply};
use relay_base::DestId;
use std::alloc::Global;
use std::cell::RefCell;
use std::io::Write;
use test_doubles::{FaultyStep, FaultyWriter};

pub(crate) const DEST: DestId = DestId(0);

/// A turn of a loop of one destination, which the supply owns; `None` if there is another one.
pub(crate) fn turn<W: Write + Drop>(
    writes: &mut WriteLoop<W>,
    ready: &[DestId],
    supply: &mut ListSupply,
) -> Option<WriteReport> {
    if writes.dests() != 1 || !supply.owns(DEST) {
        return None;
    }
    Some(writes.turn(ready, supply))
}

/// Which destinations are ready before a turn, and what it does.
struct Due {
    ready: &'static [DestId],
    served: usize,
    /// What the connection got then.
    taken: &'static [u8],
}

// A connection takes three bytes and then would block: the rest waits until it is ready.
const FIRST: [Due; 3] = [
    Due {
        ready: &[DEST],
        served: 1,
        taken: b"a 1",
    },
    Due {
        ready: &[],
        served: 0,
        taken: b"a 1",
    },
    Due {
        ready: &[DEST],
        served: 1,
        taken: b"a 1 2\n",
    },
];

// Once the destination is idle it is in the again list, so that a later line goes out without readiness.
const LATER: [Due; 1] = [Due {
    ready: &[],
    served: 1,
    taken: b"a 1 2\nb 3 4\n",
}];

/// Whether each turn does that.
fn are_served(
    writes: &mut WriteLoop<Sink<'_, '_>>,
    supply: &mut ListSupply,
    wire: &RefCell<FaultyWriter<'_>>,
    turns: &[Due],
) -> bool {
    for due in turns {
        let report = WriteReport {
            served: due.served,
            failed: 0,
        };
        if turn(writes, due.ready, supply) != Some(report) || !got(wire, due.taken) {
            return false;
        }
    }
    true
}

/// Whether a line goes out by those turns, and a later one by that one.
fn are_lines_served(
    alloc: Global,
    writes: &mut WriteLoop<Sink<'_, '_>>,
    wire: &RefCell<FaultyWriter<'_>>,
) -> Option<bool> {
    let mut supply = with_line(alloc, supply_of(alloc)?, 0, b"a 1 2")?;
    let is_first = are_served(writes, &mut supply, wire, &FIRST);
    let mut supply = with_line(alloc, supply, 1, b"b 3 4")?;
    let is_second = are_served(writes, &mut supply, wire, &LATER);
    drop(supply);
    Some(is_first && is_second)
}

fn is_served_when_due(alloc: Global, wire: &RefCell<FaultyWriter<'_>>) -> Option<bool> {
    let mut writes = WriteLoop::new(alloc, 1, 500).ok()?;
    let is_served = writes.attach(DEST, Sink { wire }).is_ok()
        && are_lines_served(alloc, &mut writes, wire) == Some(true);
    drop(writes);
    Some(is_served)
}

#[test]
fn a_connection_is_served_when_it_is_due(rt: HostRuntime) {
    let wire = wire_of(rt.alloc(), &[FaultyStep::Pass(3), FaultyStep::Block]);
    assert!(rt; is_served_when_due(rt.alloc(), &wire) == Some(true));
}
