//! The row of `admin_report`.

use crate::marks::{CALLS, begin, end, is_answered, print_text};
use admin_report::report;
use conf_text::Dest;
use dest_queue::Counts;
use std::alloc::Global;

pub(crate) const NAMES: &[&str] = &["report"];

pub(crate) fn run(rt: &HostRuntime, alloc: Global, name: &str) -> Option<()> {
    match name {
        "report" => append(rt, alloc),
        _ => None,
    }
}

/// One datapoint of two kept, and taken.
const FIRST: Counts = Counts {
    offered: 2,
    kept: 1,
    dropped: 1,
    taken: 1,
    queued: 0,
    seals: 0,
};

/// One datapoint of three kept, and queued.
const SECOND: Counts = Counts {
    offered: 3,
    kept: 1,
    dropped: 2,
    taken: 0,
    queued: 1,
    seals: 0,
};

fn append(rt: &HostRuntime, alloc: Global) -> Option<()> {
    let mut out = Vec::from_slice(alloc, b"before\n").ok()?;
    let first = Dest::read(alloc, "127.0.0.1:3001").ok()?;
    let lines = [
        (first, FIRST),
        (Dest::read(alloc, "127.0.0.1:3002").ok()?, SECOND),
    ];
    let appended = append_lines(rt, alloc, &lines, &mut out);
    drop(lines);
    appended
}

// The report is appended to what is there.
fn append_lines(
    rt: &HostRuntime,
    alloc: Global,
    lines: &[(Dest, Counts)],
    out: &mut Vec<u8>,
) -> Option<()> {
    for _ in 0..CALLS {
        print_text(rt, "state", out);
        begin(rt);
        let answer = report(alloc, lines, out);
        end(rt);
        if is_answered(rt, answer) {
            print_text(rt, "state", out);
            return Some(());
        }
    }
    None
}
