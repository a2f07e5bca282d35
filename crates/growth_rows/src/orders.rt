//! The row of `common_orders`.

use crate::marks::{CALLS, begin, end, print_answer, print_state};
use common_orders::{OrderFault, common_order};
use std::alloc::Global;

pub(crate) const NAMES: &[&str] = &["common_order"];

pub(crate) fn run(rt: &HostRuntime, alloc: Global, name: &str) -> Option<()> {
    match name {
        "common_order" => orders(rt, alloc),
        _ => None,
    }
}

/// Lists with an order, lists that go in a circle, a list that repeats a number, and no list.
static LISTS: [&[&[u64]]; 4] = [
    &[&[1, 2], &[3, 4], &[1, 4], &[3, 2]],
    &[&[1, 2], &[3, 4], &[2, 3], &[4, 1]],
    &[&[1, 1]],
    &[],
];

fn lists_of(alloc: Global, lists: &[&[u64]]) -> Option<Vec<Vec<u64>>> {
    let mut copies = Vec::new(alloc);
    for list in lists {
        copies.push(Vec::from_slice(alloc, list).ok()?).ok()?;
    }
    Some(copies)
}

fn orders(rt: &HostRuntime, alloc: Global) -> Option<()> {
    for lists in &LISTS {
        order(rt, alloc, &lists_of(alloc, lists)?)?;
    }
    Some(())
}

fn order(rt: &HostRuntime, alloc: Global, lists: &[Vec<u64>]) -> Option<()> {
    for _ in 0..CALLS {
        print_state(rt, &lists);
        begin(rt);
        let answer = common_order(alloc, lists);
        end(rt);
        print_answer(rt, &answer);
        if !matches!(answer, Err(OrderFault::NoMemory)) {
            return Some(());
        }
    }
    None
}
