//! A supply of one queue.

use crate::tests::points::point_of_line;
use dest_queue::DestQueue;
use queue_records::ListSupply;
use std::alloc::Global;

/// A supply of an empty queue; `None` if out of memory.
pub(crate) fn supply_of(alloc: Global) -> Option<ListSupply> {
    let mut queues = Vec::new(alloc);
    queues.push(DestQueue::new(alloc, 10, 1).ok()?).ok()?;
    supply_over(alloc, queues)
}

/// The supply with one more line in its queue, the reader's offer of this number.
pub(crate) fn with_line(
    alloc: Global,
    supply: ListSupply,
    number: u64,
    line: &[u8],
) -> Option<ListSupply> {
    let mut queues = supply.into_queues();
    let point = point_of_line(alloc, line)?;
    queues.first_mut()?.offer(0, number, &point).ok()?;
    supply_over(alloc, queues)
}

/// A supply of two lines.
pub(crate) fn two_lines(alloc: Global) -> Option<ListSupply> {
    let supply = with_line(alloc, supply_of(alloc)?, 0, b"a 1 2")?;
    with_line(alloc, supply, 1, b"b 3 4")
}

fn supply_over(alloc: Global, queues: Vec<DestQueue>) -> Option<ListSupply> {
    if queues.is_empty() || queues.len() > 64 {
        return None;
    }
    ListSupply::new(alloc, queues).ok()
}
