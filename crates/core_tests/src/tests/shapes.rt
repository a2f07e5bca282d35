//! The numbers of doors, outlets and queues in the sets of the tests, and how they are opened.
ghost use Rattle.std.specs.Prelude.{◌≡◌, ◌≤◌, IsTrue};

use locked_queues::{BlankTotals, MOST_DESTS, MOST_RECEIVERS, MOST_SENDERS, Opened, Queues, Set};
use std::alloc::Global;

/// The numbers of a set.
#[derive(Clone, Copy)]
pub(crate) struct Shape {
    pub(crate) name: u64,
    pub(crate) dests: usize,
    pub(crate) size: usize,
    pub(crate) receivers: usize,
    pub(crate) senders: usize,
}

/// Whether a set may have these numbers.
fn is_within(shape: &Shape) -> bool
    ensures dests { IsTrue result → (1 ≤ shape.now.dests) × (shape.now.dests ≤ 64) }
    ensures size { IsTrue result → (1 ≤ shape.now.size) × (shape.now.size ≤ 1000000) }
    ensures receivers { IsTrue result → (1 ≤ shape.now.receivers) × (shape.now.receivers ≤ 8) }
    ensures senders { IsTrue result → (1 ≤ shape.now.senders) × (shape.now.senders ≤ 8) }
{
    shape.dests >= 1
        && shape.dests <= MOST_DESTS
        && shape.size >= 1
        && shape.size <= 2_000
        && shape.receivers >= 1
        && shape.receivers <= MOST_RECEIVERS
        && shape.senders >= 1
        && shape.senders <= MOST_SENDERS
}

/// Opens a set of this shape.
pub(crate) fn open_set<B: Set>(alloc: Global, blank: BlankTotals, shape: Shape) -> Option<Opened<B>>
    requires table { blank ≡ B.table }
    requires set { (shape.name ≡ B.name) × (shape.dests ≡ B.dests)
        × (shape.receivers ≡ B.receivers) × (shape.senders ≡ B.senders)
        × (shape.size ≡ B.size) }
{
    if !is_within(&shape) {
        return None;
    }
    Queues::<B>::new(
        alloc,
        blank,
        shape.name,
        shape.dests,
        shape.size,
        shape.receivers,
        shape.senders,
    )
    .ok()
}
