//! The readers and the destinations that a world begins with.
ghost use Rattle.std.specs.Prelude.{◌≡◌, ◌≤◌, replicate, length, IfOk};
ghost use Rattle.std.specs.List.{AllZip};
ghost use Rattle.relay_core.specs.Destination.{fresh_destination};
ghost use Rattle.relay_core.specs.WorldModel.{with_sizes, IsFresh};

use crate::destination::Destination;
use dest_queue::{LARGEST_SIZE, MOST_READERS};
use reader_core::{Reader, ReaderKind};
use relay_base::NoMemory;
use std::alloc::Global;

/// Makes a reader of each kind in the list, and this number of destinations.
pub(crate) fn fresh(
    alloc: Global,
    size: usize,
    limit: usize,
    count: usize,
    kinds: &[ReaderKind],
) -> Result<(Vec<Reader>, Vec<Destination>), NoMemory>
    requires size { (1 ≤ size) × (size ≤ LARGEST_SIZE) }
    requires limit { 1 ≤ limit }
    requires readers { (1 ≤ length kinds.now) × (length kinds.now ≤ MOST_READERS) }
    ensures readers { IfOk result (λ made. AllZip IsFresh made.0.items kinds.now) }
    ensures destinations { IfOk result (λ made. made.1.items
        ≡ replicate count (with_sizes size limit (fresh_destination (length kinds.now)))) }
{
    let readers = fresh_readers(alloc, kinds)?;
    match fresh_destinations(alloc, size, limit, kinds.len(), count) {
        Ok(destinations) => Ok((readers, destinations)),
        Err(fault) => {
            drop(readers);
            Err(fault)
        }
    }
}

/// Makes a reader of each kind in the list, with no input yet.
fn fresh_readers(alloc: Global, kinds: &[ReaderKind]) -> Result<Vec<Reader>, NoMemory>
    ensures { IfOk result (λ readers. AllZip IsFresh readers.items kinds.now) }
{
    let mut readers = Vec::with_capacity(alloc, kinds.len())?;
    for kind in kinds {
        readers.push(Reader::new(alloc, *kind))?;
    }
    Ok(readers)
}

/// Makes this number of destinations with nothing queued and no connection.
fn fresh_destinations(
    alloc: Global,
    size: usize,
    limit: usize,
    readers: usize,
    count: usize,
) -> Result<Vec<Destination>, NoMemory>
    requires size { (1 ≤ size) × (size ≤ LARGEST_SIZE) }
    requires limit { 1 ≤ limit }
    requires readers { (1 ≤ readers) × (readers ≤ MOST_READERS) }
    ensures { IfOk result (λ destinations. destinations.items
        ≡ replicate count (with_sizes size limit (fresh_destination readers))) }
{
    let mut destinations = Vec::with_capacity(alloc, count)?;
    for _ in 0..count {
        destinations.push(Destination::new(alloc, size, limit, readers)?)?;
    }
    Ok(destinations)
}
