//! A door over memory.
ghost use Rattle.std.specs.Prelude.{◌≡◌, ◌<◌, ◌≤◌, length, map, slice_index, IfOk, IfErr, OnErr};
ghost use Rattle.std.specs.Vec.{vec_len, vec_capacity};
ghost use Rattle.std.specs.Arc.{arc_value};
ghost use Rattle.queue_records.specs.Made.{offer_of};
ghost use Rattle.queue_records.specs.Offers.{IsFresh, after_offer};

use crate::door::Door;
use crate::door_book::DoorBook;
use crate::limits::{MOST_DESTS, READERS_EACH};
use crate::made::Made;
use dest_queue::{DestQueue, Kept, LARGEST_SIZE, OfferFault};
use line_text::Point;
use relay_base::{DestId, MOST_RECEIVERS, NoMemory};
use std::alloc::Global;
use std::marker::Model;
use std::sync::Arc;

/// A door to queues of its own, with no locks. For tests.
///
/// Clauses see it as its record and the queues.
#[derive(Drop)]
pub struct ListDoor {
    queues: Vec<DestQueue>,
    book: DoorBook,
}

impl Model for ListDoor {
    ghost use Rattle.std.specs.Prelude.{◌≡◌, length};
    ghost use Rattle.queue_records.specs.ListDoor.{DoorWithQueues};

    ghost Value = { DoorWithQueues };

    ghost view = { λ d. record { made = d.book; queues = d.queues.items } };

    ghost invariant = { λ d. length d.queues.items ≡ length d.book.totals };
}

impl ListDoor {
    /// The door of a receiver to this number of empty queues of this size, 1 to [`MOST_DESTS`] of them, with all
    /// conditions of `DestQueue::new` and [`DoorBook::new`].
    pub fn new(
        alloc: Global,
        dests: usize,
        size: usize,
        receiver: usize,
    ) -> Result<ListDoor, NoMemory>
        requires dests { (1 ≤ dests) × (dests ≤ MOST_DESTS) }
        requires size { (1 ≤ size) × (size ≤ LARGEST_SIZE) }
        requires receiver { receiver < MOST_RECEIVERS }
        ensures made { IfOk result (λ door. IsFresh dests receiver door.made) }
    {
        let book = DoorBook::new(alloc, dests, receiver)?;
        let queues = empty_queues(alloc, dests, size)?;
        Ok(ListDoor { queues, book })
    }

    /// How many destinations there are.
    pub fn dests(&self) -> usize
        ensures { result ≡ length self.now.made.totals }
    {
        self.queues.len()
    }

    /// The queues with what they kept.
    pub fn into_queues(self) -> Vec<DestQueue>
        ensures { result.items ≡ self.queues }
    {
        self.queues
    }
}

/// This many empty queues of this size, for the readers of all receivers.
fn empty_queues(alloc: Global, dests: usize, size: usize) -> Result<Vec<DestQueue>, NoMemory>
    requires size { (1 ≤ size) × (size ≤ LARGEST_SIZE) }
    ensures { IfOk result (λ queues. vec_len queues ≡ dests) }
{
    let mut queues = Vec::with_capacity(alloc, dests)?;
    for _ in 0..dests {
        queues.push_reserved(DestQueue::new(alloc, size, READERS_EACH * MOST_RECEIVERS)?);
    }
    Ok(queues)
}

impl Door for ListDoor {
    ghost use Rattle.dest_queue.specs.declared.offer.OfferFault.TheVariants.{Exhausted};
    ghost use Rattle.queue_records.specs.Offers.{IsReaderOf};

    ghost record_of = { λ d. d.made };

    ghost may_refuse = { λ d reader dest point fault. fault ≡ Exhausted
        → IsReaderOf d.made.receiver reader };

    type Hold = ();

    fn offer(
        &mut self,
        reader: usize,
        dest: DestId,
        point: &Arc<Point>,
    ) -> Result<Kept, OfferFault> {
        self.book
            .offer_under(&mut self.queues[dest.0], reader, dest, point)
    }

    fn made(&self) -> &[Made] {
        self.book.made()
    }

    fn total(&self, dest: DestId) -> u64 {
        self.book.total(dest)
    }
}
