//! A supply over memory.
ghost use Rattle.std.specs.Prelude.{◌≡◌, ◌<◌, ◌≤◌, [], length, IfOk};
ghost use Rattle.queue_records.specs.Takes.{IsFreshOfTakes, after_take};

use crate::limits::MOST_DESTS;
use crate::outlet_book::OutletBook;
use crate::supply::Supply;
use dest_queue::{DestQueue, Hand};
use relay_base::{DestId, NoMemory};
use std::alloc::Global;
use std::marker::Model;

/// A supply of queues of its own, with no locks. It owns all of them. For tests.
///
/// Clauses see it as its record and the queues.
#[derive(Drop)]
pub struct ListSupply {
    queues: Vec<DestQueue>,
    book: OutletBook,
}

impl Model for ListSupply {
    ghost use Rattle.std.specs.Prelude.{◌≡◌, length};
    ghost use Rattle.queue_records.specs.ListDoor.{SupplyWithQueues};

    ghost Value = { SupplyWithQueues };

    ghost view = { λ s. record { made = s.book; queues = s.queues.items } };

    ghost invariant = { λ s. length s.queues.items ≡ length s.book.totals };
}

impl ListSupply {
    /// The supply of these queues, 1 to [`MOST_DESTS`] of them. A refusal drops the queues.
    pub fn new(alloc: Global, queues: Vec<DestQueue>) -> Result<ListSupply, NoMemory>
        requires { (1 ≤ length queues.items) × (length queues.items ≤ MOST_DESTS) }
        ensures made { IfOk result (λ supply. IsFreshOfTakes (length queues.items) supply.made) }
        ensures queues { IfOk result (λ supply. supply.queues ≡ queues.items) }
    {
        let book = OutletBook::new(alloc, queues.len())?;
        Ok(ListSupply { queues, book })
    }

    /// The queues with what they still hold.
    pub fn into_queues(self) -> Vec<DestQueue>
        ensures { result.items ≡ self.queues }
    {
        self.queues
    }
}

impl Supply for ListSupply {
    ghost use Rattle.std.specs.Prelude.{nat_lt, length};
    ghost use Rattle.queue_records.specs.ListDoor.{IsBatchAt};

    ghost record_of = { λ s. s.made };

    ghost may_hand = { λ s dest limit points. IsBatchAt s.queues dest limit points };

    ghost is_owned = { λ s dest. nat_lt dest (length s.queues) };

    fn owns(&self, dest: DestId) -> bool {
        dest.0 < self.queues.len()
    }

    fn take(&mut self, dest: DestId, limit: usize, hand: &mut Hand) -> usize {
        self.book
            .take_under(&mut self.queues[dest.0], dest, limit, hand)
    }
}
