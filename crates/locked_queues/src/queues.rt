//! A set of queues, each under a lock of its own.
ghost use Rattle.std.specs.Prelude.{◌≡◌, ℕ, ◌*◌, ◌<◌, ◌≤◌, IfOk};
ghost use Rattle.std.specs.List.{range_with_len};
ghost use Rattle.std.specs.Vec.{vec_len};
ghost use Rattle.locked_queues.specs.LockFact.{IsLockFact};
ghost use Rattle.locked_queues.specs.Shares.{keeper_of, table_words};

use crate::locked::LockedQueue;
use crate::opening::{make_doors, make_locks, make_outlets};
use crate::seats::{DoorSeat, OutletSeat};
use crate::shares::{Rule, Set, View, WORDS};
use atomic_table::{Seat, Table};
use crossbeam_utils::CachePadded;
use dest_queue::{Counts, LARGEST_SIZE};
use queue_records::{MOST_DESTS, MOST_RECEIVERS, MOST_SENDERS, READERS_EACH};
use relay_base::{DestId, NoMemory};
use std::alloc::Global;
use std::marker::Model;
use std::sync::{Mutex, Wait};

/// The totals of a set of queues that was not opened yet. All are 0, and no share was given out.
///
/// Clauses see it as the table that has them.
#[derive(Drop)]
pub struct BlankTotals {
    table: Table<u64, View, usize, Rule, Global>,
    first: Seat<u64, View>,
}

impl Model for BlankTotals {
    ghost use Rattle.atomic_table.specs.Seated.{TableId};
    ghost use Rattle.locked_queues.specs.Shares.{IsSoundBlank};

    ghost Value = { TableId };

    ghost view = { λ b. b.table.shared.table_id };

    ghost invariant = { λ b. IsSoundBlank b.table.shared.table_id b.first.table_id b.first.me.0 };
}

impl BlankTotals {
    /// The totals of a set that is still to be opened.
    pub fn new(alloc: Global) -> Result<BlankTotals, NoMemory> {
        let (table, first) = Table::of_words(alloc, &[0; WORDS], &WORDS)?;
        Ok(BlankTotals { table, first })
    }
}

/// The queues of a set, each under its lock.
#[derive(Drop)]
pub struct Queues<B: Set> {
    pub(crate) name: u64,
    pub(crate) receivers: usize,
    pub(crate) senders: usize,
    pub(crate) table: Table<u64, View, usize, Rule, Global>,
    // Each lock has cache lines of its own, so that threads at different queues do not slow each other.
    pub(crate) locks: Vec<CachePadded<Mutex<LockedQueue<B>>>>,
    pub ghost named: { table.shared.table_id ≡ B.table },
    pub ghost words: { table.shared.table_id.words ≡ table_words },
    pub ghost few: { vec_len locks ≤ 64 },
    pub ghost dests: { vec_len locks ≡ B.dests },
    pub ghost has_name: { name ≡ B.name },
    pub ghost has_receivers: { (receivers ≡ B.receivers) × (receivers ≤ 8) },
    pub ghost has_senders: { (senders ≡ B.senders) × (senders ≤ 8) },
}

/// A set that was opened: the queues, and a seat for each door and each outlet, in order.
#[derive(Drop)]
pub struct Opened<B: Set> {
    /// The queues.
    pub queues: Queues<B>,
    /// The seats of the receivers, from 0 on.
    pub doors: Vec<DoorSeat<B>>,
    /// The seats of the senders, from 0 on.
    pub outlets: Vec<OutletSeat<B>>,
}

impl<B: Set> Queues<B> {
    /// The queues of a set, all empty, and a seat for each receiver and each sender. There are 1 to
    /// [`MOST_DESTS`] destinations, 1 to [`MOST_RECEIVERS`] receivers and 1 to [`MOST_SENDERS`] senders,
    /// and the size is one of `DestQueue::new`. The room for all records is reserved here.
    pub fn new(
        alloc: Global,
        blank: BlankTotals,
        name: u64,
        dests: usize,
        size: usize,
        receivers: usize,
        senders: usize,
    ) -> Result<Opened<B>, NoMemory>
        requires table { blank ≡ B.table }
        requires name { name ≡ B.name }
        requires dests { (dests ≡ B.dests) × (1 ≤ dests) × (dests ≤ MOST_DESTS) }
        requires size { (size ≡ B.size) × (1 ≤ size) × (size ≤ LARGEST_SIZE) }
        requires receivers { (receivers ≡ B.receivers)
            × (1 ≤ receivers) × (receivers ≤ MOST_RECEIVERS) }
        requires senders { (senders ≡ B.senders) × (1 ≤ senders) × (senders ≤ MOST_SENDERS) }
        // The seats are those of receiver 0, 1 and so on, and of sender 0, 1 and so on.
        ensures doors { IfOk result (λ opened. opened.doors.items ≡ range_with_len 0 receivers) }
        ensures outlets { IfOk result (λ opened. opened.outlets.items ≡ range_with_len 0 senders) }
    {
        let BlankTotals { table, mut first } = blank;
        let readers = READERS_EACH * receivers;
        let locks = make_locks(alloc, &table.shared, &mut first, dests, size, readers)?;
        let doors = make_doors(alloc, &table.shared, &mut first, name, dests, receivers)?;
        let outlets = make_outlets(alloc, &table.shared, &mut first, name, dests, senders)?;
        Ok(Opened {
            queues: Queues {
                name,
                receivers,
                senders,
                table,
                locks,
            },
            doors,
            outlets,
        })
    }

    /// What the queue of a destination, which exists, has counted. Waits for its lock.
    pub fn counts<R: Wait>(&self, rt: &R, dest: DestId) -> Counts
        requires dest { dest.0 < B.dests }
        ensures fact { (place : ℕ) × IsLockFact B.size place result }
    {
        self.locks[dest.0].lock(rt).counts(&self.table.shared)
    }
}
