//! The queues of all destinations, each under a lock of its own, for the threads of a relay.
//!
//! [`Queues::new`] makes a door for each receiver and an outlet for each sender. Each records what it does, and bears
//! shares of the totals behind the locks. After the run [`Queues::settle`] compares records, totals and histories, and
//! [`Queues::end`] leaves what was queued.
//! `specs/LockFact.antt` says what holds of a queue whenever its lock is free, `specs/Shares.antt` what the shares are.
#![tactic(auto)]

mod copies;
mod ended_set;
mod gate;
mod locked;
mod locked_door;
mod opening;
mod outlet;
mod patience;
mod queues;
mod seats;
mod settle;
mod settled;
mod shares;

pub use ended_set::{EndRoom, EndedSet};
pub use gate::{Gate, GatePoint, OpenGate};
pub use locked_door::{HeldLock, LockedDoor};
pub use outlet::Outlet;
pub use queue_records::{
    Door, DoorBook, DoorRecord, ListDoor, ListSupply, MOST_DESTS, MOST_ENTRIES, MOST_RECEIVERS,
    MOST_SENDERS, Made, OutletBook, OutletRecord, READERS_EACH, Supply, TakenBatch,
};
pub use queues::{BlankTotals, Opened, Queues};
pub use relay_base::NoMemory;
pub use seats::{DoorSeat, OutletSeat};
pub use settled::{SettleFault, Settled, StepMaker};
pub use shares::Set;
