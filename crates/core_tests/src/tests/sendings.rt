//! A plan and a door for what is read.

use queue_records::{ListDoor, MOST_RECEIVERS};
use router::Plan;
use std::alloc::Global;
use test_doubles::FaultyDoor;
use worked_files::ring_plan;

const CONFIG: &str = "\
[relay]
DESTINATIONS = 127.0.0.1:2004
RELAY_METHOD = consistent-hashing
USE_FLOW_CONTROL = False
DESTINATION_PROTOCOL = line
";

/// A plan that sends each datapoint to one destination, and the door of a receiver to its queue.
#[derive(Drop)]
pub(crate) struct Sending {
    pub(crate) plan: Plan,
    pub(crate) door: FaultyDoor,
}

impl Sending {
    /// The door of this receiver, which refuses its offer of this number, counted from 1, or none with 0; `None` if out
    /// of memory.
    pub(crate) fn new(alloc: Global, receiver: usize, refused: u64) -> Option<Sending> {
        if receiver >= MOST_RECEIVERS {
            return None;
        }
        let plan = ring_plan(alloc, CONFIG, "")?;
        let Some(door) = ListDoor::new(alloc, 1, 10, receiver).ok() else {
            drop(plan);
            return None;
        };
        Some(Sending {
            plan,
            door: FaultyDoor::new(door, refused),
        })
    }
}
