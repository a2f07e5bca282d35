//! Calls that a door or an outlet makes while it holds a lock.

use relay_base::DestId;
use std::sync::Wait;

/// What is about to be done under the lock of a queue.
#[derive(Clone, Copy)]
pub enum GatePoint {
    /// A reader's datapoint is offered to this destination.
    InOffer {
        /// The destination.
        dest: DestId,
        /// The reader.
        reader: usize,
    },
    /// A batch is taken from this destination.
    InTake {
        /// The destination.
        dest: DestId,
    },
}

/// Called under the queue's lock before each offer and each take: the lock is held as long as the call lasts.
/// Tests hold a queue that way; `senders` wakes a sender. And called under no lock, where a queue fills.
pub trait Gate {
    /// Is called inside the lock of the destination's queue, before the step.
    fn at(&self, point: GatePoint);

    /// Is called under no lock, before offers to a destination whose queue is at least a quarter full, not full, although its
    /// sender keeps up: it may only wait for a processor. Waits for the next take, for `most` naps of some 0.1 milliseconds at most,
    /// and returns how many it took; `most` if it can wait for none.
    fn give_way<R: Wait>(&self, rt: &R, dest: DestId, most: usize) -> usize;
}

/// A gate that does nothing.
#[derive(Clone, Copy)]
pub struct OpenGate;

impl Gate for OpenGate {
    fn at(&self, _point: GatePoint) {}

    fn give_way<R: Wait>(&self, _rt: &R, _dest: DestId, most: usize) -> usize {
        most
    }
}
