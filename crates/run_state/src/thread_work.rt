//! The work of a thread of a run.

use crate::signals::Signals;
use std::alloc::{AllocError, Global};
use std::rt::Clock;
use std::sync::Wait;

/// The work of a thread of a run: of a receiver, of a sender, or of one that watches these. It ends with a `T`, which is a
/// parameter since the bounds of what a thread is sent may have no associated types.
pub trait ThreadWork<R: Wait + Clock, T> {
    /// The name of the thread. Refuses if out of memory.
    fn name(&self, alloc: Global) -> Result<String, AllocError>;

    /// Works until its stop flag is set, or a fault.
    fn work(self, rt: &R, alloc: Global, signals: &Signals) -> T;
}
