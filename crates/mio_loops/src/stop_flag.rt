//! The sign for a thread to stop.

use std::sync::atomic::{AtomicBool, Ordering};

/// Says whether a thread is to stop.
pub trait StopFlag {
    /// Whether the thread is to stop after this turn.
    fn is_set(&self) -> bool;
}

impl StopFlag for AtomicBool {
    fn is_set(&self) -> bool {
        self.load(Ordering::SeqCst)
    }
}
