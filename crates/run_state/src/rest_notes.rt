//! How much of what ended runs left for a destination is not sent.

use std::sync::atomic::{AtomicU64, Ordering};

/// How many datapoints ended runs left for a destination that no connection has taken whole, and how many of them went to its
/// file. The destination's sender notes it; other threads read it at the same time.
#[derive(Drop)]
pub struct RestNotes {
    // Those that no connection has taken whole, in one word, so that none is missed as it is taken in hand; and those of them
    // that wait behind the hand.
    left: AtomicU64,
    queued: AtomicU64,
    // Those that the file has, and those that it lost in this run.
    in_file: AtomicU64,
    lost: AtomicU64,
}

impl RestNotes {
    /// Nothing is left in memory, and the file has so many.
    pub fn new(in_file: u64) -> RestNotes {
        RestNotes {
            left: AtomicU64::new(0),
            queued: AtomicU64::new(0),
            in_file: AtomicU64::new(in_file),
            lost: AtomicU64::new(0),
        }
    }

    /// So many more went to the file, which keeps them, and so many more are lost with it.
    pub fn note_spooled(&self, kept: u64, lost: u64) {
        let _in_file = self.in_file.fetch_add(kept, Ordering::SeqCst);
        let _lost = self.lost.fetch_add(lost, Ordering::SeqCst);
    }

    /// How many the file has, while that is not sent.
    pub fn in_file(&self) -> u64 {
        self.in_file.load(Ordering::SeqCst)
    }

    /// How many the file lost in this run.
    pub fn lost(&self) -> u64 {
        self.lost.load(Ordering::SeqCst)
    }

    /// From now on so many wait, and so many are in hand.
    pub fn note(&self, queued: usize, in_hand: usize) {
        let left = (queued as u64).saturating_add(in_hand as u64);
        self.left.store(left, Ordering::SeqCst);
        self.queued.store(queued as u64, Ordering::SeqCst);
    }

    /// How many wait to be taken in hand.
    pub fn queued(&self) -> u64 {
        self.queued.load(Ordering::SeqCst)
    }

    /// How many no connection has taken whole.
    pub fn left(&self) -> u64 {
        self.left.load(Ordering::SeqCst)
    }
}
