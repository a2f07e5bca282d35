//! How receivers wait for takes of senders.

use relay_base::{DestId, MOST_DESTINATIONS};
use std::sync::Wait;
use std::sync::atomic::{AtomicU64, Ordering};
use std::time::Duration;

/// For how many nanoseconds a receiver sleeps at a time, to which the system adds about as much. While it sleeps, its processor
/// runs a thread that waits for one.
const NAP_NS: u64 = 50_000;

/// The destinations whose takes receivers wait for, a bit each.
#[derive(Drop)]
pub(crate) struct TakeWaits {
    // Those of which something was taken since a receiver began to wait for that.
    taken: AtomicU64,
    // Never changes: a wait for a change of it lasts its whole time.
    naps: AtomicU64,
}

impl TakeWaits {
    /// Nobody has waited.
    pub(crate) fn new() -> TakeWaits {
        TakeWaits {
            taken: AtomicU64::new(0),
            naps: AtomicU64::new(0),
        }
    }

    /// Something is taken of a destination.
    pub(crate) fn note_take(&self, dest: DestId) {
        let bit = bit_of(dest);
        if self.taken.load(Ordering::SeqCst) & bit == 0 {
            let _before = self.taken.fetch_or(bit, Ordering::SeqCst);
        }
    }

    /// A receiver is about to wait for a take of a destination.
    pub(crate) fn begin(&self, dest: DestId) {
        let _before = self.taken.fetch_and(!bit_of(dest), Ordering::SeqCst);
    }

    /// Sleeps until something is taken of a destination since a receiver began to wait for that, for `most` naps at most, and
    /// returns how many it took.
    pub(crate) fn wait<R: Wait>(&self, rt: &R, dest: DestId, most: usize) -> usize {
        let bit = bit_of(dest);
        for nap in 0..most {
            if self.taken.load(Ordering::SeqCst) & bit != 0 {
                return nap;
            }
            self.naps.park_timeout(rt, 0, Duration::from_nanos(NAP_NS));
        }
        most
    }
}

/// The bit of a destination.
fn bit_of(dest: DestId) -> u64 {
    let place = (dest.0 % MOST_DESTINATIONS) as u32;
    1 << place
}
