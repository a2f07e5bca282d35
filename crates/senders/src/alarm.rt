//! What ends the wait of a sender.

use mio::Waker;
use mio_loops::{Readiness, ReadinessFault, WAKER};
use std::sync::atomic::{AtomicBool, Ordering};

/// Ends the wait of a sender from other threads, if the sender has announced the wait.
#[derive(Drop)]
pub struct Alarm {
    waker: Waker,
    asleep: AtomicBool,
    // Whether the sender waits, announced or not, and nobody has cut that short.
    waits: AtomicBool,
}

impl Alarm {
    /// The alarm of the waits of a readiness, under the token [`WAKER`]. A readiness has one alarm at most.
    /// Refuses (`Device`) what the system refuses.
    pub fn new(readiness: &Readiness) -> Result<Alarm, ReadinessFault> {
        let waker = Waker::new(readiness.registry(), mio::Token(WAKER.0)).map_err(
            |_| ReadinessFault::Device,
        )?;
        Ok(Alarm {
            waker,
            asleep: AtomicBool::new(false),
            waits: AtomicBool::new(false),
        })
    }

    /// From now on the next call of [`Alarm::ring`] ends the wait, or the next one.
    pub(crate) fn set(&self) {
        self.asleep.store(true, Ordering::SeqCst);
    }

    /// A wait begins.
    pub(crate) fn begin_wait(&self) {
        self.waits.store(true, Ordering::SeqCst);
    }

    /// The wait is over, and no call needs to end it.
    pub(crate) fn clear(&self) {
        self.asleep.store(false, Ordering::SeqCst);
        self.waits.store(false, Ordering::SeqCst);
    }

    /// Ends the wait of the sender, if it waits: also one that it has not announced.
    pub(crate) fn hurry(&self) {
        if self.waits.load(Ordering::SeqCst) && self.waits.swap(false, Ordering::SeqCst) {
            self.wake();
        }
    }

    /// Ends the wait of the sender that set the alarm. If the alarm is not set, this is one read.
    pub(crate) fn ring(&self) {
        if self.asleep.load(Ordering::SeqCst) && self.asleep.swap(false, Ordering::SeqCst) {
            self.wake();
        }
    }

    /// Ends the wait. If that fails, the wait ends when its time is over.
    fn wake(&self) {
        let _ = self.waker.wake();
    }
}
