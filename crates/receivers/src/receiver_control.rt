//! What closes and wakes a receiver.

use mio::Waker;
use mio_loops::{Readiness, ReadinessFault, WAKER};
use std::alloc::Global;
use std::sync::Arc;
use std::sync::atomic::{AtomicBool, AtomicU64, AtomicUsize, Ordering};

/// Ends the waits of receivers.
pub fn wake_receivers(controls: &[Arc<ReceiverControl>]) {
    for control in controls {
        control.wake();
    }
}

/// Asks a receiver to close, ends its waits, and knows how far it has come. A receiver has one, which the thread that stops
/// it shares.
#[derive(Drop)]
pub struct ReceiverControl {
    waker: Waker,
    is_closing: AtomicBool,
    is_last_call: AtomicBool,
    are_shut: AtomicBool,
    // What the receiver notes: while it closes, that it waits, since nothing more is there, and that its port is shut; that it
    // has ended by itself; how many connections it holds, and how many of these it took before it closed; and, while it
    // closes, how many reads and connections brought something.
    is_waiting: AtomicBool,
    is_shut: AtomicBool,
    has_ended: AtomicBool,
    held: AtomicUsize,
    early: AtomicUsize,
    inputs: AtomicU64,
}

impl ReceiverControl {
    /// The control of a receiver with this readiness, which has one control at most. Refuses (`Device`) what the system
    /// refuses.
    pub(crate) fn new(readiness: &Readiness) -> Result<ReceiverControl, ReadinessFault> {
        let waker = Waker::new(readiness.registry(), mio::Token(WAKER.0)).map_err(
            |_| ReadinessFault::Device,
        )?;
        Ok(ReceiverControl {
            waker,
            is_closing: AtomicBool::new(false),
            is_last_call: AtomicBool::new(false),
            are_shut: AtomicBool::new(false),
            is_waiting: AtomicBool::new(false),
            is_shut: AtomicBool::new(false),
            has_ended: AtomicBool::new(false),
            held: AtomicUsize::new(0),
            early: AtomicUsize::new(0),
            inputs: AtomicU64::new(0),
        })
    }

    /// Ends the receiver's wait, or the next one. If a wake fails, the wait ends when its time is over.
    pub fn wake(&self) {
        let _ = self.waker.wake();
    }

    /// From now on the receiver half-closes the connections that it holds, so that a producer that watches its socket stops;
    /// it still takes connections and reads what comes.
    pub fn begin_closing(&self) {
        self.is_closing.store(true, Ordering::SeqCst);
        self.wake();
    }

    /// The receiver takes the connections that still wait, and then shuts its port.
    pub fn call_last(&self) {
        self.is_waiting.store(false, Ordering::SeqCst);
        self.is_last_call.store(true, Ordering::SeqCst);
        self.wake();
    }

    /// All ports are shut: the receiver half-closes the connections that it took while it closed.
    pub fn half_close_all(&self) {
        self.is_waiting.store(false, Ordering::SeqCst);
        self.are_shut.store(true, Ordering::SeqCst);
        self.wake();
    }

    /// Whether the receiver closes.
    pub(crate) fn is_closing(&self) -> bool {
        self.is_closing.load(Ordering::SeqCst)
    }

    /// Whether the receiver is to shut its port.
    pub(crate) fn is_last_call(&self) -> bool {
        self.is_last_call.load(Ordering::SeqCst)
    }

    /// Whether the receiver is to half-close all connections that it holds.
    pub(crate) fn are_shut(&self) -> bool {
        self.are_shut.load(Ordering::SeqCst)
    }

    /// The receiver begins or ends a wait. Nothing is noted before it closes.
    pub(crate) fn note_waiting(&self, is_waiting: bool) {
        if self.is_closing() {
            self.is_waiting.store(is_waiting, Ordering::SeqCst);
        }
    }

    /// Whether it waits, since it closes and nothing more was there, or has ended.
    pub fn is_waiting(&self) -> bool {
        self.is_waiting.load(Ordering::SeqCst) || self.has_ended.load(Ordering::SeqCst)
    }

    /// A receiver of datagrams waits: if it closes, it has read what waited, and no port is shut before it is stopped.
    pub(crate) fn note_empty(&self) {
        if self.is_closing() {
            self.is_waiting.store(true, Ordering::SeqCst);
            self.note_shut();
        }
    }

    /// The receiver ends by itself: nothing waits for it.
    pub(crate) fn note_ended(&self) {
        self.has_ended.store(true, Ordering::SeqCst);
    }

    /// Its port is shut.
    pub(crate) fn note_shut(&self) {
        self.is_shut.store(true, Ordering::SeqCst);
    }

    /// Whether its port is shut, or it has ended.
    pub fn is_shut(&self) -> bool {
        self.is_shut.load(Ordering::SeqCst) || self.has_ended.load(Ordering::SeqCst)
    }

    /// It has taken a connection, before it closes or not.
    pub(crate) fn note_held(&self, is_early: bool) {
        let _before = self.held.fetch_add(1, Ordering::SeqCst);
        if is_early {
            let _before = self.early.fetch_add(1, Ordering::SeqCst);
        }
        self.note_input();
    }

    /// A connection has left that it took before it closes, or not.
    pub(crate) fn note_left(&self, is_early: bool) {
        let _before = self.held.fetch_sub(1, Ordering::SeqCst);
        if is_early {
            let _before = self.early.fetch_sub(1, Ordering::SeqCst);
        }
    }

    /// How many connections it holds that were half-closed last: those that it took before it closed, and once all ports are
    /// shut the others.
    pub fn half_closed(&self) -> usize {
        let early = self.early.load(Ordering::SeqCst);
        if self.are_shut() {
            self.held.load(Ordering::SeqCst).saturating_sub(early)
        } else {
            early
        }
    }

    /// Something came. Nothing is noted before it closes.
    pub(crate) fn note_input(&self) {
        if self.is_closing() {
            let _before = self.inputs.fetch_add(1, Ordering::SeqCst);
        }
    }

    /// How often something came since it closes.
    pub fn inputs(&self) -> u64 {
        self.inputs.load(Ordering::SeqCst)
    }
}

/// The control of the receiver with this readiness.
pub(crate) fn shared_control(
    alloc: Global,
    readiness: &Readiness,
) -> Result<Arc<ReceiverControl>, ReadinessFault> {
    match Arc::new(alloc, ReceiverControl::new(readiness)?) {
        Ok(control) => Ok(control),
        Err(_) => Err(ReadinessFault::NoMemory),
    }
}
