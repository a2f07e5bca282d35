//! Where receivers hand batches over.

use crate::batch::Batch;
use relay_base::MOST_RECEIVERS;
use std::mem;
use std::sync::Mutex;
use std::sync::atomic::{AtomicBool, AtomicU64, Ordering};

/// What could not be handed over: so many reads, and their bytes.
#[derive(Clone, Copy)]
pub(crate) struct Missed {
    pub(crate) reads: u64,
    pub(crate) bytes: u64,
}

/// The batches of a receiver that neither side works on.
#[derive(Drop)]
struct Slots {
    empty: Option<Batch>,
    full: Option<Batch>,
}

/// Where a receiver hands its batches over to a watch, and gets empty ones. Neither side waits for the other.
#[derive(Drop)]
pub struct WatchPlace {
    // The number of the watch; 0 if nobody watches.
    watch: AtomicU64,
    is_full: AtomicBool,
    missed_reads: AtomicU64,
    missed_bytes: AtomicU64,
    slots: Mutex<Slots>,
}

/// The places of all receivers of a run.
#[derive(Drop)]
pub struct WatchPlaces {
    places: [WatchPlace; MOST_RECEIVERS],
}

impl WatchPlaces {
    /// Nobody watches. Takes no memory.
    pub fn new() -> WatchPlaces {
        WatchPlaces {
            places: [
                WatchPlace::new(),
                WatchPlace::new(),
                WatchPlace::new(),
                WatchPlace::new(),
                WatchPlace::new(),
                WatchPlace::new(),
                WatchPlace::new(),
                WatchPlace::new(),
            ],
        }
    }

    /// That of a receiver; of the last one, if there are not so many.
    pub fn of(&self, receiver: usize) -> &WatchPlace {
        &self.places[receiver.min(MOST_RECEIVERS - 1)]
    }
}

impl WatchPlace {
    /// Nobody watches.
    pub fn new() -> WatchPlace {
        WatchPlace {
            watch: AtomicU64::new(0),
            is_full: AtomicBool::new(false),
            missed_reads: AtomicU64::new(0),
            missed_bytes: AtomicU64::new(0),
            slots: Mutex::new(Slots {
                empty: None,
                full: None,
            }),
        }
    }

    /// The number of the watch; 0 if nobody watches.
    pub(crate) fn watch(&self) -> u64 {
        self.watch.load(Ordering::SeqCst)
    }

    /// The watch of a number begins, which has missed nothing.
    pub(crate) fn open(&self, watch: u64) {
        self.missed_reads.store(0, Ordering::SeqCst);
        self.missed_bytes.store(0, Ordering::SeqCst);
        self.watch.store(watch, Ordering::SeqCst);
    }

    /// Nobody watches any more. What was handed over is freed, unless the receiver is just here: then the next watch frees it.
    pub(crate) fn close(&self) {
        self.watch.store(0, Ordering::SeqCst);
        if let Some(mut slots) = self.slots.try_lock() {
            slots.empty = None;
            slots.full = None;
            self.is_full.store(false, Ordering::SeqCst);
        }
    }

    /// A piece of so many bytes could not be handed over. The receiver's thread alone calls it.
    pub(crate) fn note_missed(&self, bytes: u64) {
        let _reads = self.missed_reads.fetch_add(1, Ordering::SeqCst);
        let _bytes = self.missed_bytes.fetch_add(bytes, Ordering::SeqCst);
    }

    /// What could not be handed over of the watch that is open.
    pub(crate) fn missed(&self) -> Missed {
        Missed {
            reads: self.missed_reads.load(Ordering::SeqCst),
            bytes: self.missed_bytes.load(Ordering::SeqCst),
        }
    }

    /// Exchanges the batch in the hand, of the watch of this number, for an empty one: it is handed over, if the place for that is
    /// free and there is an empty one. Without a batch in the hand, it takes an empty one. One of another watch is freed.
    pub(crate) fn exchange(&self, watch: u64, hand: &mut Option<Batch>) {
        if !is_of(hand, watch) {
            *hand = None;
        } else if is_unused(hand) || self.is_full.load(Ordering::SeqCst) {
            return;
        }
        let Some(mut slots) = self.slots.try_lock() else {
            return;
        };
        let Slots { empty, full } = &mut *slots;
        if !is_of(empty, watch) {
            return;
        }
        let handed = mem::replace(hand, empty.take());
        if handed.is_some() {
            *full = handed;
            self.is_full.store(true, Ordering::SeqCst);
        }
    }

    /// Takes the batch that was handed over, if there is one.
    pub(crate) fn take(&self) -> Option<Batch> {
        if !self.is_full.load(Ordering::SeqCst) {
            return None;
        }
        let mut slots = self.slots.try_lock()?;
        let full = slots.full.take();
        self.is_full.store(false, Ordering::SeqCst);
        full
    }

    /// Puts an empty batch there. Gives it back if one is there, or the receiver is just here.
    pub(crate) fn put_empty(&self, batch: Batch) -> Option<Batch> {
        let Some(mut slots) = self.slots.try_lock() else {
            return Some(batch);
        };
        match &slots.empty {
            Some(empty) if empty.watch() == batch.watch() => Some(batch),
            _ => {
                slots.empty = Some(batch);
                None
            }
        }
    }
}

/// Whether there is a batch of the watch of this number.
fn is_of(batch: &Option<Batch>, watch: u64) -> bool {
    match batch {
        Some(batch) => batch.watch() == watch,
        None => false,
    }
}

/// Whether there is a batch without a piece.
fn is_unused(batch: &Option<Batch>) -> bool {
    match batch {
        Some(batch) => batch.is_empty(),
        None => false,
    }
}
