//! A destination that is gone, and what becomes of what was held for it.

use conf_text::Dest;
use spool::SpoolNotes;
use std::sync::atomic::{AtomicBool, AtomicU64, Ordering};

/// A destination that the run before had and this one has not, and what becomes of what was held for it.
#[derive(Drop)]
pub struct GoneDest {
    /// The destination.
    pub dest: Dest,
    /// What becomes of what was held for it.
    pub notes: GoneNotes,
}

/// The destinations that are gone, and what happened to their files.
#[derive(Clone, Copy)]
pub struct GoneSources<'x> {
    /// The destinations.
    pub dests: &'x [GoneDest],
    /// What happened to their files.
    pub files: &'x [SpoolNotes],
}

/// What became of what a run held for a destination that the next one does not have. The thread that sends it notes it; that of
/// the log reads it at the same time.
#[derive(Drop)]
pub struct GoneNotes {
    is_over: AtomicBool,
    spooled: AtomicU64,
    unsent: AtomicU64,
}

/// What became of it: how many datapoints its file keeps, and how many were not sent.
#[derive(Clone, Copy)]
pub struct GoneEnd {
    /// Those that its file keeps.
    pub spooled: u64,
    /// Those that were not sent, and are not kept.
    pub unsent: u64,
}

impl GoneNotes {
    /// It is being sent.
    pub fn new() -> GoneNotes {
        GoneNotes {
            is_over: AtomicBool::new(false),
            spooled: AtomicU64::new(0),
            unsent: AtomicU64::new(0),
        }
    }

    /// Nothing more is sent.
    pub fn note_over(&self, end: GoneEnd) {
        self.spooled.store(end.spooled, Ordering::SeqCst);
        self.unsent.store(end.unsent, Ordering::SeqCst);
        self.is_over.store(true, Ordering::SeqCst);
    }

    /// What became of it; `None` while it is being sent.
    pub fn end(&self) -> Option<GoneEnd> {
        if !self.is_over.load(Ordering::SeqCst) {
            return None;
        }
        Some(GoneEnd {
            spooled: self.spooled.load(Ordering::SeqCst),
            unsent: self.unsent.load(Ordering::SeqCst),
        })
    }
}
