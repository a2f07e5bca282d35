//! How a store ends a connection that is half-closed.

use log_lines::Why;
use std::sync::OnceLock;
use std::sync::atomic::{AtomicBool, Ordering};

/// How a store has ended a connection that was half-closed.
#[derive(Clone, Copy)]
pub enum StoreEnd {
    /// Not yet.
    NotYet,
    /// In order: it has closed its end, and the connection was not reset. A system resets one that is closed before all was
    /// read.
    Orderly,
    /// The connection is lost.
    Lost,
}

/// A connection that can be half-closed: once its store has read all, that closes its end too.
pub trait HalfClose {
    /// Nothing more is written: the store sees the end once it has read what was written.
    fn half_close(&mut self);

    /// How the store has ended the connection, as the last wait has seen it. One that was not half-closed it has not ended in
    /// order.
    fn store_end(&self) -> StoreEnd;
}

/// What is noted of the end of a connection. Its link notes how the store ends it, and its stream asks.
#[derive(Drop)]
pub(crate) struct EndNotes {
    is_half_closed: AtomicBool,
    is_orderly: AtomicBool,
    loss: OnceLock<Why>,
}

impl EndNotes {
    /// The connection is open.
    pub(crate) fn new() -> EndNotes {
        EndNotes {
            is_half_closed: AtomicBool::new(false),
            is_orderly: AtomicBool::new(false),
            loss: OnceLock::new(),
        }
    }

    /// Nothing more is written to the connection.
    pub(crate) fn note_half_closed(&self) {
        self.is_half_closed.store(true, Ordering::SeqCst);
    }

    /// Whether nothing more is written to the connection.
    pub(crate) fn is_half_closed(&self) -> bool {
        self.is_half_closed.load(Ordering::SeqCst)
    }

    /// The store has ended the connection in order.
    pub(crate) fn note_orderly(&self) {
        self.is_orderly.store(true, Ordering::SeqCst);
    }

    /// The connection is lost. Only the first reason is kept.
    pub(crate) fn note_lost(&self, why: Why) {
        let _ = self.loss.try_set(why);
    }

    /// Why the connection is lost, if that was noted.
    pub(crate) fn loss(&self) -> Option<Why> {
        self.loss.get().copied()
    }

    /// How the store has ended the connection.
    pub(crate) fn store_end(&self) -> StoreEnd {
        if !self.is_half_closed() || self.loss().is_some() {
            StoreEnd::Lost
        } else if self.is_orderly.load(Ordering::SeqCst) {
            StoreEnd::Orderly
        } else {
            StoreEnd::NotYet
        }
    }
}
