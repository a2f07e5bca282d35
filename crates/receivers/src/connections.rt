//! What a listener and its connections share.

use crate::idle_times::IdleTimes;
use crate::progress::Progress;
use crate::receiver_control::ReceiverControl;
use log_lines::{LossNotes, LossReason};
use relay_base::NoMemory;
use std::alloc::Global;
use std::sync::atomic::{AtomicBool, AtomicU64, Ordering};
use std::sync::{Arc, Mutex};

/// A piece that a connection sent.
#[derive(Clone, Copy)]
pub(crate) struct LastPiece {
    /// How many bytes it has.
    pub(crate) length: usize,
    /// Where the connection was before.
    pub(crate) before: Progress,
}

/// What a listener and its connections share: since when each connection has sent no datapoint, what was lost, and the control of their
/// receiver.
#[derive(Drop)]
pub(crate) struct Connections {
    pub(crate) idle: IdleTimes,
    pub(crate) losses: LossNotes,
    pub(crate) control: Arc<ReceiverControl>,
    // Whether an example of bad input is wanted; then the last piece that a connection sent.
    wants_example: AtomicBool,
    last: Mutex<LastPiece>,
    // How many bytes the connection that is served has sent in this turn.
    bytes: AtomicU64,
    // Whether the listener failed, so that its receiver ends.
    has_failed: AtomicBool,
}

impl Connections {
    /// No connection; or out of memory.
    pub(crate) fn new(
        alloc: Global,
        control: Arc<ReceiverControl>,
    ) -> Result<Arc<Connections>, NoMemory> {
        let idle = match IdleTimes::new(alloc) {
            Ok(idle) => idle,
            Err(fault) => {
                drop(control);
                return Err(fault);
            }
        };
        let connections = Connections {
            idle,
            losses: LossNotes::new(),
            control,
            wants_example: AtomicBool::new(false),
            last: Mutex::new(LastPiece {
                length: 0,
                before: Progress::Overlong,
            }),
            bytes: AtomicU64::new(0),
            has_failed: AtomicBool::new(false),
        };
        Ok(Arc::new(alloc, connections)?)
    }

    /// The listener failed, and the receiver ends.
    pub(crate) fn note_failed(&self) {
        self.control.note_ended();
        self.has_failed.store(true, Ordering::SeqCst);
    }

    /// A connection was closed for this reason.
    pub(crate) fn note_loss(&self, reason: LossReason) {
        self.losses.note(reason);
    }

    /// From now on an example of bad input is wanted, or not.
    pub(crate) fn want_example(&self, is_wanted: bool) {
        self.wants_example.store(is_wanted, Ordering::SeqCst);
    }

    /// How many bytes the connection that was served last has sent in this turn. Asked again, it is 0.
    pub(crate) fn take_bytes(&self) -> u64 {
        let bytes = self.bytes.load(Ordering::SeqCst);
        self.bytes.store(0, Ordering::SeqCst);
        bytes
    }

    /// A connection sent a piece of this length, and was there before, which is noted if an example is wanted.
    pub(crate) fn note_piece(&self, length: usize, before: Progress) {
        // The receiver's thread alone counts them.
        let bytes = self.bytes.load(Ordering::SeqCst);
        self.bytes
            .store(bytes.saturating_add(length as u64), Ordering::SeqCst);
        if !self.wants_example.load(Ordering::SeqCst) {
            return;
        }
        // The receiver's thread alone looks at it.
        if let Some(mut last) = self.last.try_lock() {
            *last = LastPiece { length, before };
        }
    }

    /// The last piece that a connection sent.
    pub(crate) fn last_piece(&self) -> Option<LastPiece> {
        let last = self.last.try_lock()?;
        Some(*last)
    }

    /// Whether the receiver ends, and closes all connections for that reason alone.
    pub(crate) fn is_over(&self) -> bool {
        self.control.is_closing() || self.has_failed.load(Ordering::SeqCst)
    }
}
