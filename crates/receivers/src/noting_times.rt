//! When a receiver reports what it has counted.

/// The least time between two reports, in milliseconds. A turn waits as long at most, so that what changes is reported within
/// a fifth of a second.
const BETWEEN_NOTES_MS: u64 = 100;

/// When a receiver next reports what it has counted.
#[derive(Clone, Copy)]
pub(crate) struct NotingTimes {
    next: u64,
}

impl NotingTimes {
    /// At once.
    pub(crate) fn new() -> NotingTimes {
        NotingTimes { next: 0 }
    }

    /// Whether a report is due at these milliseconds; if so, the next is due a tenth of a second later.
    pub(crate) fn is_due(&mut self, millis: u64) -> bool {
        if millis < self.next {
            return false;
        }
        self.next = millis.saturating_add(BETWEEN_NOTES_MS);
        true
    }
}
