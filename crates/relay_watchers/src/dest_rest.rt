//! What is left of a destination, and of all, when a run ends, and the lines of the log on it.

use crate::log_writes::{write_dest_end, write_relay_end};
use conf_text::Dest;
use log_lines::{DestEnd, RelayEnd};
use spool::{SpoolFailure, SpoolNotes};
use std::alloc::Global;
use std::io::Write;

/// What is left of a destination once the senders have ended.
#[derive(Clone, Copy)]
pub(crate) struct DestRest {
    // Why a drain did not wait for it, if it did not.
    drain: Option<DestEnd>,
    // Why its file took no more, if there is one and it failed.
    file: Option<DestEnd>,
    // How many datapoints its file keeps.
    kept: u64,
    // How many datapoints were not sent.
    unsent: u64,
}

impl DestRest {
    /// What is left of the destination of this bit, of which this many datapoints are queued or in hand, and of its file, if
    /// there is one. A drain gave up destinations that took nothing, and others that were too slow: a bit each.
    pub(crate) fn new(
        given_up: (u64, u64),
        bit: u64,
        left: u64,
        notes: Option<&SpoolNotes>,
    ) -> DestRest {
        let (kept, lost) = datapoints_of(notes);
        DestRest {
            drain: drain_end(given_up, bit),
            file: file_end(notes),
            kept,
            unsent: left.saturating_add(lost),
        }
    }

    /// Writes it: why the drain did not wait, if something is left; why the file took no more; what it keeps; and how many
    /// datapoints were not sent.
    pub(crate) fn write<L: Write>(&self, output: &mut L, alloc: Global, dest: &Dest) {
        if self.unsent > 0 || self.kept > 0 {
            write_dest_end(output, alloc, dest, self.drain);
        }
        write_dest_end(output, alloc, dest, self.file);
        if self.kept > 0 {
            let end = DestEnd::Spooled {
                datapoints: self.kept,
            };
            write_dest_end(output, alloc, dest, Some(end));
        }
        if self.unsent > 0 {
            let end = DestEnd::Unsent {
                datapoints: self.unsent,
            };
            write_dest_end(output, alloc, dest, Some(end));
        }
    }
}

/// What is left of all destinations together.
#[derive(Clone, Copy)]
pub(crate) struct RestOfAll {
    // How many datapoints files keep.
    kept: u64,
    // How many datapoints were not sent.
    unsent: u64,
}

impl RestOfAll {
    /// Nothing is left.
    pub(crate) fn none() -> RestOfAll {
        RestOfAll { kept: 0, unsent: 0 }
    }

    /// Adds what is left of one more destination.
    pub(crate) fn add(&mut self, rest: &DestRest) {
        self.kept = self.kept.saturating_add(rest.kept);
        self.unsent = self.unsent.saturating_add(rest.unsent);
    }

    /// Writes it: what files keep, if there are files, and how many datapoints were not sent.
    pub(crate) fn write<L: Write>(&self, output: &mut L, alloc: Global, is_spooled: bool) {
        if is_spooled {
            let end = RelayEnd::Spooled {
                datapoints: self.kept,
            };
            write_relay_end(output, alloc, end);
        }
        let end = RelayEnd::Unsent {
            datapoints: self.unsent,
        };
        write_relay_end(output, alloc, end);
    }
}

/// Why a drain did not wait for a destination, if it has its bit there: among those that took nothing, or among those that
/// were too slow.
fn drain_end(given_up: (u64, u64), bit: u64) -> Option<DestEnd> {
    let (stuck, slow) = given_up;
    if stuck & bit != 0 {
        Some(DestEnd::TakesNothing)
    } else if slow & bit != 0 {
        Some(DestEnd::TooSlow)
    } else {
        None
    }
}

/// Why the file of a destination took no more, if there is one and it failed.
fn file_end(notes: Option<&SpoolNotes>) -> Option<DestEnd> {
    match notes?.failure()? {
        SpoolFailure::NoRoom => Some(DestEnd::NoRoom),
        SpoolFailure::CannotWrite => Some(DestEnd::CannotWrite),
    }
}

/// How many datapoints the file of a destination keeps, and how many it took and does not.
fn datapoints_of(notes: Option<&SpoolNotes>) -> (u64, u64) {
    match notes {
        Some(notes) => {
            let (taken, kept) = notes.datapoints();
            (kept, taken.saturating_sub(kept))
        }
        None => (0, 0),
    }
}
