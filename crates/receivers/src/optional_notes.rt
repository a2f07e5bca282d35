//! The notes on a listener or a socket.

ghost use Rattle.std.specs.Prelude.{◌≡◌};
ghost use Rattle.receivers.specs.BadInput.{without_emptied};

use crate::accept::AcceptOutcome;
use crate::input_counts::without_emptied;
use crate::refusal::is_final;
use log_lines::{BadExample, LossCounts, ProducerPlace, ReceiverCounts, ReceiverNotes, Why};
use mio_loops::{ReadTotals, ReadinessFault};
use std::io;
use std::io::{Error, ErrorKind};
use std::sync::Arc;

/// Notes events, if there is a place for them, and remembers whether the last note says that nothing can be taken.
#[derive(Drop)]
pub(crate) struct OptionalNotes {
    notes: Option<Arc<ReceiverNotes>>,
    is_paused: bool,
    // How many connections were taken, and how many refused.
    taken: u64,
    refused: u64,
}

impl OptionalNotes {
    /// Nothing is noted.
    pub(crate) fn none() -> OptionalNotes {
        OptionalNotes {
            notes: None,
            is_paused: false,
            taken: 0,
            refused: 0,
        }
    }

    /// Notes events here.
    pub(crate) fn here(notes: Arc<ReceiverNotes>) -> OptionalNotes {
        OptionalNotes {
            notes: Some(notes),
            is_paused: false,
            taken: 0,
            refused: 0,
        }
    }

    /// Connections or datagrams can be taken. It notes that only after they could not.
    pub(crate) fn note_open(&mut self) {
        if !self.is_paused {
            return;
        }
        self.is_paused = false;
        if let Some(notes) = &self.notes {
            notes.note_open();
        }
    }

    /// No connection was taken; this error says why those that wait do.
    pub(crate) fn note_refusal<S>(&mut self, accepted: &AcceptOutcome<S>, error: &Error) {
        match accepted {
            AcceptOutcome::Later => self.note_paused(Why::of_error(error)),
            AcceptOutcome::Failed => self.note_failed(Why::of_error(error)),
            _ => self.note_open(),
        }
    }

    /// A try to take a datagram ended so. After an error that can pass, the receiver tries again.
    pub(crate) fn note_receive(&mut self, received: &io::Result<usize>) {
        let Err(error) = received else {
            self.note_open();
            return;
        };
        match error.kind() {
            ErrorKind::WouldBlock => self.note_open(),
            ErrorKind::Interrupted => {}
            _ if is_final(error) => self.note_failed(Why::of_error(error)),
            _ => self.note_paused(Why::of_error(error)),
        }
    }

    /// The receiver ends with this fault: the system no longer reports what is ready, or there is no memory.
    pub(crate) fn note_fault(&mut self, fault: ReadinessFault) {
        self.note_failed(match fault {
            ReadinessFault::Device => Why::NoReadiness,
            ReadinessFault::NoMemory => Why::NoMemory,
        });
    }

    /// A connection was refused, since the receiver has no room for more.
    pub(crate) fn note_refused(&mut self) {
        self.refused = self.refused.saturating_add(1);
    }

    /// A connection was taken.
    pub(crate) fn note_taken(&mut self) {
        self.taken = self.taken.saturating_add(1);
    }

    /// The receiver has counted this, its plan has emptied so many names, and it has lost or closed this.
    pub(crate) fn note_totals(&self, totals: ReadTotals, emptied: u64, losses: LossCounts) {
        if let Some(notes) = &self.notes {
            notes.note_losses(losses, self.taken);
            notes.note_counts(self.counts_with(totals, emptied));
        }
    }

    /// What a receiver has counted that has these totals, and whose plan has emptied so many names.
    fn counts_with(&self, totals: ReadTotals, emptied: u64) -> ReceiverCounts
        ensures { result ≡ record {
          readers = without_emptied totals.readers emptied;
          emptied = emptied;
          connections = totals.connections;
          refused = self.now.refused;
        } }
    {
        ReceiverCounts {
            readers: without_emptied(totals.readers, emptied),
            emptied,
            connections: totals.connections,
            refused: self.refused,
        }
    }

    /// Where it puts what its producers have sent.
    pub(crate) fn producers(&self) -> Option<&ProducerPlace> {
        match &self.notes {
            Some(notes) => Some(notes.producers()),
            None => None,
        }
    }

    /// Whether an example of bad input is wanted.
    pub(crate) fn wants_example(&self) -> bool {
        match &self.notes {
            Some(notes) => notes.wants_example(),
            None => false,
        }
    }

    /// Notes an example of bad input, if it is wanted.
    pub(crate) fn note_example(&self, example: &BadExample) {
        if let Some(notes) = &self.notes {
            notes.note_example(example);
        }
    }

    /// Nothing can be taken now.
    fn note_paused(&mut self, why: Why) {
        self.is_paused = true;
        if let Some(notes) = &self.notes {
            notes.note_paused(why);
        }
    }

    /// The listener or the socket failed.
    fn note_failed(&mut self, why: Why) {
        if let Some(notes) = &self.notes {
            notes.note_failed(why);
        }
    }
}
