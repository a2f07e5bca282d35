//! A receiver that the log reports.
ghost use Rattle.std.specs.Prelude.{◌≡◌};
ghost use Rattle.relay_watchers.specs.ReceiverLog.{resumed_from};

use log_lines::{
    LoggedCounts, LoggedExample, LoggedLosses, LoggedReceiver, LoggedRefusals, ProducerWindow,
    ReceiverCounts, ReceiverName, ReceiverNotes, has_bad, has_lost, push_example_line,
    push_losses_line, push_lost_receiver_line, push_receiver_counts_line, push_receiver_line,
    push_refusals_line,
};
use relay_base::{NoMemory, add};
use status_page::ReceiverSnapshot;
use std::alloc::{AllocError, Global};
use std::sync::Arc;

/// A receiver's name, where its events are noted, and what the log has reported of it.
#[derive(Drop)]
pub struct ReceiverLog {
    name: ReceiverName,
    notes: Arc<ReceiverNotes>,
    logged: LoggedReceiver,
    counts: LoggedCounts,
    refusals: LoggedRefusals,
    losses: LoggedLosses,
    example: LoggedExample,
    is_lost: bool,
}

impl ReceiverLog {
    /// The receiver of a name, which notes its events here, and of which the log has reported nothing.
    pub fn new(name: ReceiverName, notes: Arc<ReceiverNotes>) -> ReceiverLog {
        ReceiverLog {
            name,
            notes,
            logged: LoggedReceiver::new(),
            counts: LoggedCounts::new(),
            refusals: LoggedRefusals::new(),
            losses: LoggedLosses::new(),
            example: LoggedExample::new(),
            is_lost: false,
        }
    }

    /// What an earlier log has reported of it is not reported again.
    pub fn resume(&mut self, earlier: ReceiverLog)
        ensures { self.new ≡ resumed_from earlier self.old }
    {
        let ReceiverLog {
            name: _,
            notes: _,
            logged,
            counts,
            refusals,
            losses,
            example,
            is_lost: _,
        } = earlier;
        self.logged = logged;
        self.counts = counts;
        self.refusals = refusals;
        self.losses = losses;
        self.example = example;
    }

    /// Its name.
    pub fn name(&self) -> ReceiverName {
        self.name
    }

    /// The same receiver, for the status. Refuses if out of memory.
    fn watched(&self) -> Result<WatchedReceiver, NoMemory> {
        Ok(WatchedReceiver {
            name: self.name,
            notes: Arc::clone(&self.notes)?,
        })
    }

    /// Its news at these milliseconds: at most one line of each kind.
    pub(crate) fn lines(&mut self, alloc: Global, millis: u64) -> Result<String, AllocError> {
        let mut text = String::new(alloc);
        if let Some(state) = self.logged.look(self.notes.state()) {
            push_receiver_line(&mut text, self.name.text(), state)?;
        }
        let counts = self.notes.counts();
        if let Some(event) = self.refusals.look(&counts) {
            push_refusals_line(&mut text, self.name.text(), event)?;
        }
        if self.counts.look(&counts, millis) {
            push_receiver_counts_line(&mut text, self.name.text(), &counts)?;
        }
        let losses = self.notes.losses();
        if self.losses.look(&losses, millis) {
            push_losses_line(&mut text, self.name.text(), self.name.unit(), &losses)?;
        }
        if let Some(example) = self.notes.example() {
            if self.example.look(true, millis) {
                self.notes.clear_example();
                push_example_line(&mut text, self.name.text(), &example)?;
            }
        }
        Ok(text)
    }

    /// The lines for its bad input and its losses, once it has ended; none for what there was none of.
    pub(crate) fn last_lines(&self, alloc: Global) -> Result<String, AllocError> {
        let mut text = String::new(alloc);
        let counts = self.notes.counts();
        if has_bad(&counts) {
            push_receiver_counts_line(&mut text, self.name.text(), &counts)?;
        }
        let losses = self.notes.losses();
        if has_lost(&losses) {
            push_losses_line(&mut text, self.name.text(), self.name.unit(), &losses)?;
        }
        Ok(text)
    }

    /// The line that it has ended out of memory, if it has and the log has not said so.
    pub(crate) fn loss_line(&mut self, alloc: Global, is_lost: bool) -> Result<String, AllocError> {
        let mut text = String::new(alloc);
        if is_lost && !self.is_lost {
            self.is_lost = true;
            push_lost_receiver_line(&mut text, self.name.text())?;
        }
        Ok(text)
    }
}

/// A receiver that the status shows: its name, and where its events are noted.
#[derive(Drop)]
pub(crate) struct WatchedReceiver {
    name: ReceiverName,
    notes: Arc<ReceiverNotes>,
}

impl WatchedReceiver {
    /// Its place among all receivers, over all runs.
    pub(crate) fn place(&self) -> usize {
        self.name.place()
    }

    /// From now on it tells what its producers have sent.
    pub(crate) fn want_producers(&self) {
        self.notes.producers().want();
    }

    /// What its producers have sent since the last such call, if it has told that.
    pub(crate) fn take_producers(&self) -> Option<ProducerWindow> {
        self.notes.producers().take()
    }

    /// What it has counted.
    pub(crate) fn counts(&self) -> ReceiverCounts {
        self.notes.counts()
    }

    /// Its state now, but for what only several looks show.
    pub(crate) fn snapshot(&self, alloc: Global) -> Result<ReceiverSnapshot, AllocError> {
        Ok(ReceiverSnapshot {
            name: String::from_str(alloc, self.name.text())?,
            state: self.notes.state(),
            counts: self.notes.counts(),
            losses: self.notes.losses(),
            taken: self.notes.taken(),
            rate: 0,
            bad_rate: 0,
            bad_age: None,
        })
    }
}

/// The receivers, for the status.
pub(crate) fn watched_of(
    alloc: Global,
    logs: &[ReceiverLog],
) -> Result<Vec<WatchedReceiver>, NoMemory> {
    let mut watched = Vec::new(alloc);
    for log in logs {
        add(&mut watched, log.watched()?)?;
    }
    Ok(watched)
}
