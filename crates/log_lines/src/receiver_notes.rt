//! What a receiver notes of its listener or its socket.

ghost use Rattle.std.specs.Prelude.{◌≡◌};
ghost use Rattle.log_lines.specs.LoggedReceiver.{IsReceiverEvent};

use crate::bad_example::{BadExample, ExamplePlace};
use crate::losses::{LossCounts, LossNotes};
use crate::producers::ProducerPlace;
use crate::receiver_counts::{NotedCounts, ReceiverCounts};
use crate::why::Why;
use std::sync::atomic::{AtomicBool, AtomicU32, AtomicU64, Ordering};

/// The state of a receiver. The receiver alone notes it; the thread that writes the log reads it at the same time.
#[derive(Drop)]
pub struct ReceiverNotes {
    is_paused: AtomicBool,
    pause: AtomicU32,
    has_failed: AtomicBool,
    failure: AtomicU32,
    counts: NotedCounts,
    losses: LossNotes,
    example: ExamplePlace,
    producers: ProducerPlace,
    // How many connections it has taken.
    taken: AtomicU64,
    // What the receivers of runs that have ended had counted, lost and taken.
    earlier_counts: NotedCounts,
    earlier_losses: LossNotes,
    earlier_taken: AtomicU64,
}

/// The state of a receiver at one look.
#[derive(Clone, Copy, PartialEq)]
pub enum ReceiverState {
    /// It receives.
    Open,
    /// It takes no connections, or no datagrams, now: the system refuses them. Those that wait are taken later.
    Paused { why: Why },
    /// It has failed, and receives nothing any more.
    Failed { why: Why },
}

impl ReceiverNotes {
    /// It receives.
    pub fn new() -> ReceiverNotes {
        ReceiverNotes {
            is_paused: AtomicBool::new(false),
            pause: AtomicU32::new(0),
            has_failed: AtomicBool::new(false),
            failure: AtomicU32::new(0),
            counts: NotedCounts::new(),
            losses: LossNotes::new(),
            example: ExamplePlace::new(),
            producers: ProducerPlace::new(),
            taken: AtomicU64::new(0),
            earlier_counts: NotedCounts::new(),
            earlier_losses: LossNotes::new(),
            earlier_taken: AtomicU64::new(0),
        }
    }

    /// A run has ended, and the next one's receiver notes here: it receives, and what it counts comes behind what was counted.
    /// No receiver notes anything meanwhile.
    pub fn begin_run(&self) {
        self.earlier_counts.store(self.counts.load());
        self.earlier_losses.store(self.losses.counts());
        self.earlier_taken
            .store(self.taken.load(Ordering::SeqCst), Ordering::SeqCst);
        self.is_paused.store(false, Ordering::SeqCst);
        self.has_failed.store(false, Ordering::SeqCst);
    }

    /// It receives, or does so again.
    pub fn note_open(&self) {
        self.is_paused.store(false, Ordering::SeqCst);
    }

    /// It cannot take connections or datagrams now.
    pub fn note_paused(&self, why: Why) {
        self.pause.store(why.code(), Ordering::SeqCst);
        self.is_paused.store(true, Ordering::SeqCst);
    }

    /// It has failed.
    pub fn note_failed(&self, why: Why) {
        self.failure.store(why.code(), Ordering::SeqCst);
        self.has_failed.store(true, Ordering::SeqCst);
    }

    /// Notes what it has counted in this run.
    pub fn note_counts(&self, counts: ReceiverCounts) {
        self.counts
            .store(counts.behind(&self.earlier_counts.load()));
    }

    /// The counts that it noted last; each by itself, since it may note others at the same time.
    pub fn counts(&self) -> ReceiverCounts {
        self.counts.load()
    }

    /// Notes what it has lost or closed, and how many connections it has taken, in this run.
    pub fn note_losses(&self, losses: LossCounts, taken: u64) {
        self.losses
            .store(losses.behind(&self.earlier_losses.counts()));
        let earlier = self.earlier_taken.load(Ordering::SeqCst);
        self.taken
            .store(earlier.saturating_add(taken), Ordering::SeqCst);
    }

    /// What it had lost or closed, when it last noted that; each count by itself.
    pub fn losses(&self) -> LossCounts {
        self.losses.counts()
    }

    /// How many connections it had taken since the start, when it last noted that.
    pub fn taken(&self) -> u64 {
        self.taken.load(Ordering::SeqCst)
    }

    /// Whether an example of bad input is wanted: there is none that the log has not written.
    pub fn wants_example(&self) -> bool {
        self.example.is_empty()
    }

    /// Notes an example of bad input, if one is wanted.
    pub fn note_example(&self, example: &BadExample) {
        self.example.put(example);
    }

    /// The example of bad input that the log has not written, if there is one.
    pub fn example(&self) -> Option<BadExample> {
        self.example.example()
    }

    /// The log has written the example.
    pub fn clear_example(&self) {
        self.example.clear();
    }

    /// Where it puts what its producers have sent.
    pub fn producers(&self) -> &ProducerPlace {
        &self.producers
    }

    /// Its state now.
    pub fn state(&self) -> ReceiverState {
        if self.has_failed.load(Ordering::SeqCst) {
            ReceiverState::Failed {
                why: Why::of_code(self.failure.load(Ordering::SeqCst)),
            }
        } else if self.is_paused.load(Ordering::SeqCst) {
            ReceiverState::Paused {
                why: Why::of_code(self.pause.load(Ordering::SeqCst)),
            }
        } else {
            ReceiverState::Open
        }
    }
}

/// What the log has reported of a receiver.
#[derive(Clone, Copy)]
pub struct LoggedReceiver {
    pub(crate) state: ReceiverState,
}

impl LoggedReceiver {
    /// Nothing was reported: it receives.
    pub fn new() -> LoggedReceiver
        ensures { result.state ≡ ReceiverState.Open }
    {
        LoggedReceiver {
            state: ReceiverState::Open,
        }
    }

    /// What the log reports of a receiver in this state: the state, if another was reported.
    pub fn look(&mut self, now: ReceiverState) -> Option<ReceiverState>
        ensures event { IsReceiverEvent self.old.state now result }
        ensures logged { self.new.state ≡ now }
    {
        if now == self.state {
            return None;
        }
        self.state = now;
        Some(now)
    }
}
