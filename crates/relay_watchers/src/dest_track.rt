//! What several looks at a destination show.

ghost use Rattle.std.specs.Prelude.{◌≤◌, ◌<◌, length};

use crate::status_history::{NO_RATES, a_second, rates_of};
use dest_queue::Counts;
use log_lines::DestStatus;
use status_page::{Rates, Sample};
use std::alloc::Global;

/// How many marks are kept of a queue.
const MOST_MARKS: usize = 128;

/// How long a loss of a connection is one of the last minute.
const MINUTE_MS: u64 = 60_000;

/// How many losses of connections are remembered.
const MOST_LOSSES: usize = 60;

/// A destination at a look.
#[derive(Clone, Copy)]
pub(crate) struct DestLook {
    pub(crate) counts: Counts,
    pub(crate) status: DestStatus,
    pub(crate) file: FileLook,
    pub(crate) millis: u64,
}

/// The file of a destination at a look: how many datapoints of it connections took in this run, and how many bytes wait.
#[derive(Clone, Copy)]
pub(crate) struct FileLook {
    pub(crate) passed: u64,
    pub(crate) bytes: u64,
}

/// How many datapoints a queue had kept since the start, at these milliseconds.
#[derive(Clone, Copy)]
struct Mark {
    kept: u64,
    millis: u64,
}

impl Mark {
    /// Moves to these milliseconds, if the queue has kept so many as before. Returns whether it did.
    fn renew(&mut self, kept: u64, millis: u64) -> bool {
        if self.kept != kept {
            return false;
        }
        self.millis = millis;
        true
    }
}

/// What was seen of a destination.
#[derive(Drop)]
pub(crate) struct DestTrack {
    // The counts at the last look, and at the last sample.
    last: Counts,
    sampled: Counts,
    rates: Rates,
    // How many datapoints of its file connections had taken in the run at the last sample, and took in each second of that.
    passed: u64,
    spool_rate: u64,
    // How many bytes waited in it at the last sample, and by how many that grew in each second of that.
    waiting: u64,
    spool_growth: u64,
    // When the queue last gave something to a connection, when it was last seen to move or empty, and when it last dropped
    // something; with how many errors were noted then.
    written_at: u64,
    moved_at: u64,
    dropped_at: u64,
    errors: u64,
    error_at: u64,
    // When the last connections were lost, the oldest first, and how many were.
    losses: Vec<u64>,
    lost: u64,
    // By these it is known since when the oldest datapoint is queued: those that a queue kept after the last mark which it
    // has given out whole are younger.
    marks: Vec<Mark>,
    given: Mark,
    // No more than MOST_LOSSES, and no more than MOST_MARKS.
    ghost few_losses: { length losses.items ≤ 60 },
    ghost few_marks: { length marks.items ≤ 128 },
}

impl DestTrack {
    /// Nothing was seen.
    pub(crate) fn new(alloc: Global) -> DestTrack {
        DestTrack {
            last: NO_COUNTS,
            sampled: NO_COUNTS,
            rates: NO_RATES,
            passed: 0,
            spool_rate: 0,
            waiting: 0,
            spool_growth: 0,
            written_at: 0,
            moved_at: 0,
            dropped_at: 0,
            errors: 0,
            error_at: 0,
            losses: Vec::new(alloc),
            lost: 0,
            marks: Vec::new(alloc),
            given: Mark { kept: 0, millis: 0 },
        }
    }

    /// A look.
    pub(crate) fn look(&mut self, look: &DestLook) {
        let counts = look.counts;
        if counts.taken != self.last.taken {
            self.written_at = look.millis;
            self.moved_at = look.millis;
        }
        if counts.queued == 0 {
            self.moved_at = look.millis;
        }
        if counts.dropped != self.last.dropped {
            self.dropped_at = look.millis;
        }
        self.note_errors(&look.status, look.millis);
        self.note_kept(&counts, look.millis);
        self.last = counts;
    }

    /// A sample of these milliseconds is taken.
    pub(crate) fn take_sample(&mut self, look: &DestLook, millis: u64) {
        let (now, before) = (look.counts, self.sampled);
        self.rates = rates_of(&Sample {
            millis,
            received: now.offered.saturating_sub(before.offered),
            written: now.taken.saturating_sub(before.taken),
            dropped: now.dropped.saturating_sub(before.dropped),
        });
        self.sampled = now;
        let passed = look.file.passed.saturating_sub(self.passed);
        self.spool_rate = a_second(passed, millis.max(1));
        self.passed = look.file.passed;
        let grown = look.file.bytes.saturating_sub(self.waiting);
        self.spool_growth = a_second(grown, millis.max(1));
        self.waiting = look.file.bytes;
    }

    /// Notes when something last went wrong with the connection.
    fn note_errors(&mut self, status: &DestStatus, millis: u64) {
        let errors = status.losses.saturating_add(status.failures);
        if errors != self.errors {
            self.errors = errors;
            self.error_at = millis;
        }
        forget_old(&mut self.losses, millis);
        let lost = status.losses.saturating_sub(self.lost);
        self.lost = status.losses;
        add_losses(&mut self.losses, lost, millis);
    }

    /// Notes what the queue has kept, and drops the marks that it has given out whole.
    fn note_kept(&mut self, counts: &Counts, millis: u64) {
        let mut passed: usize = 0;
        for mark in self.marks.as_slice() {
            if mark.kept > counts.taken {
                break;
            }
            self.given = *mark;
            passed = passed.saturating_add(1);
        }
        drop_first(&mut self.marks, passed);
        if self.renew_mark(counts.kept, millis) {
            return;
        }
        if self.marks.len() >= MOST_MARKS {
            thin(&mut self.marks);
        }
        let _ = self.marks.push(Mark {
            kept: counts.kept,
            millis,
        });
    }

    /// If the queue has kept nothing since the last mark, moves that mark to these milliseconds: what it keeps from now on
    /// is younger. Returns whether it did.
    fn renew_mark(&mut self, kept: u64, millis: u64) -> bool {
        if self.marks.is_empty() {
            return self.given.renew(kept, millis);
        }
        let last = self.marks.len() - 1;
        self.marks[last].renew(kept, millis)
    }

    /// What its queue counted in each second of the last sample.
    pub(crate) fn rates(&self) -> Rates {
        self.rates
    }

    /// How many datapoints of its file connections took in each second of the last sample.
    pub(crate) fn spool_rate(&self) -> u64 {
        self.spool_rate
    }

    /// By how many bytes what waits in its file grew in each second of the last sample.
    pub(crate) fn spool_growth(&self) -> u64 {
        self.spool_growth
    }

    /// When its queue last gave something to a connection, in milliseconds; 0 if it never did.
    pub(crate) fn written_at(&self) -> u64 {
        self.written_at
    }

    /// For how many seconds its queue has had datapoints and given none out, at these milliseconds.
    pub(crate) fn stalled(&self, millis: u64) -> u64 {
        millis.saturating_sub(self.moved_at) / 1_000
    }

    /// How many seconds ago its queue last dropped something, if it did.
    pub(crate) fn drop_age(&self, millis: u64) -> Option<u64> {
        if self.last.dropped == 0 {
            return None;
        }
        Some(millis.saturating_sub(self.dropped_at) / 1_000)
    }

    /// How many seconds ago something last went wrong with its connection.
    pub(crate) fn error_age(&self, millis: u64) -> u64 {
        millis.saturating_sub(self.error_at) / 1_000
    }

    /// How many connections it has lost in the last minute.
    pub(crate) fn lost_lately(&self) -> u64 {
        self.losses.len() as u64
    }

    /// For how many milliseconds at most the oldest datapoint of its queue has been there; 0 if there is none.
    pub(crate) fn oldest(&self, counts: &Counts, millis: u64) -> u64 {
        if counts.queued == 0 {
            return 0;
        }
        millis.saturating_sub(self.given.millis).max(1)
    }
}

const NO_COUNTS: Counts = Counts {
    queued: 0,
    offered: 0,
    kept: 0,
    dropped: 0,
    taken: 0,
    seals: 0,
};

/// Adds so many losses of these milliseconds, as far as more are remembered.
fn add_losses(losses: &mut Vec<u64>, lost: u64, millis: u64)
    ensures few { length losses.old.items ≤ MOST_LOSSES → length losses.new.items ≤ MOST_LOSSES }
{
    for _ in 0..lost.min(MOST_LOSSES as u64) {
        if losses.len() < MOST_LOSSES {
            let _ = losses.push(millis);
        }
    }
}

/// Forgets the times that are a minute old.
fn forget_old(times: &mut Vec<u64>, millis: u64)
    ensures { length times.new.items ≤ length times.old.items }
{
    let mut old: usize = 0;
    for time in times.as_slice() {
        if millis.saturating_sub(*time) < MINUTE_MS {
            break;
        }
        old = old.saturating_add(1);
    }
    drop_first(times, old);
}

/// Drops the first items of a list.
fn drop_first<T: Copy + Drop>(items: &mut Vec<T>, count: usize)
    ensures { length items.new.items ≤ length items.old.items }
{
    for _ in 0..count {
        if items.is_empty() {
            return;
        }
        let _first = items.remove(0);
    }
}

/// Drops each second mark.
fn thin(marks: &mut Vec<Mark>)
    ensures fewer { length marks.old.items ≤ MOST_MARKS → length marks.new.items < MOST_MARKS }
{
    let mut place: usize = 0;
    for _ in 0..MOST_MARKS / 2 {
        if place >= marks.len() {
            return;
        }
        let _mark = marks.remove(place);
        place = place.saturating_add(1);
    }
}
