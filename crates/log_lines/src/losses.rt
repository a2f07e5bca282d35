//! What a receiver lost or closed, by its reason.

ghost use Rattle.std.specs.Prelude.{◌≡◌, ◌<◌, None, Some};
ghost use Rattle.std.specs.List.{slice_get};
ghost use Rattle.log_lines.specs.Losses.{place, count_of, count_behind, losses_behind, has_lost, has_same_losses, is_losses_line_due, losses_logged_after, no_losses};

use crate::logged_counts::is_minute_over;
use std::array;
use std::sync::atomic::{AtomicU64, Ordering};

/// Why a receiver closed a connection, or why input never reached its readers.
#[derive(Clone, Copy, Debug, PartialEq)]
pub enum LossReason {
    /// A line or a frame was too long, and its connection was closed; or a datagram was, and was dropped.
    Overlong,
    /// A connection ended within a line or a frame.
    Unfinished,
    /// A connection sent no datapoint for as long as it may, and was closed.
    Idle,
    /// Memory was short, and a connection was closed or a datagram was dropped.
    MemoryShort,
    /// A read of a connection failed, as after a reset.
    Broken,
    /// The system dropped a datagram, since the socket had no room for it.
    SystemDrop,
}

/// All reasons, in the order in which they are shown.
pub const LOSS_REASONS: [LossReason; 6] = [
    LossReason::Overlong,
    LossReason::Unfinished,
    LossReason::Idle,
    LossReason::MemoryShort,
    LossReason::Broken,
    LossReason::SystemDrop,
];

/// How many reasons there are.
const REASONS: usize = LOSS_REASONS.len();

impl LossReason {
    /// Its place in [`LOSS_REASONS`], and that of its count among all counts.
    pub fn place(self) -> usize
        ensures place { result ≡ place self }
        ensures reason { slice_get LOSS_REASONS result ≡ Some self }
        ensures within { result < REASONS }
    {
        self as usize
    }
}

/// How often a receiver lost or closed something since the start, by the reason.
#[derive(Clone, Copy)]
pub struct LossCounts {
    /// The count of each reason, in the order of [`LOSS_REASONS`].
    pub by_reason: [u64; REASONS],
}

impl LossCounts {
    /// All counts are 0.
    pub fn zero() -> LossCounts
        ensures { result ≡ no_losses }
    {
        LossCounts {
            by_reason: [0; REASONS],
        }
    }

    /// These counts, behind those of runs that have ended. The system counts what it drops at a socket since the socket was
    /// made, and the socket is that of all runs.
    pub fn behind(&self, earlier: &LossCounts) -> LossCounts
        ensures { result ≡ losses_behind earlier.now self.now }
    {
        let mut by_reason = [0; REASONS];
        for place in 0..REASONS {
            let reason = LOSS_REASONS[place];
            by_reason[place] = count_behind(
                reason,
                earlier.count_of(reason),
                self.count_of(reason),
            );
        }
        LossCounts { by_reason }
    }

    /// The count of a reason.
    pub fn count_of(&self, reason: LossReason) -> u64
        ensures { result ≡ count_of self.now reason }
    {
        self.by_reason[reason.place()]
    }
}

/// The count of a reason in a run, behind that of runs that have ended.
fn count_behind(reason: LossReason, earlier: u64, now: u64) -> u64
    ensures { result ≡ count_behind reason earlier now }
{
    match reason {
        LossReason::SystemDrop => earlier.max(now),
        _ => earlier.saturating_add(now),
    }
}

/// The counts of losses, as several threads raise and read them at the same time: each by itself.
#[derive(Drop)]
pub struct LossNotes {
    by_reason: [AtomicU64; REASONS],
}

impl LossNotes {
    /// All counts are 0.
    pub fn new() -> LossNotes {
        LossNotes {
            by_reason: array::from_fn(|_| AtomicU64::new(0)),
        }
    }

    /// Notes one more loss.
    pub fn note(&self, reason: LossReason) {
        let _before = self.by_reason[reason.place()].fetch_add(1, Ordering::SeqCst);
    }

    /// From now on this is the count of a reason.
    pub fn set(&self, reason: LossReason, count: u64) {
        self.by_reason[reason.place()].store(count, Ordering::SeqCst);
    }

    /// From now on these are the counts.
    pub(crate) fn store(&self, counts: LossCounts) {
        for reason in LOSS_REASONS {
            self.set(reason, counts.count_of(reason));
        }
    }

    /// The counts now.
    pub fn counts(&self) -> LossCounts {
        let mut by_reason = [0; REASONS];
        for place in 0..REASONS {
            by_reason[place] = self.by_reason[place].load(Ordering::SeqCst);
        }
        LossCounts { by_reason }
    }
}

/// What the log has reported of a receiver's losses.
#[derive(Clone, Copy)]
pub struct LoggedLosses {
    // The counts of the last line, and the milliseconds at which it was written.
    pub(crate) counts: LossCounts,
    pub(crate) at: Option<u64>,
}

impl LoggedLosses {
    /// The log has reported nothing.
    pub fn new() -> LoggedLosses
        ensures { result ≡ record { counts = no_losses; at = None } }
    {
        LoggedLosses {
            counts: LossCounts::zero(),
            at: None,
        }
    }

    /// Returns whether a line of these counts is due at these milliseconds of a clock that never falls: some count is not
    /// the last line's, and that line is a minute old, or there is none. If so, the caller writes the line.
    pub fn look(&mut self, now: &LossCounts, millis: u64) -> bool
        ensures due { result ≡ is_losses_line_due self.old now.now millis }
        ensures logged { self.new ≡ losses_logged_after self.old now.now millis result }
    {
        if has_same_losses(&self.counts, now) || !is_minute_over(self.at, millis) {
            return false;
        }
        self.counts = *now;
        self.at = Some(millis);
        true
    }
}

/// Whether a receiver lost or closed anything, so that the log has a last line of these counts when it has ended.
pub fn has_lost(counts: &LossCounts) -> bool
    ensures { result ≡ has_lost counts.now }
{
    LOSS_REASONS
        .iter()
        .any(|reason| counts.count_of(*reason) != 0)
}

/// Whether two counts are the same.
fn has_same_losses(one: &LossCounts, other: &LossCounts) -> bool
    ensures { result ≡ has_same_losses one.now other.now }
{
    LOSS_REASONS
        .iter()
        .all(|reason| one.count_of(*reason) == other.count_of(*reason))
}
