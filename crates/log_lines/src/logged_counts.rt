//! When the log reports what a receiver has counted.

ghost use Rattle.std.specs.Prelude.{◌≡◌, false, None};
ghost use Rattle.log_lines.specs.LoggedCounts.{counts_logged_after, has_bad, has_same_bad, is_line_due, is_minute_over, refusal_event, refusals_logged_after};
ghost use Rattle.log_lines.specs.ReceiverCounts.{no_counts};

use crate::receiver_counts::ReceiverCounts;

/// The least time between two lines of the counts of a receiver, in milliseconds.
const BETWEEN_LINES_MS: u64 = 60_000;

/// The greatest number of connections that a receiver holds.
pub const MOST_CONNECTIONS: u64 = relay_base::MOST_CONNECTIONS as u64;

/// What the log has reported of the bad lines, pickles, rows and names of a receiver.
#[derive(Clone, Copy)]
pub struct LoggedCounts {
    // The counts of the last line, and the milliseconds at which it was written.
    pub(crate) counts: ReceiverCounts,
    pub(crate) at: Option<u64>,
}

impl LoggedCounts {
    /// The log has reported nothing.
    pub fn new() -> LoggedCounts
        ensures { result ≡ record { counts = no_counts; at = None } }
    {
        LoggedCounts {
            counts: ReceiverCounts::zero(),
            at: None,
        }
    }

    /// Returns whether a line of these counts is due at these milliseconds of a clock that never falls: some count of
    /// bad input is not the last line's, and that line is a minute old, or there is none. If so, the caller writes
    /// the line.
    pub fn look(&mut self, now: &ReceiverCounts, millis: u64) -> bool
        ensures due { result ≡ is_line_due self.old now.now millis }
        ensures logged { self.new ≡ counts_logged_after self.old now.now millis result }
    {
        if has_same_bad(&self.counts, now) || !is_minute_over(self.at, millis) {
            return false;
        }
        self.counts = *now;
        self.at = Some(millis);
        true
    }
}

/// Whether any input was bad, so that the log has a last line of these counts when the receiver has ended.
pub fn has_bad(counts: &ReceiverCounts) -> bool
    ensures { result ≡ has_bad counts.now }
{
    let faults = &counts.readers.faults;
    faults.bad_lines != 0
        || faults.bad_pickles != 0
        || faults.bad_rows != 0
        || faults.bad_names != 0
}

/// Whether two counts are the same in all that was bad.
fn has_same_bad(one: &ReceiverCounts, other: &ReceiverCounts) -> bool
    ensures { result ≡ has_same_bad one.now other.now }
{
    let one = &one.readers.faults;
    let other = &other.readers.faults;
    one.bad_lines == other.bad_lines
        && one.bad_pickles == other.bad_pickles
        && one.bad_rows == other.bad_rows
        && one.bad_names == other.bad_names
}

/// Whether a line that was written at these milliseconds, if any, is a minute old.
pub(crate) fn is_minute_over(at: Option<u64>, millis: u64) -> bool
    ensures { result ≡ is_minute_over at millis }
{
    match at {
        Some(at) => millis.saturating_sub(at) >= BETWEEN_LINES_MS,
        None => true,
    }
}

/// An event of a receiver that is full.
#[derive(Clone, Copy)]
pub enum RefusalEvent {
    /// It has as many connections as it holds, and refuses others.
    BeginsToRefuse,
    /// It has room again, and had refused this number of connections.
    RefusesNoMore { refused: u64 },
}

/// What the log has reported of the connections that a receiver refuses.
#[derive(Clone, Copy)]
pub struct LoggedRefusals {
    pub(crate) is_refusing: bool,
    // How many were refused at the last look, and before it began to refuse.
    pub(crate) refused: u64,
    pub(crate) before: u64,
}

impl LoggedRefusals {
    /// The log has reported nothing: no connection was refused.
    pub fn new() -> LoggedRefusals
        ensures { result ≡ record { is_refusing = false; refused = 0; before = 0 } }
    {
        LoggedRefusals {
            is_refusing: false,
            refused: 0,
            before: 0,
        }
    }

    /// Returns what the log reports of a receiver that has these counts now: that it begins to refuse connections,
    /// or that it has room again and refused none since the last look, with the number that it refused in between.
    pub fn look(&mut self, now: &ReceiverCounts) -> Option<RefusalEvent>
        ensures event { result ≡ refusal_event self.old now.now }
        ensures logged { self.new ≡ refusals_logged_after self.old now.now }
    {
        let refuses = now.refused != self.refused;
        let before = self.before;
        let logged = self.refused;
        self.refused = now.refused;
        if self.is_refusing && now.connections < MOST_CONNECTIONS && !refuses {
            self.is_refusing = false;
            return Some(RefusalEvent::RefusesNoMore {
                refused: now.refused.saturating_sub(before),
            });
        }
        if refuses && !self.is_refusing {
            self.is_refusing = true;
            self.before = logged;
            return Some(RefusalEvent::BeginsToRefuse);
        }
        None
    }
}
