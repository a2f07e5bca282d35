//! The clocks of the system.

use crate::time_source::TimeSource;
use line_text::{LAST_TIME, Moment};
use std::rt::Clock;
use std::time::Instant;

/// Reads the clocks of the system. Its milliseconds count from the call of [`SystemTimes::new`], or from an instant before.
///
/// If a clock cannot be read, the moment is 0 and no millisecond has passed.
#[derive(Drop)]
pub struct SystemTimes<'r, R> {
    rt: &'r R,
    start: Option<Instant>,
}

impl<'r, R: Clock> SystemTimes<'r, R> {
    /// The clocks, from this call on.
    pub fn new(rt: &'r R) -> SystemTimes<'r, R> {
        SystemTimes {
            rt,
            start: Instant::now(rt).ok(),
        }
    }

    /// The clocks, whose milliseconds count from an instant; if that is not known, none passes.
    pub fn since(rt: &'r R, start: Option<Instant>) -> SystemTimes<'r, R> {
        SystemTimes { rt, start }
    }
}

impl<R: Clock> TimeSource for SystemTimes<'_, R> {
    ghost use Rattle.std.specs.Prelude.{true};

    // Clauses know nothing of the system's clock.
    ghost may_give = { λ times moment. true };

    fn moment(&self) -> Moment {
        let seconds = match self.rt.since_1970() {
            Ok(time) => time.as_secs(),
            Err(_) => 0,
        };
        match Moment::new(seconds.min(LAST_TIME)) {
            Some(moment) => moment,
            None => unreachable!(),
        }
    }

    fn millis(&self) -> u64 {
        match self.start {
            Some(start) => millis_since(self.rt, start),
            None => 0,
        }
    }
}

/// How many milliseconds have passed since an instant, at most 18,446,744,073,709,551,615.
fn millis_since<R: Clock>(rt: &R, start: Instant) -> u64 {
    match start.elapsed(rt) {
        Ok(time) => u64::try_from(time.as_millis()).unwrap_or(u64::MAX),
        Err(_) => 0,
    }
}
