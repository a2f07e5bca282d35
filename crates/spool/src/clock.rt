//! The time.

use std::rt::Clock;
use std::time::{SystemTime, UNIX_EPOCH};

/// The time now, in seconds since 1970; 0 if the system does not say.
pub fn clock_seconds<R: Clock>(rt: &R) -> u64 {
    let Ok(now) = SystemTime::now(rt) else {
        return 0;
    };
    match now.duration_since(UNIX_EPOCH) {
        Ok(passed) => passed.as_secs(),
        Err(_) => 0,
    }
}
