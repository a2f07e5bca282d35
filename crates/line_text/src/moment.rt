//! Moments at which input was received.
ghost use Rattle.std.specs.Prelude.{◌≡◌, ℕ, ◌≤◌, SomeIff};
ghost use Rattle.line_text.specs.Time.{last_time};

use std::marker::Model;

/// A whole number of seconds, from 0 to 9,007,199,254,740,992 (two to the power 53).
#[derive(Clone, Copy, Debug)]
pub struct Moment {
    seconds: u64,
}

/// The last moment, and the last time of a datapoint, in seconds: two to the power 53.
pub const LAST_TIME: u64 = 9_007_199_254_740_992;

impl Model for Moment {
    ghost use Rattle.std.specs.Prelude.{ℕ, ◌≤◌};
    ghost use Rattle.line_text.specs.Time.{last_time};

    ghost Value = { ℕ };

    ghost view = { λ m. m.seconds };

    ghost invariant = { λ m. m.seconds ≤ last_time };

    ghost inverse = { λ seconds. record { seconds = seconds } };
}

impl Moment {
    /// The moment at this number of seconds, or `None` above 9,007,199,254,740,992.
    pub fn new(seconds: u64) -> Option<Moment>
        ensures { SomeIff result (seconds ≤ last_time) seconds }
    {
        if seconds <= LAST_TIME {
            Some(Moment { seconds })
        } else {
            None
        }
    }

    /// The seconds.
    pub fn seconds(self) -> u64
        ensures value { result ≡ self }
        ensures in_range { self ≤ last_time }
    {
        self.seconds
    }
}
