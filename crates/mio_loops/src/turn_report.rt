//! The report of a turn of a read loop.
ghost use Rattle.std.specs.Prelude.{◌≡◌, ◌+◌, if◌then◌else◌, is_some};
ghost use Rattle.mio_loops.specs.ReadTurn.{has_ended, has_failed, has_starved, is_refused, IsAtMost};

use crate::served::Served;
use relay_base::MOST_CONNECTIONS;

/// How many connections a turn of a read loop served, and how many of them left, and how.
#[derive(Clone, Copy, Debug)]
pub struct TurnReport {
    /// How many connections were served, each once.
    pub served: usize,
    /// How many of them ended, or were closed for a line or a frame that was too long.
    pub ended: usize,
    /// How many of them failed.
    pub failed: usize,
    /// How many of them left since there was no memory for their bytes.
    pub starved: usize,
    /// How many of them left since an offer was refused.
    pub refused: usize,
}

impl TurnReport {
    /// Nothing was served.
    pub(crate) fn new() -> TurnReport
        ensures { result ≡ record { served = 0; ended = 0; failed = 0; starved = 0; refused = 0 } }
    {
        TurnReport {
            served: 0,
            ended: 0,
            failed: 0,
            starved: 0,
            refused: 0,
        }
    }

    /// Counts how the connection of a token was served, if it was. A turn counts each of [`MOST_CONNECTIONS`] once.
    pub(crate) fn count(&mut self, answer: Option<Served>)
        requires { IsAtMost MOST_CONNECTIONS self.old }
        ensures { self.new ≡ record {
          served = self.old.served + (if is_some answer then 1 else 0);
          ended = self.old.ended + (if has_ended answer then 1 else 0);
          failed = self.old.failed + (if has_failed answer then 1 else 0);
          starved = self.old.starved + (if has_starved answer then 1 else 0);
          refused = self.old.refused + (if is_refused answer then 1 else 0);
        } }
    {
        match answer {
            None => {}
            Some(Served::Ended) => {
                self.served += 1;
                self.ended += 1;
            }
            Some(Served::Failed) => {
                self.served += 1;
                self.failed += 1;
            }
            Some(Served::Starved) => {
                self.served += 1;
                self.starved += 1;
            }
            Some(Served::Refused) => {
                self.served += 1;
                self.refused += 1;
            }
            Some(Served::Drained | Served::Again) => self.served += 1,
        }
    }
}
