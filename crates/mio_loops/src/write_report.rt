//! The report of a turn of a write loop.
ghost use Rattle.std.specs.Prelude.{◌≡◌, ◌+◌, ◌<◌, ◌^◌, if◌then◌else◌};
ghost use Rattle.std.specs.Option.{is_some};
ghost use Rattle.mio_loops.specs.WriteAnswers.{has_failed};

use dest_writer::Driven;

/// How many connections a turn of a write loop served, and how their drives were answered.
#[derive(Clone, Copy, Debug, PartialEq)]
pub struct WriteReport {
    /// How many drives were made, one for each connection that was served.
    pub served: usize,
    /// How many of them failed. Their connections are closed.
    pub failed: usize,
}

impl WriteReport {
    /// Nothing was served.
    pub(crate) fn new() -> WriteReport
        ensures { result ≡ record { served = 0; failed = 0 } }
    {
        WriteReport {
            served: 0,
            failed: 0,
        }
    }

    /// Counts the turn of a destination: how its drive was answered, if it was served.
    pub(crate) fn count(&mut self, answer: Option<Driven>)
        requires served { self.old.served < 2 ^ 32 }
        requires failed { self.old.failed < 2 ^ 32 }
        ensures { self.new ≡ record {
          served = self.old.served + (if is_some answer then 1 else 0);
          failed = self.old.failed + (if has_failed answer then 1 else 0);
        } }
    {
        match answer {
            None => {}
            Some(Driven::Failed) => {
                self.served += 1;
                self.failed += 1;
            }
            Some(Driven::Idle | Driven::Blocked | Driven::Again) => self.served += 1,
        }
    }
}
