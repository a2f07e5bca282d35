//! What is noted over all runs of a process.

ghost use Rattle.std.specs.Prelude.{◌≡◌, ◌+◌, ◌++◌, [], ◌∷◌, length, replicate, IfOk, OnOk};
ghost use Rattle.run_state.specs.RunNotes.{nothing_counted};

use crate::rest_notes::RestNotes;
use dest_queue::EarlierCounts;
use log_lines::DestNotes;
use relay_base::{NoMemory, add};
use std::alloc::Global;

/// What is noted of destinations over all runs of a process: a run that ends leaves it to the next one.
#[derive(Drop)]
pub struct RunNotes {
    /// By destination: the events of its connections, what its queues counted in runs that have ended, and how much of what
    /// these left is not sent.
    pub dests: Vec<DestNotes>,
    /// See there.
    pub earlier: Vec<EarlierCounts>,
    /// See there.
    pub rests: Vec<RestNotes>,
}

impl RunNotes {
    /// There is no destination. It takes no memory.
    pub fn none(alloc: Global) -> RunNotes
        ensures dests { result.dests.items ≡ [] }
        ensures earlier { result.earlier.items ≡ [] }
        ensures rests { result.rests.items ≡ [] }
    {
        RunNotes {
            dests: Vec::new(alloc),
            earlier: Vec::new(alloc),
            rests: Vec::new(alloc),
        }
    }

    /// Nothing has happened to so many destinations. Refuses if out of memory.
    pub fn new(alloc: Global, dests: usize) -> Result<RunNotes, NoMemory>
        ensures dests { IfOk result (λ notes. length notes.dests.items ≡ dests) }
        ensures earlier { IfOk result (λ notes. notes.earlier.items ≡ replicate dests nothing_counted) }
        ensures rests { IfOk result (λ notes. length notes.rests.items ≡ dests) }
    {
        let mut notes = RunNotes::none(alloc);
        for _ in 0..dests {
            if notes.add_dest().is_err() {
                drop(notes);
                return Err(NoMemory);
            }
        }
        Ok(notes)
    }

    /// Adds a destination to which nothing has happened.
    fn add_dest(&mut self) -> Result<(), NoMemory>
        ensures dests { OnOk result (length self.new.dests.items ≡ length self.old.dests.items + 1) }
        ensures earlier { OnOk result
            (self.new.earlier.items ≡ self.old.earlier.items ++ nothing_counted ∷ []) }
        ensures rests { OnOk result (length self.new.rests.items ≡ length self.old.rests.items + 1) }
    {
        add(&mut self.dests, DestNotes::new())?;
        add(&mut self.earlier, EarlierCounts::none())?;
        add(&mut self.rests, RestNotes::new(0))
    }
}
