//! The parts of a run, and why they have no script.

ghost use Rattle.std.specs.Prelude.{◌≡◌};
ghost use Rattle.run_record.specs.declared.parts.RunScriptFault.TheVariants.{NoMemory as OutOfMemory};

use dest_queue::{Counts, Step};
use reader_core::ReaderKind;
use relay_base::NoMemory;
use relay_core::Event;
use thiserror::Error;

/// What the readers, the writers and the queues of a run did, each in its own order.
#[derive(Clone, Copy, Drop)]
pub struct RunParts<'p, 'b> {
    /// The kind of each reader.
    pub kinds: &'p [ReaderKind],
    /// What each reader was fed: its pieces, and the ends of its connections.
    pub fed: &'p [Vec<Event<'b>>],
    /// What each destination's writer did: its connections, takes, writes and losses.
    pub written: &'p [Vec<Event<'b>>],
    /// The history of each queue.
    pub histories: &'p [Vec<Step>],
    /// The order of the histories' steps: the number [`dest_queue::MOST_STEPS`] `d` + `i` is step `i` of destination `d`.
    pub order: &'p [u64],
    /// What each queue has counted at the end.
    pub counts: &'p [Counts],
}

/// Why a run has no script.
#[derive(Clone, Copy, Debug, Error)]
pub enum RunScriptFault {
    /// A datagram had no bytes: a script has no line for it.
    #[error("an empty datagram was received")]
    EmptyDatagram,
    /// The parts together are no run with these counts, or a list has an event of another part.
    #[error("the parts are not one run")]
    NotOneRun,
    /// Out of memory.
    #[error("no memory")]
    NoMemory,
}

impl<E: Into<NoMemory> + Drop> From<E> for RunScriptFault {
    ghost from_gives = { λ _ fault. fault ≡ OutOfMemory };

    fn from(_error: E) -> RunScriptFault {
        RunScriptFault::NoMemory
    }
}
