//! What the threads of a run share beside its queues.
//!
//! It borrows nothing of the run. So a reload makes it before it ends the run before, and holds it.

ghost use Rattle.std.specs.Prelude.{◌≡◌, true, IfErr};
ghost use Rattle.relay_ports.specs.StartFault.{is_start_fault};

use crate::sender_setup::{alarms_of, watches_of};
use crate::shape::Shape;
use mio_loops::Readiness;
use relay_files::RelayFault;
use run_state::RunState;
use senders::WakeGate;
use std::alloc::Global;
use std::net::Net;
use store_lines::Diversions;

/// What a relay has beside its queues: the gate that wakes the senders, what its threads share, and what each sender, the sender
/// to destinations that are gone and the keeper of files wait with.
#[derive(Drop)]
pub(crate) struct SharedParts {
    pub(crate) gate: WakeGate,
    pub(crate) state: RunState,
    pub(crate) gone_gate: WakeGate,
    pub(crate) gone_watch: Option<Readiness>,
    pub(crate) diversions: Diversions,
    pub(crate) keeper_gate: WakeGate,
    pub(crate) keeper_watch: Option<Readiness>,
    pub(crate) watches: Vec<Readiness>,
}

impl SharedParts {
    /// Those of a run of this shape: of its settings only the number of destinations matters. That of the sender to destinations
    /// that are gone is there if there may be such. Refuses what the system refuses, and if out of memory.
    pub(crate) fn new(
        rt: &impl Net,
        alloc: Global,
        shape: Shape,
        may_be_gone: bool,
    ) -> Result<SharedParts, RelayFault>
        ensures { IfErr result (λ fault. is_start_fault fault ≡ true) }
    {
        let watches = watches_of(rt, alloc, shape.senders)?;
        let alarms = alarms_of(alloc, watches.as_slice())?;
        let (gone_watch, gone_gate) = watch_of(rt, alloc, may_be_gone)?;
        let (keeper_watch, keeper_gate) = watch_of(rt, alloc, shape.spool_size.is_some())?;
        let diversions = Diversions::new(alloc, shape.diverted_dests())?;
        let state = RunState::new(
            alloc,
            shape.dests,
            shape.options.line_receivers.count(),
            shape.options.drain,
            shape.kept_size(),
        )?;
        Ok(SharedParts {
            gate: WakeGate::new(alarms),
            state,
            gone_gate,
            gone_watch,
            diversions,
            keeper_gate,
            keeper_watch,
            watches,
        })
    }

    /// No destination is gone: what would wait for one ends. It takes no memory.
    pub(crate) fn drop_gone(&mut self, alloc: Global) {
        self.gone_gate = WakeGate::new(Vec::new(alloc));
        self.gone_watch = None;
    }
}

/// What the sender to destinations that are gone waits with, or the keeper of files, and the gate that wakes it; none if there
/// may be none.
fn watch_of(
    rt: &impl Net,
    alloc: Global,
    may_be_one: bool,
) -> Result<(Option<Readiness>, WakeGate), RelayFault>
    ensures { IfErr result (λ fault. is_start_fault fault ≡ true) }
{
    let mut watches = watches_of(rt, alloc, usize::from(may_be_one))?;
    let alarms = alarms_of(alloc, watches.as_slice())?;
    Ok((watches.pop(), WakeGate::new(alarms)))
}
