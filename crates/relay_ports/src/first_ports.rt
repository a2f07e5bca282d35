//! The ports that the first thread keeps from one run to the next.

ghost use Rattle.std.specs.Prelude.{◌≡◌, true, IfErr};
ghost use Rattle.relay_ports.specs.StartFault.{is_start_fault};

use crate::descriptors::{DESCRIPTORS_EACH, has_room_for};
use crate::inlet::Inlet;
use crate::receiver_ports::ReceiverPorts;
use crate::run_receivers::RunReceivers;
use crate::said_refusals::SaidRefusals;
use crate::system_tables::SystemTables;
use admin_port::AdminListener;
use conf_text::Settings;
use config_changes::ChangedPorts;
use receivers::ReceiverControl;
use relay_files::{ListenRole, RelayFault};
use relay_options::RunOptions;
use std::alloc::Global;
use std::net::Net;
use std::sync::Arc;

/// The ports that the first thread keeps from one run to the next: that of commands, with what the log has of those that were
/// refused there, and another of each port of receivers, so that these stay open between two runs.
#[derive(Drop)]
pub struct FirstPorts {
    /// The port of commands.
    pub admin: AdminListener,
    /// What the log has of those that were refused there.
    pub said: SaidRefusals,
    // Another of each port of receivers.
    pub(crate) kept: ReceiverPorts,
}

/// The ports of receivers that are bound for a run that follows, and which those are that change: each of these is bound here, or is
/// none any more.
#[derive(Drop)]
pub struct NewPorts {
    bound: ReceiverPorts,
    changed: ChangedPorts,
}

impl NewPorts {
    /// None changes.
    pub fn none() -> NewPorts {
        NewPorts {
            bound: ReceiverPorts::none(),
            changed: ChangedPorts::none(),
        }
    }

    /// Which of them change.
    pub fn changed(&self) -> ChangedPorts {
        self.changed
    }
}

/// The receivers of a run that follows: what receives at their ports, what the first thread knows of them, and the ports of which it
/// is to keep others; and what closes and wakes the receivers of the run before whose ports these are not.
#[derive(Drop)]
pub struct NextReceivers {
    /// What receives at each port.
    pub inlets: Vec<Inlet>,
    /// What the first thread knows of them.
    pub receivers: RunReceivers,
    /// The ports that change.
    pub ports: NewPorts,
    /// Those of the run before that end with their ports.
    pub leaving: Vec<Arc<ReceiverControl>>,
}

impl FirstPorts {
    /// Binds the ports of these settings that change, and those alone: the others stay as they are. Refuses (`Listen`) the first that
    /// the system does not bind, or of the admin port if it has too few descriptors for what more receivers may hold; what was
    /// bound is closed again.
    pub fn bind_changed<R: Net>(
        &self,
        rt: &R,
        alloc: Global,
        settings: &Settings,
        options: RunOptions,
        changed: ChangedPorts,
    ) -> Result<NewPorts, RelayFault>
        ensures { IfErr result (λ fault. is_start_fault fault ≡ true) }
    {
        let mut bound = ReceiverPorts::bind(rt, settings, changed)?;
        let has_room = match self.kept.room() {
            Some(room) => {
                bound.set_room(room)?;
                true
            }
            None => {
                !bound.adds_streams_to(&self.kept) || has_room_for(rt, alloc, settings, options)?
            }
        };
        if has_room {
            Ok(NewPorts { bound, changed })
        } else {
            drop(bound);
            Err(RelayFault::Listen {
                role: ListenRole::Admin,
            })
        }
    }

    /// The receivers of one more run, with these ports where they change: they borrow nothing of this run, whose receivers these are.
    /// Refuses (`Listen`) what the system refuses, and `NoMemory` if out of memory.
    pub fn receivers_after<R: Net + SystemTables>(
        &self,
        rt: &R,
        alloc: Global,
        before: &RunReceivers,
        ports: NewPorts,
        options: RunOptions,
    ) -> Result<NextReceivers, RelayFault>
        ensures { IfErr result (λ fault. is_start_fault fault ≡ true) }
    {
        let changed = ports.changed;
        let of_run = self.kept.after(&ports.bound, changed);
        let mut inlets = of_run.inlets(rt, alloc, options.line_receivers.count())?;
        let receivers = RunReceivers::after(alloc, before, changed, &mut inlets, options.idle)?;
        let leaving = before.leaving(alloc, changed)?;
        Ok(NextReceivers {
            inlets,
            receivers,
            ports,
            leaving,
        })
    }

    /// From now on these ports are there where they change, and those before them are closed.
    pub fn replace(&mut self, ports: NewPorts) {
        let NewPorts { bound, changed } = ports;
        self.kept.replace(bound, changed);
    }

    /// So many stores and receivers had descriptors, and from now on so many have: producers get the others, if their number is
    /// limited.
    pub fn keep_for_others(&self, before: Holders, now: Holders) {
        if let Some(room) = self.kept.room() {
            room.keep_for_others(before.descriptors(), now.descriptors());
        }
    }

    /// The ports of receivers end with those of the run.
    pub fn shut(&mut self) {
        self.kept = ReceiverPorts::none();
    }
}

/// Who holds descriptors in a run, beside producers: how many stores, and how many receivers.
#[derive(Clone, Copy)]
pub struct Holders {
    /// The stores.
    pub stores: usize,
    /// The receivers.
    pub receivers: usize,
}

impl Holders {
    /// How many descriptors they hold.
    fn descriptors(self) -> usize {
        self.stores
            .saturating_add(self.receivers.saturating_mul(DESCRIPTORS_EACH))
    }
}
