//! What a run begins with, before its queues are made.

ghost use Rattle.std.specs.Prelude.{◌≡◌, ◌≤◌, true, length, IfErr};
ghost use Rattle.relay_ports.specs.StartFault.{is_start_fault};

use crate::run_setup::RunSetup;
use crate::runtime::RelayRuntime;
use crate::shape::{Shape, shape_of};
use crate::shared_parts::SharedParts;
use crate::spool_folder::{SpoolFolder, open_files};
use conf_text::Settings;
use locked_queues::BlankTotals;
use relay_base::NoMemory;
use relay_files::{RelayFault, RunConfiguration};
use relay_ports::{Ports, bind_all};
use relay_watchers::{ReceiverLog, StatusServer};
use run_state::RunNotes;
use senders::HostThreads;
use spool::{OpenFault, SpoolFiles, Unopened};
use status_server::StatusListener;
use std::alloc::Global;
use std::time::Instant;
use store_lines::{DestCarryOver, DestSlots, GoneDests};

/// What a run begins with: all but its queues, and the totals of these.
#[derive(Drop)]
pub(crate) struct Start {
    pub(crate) begun: Begun,
    pub(crate) blank: BlankTotals,
}

/// What a run begins with beside its queues: its configuration and its numbers, its ports, which are bound, what its threads
/// share, and what ended runs left.
#[derive(Drop)]
pub(crate) struct Begun {
    pub(crate) configuration: RunConfiguration,
    pub(crate) shape: Shape,
    pub(crate) ports: Ports<StatusServer>,
    pub(crate) shared: SharedParts,
    pub(crate) carry_over: RunCarryOver,
    ghost dests: { (shape.dests ≡ length configuration.settings.routing.destinations)
        × (1 ≤ shape.dests) × (shape.dests ≤ 64) },
    ghost size: { (1 ≤ shape.size) × (shape.size ≤ 1000000) },
    ghost limit: { (1 ≤ shape.limit) × (shape.limit ≤ 10000) },
    ghost receivers: { (1 ≤ shape.receivers) × (shape.receivers ≤ 8) },
    ghost senders: { (1 ≤ shape.senders) × (shape.senders ≤ 8) },
}

/// The carry-over of a run, which ended runs left to it: what was noted, what is left for each of its destinations, in their
/// order, the destinations that are gone, what the log has reported of receivers, and its first lines.
#[derive(Drop)]
pub(crate) struct RunCarryOver {
    pub(crate) notes: RunNotes,
    pub(crate) slots: DestSlots,
    pub(crate) gone: GoneDests,
    pub(crate) logged: Vec<ReceiverLog>,
    pub(crate) news: String,
}

/// What all runs of a process have in common: how its program has them run, the threads that look hosts up, whether they are
/// recorded, and since when their milliseconds count.
#[derive(Drop)]
pub(crate) struct Process<'a, F> {
    pub(crate) setup: RunSetup<'a, F>,
    pub(crate) hosts: &'a HostThreads,
    pub(crate) is_recorded: bool,
    pub(crate) began: Option<Instant>,
}

impl<F> Process<'_, F> {
    /// How many bytes files may have while the relay runs, if it diverts destinations to files.
    pub(crate) fn spool_size(&self) -> Option<u64> {
        match self.setup.folder {
            Some(folder) => folder.size,
            None => None,
        }
    }

    /// The system's limit for the size of a file, in bytes, if there is one.
    pub(crate) fn file_limit(&self) -> Option<u64> {
        match self.setup.folder {
            Some(folder) => folder.limit,
            None => None,
        }
    }
}

impl Start {
    /// What the first run of a process begins with: binds the ports of its configuration, and reads the folder of what was not
    /// sent, if there is one. Refuses a fault of the start; what was bound is closed again.
    pub(crate) fn new<R: RelayRuntime, F>(
        rt: &R,
        alloc: Global,
        configuration: RunConfiguration,
        process: &Process<'_, F>,
    ) -> Result<Start, RelayFault>
        ensures { IfErr result (λ fault. is_start_fault fault ≡ true) }
    {
        let settings = configuration.settings();
        let ports = match bind_all(rt, alloc, settings, process.setup.options) {
            Ok(ports) => with_server(alloc, ports),
            Err(fault) => {
                drop(configuration);
                return Err(fault);
            }
        };
        let shape = shape_of(settings, ports.receivers.len(), process);
        match begin_with(rt, alloc, settings, &shape, process.setup.folder) {
            Ok((carry_over, blank, shared)) => {
                let begun = Begun {
                    configuration,
                    shape,
                    ports,
                    shared,
                    carry_over,
                };
                Ok(Start { begun, blank })
            }
            Err(fault) => {
                drop(configuration);
                drop(ports);
                Err(fault)
            }
        }
    }
}

/// The ports, with the status server in place of its listener.
fn with_server(alloc: Global, ports: Ports<StatusListener>) -> Ports<StatusServer> {
    let Ports {
        receivers,
        known,
        first,
        status,
    } = ports;
    let status = match status {
        Some(listener) => Some(StatusServer::new(alloc, listener)),
        None => None,
    };
    Ports {
        receivers,
        known,
        first,
        status,
    }
}

/// The fault of a start, where the files of the folder are not open: the folder says which file cannot be used, and what was done
/// before.
fn put_fault(folder: Option<SpoolFolder<'_>>, unopened: Unopened) -> RelayFault
    ensures { is_start_fault result ≡ true }
{
    let Unopened { fault, news } = unopened;
    match folder {
        Some(folder) => folder.fault.put_news(news),
        None => drop(news),
    }
    match (folder, fault) {
        (Some(folder), OpenFault::File(text)) => {
            folder.fault.put(text);
            RelayFault::Output
        }
        (_, fault) => {
            drop(fault);
            RelayFault::NoMemory
        }
    }
}

/// What the first run of a process finds in the folder of what was not sent, the totals of its queues, and what its threads
/// share.
fn begin_with<R: RelayRuntime>(
    rt: &R,
    alloc: Global,
    settings: &Settings,
    shape: &Shape,
    folder: Option<SpoolFolder<'_>>,
) -> Result<(RunCarryOver, BlankTotals, SharedParts), RelayFault>
    ensures { IfErr result (λ fault. is_start_fault fault ≡ true) }
{
    let (carry_over, blank) = match found_by(rt, alloc, settings, shape, folder) {
        Ok(found) => found,
        Err(unopened) => return Err(put_fault(folder, unopened)),
    };
    match SharedParts::new(rt, alloc, *shape, false) {
        Ok(shared) => Ok((carry_over, blank, shared)),
        Err(fault) => {
            drop(carry_over);
            drop(blank);
            Err(fault)
        }
    }
}

/// What the first run of a process finds in the folder of what was not sent, and the totals of its queues.
fn found_by<R: RelayRuntime>(
    rt: &R,
    alloc: Global,
    settings: &Settings,
    shape: &Shape,
    folder: Option<SpoolFolder<'_>>,
) -> Result<(RunCarryOver, BlankTotals), Unopened> {
    let files = match open_files(rt, alloc, settings.destinations(), folder) {
        Ok(files) => files,
        Err(unopened) => return Err(unopened),
    };
    let Ok(carry_over) = RunCarryOver::first(alloc, shape, files) else {
        return Err(Unopened::no_memory(alloc));
    };
    match BlankTotals::new(alloc) {
        Ok(blank) => Ok((carry_over, blank)),
        Err(NoMemory) => {
            drop(carry_over);
            Err(Unopened::no_memory(alloc))
        }
    }
}

impl RunCarryOver {
    /// What the first run of a process begins with: the files of its destinations. Refuses if out of memory.
    pub(crate) fn first(
        alloc: Global,
        shape: &Shape,
        files: SpoolFiles,
    ) -> Result<RunCarryOver, NoMemory> {
        let SpoolFiles { dests, news } = files;
        let mut slots = DestSlots::new(alloc, dests.len())?;
        for (place, files) in dests.into_iter().enumerate() {
            slots.put(place, DestCarryOver::with_files(files));
        }
        Ok(RunCarryOver {
            notes: RunNotes::new(alloc, shape.dests)?,
            slots,
            gone: GoneDests::with_room(alloc, 0)?,
            logged: Vec::new(alloc),
            news,
        })
    }
}
