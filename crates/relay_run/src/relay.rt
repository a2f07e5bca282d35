//! What a run is made of.

ghost use Rattle.std.specs.Prelude.{◌≡◌, ◌≤◌, true, length, IfErr};
ghost use Rattle.relay_ports.specs.StartFault.{is_start_fault};

use crate::shape::Shape;
use crate::shared_parts::SharedParts;
use crate::start::{Begun, Process, RunCarryOver, Start};
use finished_run::{FinishedRun, ThreadLogs};
use live_watch::WatchPlaces;
use locked_queues::{
    DoorSeat, MOST_RECEIVERS, Opened, OutletSeat, Queues, Set, SettleFault, Settled,
};
use mio_loops::Readiness;
use relay_base::{LARGEST_MESSAGE, LARGEST_QUEUE_SIZE, MOST_DESTINATIONS};
use relay_files::{RelayFault, RunConfiguration};
use relay_ports::{FirstPorts, Inlet, Ports, RunReceivers};
use relay_watchers::{LateNews, ReceiverLog, StatusServer};
use run_state::{DestSources, RunState};
use senders::WakeGate;
use std::alloc::Global;
use std::sync::Wait;
use std::time::Instant;
use store_lines::{DestSlots, Diversions, GoneDests};

/// The name of the set of queues; a run has one.
pub(crate) const NAME: u64 = 1;

/// What a run is made of, and its threads borrow: its configuration and its numbers, its queues, the gate that wakes the
/// senders, and what the threads share beside these; what is left for destinations between two runs, and for those that are gone,
/// with what wakes their sender; the destinations that may be diverted to files, with what wakes the keeper of these; its
/// receivers; what the first thread has for the log; and where receivers hand over what they
/// note for a watch.
#[derive(Drop)]
pub(crate) struct Relay<B: Set> {
    pub(crate) configuration: RunConfiguration,
    pub(crate) shape: Shape,
    pub(crate) queues: Queues<B>,
    pub(crate) gate: WakeGate,
    pub(crate) state: RunState,
    pub(crate) slots: DestSlots,
    pub(crate) gone: GoneDests,
    pub(crate) gone_gate: WakeGate,
    pub(crate) diversions: Diversions,
    pub(crate) keeper_gate: WakeGate,
    pub(crate) receivers: RunReceivers,
    pub(crate) late_news: LateNews,
    pub(crate) watches: WatchPlaces,
    // Since when its milliseconds count, its number, from 1 on, and the system's limit for the size of a file.
    pub(crate) began: Option<Instant>,
    pub(crate) number: u64,
    pub(crate) file_limit: Option<u64>,
    ghost dests: { (shape.dests ≡ B.dests) × (1 ≤ shape.dests) × (shape.dests ≤ 64) },
    ghost all: { length configuration.settings.routing.destinations ≡ B.dests },
    ghost size: { (1 ≤ shape.size) × (shape.size ≤ 1000000) },
    ghost limit: { (1 ≤ shape.limit) × (shape.limit ≤ 10000) },
    ghost readers: { (1 ≤ shape.receivers) × (shape.receivers ≤ 8) },
}

/// An open relay: what its threads borrow, what each of them is given, and the ports of the first one.
#[derive(Drop)]
pub(crate) struct OpenRelay<B: Set, L> {
    pub(crate) relay: Relay<B>,
    pub(crate) parts: Parts<B, L>,
    pub(crate) ports: FirstPorts,
}

/// What the threads of a run are given, each its part: the seats of doors and of outlets, what receivers receive with, what each
/// sender, the sender to destinations that are gone and the keeper of files wait with, and what the watching threads get.
#[derive(Drop)]
pub(crate) struct Parts<B: Set, L> {
    pub(crate) doors: Vec<DoorSeat<B>>,
    pub(crate) outlets: Vec<OutletSeat<B>>,
    pub(crate) receivers: Vec<Inlet>,
    pub(crate) watches: Vec<Readiness>,
    pub(crate) gone_watch: Option<Readiness>,
    pub(crate) keeper_watch: Option<Readiness>,
    pub(crate) watching: Watching<L>,
}

/// What those get that watch the other threads: the output of the log, if there is to be one, with its first lines, and what it
/// has reported of receivers; and the status server, if there is one.
#[derive(Drop)]
pub(crate) struct Watching<L> {
    pub(crate) log: Option<L>,
    pub(crate) news: String,
    pub(crate) logged: Vec<ReceiverLog>,
    pub(crate) status: Option<StatusServer>,
}

/// Why a relay cannot be opened, and what ended runs left.
#[derive(Drop)]
pub(crate) struct RefusedStart {
    pub(crate) fault: RelayFault,
    pub(crate) carry_over: RunCarryOver,
}

impl<B: Set> Relay<B> {
    /// Opens the relay of a run of this number, whose log goes to this output, if it has one. Refuses if out of memory, and gives
    /// back what ended runs left.
    pub(crate) fn open<L: Drop, F>(
        alloc: Global,
        start: Start,
        log: Option<L>,
        process: &Process<'_, F>,
        number: u64,
    ) -> Result<OpenRelay<B, L>, RefusedStart>
        requires table { start.blank ≡ B.table }
        requires name { NAME ≡ B.name }
        requires dests { start.begun.shape.dests ≡ B.dests }
        requires size { start.begun.shape.size ≡ B.size }
        requires receivers { start.begun.shape.receivers ≡ B.receivers }
        requires senders { start.begun.shape.senders ≡ B.senders }
        ensures { IfErr result (λ refused. is_start_fault refused.fault ≡ true) }
    {
        let Start { begun, blank } = start;
        let (dests, size) = (begun.shape.dests, begun.shape.size);
        let (receivers, senders) = (begun.shape.receivers, begun.shape.senders);
        match Queues::<B>::new(alloc, blank, NAME, dests, size, receivers, senders) {
            Ok(opened) => Ok(open_relay(begun, opened, log, process, number)),
            Err(_) => {
                drop(log);
                Err(RefusedStart {
                    fault: RelayFault::NoMemory,
                    carry_over: begun.carry_over,
                })
            }
        }
    }

    /// Whether no run was before.
    pub(crate) fn is_first(&self) -> bool {
        self.number <= 1
    }

    /// Its destinations, with their events.
    pub(crate) fn noted(&self) -> DestSources<'_>
        ensures { result.dests.now ≡ self.now.configuration.settings.routing.destinations }
    {
        self.state
            .noted(self.configuration.settings().destinations())
    }

    /// The log says these lines, if there are some.
    pub(crate) fn say<R: Wait>(&self, rt: &R, news: String) {
        if news.is_empty() {
            drop(news);
        } else {
            self.late_news.put(rt, news);
        }
    }

    /// What the run has left, for its recorder.
    pub(crate) fn finished<'x>(
        &'x self,
        settled: &'x Result<Settled, SettleFault>,
        logs: &'x ThreadLogs,
    ) -> FinishedRun<'x>
        ensures dests { length result.configuration.now.settings.routing.destinations
            ≡ result.shape.dests }
        ensures size { (1 ≤ result.shape.size) × (result.shape.size ≤ LARGEST_QUEUE_SIZE) }
        ensures limit { (1 ≤ result.shape.limit) × (result.shape.limit ≤ LARGEST_MESSAGE) }
    {
        FinishedRun {
            configuration: &self.configuration,
            shape: self.shape.recorded(),
            settled,
            logs,
        }
    }
}

/// An open relay of a run of this number, with what its threads are given.
fn open_relay<B: Set, L: Drop, F>(
    begun: Begun,
    opened: Opened<B>,
    log: Option<L>,
    process: &Process<'_, F>,
    number: u64,
) -> OpenRelay<B, L>
    requires dests { begun.shape.dests ≡ B.dests }
{
    let Begun {
        configuration,
        shape,
        ports,
        shared,
        carry_over,
    } = begun;
    let Opened {
        queues,
        doors,
        outlets,
    } = opened;
    let SharedParts {
        gate,
        state,
        gone_gate,
        gone_watch,
        mut diversions,
        keeper_gate,
        keeper_watch,
        watches,
    } = shared;
    let RunCarryOver {
        notes,
        mut slots,
        gone,
        logged,
        news,
    } = carry_over;
    let Ports {
        receivers,
        known,
        first,
        status,
    } = ports;
    slots.note_waiting(state.spool_notes());
    diversions.begin(&mut slots, state.spool_notes());
    OpenRelay {
        relay: Relay {
            configuration,
            shape,
            queues,
            gate,
            state: state.with_notes(notes),
            slots,
            gone,
            gone_gate,
            diversions,
            keeper_gate,
            receivers: known,
            late_news: LateNews::none(),
            watches: WatchPlaces::new(),
            began: process.began,
            number,
            file_limit: process.file_limit(),
        },
        parts: Parts {
            doors,
            outlets,
            receivers,
            watches,
            gone_watch,
            keeper_watch,
            watching: Watching {
                log,
                news,
                logged,
                status,
            },
        },
        ports: first,
    }
}
