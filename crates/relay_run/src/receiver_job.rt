//! The work of a receiver's thread.

ghost use Rattle.std.specs.Prelude.{◌≡◌, ◌≤◌, length, Some};
ghost use Rattle.relay_run.specs.Running.{fault_of_plan};

use finished_run::FedLog;
use live_watch::kind_of;
use locked_queues::{DoorRecord, LockedDoor, Set};
use mio_loops::{InputLog, ReadinessFault};
use reader_core::ReaderKind;
use receivers::ReceiverRecord;
use relay_files::{RelayFault, RunConfiguration};
use relay_ports::PortReceiver;
use run_state::{Signals, ThreadWork};
use run_threads::ThreadEnd;
use senders::WakeGate;
use std::alloc::{AllocError, Global};
use std::rt::Clock;
use std::sync::Wait;

/// A receiver that is to run: what receives at its port, the configuration that routes what it receives, and its
/// door, which has all of its destinations. Its thread makes the plan: a plan stays in one thread.
#[derive(Drop)]
pub(crate) struct ReceiverJob<'d, B: Set, R: Wait> {
    pub(crate) port: PortReceiver<'d>,
    pub(crate) configuration: &'d RunConfiguration,
    pub(crate) door: LockedDoor<'d, B, R, WakeGate>,
    // Whether its thread returns what its readers were fed, or drops it at its end.
    pub(crate) is_recorded: bool,
    ghost dests: { length configuration.now.settings.routing.destinations
        ≤ length door.made.totals },
}

impl<'d, B: Set, R: Wait + Clock> ThreadWork<R, ThreadEnd<DoorRecord, FedLog>>
    for ReceiverJob<'d, B, R> {
    fn name(&self, alloc: Global) -> Result<String, AllocError> {
        String::from_str(alloc, self.port.inlet.name().text())
    }

    fn work(self, rt: &R, alloc: Global, signals: &Signals) -> ThreadEnd<DoorRecord, FedLog> {
        let receiver = self.port.number;
        let end = receive_until_stopped(self, rt, alloc, signals);
        signals.note_receiver_end(receiver, end.fault);
        end
    }
}

/// Makes the plan, and receives until the receiver's stop flag is set, or a fault.
fn receive_until_stopped<B: Set, R: Wait + Clock>(
    job: ReceiverJob<'_, B, R>,
    rt: &R,
    alloc: Global,
    signals: &Signals,
) -> ThreadEnd<DoorRecord, FedLog> {
    let ReceiverJob {
        port,
        configuration,
        door,
        is_recorded,
    } = job;
    let kind = kind_of(port.inlet.name());
    let left = match configuration.plan(alloc) {
        Ok(plan) => port.receive(rt, alloc, plan, door, signals),
        Err(fault) => receive_nothing(alloc, port, door, fault_of_plan(fault)),
    };
    ThreadEnd {
        fault: left.fault,
        log: log_of(is_recorded, kind, left.log),
        record: left.door.close(),
    }
}

/// The fault of a receiver whose plan could not be made again: there was no memory, or `regex` refused a pattern that it
/// had accepted before, and then its input failed (`Device`).
fn fault_of_plan(fault: RelayFault) -> ReadinessFault
    ensures { result ≡ fault_of_plan fault }
{
    match fault {
        RelayFault::NoMemory => ReadinessFault::NoMemory,
        _ => ReadinessFault::Device,
    }
}

/// What a receiver leaves that has no plan, for this fault.
fn receive_nothing<D>(
    alloc: Global,
    port: PortReceiver<'_>,
    door: D,
    fault: ReadinessFault,
) -> ReceiverRecord<D>
    ensures { result.fault ≡ Some fault }
{
    drop(port);
    ReceiverRecord {
        door,
        log: InputLog::none(alloc),
        fault: Some(fault),
    }
}

/// The log of readers of a kind, if the run is recorded.
fn log_of(is_recorded: bool, kind: ReaderKind, log: InputLog) -> Option<FedLog> {
    if is_recorded {
        Some(FedLog { kind, log })
    } else {
        None
    }
}
