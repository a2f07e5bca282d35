//! The work of a sender until it is stopped.

ghost use Rattle.std.specs.Prelude.{◌≡◌, ◌≤◌, IfSome};
ghost use Rattle.queue_records.specs.Takes.{IsHandedBy};
ghost use Rattle.senders.specs.Steps.{AllUpOwned, SomeProgress};
ghost use Rattle.senders.specs.Record.{SenderEnds, EndsFor, AreNone};

use crate::connect::{Connect, HandOver, Stores};
use crate::counted_supply::CountedSupply;
use crate::turn::take_turn;
use mio_loops::{LeftTaker, LeftWriter, ReadinessFault, StopFlag, TimeSource, WriteLog, WriteLoop};
use queue_records::{MOST_DESTS, Supply};
use relay_base::{DestId, LARGEST_MESSAGE};
use std::alloc::Global;
use std::sync::Wait;

/// How many milliseconds the peers of connections may take to read to their end once the sender is stopped.
const LONGEST_END_MS: u64 = 1_000;

/// Takes batches of the destinations that the supply owns, and writes them to their connections, until the
/// stop flag is set: the sender ends after the turn that sees it. It does not write what is still queued or
/// in hand: the connector is given that ([`HandOver::hand_over`]).
///
/// There are 1 to [`MOST_DESTS`] destinations, and the limit of a batch is 1 to [`LARGEST_MESSAGE`]. It ends early if
/// the loop finds no memory at its beginning (`NoMemory`), and if a wait of the connector fails (`Device`).
pub fn send_batches<R: Wait, N: HandOver + Drop, S: Supply + Drop, T: TimeSource, F: StopFlag>(
    rt: &R,
    alloc: Global,
    sender: BatchSender<N, S>,
    times: &T,
    stop: &F,
) -> SenderRecord<S>
    requires dests { (1 ≤ sender.dests) × (sender.dests ≤ MOST_DESTS) }
    requires limit { (1 ≤ sender.limit) × (sender.limit ≤ LARGEST_MESSAGE) }
    ensures ran { SenderEnds (IsHandedBy S.record_of S.may_hand) sender.dests sender.limit
        result.fault result.logs.items (S.record_of sender.supply) (S.record_of result.outlet) }
    ensures fault { EndsFor result.fault result.logs.items (S.record_of sender.supply)
        (S.record_of result.outlet) }
{
    let BatchSender {
        mut connector,
        dests,
        limit,
        supply,
    } = sender;
    let Ok(mut writes) = WriteLoop::new(alloc, dests, limit) else {
        connector.end();
        return SenderRecord {
            outlet: supply,
            logs: no_logs(alloc, dests),
            fault: Some(ReadinessFault::NoMemory),
        };
    };
    let mut supply = CountedSupply::new(supply);
    let fault = take_turns(rt, &mut connector, &mut writes, &mut supply, times, stop);
    end_connections(rt, &mut connector, times);
    let logs = writes.release(&mut ToConnector {
        connector: &mut connector,
    });
    connector.end();
    SenderRecord {
        outlet: supply.into_supply(),
        logs,
        fault,
    }
}

/// Takes turns until the stop flag is set. Returns the fault of a wait that failed.
fn take_turns<R: Wait, N: Connect, S: Supply, T: TimeSource, F: StopFlag>(
    rt: &R,
    connector: &mut N,
    writes: &mut WriteLoop<N::Sink>,
    supply: &mut CountedSupply<S>,
    times: &T,
    stop: &F,
) -> Option<ReadinessFault>
    requires owned { AllUpOwned (S.is_owned supply.old.supply) writes.old }
    ensures went { SomeProgress (IsHandedBy S.record_of S.may_hand) writes.old writes.new (S.record_of supply.old.supply)
        (S.record_of supply.new.supply) }
    ensures device { IfSome result (λ fault. fault ≡ ReadinessFault.Device) }
{
    for _ in rt.forever() {
        if let Err(fault) = take_turn(connector, writes, supply, times.millis()) {
            return Some(fault);
        }
        if stop.is_set() {
            return None;
        }
    }
    unreachable!()
}

/// A connector that takes what a loop leaves.
#[derive(Drop)]
struct ToConnector<'c, N> {
    connector: &'c mut N,
}

impl<N: HandOver> LeftTaker<N::Sink> for ToConnector<'_, N> {
    fn take_left(&mut self, dest: DestId, left: LeftWriter<N::Sink>)
        ensures { Unit {0} }
    {
        self.connector.hand_over(dest, left);
    }
}

/// Half-closes the connections, and waits until no peer may still send something, for [`LONGEST_END_MS`] at most. Does nothing
/// if the connections go on elsewhere.
fn end_connections<R: Wait, N: HandOver, T: TimeSource>(rt: &R, connector: &mut N, times: &T) {
    if connector.hands_over() {
        return;
    }
    connector.stores().end_writes();
    let end = times.millis().saturating_add(LONGEST_END_MS);
    for _ in rt.forever() {
        let millis = times.millis();
        if connector.stores().is_quiet() || millis >= end || connector.wait(end - millis).is_err() {
            return;
        }
    }
}

/// Logs of destinations for a loop that found no memory, as many as can be made.
fn no_logs(alloc: Global, dests: usize) -> Vec<WriteLog>
    ensures { AreNone result.items }
{
    let mut logs = Vec::new(alloc);
    for _ in 0..dests {
        if logs.push(WriteLog::none(alloc)).is_err() {
            break;
        }
    }
    logs
}

/// A sender of batches, before it begins.
#[derive(Drop)]
pub struct BatchSender<N, S> {
    /// What connects to the destinations.
    pub connector: N,
    /// How many destinations there are, also those of other senders.
    pub dests: usize,
    /// The greatest number of datapoints in a batch.
    pub limit: usize,
    /// What the batches are taken from.
    pub supply: S,
}

/// What a sender returns when it ends.
///
/// A log that could not be made is empty and sealed; if not even the list of logs could be made, the list is
/// empty.
#[derive(Drop)]
pub struct SenderRecord<S> {
    /// The supply that the sender was given.
    pub outlet: S,
    /// What the writers did, by destination.
    pub logs: Vec<WriteLog>,
    /// Why the sender ended before it was stopped: `Device` if a wait for readiness failed,
    /// `NoMemory` if there was no memory for the loop. `None` if it was stopped.
    pub fault: Option<ReadinessFault>,
}
