//! The jobs of senders' threads, made of seats, what each waits with, and its places.

ghost use Rattle.std.specs.Prelude.{◌≡◌, ◌≤◌, ◌<◌, true, length, IfErr};
ghost use Rattle.relay_ports.specs.StartFault.{is_start_fault};

use crate::closing::output_fault;
use crate::relay::Relay;
use crate::relay_jobs::JobMaker;
use crate::run_levels::RunLevels;
use crate::runtime::RelayRuntime;
use crate::sender_job::SenderJob;
use locked_queues::{Outlet, OutletSeat, Set};
use log_lines::DestNotes;
use mio_loops::Readiness;
use relay_base::{NoMemory, add};
use relay_files::RelayFault;
use senders::{Alarm, SenderShare, StoreConnector};
use std::alloc::Global;
use std::net::Net;
use store_lines::{DivertTo, LineSender, SenderPlaces, Share};

/// How many sockets of a sender may become ready in one wait: a connection for each destination, and its alarm.
const SENDER_EVENTS: usize = 128;

/// The readiness of each sender, one each.
pub(crate) fn watches_of(
    rt: &impl Net,
    alloc: Global,
    senders: usize,
) -> Result<Vec<Readiness>, RelayFault>
    ensures { IfErr result (λ fault. is_start_fault fault ≡ true) }
{
    let mut watches = Vec::new(alloc);
    for _ in 0..senders {
        match Readiness::new(rt, alloc, SENDER_EVENTS) {
            Ok(readiness) => add(&mut watches, readiness)?,
            Err(fault) => return Err(output_fault(fault)),
        }
    }
    Ok(watches)
}

/// The alarms of the senders, one each.
pub(crate) fn alarms_of(alloc: Global, watches: &[Readiness]) -> Result<Vec<Alarm>, RelayFault>
    ensures { IfErr result (λ fault. is_start_fault fault ≡ true) }
{
    let mut alarms = Vec::new(alloc);
    for readiness in watches {
        match Alarm::new(readiness) {
            Ok(alarm) => add(&mut alarms, alarm)?,
            Err(fault) => return Err(output_fault(fault)),
        }
    }
    Ok(alarms)
}

/// A sender for each outlet, with its readiness.
pub(crate) fn senders_of<'x, B: Set, R: RelayRuntime>(
    maker: &JobMaker<'x, B, R>,
    outlets: Vec<OutletSeat<B>>,
    watches: Vec<Readiness>,
) -> Result<Vec<SenderJob<'x, B, R>>, RelayFault>
    ensures { IfErr result (λ fault. is_start_fault fault ≡ true) }
{
    let mut jobs = Vec::new(maker.alloc);
    match add_senders(maker, outlets, watches, &mut jobs) {
        Ok(()) => Ok(jobs),
        Err(fault) => {
            drop(jobs);
            Err(fault)
        }
    }
}

/// Adds a sender for each outlet, with its readiness.
fn add_senders<'x, B: Set, R: RelayRuntime>(
    maker: &JobMaker<'x, B, R>,
    outlets: Vec<OutletSeat<B>>,
    watches: Vec<Readiness>,
    jobs: &mut Vec<SenderJob<'x, B, R>>,
) -> Result<(), RelayFault>
    ensures { IfErr result (λ fault. is_start_fault fault ≡ true) }
{
    let mut watches = watches.into_iter();
    for seat in outlets {
        let job = sender_job(maker, seat, watches.next(), jobs.len())?;
        add(jobs, job)?;
    }
    Ok(())
}

/// The sender of this number, with the outlet of a seat, its readiness and its alarm.
fn sender_job<'x, B: Set, R: RelayRuntime>(
    maker: &JobMaker<'x, B, R>,
    seat: OutletSeat<B>,
    readiness: Option<Readiness>,
    sender: usize,
) -> Result<SenderJob<'x, B, R>, RelayFault>
    ensures { IfErr result (λ fault. is_start_fault fault ≡ true) }
{
    let connector = match connector_of(maker, readiness, sender) {
        Ok(connector) => connector,
        Err(fault) => {
            drop(seat);
            return Err(fault);
        }
    };
    let Ok(places) = places_of(maker) else {
        drop(seat);
        drop(connector);
        return Err(RelayFault::NoMemory);
    };
    let relay = maker.relay;
    let lines = LineSender {
        connector,
        places,
        share: Share {
            slots: &relay.slots,
            dests: relay.shape.dests,
            sender,
            senders: relay.shape.senders,
        },
        limit: relay.shape.limit,
        divert: divert_of(relay),
        levels: RunLevels::new(maker.rt, relay),
        end: relay.state.end(),
    };
    Ok(SenderJob {
        number: sender,
        lines,
        outlet: Outlet::new(maker.rt, &relay.queues, seat, &relay.gate),
        is_recorded: relay.shape.is_recorded,
        began: relay.began,
    })
}

/// What senders divert destinations by, if the run diverts them.
fn divert_of<B: Set>(relay: &Relay<B>) -> Option<DivertTo<'_>> {
    match relay.shape.spool_size {
        Some(_) => Some(DivertTo {
            diversions: &relay.diversions,
            gate: &relay.keeper_gate,
            notes: relay.state.spool_notes(),
        }),
        None => None,
    }
}

/// The places of a sender: for files if files keep what is not sent, unless they have a keeper; and for rests if a run was
/// before.
fn places_of<'x, B: Set, R: RelayRuntime>(
    maker: &JobMaker<'x, B, R>,
) -> Result<SenderPlaces<'x, R>, NoMemory> {
    let relay = maker.relay;
    let dests = relay.shape.dests;
    let has_files = relay.shape.is_spooled && relay.shape.spool_size.is_none();
    let files = if has_files { dests } else { 0 };
    let rests = if relay.is_first() { 0 } else { dests };
    let (file_notes, rest_notes) = (relay.state.spool_notes(), relay.state.rests());
    SenderPlaces::new(
        maker.alloc,
        files,
        relay.file_limit,
        file_notes,
        rests,
        rest_notes,
    )
}

/// The connector of the sender of this number, which notes its events.
fn connector_of<'x, B: Set, R: RelayRuntime>(
    maker: &JobMaker<'x, B, R>,
    readiness: Option<Readiness>,
    sender: usize,
) -> Result<StoreConnector<'x, R>, RelayFault>
    ensures { IfErr result (λ fault. is_start_fault fault ≡ true) }
{
    let Some(readiness) = readiness else {
        return Err(RelayFault::Output);
    };
    let Some(alarm) = maker.relay.gate.alarm(sender) else {
        drop(readiness);
        return Err(RelayFault::Output);
    };
    let noted = maker.relay.noted();
    let share = SenderShare {
        dests: noted.dests,
        sender,
        senders: maker.relay.shape.senders,
    };
    connector_with(maker, readiness, alarm, share, noted.notes)
}

/// A connector to the destinations of a share, which notes their events in these.
pub(crate) fn connector_with<'x, B: Set, R: RelayRuntime>(
    maker: &JobMaker<'x, B, R>,
    readiness: Readiness,
    alarm: &'x Alarm,
    share: SenderShare<'x>,
    notes: &'x [DestNotes],
) -> Result<StoreConnector<'x, R>, RelayFault>
    ensures { IfErr result (λ fault. is_start_fault fault ≡ true) }
{
    let (rt, alloc, threads) = (*maker.rt, maker.alloc, maker.hosts);
    match StoreConnector::new(rt, alloc, threads, readiness, alarm, share) {
        Ok(mut connector) => {
            connector.set_notes(notes);
            Ok(connector)
        }
        Err(fault) => Err(output_fault(fault)),
    }
}
