//! The jobs of the threads of a relay, made of the parts that each is given.

ghost use Rattle.std.specs.Prelude.{◌≡◌, true, length, IfErr};
ghost use Rattle.relay_ports.specs.StartFault.{is_start_fault};

use crate::keeper_setup::keeper_job;
use crate::receiver_job::ReceiverJob;
use crate::receiver_setup::receivers_of;
use crate::relay::{Parts, Relay, Watching};
use crate::runtime::RelayRuntime;
use crate::sender_job::SenderJob;
use crate::sender_setup::{connector_with, senders_of};
use locked_queues::Set;
use mio_loops::Readiness;
use relay_base::{NoMemory, add};
use relay_files::RelayFault;
use relay_ports::KnownReceiver;
use relay_watchers::{LogJob, ReceiverLog, StatusJob, Watched, watchers_of};
use run_threads::{Jobs, Receiving};
use senders::{HostThreads, SenderShare};
use std::alloc::Global;
use std::io::Write;
use std::sync::Arc;
use store_lines::{KeeperJob, PartingJob, SenderPlaces};

/// What makes the jobs of a relay's threads.
#[derive(Drop)]
pub(crate) struct JobMaker<'x, B: Set, R> {
    pub(crate) rt: &'x R,
    pub(crate) alloc: Global,
    pub(crate) relay: &'x Relay<B>,
    pub(crate) hosts: &'x HostThreads,
}

/// The jobs of the threads of a relay, of which each has its part. Refuses a fault of the start: all jobs are made
/// before the first fault among them is answered.
pub(crate) fn jobs_of<'x, B: Set, R: RelayRuntime, L: Write + Drop>(
    rt: &'x R,
    alloc: Global,
    relay: &'x Relay<B>,
    hosts: &'x HostThreads,
    parts: Parts<B, L>,
) -> Result<
    Jobs<
        ReceiverJob<'x, B, R>,
        SenderJob<'x, B, R>,
        PartingJob<'x, R>,
        KeeperJob<'x, R>,
        LogJob<'x, B, L>,
        StatusJob<'x, B>,
    >,
    RelayFault,
>
    ensures { IfErr result (λ fault. is_start_fault fault ≡ true) }
{
    let Parts {
        doors,
        outlets,
        receivers,
        watches,
        gone_watch,
        keeper_watch,
        watching,
    } = parts;
    let dests = relay.configuration.settings().destinations();
    hosts.end_others(rt, dests, relay.gone.dests.as_slice());
    let maker = JobMaker {
        rt,
        alloc,
        relay,
        hosts,
    };
    let receiving = receivers_of(&maker, doors, receivers);
    let sending = senders_of(&maker, outlets, watches);
    let parting = parting_job(&maker, gone_watch);
    let keeping = keeper_job(&maker, keeper_watch);
    let watching = watching_of(&maker, watching);
    all_jobs(receiving, sending, parting, keeping, watching)
}

/// The job of the sender to destinations that are gone, if there are such, which waits with this readiness.
fn parting_job<'x, B: Set, R: RelayRuntime>(
    maker: &JobMaker<'x, B, R>,
    readiness: Option<Readiness>,
) -> Result<Option<PartingJob<'x, R>>, RelayFault>
    ensures { IfErr result (λ fault. is_start_fault fault ≡ true) }
{
    let relay = maker.relay;
    let (Some(readiness), Some(alarm)) = (readiness, relay.gone_gate.alarm(0)) else {
        return Ok(None);
    };
    let gone = &relay.gone;
    let dests = gone.dests.as_slice();
    let (share, links) = (SenderShare::all(dests), gone.links.as_slice());
    let connector = match connector_with(maker, readiness, alarm, share, links) {
        Ok(connector) => connector,
        Err(fault) => return Err(fault),
    };
    let (limit, count) = (relay.file_limit, dests.len());
    let (files, rests) = (gone.files.as_slice(), gone.rests.as_slice());
    match SenderPlaces::new(maker.alloc, count, limit, files, count, rests) {
        Ok(places) => Ok(Some(PartingJob {
            gone,
            connector,
            places,
            limit,
            began: relay.began,
        })),
        Err(_) => {
            drop(connector);
            Err(RelayFault::NoMemory)
        }
    }
}

/// What the log reports of each of these receivers. What an earlier log has reported of the one of its name is not reported again.
fn logs_of(
    alloc: Global,
    receivers: &[KnownReceiver],
    earlier: Vec<ReceiverLog>,
) -> Result<Vec<ReceiverLog>, NoMemory> {
    let mut logs = Vec::new(alloc);
    for receiver in receivers {
        let notes = Arc::try_clone(&receiver.notes)?;
        add(&mut logs, ReceiverLog::new(receiver.name, notes))?;
    }
    for reported in earlier {
        resume(&mut logs, reported);
    }
    Ok(logs)
}

/// What was reported of a receiver is not reported of the one of its name again.
fn resume(logs: &mut Vec<ReceiverLog>, reported: ReceiverLog) {
    let place = reported.name().place();
    for log in logs.as_mut_slice().iter_mut() {
        if log.name().place() == place {
            log.resume(reported);
            return;
        }
    }
    drop(reported);
}

/// The jobs of the log and of the status server, if there is an output and a server for them.
fn watching_of<'x, B: Set, R, L: Write + Drop>(
    maker: &JobMaker<'x, B, R>,
    watching: Watching<L>,
) -> Result<(Option<LogJob<'x, B, L>>, Option<StatusJob<'x, B>>), NoMemory> {
    let Watching {
        log,
        news,
        logged,
        status,
    } = watching;
    let relay = maker.relay;
    let logs = logs_of(maker.alloc, relay.receivers.known(), logged)?;
    let watched = Watched {
        queues: &relay.queues,
        noted: relay.noted(),
        gone: relay.gone.sources(),
        late_news: &relay.late_news,
        size: relay.shape.size,
        version: relay.shape.version(),
        configuration: relay.configuration.sum(),
        watched_at: relay.shape.watched_at(),
        began: relay.began,
    };
    watchers_of(maker.alloc, &watched, logs, news, log, status)
}

/// The jobs, if all could be made, or else the fault of the first kind that could not. It knows nothing of them: what the jobs of
/// a relay are made of is dropped here without being taken apart.
fn all_jobs<J: Drop, K: Drop, G: Drop, H: Drop, L: Drop, V: Drop>(
    receiving: Result<Receiving<J>, RelayFault>,
    sending: Result<Vec<K>, RelayFault>,
    parting: Result<Option<G>, RelayFault>,
    keeping: Result<Option<H>, RelayFault>,
    watching: Result<(Option<L>, Option<V>), NoMemory>,
) -> Result<Jobs<J, K, G, H, L, V>, RelayFault>
    requires receiving { IfErr receiving (λ fault. is_start_fault fault ≡ true) }
    requires sending { IfErr sending (λ fault. is_start_fault fault ≡ true) }
    requires parting { IfErr parting (λ fault. is_start_fault fault ≡ true) }
    requires keeping { IfErr keeping (λ fault. is_start_fault fault ≡ true) }
    ensures { IfErr result (λ fault. is_start_fault fault ≡ true) }
{
    let receiving = receiving?;
    let sending = sending?;
    let parting = parting?;
    let keeping = keeping?;
    let (logging, serving) = watching?;
    Ok(Jobs {
        receiving,
        sending,
        parting,
        keeping,
        logging,
        serving,
    })
}
