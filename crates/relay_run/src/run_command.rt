//! `relayd run`: a running relay, from its start to its settling.
//!
//! A run has five parts. *Opening* is `Start::new`, which binds the ports and makes what the threads share, and `Relay::open`,
//! which makes the queues; *running* is `serve_if`, beside the threads that `run_all_threads` started; *ending* is
//! `end_threads`; *settling* is `Queues::settle`; and `write_end` writes *what is left*. `run_relay` has all but `Start::new`.
//!
//! A reload ends a run, and begins another in the same process, over the same sockets: `run_all` is the loop. `prepared_by`
//! makes the next run ready while the one before goes on, and holds what can be made then; `ended_of` takes that one apart, and
//! `start_after`, which cannot fail, has what the next begins with.

ghost use Rattle.std.specs.Prelude.{◌≡◌, false, Ok, Err, IfOk, IfErr, OnOk, Result};
ghost use Rattle.std.specs.Io.KnownBytes.{Appends};
ghost use Rattle.std.specs.Option.{is_none};
ghost use Rattle.locked_queues.specs.declared.settled.Settled.{Settled};
ghost use Rattle.locked_queues.specs.declared.settled.SettleFault.{SettleFault};
ghost use Rattle.relay_files.specs.Files.{AllReadAs};
ghost use Rattle.relay_run.specs.Closing.{closing_line, closing_status};
ghost use Rattle.relay_run.specs.Running.{RunEnds, RelayFails, ClosesWith, EndsWithStatus, EndsWithFault, IsThreadFault, FailsBeforeClosing};
ghost use Rattle.run_threads.specs.Served.{opening, ready_line};
ghost use Rattle.relay_run.specs.AfterRun.{EndsARun, IfStopped, IfFollowed};

use crate::admin::{AdminPort, FirstState, RunBefore};
use crate::closing::{Records, RunLeft, records_of, write_end};
use crate::ended_run::ended_of;
use crate::failed_run::{spool_carry_over, spool_failed};
use crate::next_start::{KeptByFirst, start_after};
use crate::prepared_run::PreparedRun;
use crate::relay::{NAME, OpenRelay, Parts, Relay};
use crate::relay_jobs::jobs_of;
use crate::reload_source::ReloadSource;
use crate::run_setup::{RunObservers, RunSetup};
use crate::runtime::RelayRuntime;
use crate::spool_folder::put_failures;
use crate::start::{Process, Start};
use finished_run::Recorder;
use locked_queues::Set;
use mio_loops::{SystemTimes, TimeSource};
use relay_files::{RelayFault, RunConfiguration, Source, Sources, Status};
use relay_ports::FirstPorts;
use run_threads::run_all_threads;
use senders::HostThreads;
use std::alloc::Global;
use std::io::Write;
use std::marker::Brand;
use std::mem;
use std::time::Instant;

/// Runs a relay until its admin port takes `stop`, and settles.
///
/// It reads the files as `check` does, binds the ports of lines, pickles, datagrams and commands, in this order, starts a
/// thread for each receiver and each sender, waits until each has the memory that it needs to begin, and writes `ready`
/// and byte 10. Then 127.0.0.1 takes commands at the admin port, one for each connection: it answers `report` with the
/// report, `stop` with `stopping`, `reload` once the run that follows has begun, `files` with what a reload reads, `route` with
/// where a name goes, `watch` with what a watch has gathered, and all else with `unknown command`. After `stop` it joins the
/// threads, compares the queues' counts and histories with what the threads recorded, and writes one line: `settled`,
/// `sealed D`, `totals D`, `differs D N`, `no order` or `strangers`, where D is a destination's place in DESTINATIONS.
///
/// It ends with the first fault of the files; with `Listen` if a port cannot be bound; with `Output` if a
/// write failed, and with `NoMemory` if memory ran out or a thread could not be started. A thread that
/// ends with a fault leaves the others running; after the closing line the run ends with the fault of the least
/// receiver that has one (`Input`, or `NoMemory`), otherwise of the least sender (`Output`, or `NoMemory`), and otherwise with
/// the line's status: `Done` after `settled` and `sealed`, `DeviceFault` after the others.
///
/// If it is given a log, one more thread looks once a second at the events of each destination and each receiver since its
/// last line, and writes at most one line of each kind (`log_lines`). What it cannot write is lost, and a write that
/// fails changes nothing; one that waits holds up the end of the run for a second at most.
///
/// With [`RunOptions::drain`] the receivers end first after `stop`. The senders go on until nothing is queued or
/// in hand at any destination that is connected, at most for that many seconds. The last lines of the log then say how
/// many datapoints were not sent.
///
/// If it is given a folder, each destination's datapoints that its connections did not take whole are written to a file there
/// at the end, in order, as the lines that a connection gets: the file is the last connection of the destination. At a start
/// a destination's file is sent to it before anything else. The log names files of no destination, and says how many
/// datapoints are kept.
///
/// If it is given a recorder, the threads keep what they log until the run has closed, and the recorder gets that, and how
/// the queues settled (`finished_run::FinishedRun`). It gets nothing if the run ends before it settles. The line, the status and the
/// faults of the run do not depend on it.
///
/// `reload` is answered once the files have been read: why the relay goes on as it was; or `reloaded`, once the next run has
/// begun. That has the same ports; each connection goes on where its reader was, and each destination that stays is sent first
/// what the run before held for it. What was held for one that is gone is sent for as long as `--drain` says, and then written
/// to its file, or lost. The line that says how a run settled which another follows goes to the log.
pub fn run<
    R: RelayRuntime,
    S: Source,
    W: Write,
    L: Write + Send + Drop,
    K: Recorder + Drop,
    F: ReloadSource,
>(
    rt: &R,
    alloc: Global,
    sources: &mut Sources<S>,
    setup: RunSetup<'_, F>,
    output: &mut W,
    observers: RunObservers<L, K>,
) -> Result<Status, RelayFault>
    // At a status the files are a configuration. If the bytes of the output are known, it has gained `ready` and the line
    // that says how the last run settled, and the status is that of the same settling.
    ensures ok { IfOk result (λ status. AllReadAs S.bytes sources.old
        (EndsWithStatus (W.contents output.old) (W.contents output.new) status)) }

    // A fault is the first of the files, with nothing written. Or it is one of the start, with nothing written; or one of
    // the output or of memory, with a first part of these lines written; or, with both written, that of the first
    // receiver that had one, and if none had, of the first sender. Or it is one of the start of a run after a reload, with
    // `ready` written.
    ensures err { IfErr result (λ fault. AllReadAs S.bytes sources.old
        (EndsWithFault sources.old sources.new (W.contents output.old) (W.contents output.new)
        fault)) }
{
    let configuration = RunConfiguration::read(alloc, sources)?;
    let hosts = HostThreads::new(alloc);
    let process = Process {
        setup,
        hosts: &hosts,
        is_recorded: observers.recorder.is_some(),
        began: Instant::now(rt).ok(),
    };
    match Start::new(rt, alloc, configuration, &process) {
        Ok(start) => run_all(rt, alloc, start, &process, output, observers),
        Err(fault) => Err(fault),
    }
}

/// The run that is to begin: what it begins with, the output of its log, what is still to do for the run before, and its
/// number, from 1 on.
#[derive(Drop)]
struct NextRun<L> {
    start: Start,
    log: Option<L>,
    before: RunBefore,
    number: u64,
}

/// What comes after a run.
#[derive(Drop)]
enum AfterRun<L> {
    /// Nothing: the relay was stopped, and this is its status.
    Stopped(Status),
    /// Another run.
    Followed(NextRun<L>),
}

/// Makes one run after another, each over queues of its own, until one is stopped.
fn run_all<R: RelayRuntime, W: Write, L: Write + Send + Drop, K: Recorder + Drop, F: ReloadSource>(
    rt: &R,
    alloc: Global,
    start: Start,
    process: &Process<'_, F>,
    output: &mut W,
    observers: RunObservers<L, K>,
) -> Result<Status, RelayFault>
    ensures ok { IfOk result (RunEnds ready_line (W.contents output.old) (W.contents output.new)) }
    ensures err { IfErr result (RelayFails (W.contents output.old) (W.contents output.new)) }
{
    let RunObservers { log, recorder } = observers;
    let mut recorder = recorder;
    let mut next = NextRun {
        start,
        log,
        before: RunBefore::none(),
        number: 1,
    };
    for _ in rt.forever() {
        match run_relay::<Brand, R, W, L, K, F>(rt, alloc, next, process, output, &mut recorder) {
            Ok(AfterRun::Stopped(status)) => return Ok(status),
            Ok(AfterRun::Followed(following)) => next = following,
            Err(fault) => return Err(fault),
        }
    }
    unreachable!()
}

/// Opens a relay, lends it to its run, and takes it apart.
fn run_relay<
    B: Set + Send + Sync,
    R: RelayRuntime,
    W: Write,
    L: Write + Send + Drop,
    K: Recorder + Drop,
    F: ReloadSource,
>(
    rt: &R,
    alloc: Global,
    next: NextRun<L>,
    process: &Process<'_, F>,
    output: &mut W,
    recorder: &mut Option<K>,
) -> Result<AfterRun<L>, RelayFault>
    requires table { next.start.blank ≡ B.table }
    requires name { NAME ≡ B.name }
    requires dests { next.start.begun.shape.dests ≡ B.dests }
    requires size { next.start.begun.shape.size ≡ B.size }
    requires receivers { next.start.begun.shape.receivers ≡ B.receivers }
    requires senders { next.start.begun.shape.senders ≡ B.senders }
    ensures { EndsARun (opening (is_none next.before.waiting))
        (W.contents output.old) (W.contents output.new) result }
{
    let NextRun {
        start,
        log,
        before,
        number,
    } = next;
    let OpenRelay {
        relay,
        parts,
        ports,
    } = match Relay::<B>::open(alloc, start, log, process, number) {
        Ok(opened) => opened,
        Err(refused) => {
            drop(before);
            spool_carry_over(rt, alloc, refused.carry_over, process);
            return Err(refused.fault);
        }
    };
    let mut state = FirstState {
        ports,
        before,
        next: None,
        log: None,
        server: None,
    };
    let mut port = AdminPort::of(&relay, &mut state, &*process, &mut *recorder);
    let left = run_until_ended(rt, alloc, &mut port, process.hosts, parts, output);
    drop(port);
    let FirstState {
        ports,
        before,
        next,
        log,
        server,
    } = state;
    drop(before);
    let left = match left {
        Ok(records) => RunLeft {
            records,
            ports,
            log,
            server,
        },
        Err(fault) => {
            drop(ports);
            drop(server);
            spool_failed(rt, alloc, relay, next, process, log);
            return Err(fault);
        }
    };
    match next {
        Some(next) => {
            let following = follow(rt, alloc, relay, left, next, process);
            Ok(AfterRun::Followed(following))
        }
        None => {
            put_failures(
                alloc,
                process.setup.folder,
                relay.noted().dests,
                relay.state.spool_notes(),
            );
            stopped(stop(alloc, relay, left, output, recorder))
        }
    }
}

/// Runs the threads of the open relay with this admin port until it is stopped, or another run is to follow, and they have ended,
/// and returns what they recorded. Refuses a fault of the start, and then nothing is written.
fn run_until_ended<
    B: Set + Send + Sync,
    R: RelayRuntime,
    W: Write,
    L: Write + Send + Drop,
    F: ReloadSource,
    K: Recorder,
>(
    rt: &R,
    alloc: Global,
    port: &mut AdminPort<'_, B, L, F, K>,
    hosts: &HostThreads,
    parts: Parts<B, L>,
    output: &mut W,
) -> Result<Records, RelayFault>
    ensures ok { OnOk result (Appends (W.contents output.old) (W.contents output.new)
        (opening (is_none port.old.state.now.before.waiting))) }
    ensures fault { IfOk result (λ records. IsThreadFault records.fault) }
    ensures err { IfErr result (FailsBeforeClosing
        (opening (is_none port.old.state.now.before.waiting))
        (W.contents output.old) (W.contents output.new)) }
{
    let relay = port.relay;
    let jobs = match jobs_of(rt, alloc, relay, hosts, parts) {
        Ok(jobs) => jobs,
        Err(fault) => return Err(fault),
    };
    let ends = run_all_threads(rt, alloc, jobs, relay.state.stopper(), port, output);
    records_of(alloc, ends)
}

/// Settles the last run, writes what it leaves, and ends what watched it.
fn stop<B: Set, W: Write, L: Drop, K: Recorder>(
    alloc: Global,
    relay: Relay<B>,
    left: RunLeft<L>,
    output: &mut W,
    recorder: &mut Option<K>,
) -> Result<Status, RelayFault>
    ensures ok { IfOk result (λ status. (settled : Result Settled SettleFault)
        × Appends (W.contents output.old) (W.contents output.new) (closing_line settled)
        × (status ≡ closing_status settled)) }
    ensures err { IfErr result (λ fault. (settled : Result Settled SettleFault)
        × ClosesWith (W.contents output.old) (W.contents output.new) settled left.records.fault fault) }
{
    let mut relay = relay;
    let RunLeft {
        records,
        ports,
        log,
        server,
    } = left;
    let (doors, outlets) = (records.doors.as_slice(), records.outlets.as_slice());
    let settled = relay.queues.settle(alloc, doors, outlets);
    let run = relay.finished(&settled, &records.logs);
    let ended = write_end(alloc, &run, records.fault, output, recorder);
    drop((log, server));
    // Whoever waits at the admin port for the end of the relay knows of it now.
    drop(ports);
    // Datapoint by datapoint it would take long to give all this back. The process ends, and the system takes it at once.
    mem::forget(settled);
    mem::forget(records);
    mem::forget(relay);
    ended
}

/// The end of a run that was stopped.
fn stopped<L: Drop>(ended: Result<Status, RelayFault>) -> Result<AfterRun<L>, RelayFault>
    ensures stopped { IfOk result (λ end. IfStopped end (λ status. ended ≡ Ok status)) }
    ensures never_followed { IfOk result (λ end. IfFollowed end (λ _. ⊥)) }
    ensures err { IfErr result (λ fault. ended ≡ Err fault) }
{
    match ended {
        Ok(status) => Ok(AfterRun::Stopped(status)),
        Err(fault) => Err(fault),
    }
}

/// Takes a relay apart whose run has ended, and makes of it what the next one begins with. All that this needs is there.
fn follow<B: Set, R: RelayRuntime, L: Drop, F>(
    rt: &R,
    alloc: Global,
    relay: Relay<B>,
    left: RunLeft<L>,
    next: PreparedRun<B>,
    process: &Process<'_, F>,
) -> NextRun<L>
    ensures { is_none result.before.waiting ≡ false }
{
    let RunLeft {
        records,
        ports,
        log,
        server,
    } = left;
    let (output, logged) = match log {
        Some(log) => (Some(log.output), log.receivers),
        None => (None, Vec::new(alloc)),
    };
    let PreparedRun { next, room } = next;
    let waiting = next.connection;
    let number = relay.number;
    let mut ended = ended_of(alloc, relay, room, records);
    let millis = SystemTimes::since(rt, process.began).millis();
    let kept = KeptByFirst {
        ports,
        server,
        logged,
    };
    let start = start_after(alloc, &mut ended, next, kept, process, millis);
    NextRun {
        start,
        log: output,
        before: RunBefore {
            waiting: Some(waiting),
            record: Some(ended.record),
        },
        number: number.saturating_add(1),
    }
}
