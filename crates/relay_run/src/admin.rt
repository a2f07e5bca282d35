//! The admin port: how its commands are answered, and when the run ends.

ghost use Rattle.std.specs.Prelude.{◌≡◌, true};
ghost use Rattle.std.specs.Option.{is_none};

use crate::admin_desk::AdminDesk;
use crate::ended_run::EndedRecord;
use crate::prepared_run::PreparedRun;
use crate::relay::Relay;
use crate::reload::{
    Following, READING_PAUSE_MS, ReadReload, Reading, begin_reading, close_late_files, follow_by,
    read_for,
};
use crate::reload_source::ReloadSource;
use crate::run_end_work::{PartingWait, answer_until_drained, answer_until_over, spool_away};
use crate::spool_folder::SpoolFolder;
use crate::start::Process;
use finished_run::Recorder;
use locked_queues::Set;
use mio_loops::{SystemTimes, TimeSource};
use receivers::{ReceiverControl, wake_receivers};
use relay_base::put;
use relay_ports::{FirstPorts, NewPorts, NextReceivers, SystemTables};
use relay_watchers::{LogEnd, StatusServer};
use run_threads::{ClosingWait, FirstWork, RunEnd};
use std::alloc::Global;
use std::mem;
use std::net::Net;
use std::rt::Clock;
use std::sync::{Arc, Wait};
use std::thread::Threads;

/// How many milliseconds a turn waits at most while there is no connection.
const PAUSE_MS: u64 = 1_000;

/// How many milliseconds a turn waits at most while somebody watches: so long what receivers hand over has room.
const WATCHING_PAUSE_MS: u64 = 5;

/// The admin port of a relay, with what the first thread works on, who reads files for a reload, the folder for what is not sent, if
/// there is one, and who records runs.
#[derive(Drop)]
pub(crate) struct AdminPort<'p, B: Set, L, F, K> {
    pub(crate) relay: &'p Relay<B>,
    pub(crate) state: &'p mut FirstState<B, L>,
    pub(crate) files: &'p F,
    pub(crate) folder: Option<SpoolFolder<'p>>,
    pub(crate) recorder: &'p mut Option<K>,
}

impl<'p, B: Set, L, F, K> AdminPort<'p, B, L, F, K> {
    /// The admin port of a relay of this process, with what its first thread works on, and who records its runs.
    pub(crate) fn of(
        relay: &'p Relay<B>,
        state: &'p mut FirstState<B, L>,
        process: &'p Process<'p, F>,
        recorder: &'p mut Option<K>,
    ) -> AdminPort<'p, B, L, F, K>
        ensures { is_none result.state.now.before.waiting ≡ is_none state.old.before.waiting }
    {
        AdminPort {
            relay,
            state,
            files: process.setup.files,
            folder: process.setup.folder,
            recorder,
        }
    }
}

/// What the first thread of a run works on: its ports, what is still to do for the run before, the run that is to follow, once it
/// is known, and what the watching threads left.
#[derive(Drop)]
pub(crate) struct FirstState<B: Set, L> {
    pub(crate) ports: FirstPorts,
    pub(crate) before: RunBefore,
    pub(crate) next: Option<PreparedRun<B>>,
    pub(crate) log: Option<LogEnd<L>>,
    pub(crate) server: Option<StatusServer>,
}

/// What the first thread has still to do for the run before, once this one has begun: the connection that waits to be told of
/// it, and the record.
#[derive(Drop)]
pub(crate) struct RunBefore {
    pub(crate) waiting: Option<u64>,
    pub(crate) record: Option<EndedRecord>,
}

impl RunBefore {
    /// No run was before.
    pub(crate) fn none() -> RunBefore
        ensures { is_none result.waiting ≡ true }
    {
        RunBefore {
            waiting: None,
            record: None,
        }
    }
}

/// Tells the connection that has asked for the reload, if there was one, that this run has begun.
fn answer_reloaded<B: Set, R: Clock>(
    rt: &R,
    relay: &Relay<B>,
    ports: &mut FirstPorts,
    before: &mut RunBefore,
) {
    if let Some(connection) = before.waiting.take() {
        let millis = SystemTimes::since(rt, relay.began).millis();
        ports.admin.answer_reloaded(connection, millis);
    }
}

/// Ends the run before, if there was one: it settles and is recorded, the log says how it settled, and what it held is freed.
fn end_before<B: Set, R: Wait, K: Recorder>(
    rt: &R,
    alloc: Global,
    relay: &Relay<B>,
    before: &mut RunBefore,
    recorder: &mut Option<K>,
) {
    if let Some(record) = before.record.take() {
        if let Ok(text) = record.finish(alloc, recorder) {
            relay.late_news.put(rt, text);
        }
    }
}

/// Answers commands until one is `stop`, or until another run is ready to follow, which is returned. Then nothing is watched any
/// more.
fn answer_commands<B: Set, R: Wait + Clock + Net + SystemTables + Threads, F: ReloadSource>(
    rt: &R,
    alloc: Global,
    relay: &Relay<B>,
    ports: &mut FirstPorts,
    files: &F,
    folder: Option<SpoolFolder<'_>>,
) -> Option<PreparedRun<B>> {
    let mut desk = AdminDesk::new(relay, ports, files, false);
    let next = answer_until_ended(rt, alloc, &mut desk, folder);
    desk.end_watches();
    next
}

/// Answers commands until one is `stop`, or until another run is ready to follow.
fn answer_until_ended<B: Set, R: Wait + Clock + Net + SystemTables + Threads, F: ReloadSource>(
    rt: &R,
    alloc: Global,
    desk: &mut AdminDesk<'_, B, F>,
    folder: Option<SpoolFolder<'_>>,
) -> Option<PreparedRun<B>> {
    let (relay, files) = (desk.relay, desk.source.files);
    let times = SystemTimes::since(rt, relay.began);
    let mut reading = None;
    for _ in rt.forever() {
        let pause = pause_of(reading, desk.source.watch_desk.is_watching());
        let is_stopped = desk.take_turn(rt, alloc, pause);
        let millis = times.millis();
        if is_stopped {
            if let Some(begun) = reading {
                desk.ports.admin.refuse_reload(begun.connection, millis);
            }
            return None;
        }
        let Some(begun) = reading else {
            close_late_files(rt, relay, files);
            reading = begin_reading(alloc, &mut desk.ports.admin, files, millis);
            continue;
        };
        let Some(read) = read_for(alloc, files, begun, millis) else {
            continue;
        };
        reading = None;
        let reload = ReadReload {
            read,
            folder,
            connection: begun.connection,
        };
        match follow_by(rt, alloc, desk, reload) {
            Following::Run(prepared) => return Some(prepared),
            Following::Nothing => {}
            Following::Stop => return None,
        }
    }
    unreachable!()
}

/// Closes the receivers with these controls, and answers commands until they have closed.
fn close<B: Set, R: Wait + Clock + Net, F: ReloadSource>(
    rt: &R,
    alloc: Global,
    relay: &Relay<B>,
    ports: &mut FirstPorts,
    files: &F,
    controls: &[Arc<ReceiverControl>],
) {
    let millis = SystemTimes::since(rt, relay.began).millis();
    let closing = ClosingWait::begin(controls, millis);
    let mut desk = AdminDesk::new(relay, ports, files, true);
    answer_until_over(rt, alloc, &mut desk, closing);
}

/// The ports of the run that follows, if one does, are kept from now on. Returns what closes the receivers of this one whose ports
/// those are not.
fn leaving_for<B: Set>(
    alloc: Global,
    ports: &mut FirstPorts,
    next: &mut Option<PreparedRun<B>>,
) -> Vec<Arc<ReceiverControl>> {
    match next {
        Some(next) => take_leaving(alloc, ports, &mut next.next.held.receivers),
        None => Vec::new(alloc),
    }
}

/// Takes both from the receivers of that run.
fn take_leaving(
    alloc: Global,
    ports: &mut FirstPorts,
    receivers: &mut NextReceivers,
) -> Vec<Arc<ReceiverControl>> {
    ports.replace(mem::replace(&mut receivers.ports, NewPorts::none()));
    mem::replace(&mut receivers.leaving, Vec::new(alloc))
}

/// How many milliseconds a turn waits at most.
fn pause_of(reading: Option<Reading>, is_watching: bool) -> u64 {
    match reading {
        Some(_) => READING_PAUSE_MS,
        None if is_watching => WATCHING_PAUSE_MS,
        None => PAUSE_MS,
    }
}

impl<
    B: Set,
    R: Wait + Clock + Net + SystemTables + Threads,
    L: Drop,
    F: ReloadSource,
    K: Recorder,
> FirstWork<R, LogEnd<L>, StatusServer> for AdminPort<'_, B, L, F, K> {
    ghost is_first = { λ port. is_none port.state.now.before.waiting };

    fn is_first(&self) -> bool {
        self.state.before.waiting.is_none()
    }

    fn serve(&mut self, rt: &R, alloc: Global) {
        let relay = self.relay;
        let FirstState {
            ports,
            before,
            next,
            ..
        } = &mut *self.state;
        answer_reloaded(rt, relay, ports, before);
        end_before(rt, alloc, relay, before, self.recorder);
        let (files, folder) = (self.files, self.folder);
        put(
            next,
            answer_commands(rt, alloc, relay, ports, files, folder),
        );
        if let Some(next) = next {
            let receivers = &next.next.held.receivers;
            relay.receivers.open_handed(receivers.ports.changed());
        }
    }

    fn end_of_run(&self, has_failed: bool) -> RunEnd {
        if self.state.next.is_some() || has_failed && !self.relay.is_first() {
            RunEnd::HandOver
        } else if has_failed {
            RunEnd::Fail
        } else {
            RunEnd::Stop
        }
    }

    fn end_parting(&mut self, rt: &R, alloc: Global) {
        let relay = self.relay;
        relay.gone_gate.wake_all();
        let mut desk = AdminDesk::new(relay, &mut self.state.ports, self.files, true);
        answer_until_over(rt, alloc, &mut desk, PartingWait::new(&relay.gone));
    }

    fn close_receivers(&mut self, rt: &R, alloc: Global) {
        let (relay, files) = (self.relay, self.files);
        let ports = &mut self.state.ports;
        ports.shut();
        spool_away(relay);
        close(rt, alloc, relay, ports, files, relay.receivers.controls());
    }

    fn close_leaving(&mut self, rt: &R, alloc: Global) {
        let (relay, files) = (self.relay, self.files);
        let FirstState { ports, next, .. } = &mut *self.state;
        let leaving = leaving_for(alloc, ports, next);
        if !leaving.is_empty() {
            close(rt, alloc, relay, ports, files, leaving.as_slice());
        }
    }

    fn wake_receivers(&self) {
        wake_receivers(self.relay.receivers.controls());
    }

    fn drain(&mut self, rt: &R, alloc: Global) {
        let (relay, files) = (self.relay, self.files);
        let mut desk = AdminDesk::new(relay, &mut self.state.ports, files, true);
        if let Some(end) = relay.state.end() {
            answer_until_drained(rt, alloc, &mut desk, end);
        }
        close_late_files(rt, relay, files);
        desk.say_last_refusals(rt, alloc);
    }

    fn wake_senders(&self) {
        self.relay.gate.wake_all();
        self.relay.gone_gate.wake_all();
        self.relay.keeper_gate.wake_all();
    }

    fn keep_watchers(&mut self, log: Option<LogEnd<L>>, server: Option<StatusServer>) {
        self.state.log = log;
        self.state.server = server;
    }
}
