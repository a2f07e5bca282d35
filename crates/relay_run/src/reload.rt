//! A reload, while the run goes on and the first thread answers commands: its files are read and opened, the run that is to
//! follow is made ready, and all threads leave the disk alone.

use crate::admin_desk::AdminDesk;
use crate::prepared_run::{PreparedRun, ReadyRun, close_files, prepared_by, ready_by};
use crate::relay::Relay;
use crate::reload_source::{RefusedReload, ReloadSource};
use crate::spool_folder::SpoolFolder;
use admin_port::AdminListener;
use locked_queues::Set;
use mio_loops::{SystemTimes, TimeSource};
use relay_files::RunConfiguration;
use relay_ports::SystemTables;
use run_state::{DiskUser, DiskUsers, Signals};
use spool::{SpoolFiles, Unopened};
use std::alloc::Global;
use std::net::Net;
use std::rt::Clock;
use std::sync::Wait;
use std::thread::Threads;

/// How many milliseconds a turn waits at most while a reload waits for a disk.
pub(crate) const READING_PAUSE_MS: u64 = 1;

/// How many milliseconds a reload waits for each use of a disk.
const READING_TIMEOUT_MS: u64 = 10_000;

/// A reload whose files are read: the connection that has asked for it, and the milliseconds at which the reading began.
#[derive(Clone, Copy)]
pub(crate) struct Reading {
    pub(crate) connection: u64,
    since: u64,
}

/// Begins to read the files for a connection that has asked for a reload, if one has, or answers why not.
pub(crate) fn begin_reading<F: ReloadSource>(
    alloc: Global,
    admin: &mut AdminListener,
    files: &F,
    millis: u64,
) -> Option<Reading> {
    let connection = admin.next_reload()?;
    match files.begin(alloc) {
        Ok(()) => Some(Reading {
            connection,
            since: millis,
        }),
        Err(refused) => {
            refuse(alloc, admin, connection, refused, millis);
            None
        }
    }
}

/// The configuration of the files that are read, or why there is none; `None` while there is time for them.
pub(crate) fn read_for<F: ReloadSource>(
    alloc: Global,
    files: &F,
    begun: Reading,
    millis: u64,
) -> Option<Result<RunConfiguration, RefusedReload>> {
    match files.look(alloc) {
        None if millis.saturating_sub(begun.since) >= READING_TIMEOUT_MS => {
            Some(Err(RefusedReload::not_in_time(alloc)))
        }
        read => read,
    }
}

/// A reload whose files are read: what was read, the folder for what is not sent, if there is one, and the connection that waits for
/// the answer.
#[derive(Drop)]
pub(crate) struct ReadReload<'x> {
    pub(crate) read: Result<RunConfiguration, RefusedReload>,
    pub(crate) folder: Option<SpoolFolder<'x>>,
    pub(crate) connection: u64,
}

/// What follows a reload whose files are read.
#[derive(Drop)]
pub(crate) enum Following<B: Set> {
    /// Another run.
    Run(PreparedRun<B>),
    /// The run goes on: the reload was refused.
    Nothing,
    /// The relay stops: it was told to meanwhile.
    Stop,
}

/// Makes ready the run of a reload, and has no thread use the disk any more; or answers why not.
pub(crate) fn follow_by<B: Set, R: Wait + Clock + Net + SystemTables + Threads, F: ReloadSource>(
    rt: &R,
    alloc: Global,
    desk: &mut AdminDesk<'_, B, F>,
    reload: ReadReload<'_>,
) -> Following<B> {
    let connection = reload.connection;
    let prepared = prepared_after(rt, alloc, desk, reload);
    let millis = SystemTimes::since(rt, desk.relay.began).millis();
    let admin = &mut desk.ports.admin;
    match prepared {
        Ok(prepared) => {
            keep_answer(alloc, admin, &prepared);
            Following::Run(prepared)
        }
        Err(NotPrepared::Refused(refused)) => {
            refuse(alloc, admin, connection, refused, millis);
            Following::Nothing
        }
        Err(NotPrepared::Stopped) => {
            admin.refuse_reload(connection, millis);
            Following::Stop
        }
    }
}

/// Why the run of a reload is not prepared.
#[derive(Drop)]
enum NotPrepared {
    /// The reload is refused.
    Refused(RefusedReload),
    /// The relay was told to stop meanwhile.
    Stopped,
}

/// Makes ready the run of a reload, with its files, and has no thread use the disk any more.
fn prepared_after<B: Set, R: Wait + Clock + Net + SystemTables + Threads, F: ReloadSource>(
    rt: &R,
    alloc: Global,
    desk: &mut AdminDesk<'_, B, F>,
    reload: ReadReload<'_>,
) -> Result<PreparedRun<B>, NotPrepared> {
    let relay = desk.relay;
    let ReadReload {
        read,
        folder,
        connection,
    } = reload;
    let configuration = match read {
        Ok(configuration) => configuration,
        Err(refused) => return Err(NotPrepared::Refused(refused)),
    };
    let mut ready = match ready_by(rt, alloc, relay, folder, configuration) {
        Ok(ready) => ready,
        Err(refused) => return Err(NotPrepared::Refused(refused)),
    };
    if let Err(ended) = open_files_of(rt, alloc, desk, &mut ready) {
        drop(ready);
        return Err(ended);
    }
    let prepared = match prepared_by(rt, alloc, relay, &*desk.ports, ready, connection) {
        Ok(prepared) => prepared,
        Err(refused) => return Err(NotPrepared::Refused(refused)),
    };
    match halt_disk_use(rt, alloc, desk) {
        Ok(()) => Ok(prepared),
        Err(ended) => {
            prepared.give_up(rt, relay);
            Err(ended)
        }
    }
}

/// Opens the files that a run needs which is ready, if it needs some. Another thread does it: here nobody waits for the disk. It
/// has ten seconds; what it opens later is closed by [`close_late_files`].
fn open_files_of<B: Set, R: Wait + Clock + Net, F: ReloadSource>(
    rt: &R,
    alloc: Global,
    desk: &mut AdminDesk<'_, B, F>,
    ready: &mut ReadyRun<B>,
) -> Result<(), NotPrepared> {
    let files = desk.source.files;
    let Some(asked) = ready.take_asked() else {
        return Ok(());
    };
    if let Err(refused) = files.open(alloc, asked) {
        return Err(NotPrepared::Refused(refused));
    }
    match wait_for_disk(rt, alloc, desk, &OpeningWait { files }) {
        Ok(Ok(opened)) => {
            ready.put_files(opened);
            Ok(())
        }
        Ok(Err(unopened)) => {
            let refused = refusal_of_unopened(rt, alloc, desk.relay, unopened);
            Err(NotPrepared::Refused(refused))
        }
        Err(ended) => Err(ended),
    }
}

/// Something that a reload waits for of the disk.
trait DiskWait {
    /// What the wait is for.
    type Answer;

    /// Looks, and returns the answer, once it is there.
    fn look(&self) -> Option<Self::Answer>;
}

/// Files are opened for a run.
#[derive(Drop)]
struct OpeningWait<'x, F> {
    files: &'x F,
}

impl<F: ReloadSource> DiskWait for OpeningWait<'_, F> {
    type Answer = Result<SpoolFiles, Unopened>;

    fn look(&self) -> Option<Result<SpoolFiles, Unopened>> {
        self.files.opened()
    }
}

/// Threads cease to use the disk.
#[derive(Drop)]
struct HaltingWait<'x> {
    signals: &'x Signals,
    users: DiskUsers,
}

impl DiskWait for HaltingWait<'_> {
    type Answer = ();

    fn look(&self) -> Option<()> {
        if self.signals.has_disk_use_halted(self.users) {
            Some(())
        } else {
            None
        }
    }
}

/// Answers commands until a wait has ended, for ten seconds at most.
fn wait_for_disk<B: Set, R: Wait + Clock + Net, F: ReloadSource, W: DiskWait>(
    rt: &R,
    alloc: Global,
    desk: &mut AdminDesk<'_, B, F>,
    wait: &W,
) -> Result<W::Answer, NotPrepared> {
    let times = SystemTimes::since(rt, desk.relay.began);
    let end = times.millis().saturating_add(READING_TIMEOUT_MS);
    for _ in rt.forever() {
        if let Some(answer) = wait.look() {
            return Ok(answer);
        }
        if desk.take_turn(rt, alloc, READING_PAUSE_MS) {
            return Err(NotPrepared::Stopped);
        }
        if times.millis() >= end {
            return Err(NotPrepared::Refused(RefusedReload::disk_hangs(alloc)));
        }
    }
    unreachable!()
}

/// The refusal of a reload whose files are not open. The log says what was done in their folder.
fn refusal_of_unopened<B: Set, R: Wait>(
    rt: &R,
    alloc: Global,
    relay: &Relay<B>,
    unopened: Unopened,
) -> RefusedReload {
    let Unopened { fault, news } = unopened;
    relay.say(rt, news);
    RefusedReload::of_file(alloc, fault)
}

/// Closes files that were opened for a reload which did not wait for them. The log says what was done in their folder.
pub(crate) fn close_late_files<B: Set, R: Wait, F: ReloadSource>(
    rt: &R,
    relay: &Relay<B>,
    files: &F,
) {
    match files.opened() {
        Some(Ok(opened)) => close_files(rt, relay, opened),
        Some(Err(Unopened { fault, news })) => {
            drop(fault);
            relay.say(rt, news);
        }
        None => {}
    }
}

/// The threads of a run that use the disk.
fn disk_users_of<B: Set>(relay: &Relay<B>) -> DiskUsers {
    let mut users = DiskUsers::none();
    if !relay.shape.is_spooled {
        return users;
    }
    if relay.gone_gate.alarm(0).is_some() {
        users = users.with(DiskUser::Parting);
    }
    if relay.shape.spool_size.is_some() {
        return users.with(DiskUser::Keeper);
    }
    for sender in 0..relay.shape.senders {
        users = users.with(DiskUser::Sender(sender));
    }
    users
}

/// Has no thread of a run use the disk before it ends, so that nobody waits for the disk then, and answers commands until none does,
/// for ten seconds at most. If the run is not to end, the threads go on.
fn halt_disk_use<B: Set, R: Wait + Clock + Net, F: ReloadSource>(
    rt: &R,
    alloc: Global,
    desk: &mut AdminDesk<'_, B, F>,
) -> Result<(), NotPrepared> {
    let relay = desk.relay;
    let users = disk_users_of(relay);
    if users.are_none() {
        return Ok(());
    }
    let stopper = relay.state.stopper();
    stopper.halt_disk_use(true);
    wake_disk_users(relay);
    let wait = HaltingWait {
        signals: relay.state.signals(),
        users,
    };
    let halted = wait_for_disk(rt, alloc, desk, &wait);
    if halted.is_err() {
        stopper.halt_disk_use(false);
        wake_disk_users(relay);
    }
    halted
}

/// Ends the waits of the threads that use the disk.
fn wake_disk_users<B: Set>(relay: &Relay<B>) {
    relay.gate.wake_all();
    relay.gone_gate.wake_all();
    relay.keeper_gate.wake_all();
}

/// Keeps the answer for the connection that has asked for a run: the line of the log without `relay`, its first word. If out of
/// memory, the answer is short.
fn keep_answer<B: Set>(alloc: Global, admin: &mut AdminListener, prepared: &PreparedRun<B>) {
    let line = prepared.next.made.line.as_str();
    let words = line.strip_prefix("relay ").unwrap_or(line);
    if let Ok(answer) = String::from_str(alloc, words) {
        admin.keep_answer(prepared.next.connection, answer.into_bytes());
    }
}

/// Answers a connection why the relay goes on as it was.
fn refuse(
    alloc: Global,
    admin: &mut AdminListener,
    connection: u64,
    refused: RefusedReload,
    millis: u64,
) {
    let answer = refused.answer(alloc);
    drop(refused);
    match answer {
        Some(answer) => admin.answer_reload(connection, answer, millis),
        None => admin.answer_no_memory(connection, millis),
    }
}
