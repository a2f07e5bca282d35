//! What the first thread does while the others run, and how a run ends once it has served: the receivers, of datagrams last, then
//! the senders, then the keeper of files, at last the watching threads.
//!
//! If another run follows, nothing is closed but ports that it does not have: what the threads hold goes on there. After a reload no thread uses the disk any more.
//! Only after a fault may the sender to destinations that are gone be writing a file: receivers and senders go on until it has.

ghost use Rattle.std.specs.Prelude.{◌≡◌, ◌⊎◌, Err, if◌then◌else◌};

use crate::threads::{SendingThreads, StartedThreads};
use finished_run::FedLog;
use locked_queues::{DoorRecord, OutletRecord};
use mio_loops::{ReadinessFault, WriteLog};
use relay_files::RelayFault;
use run_state::Stopper;
use std::alloc::Global;
use std::rt::Clock;
use std::sync::Wait;
use std::thread::{JoinHandle, Threads};

/// How a run ends.
#[derive(Clone, Copy)]
pub enum RunEnd {
    /// The relay stops: its receivers close, and what is queued is sent, or files keep it.
    Stop,
    /// What the threads hold goes on elsewhere, and nothing is closed but ports that have no place there: another run follows, or this one cannot begin, and
    /// what ended runs left to it is kept.
    HandOver,
    /// The first run has failed: nothing is waited for.
    Fail,
}

impl RunEnd {
    /// Whether what the threads hold goes on elsewhere.
    pub fn hands_over(self) -> bool {
        matches!(self, RunEnd::HandOver)
    }
}

/// How a receiver or a sender ended: what its door or its outlet recorded, what it logged if the run is recorded, and its
/// fault, if any.
#[derive(Drop)]
pub struct ThreadEnd<T, L> {
    /// What its door or its outlet recorded.
    pub record: T,
    /// What it logged, if the run is recorded.
    pub log: Option<L>,
    /// Its fault, if it had one.
    pub fault: Option<ReadinessFault>,
}

/// How the threads ended, the receivers and the senders in order, with the records of unused seats, and whether the run went on
/// until it was to end.
#[derive(Drop)]
pub struct ThreadEnds {
    /// How the receivers ended.
    pub receivers: Vec<ThreadEnd<DoorRecord, FedLog>>,
    /// How the senders ended.
    pub senders: Vec<ThreadEnd<OutletRecord, Vec<WriteLog>>>,
    /// The records of unused seats.
    pub unused: Vec<DoorRecord>,
    /// How the first thread served.
    pub served: Result<(), RelayFault>,
}

/// Ends the threads, once the first has served in this way: the receivers, then the senders, and at last the watching
/// threads. What they left is kept, or memory ran out.
pub(crate) fn end_threads<
    R: Threads + Wait + Clock,
    O: Send + Drop,
    S: Send + Drop,
    A: FirstWork<R, O, S>,
>(
    rt: &R,
    alloc: Global,
    stopper: Stopper<'_>,
    started: StartedThreads<O, S>,
    served: Result<(), RelayFault>,
    work: &mut A,
) -> ThreadEnds
    ensures { (result.served ≡ served) ⊎ (result.served ≡ Err RelayFault.NoMemory) }
{
    let StartedThreads {
        receivers,
        sending,
        logs,
        servers,
        unused,
        ..
    } = started;
    let SendingThreads {
        senders,
        parting,
        keeping,
    } = sending;
    let end = work.end_of_run(served.is_err());
    let server = end_server(rt, stopper, servers, end);
    let parting = end_parting(rt, alloc, parting, end, work);
    match end {
        RunEnd::Stop => work.close_receivers(rt, alloc),
        RunEnd::HandOver => {
            work.close_leaving(rt, alloc);
            // No other port is shut: its receiver ends with the others.
            stopper.stop_datagrams();
        }
        RunEnd::Fail => {}
    }
    let (receivers, are_kept) = end_receivers(rt, alloc, stopper, receivers, work);
    let served = served_if(are_kept, served);
    if matches!(end, RunEnd::Stop) && served.is_ok() {
        work.drain(rt, alloc);
    }
    stopper.stop_senders();
    work.wake_senders();
    let (senders, are_kept) = join_all(rt, alloc, senders);
    let served = served_if(are_kept, served);
    let _ends = join_all(rt, alloc, parting);
    // Nothing goes to an intake any more.
    stopper.stop_keeper();
    work.wake_senders();
    let _ends = join_all(rt, alloc, keeping);
    stopper.stop_watchers();
    let log = join_last(rt, logs);
    let server = match server {
        ServerEnd::Ended(server) => server,
        ServerEnd::Runs(servers) => join_last(rt, servers),
    };
    work.keep_watchers(log, server);
    ThreadEnds {
        receivers,
        senders,
        unused,
        served,
    }
}

/// The status server, if there is one, or its thread, which goes on.
#[derive(Drop)]
enum ServerEnd<S> {
    Ended(Option<S>),
    Runs(Vec<JoinHandle<S>>),
}

/// If another run follows, says so to the threads, and ends that of the status server: it takes some milliseconds, in which the
/// others go on.
fn end_server<R: Threads + Wait, S: Send + Drop>(
    rt: &R,
    stopper: Stopper<'_>,
    servers: Vec<JoinHandle<S>>,
    end: RunEnd,
) -> ServerEnd<S> {
    if !end.hands_over() {
        return ServerEnd::Runs(servers);
    }
    stopper.begin_handing();
    stopper.stop_status();
    ServerEnd::Ended(join_last(rt, servers))
}

/// If another run follows, ends the sender to destinations that are gone, which may be writing a file, while the others go on.
/// Returns its thread if none follows.
fn end_parting<R: Threads + Wait + Clock, O, S, A: FirstWork<R, O, S>>(
    rt: &R,
    alloc: Global,
    parting: Vec<JoinHandle<()>>,
    end: RunEnd,
    work: &mut A,
) -> Vec<JoinHandle<()>> {
    if !end.hands_over() || parting.is_empty() {
        return parting;
    }
    work.end_parting(rt, alloc);
    let _ends = join_all(rt, alloc, parting);
    Vec::new(alloc)
}

/// Joins the thread of a list that has one at most. Returns how it ended.
fn join_last<R: Threads + Wait, T: Send + Drop>(rt: &R, children: Vec<JoinHandle<T>>) -> Option<T> {
    let mut end = None;
    for child in children {
        end = Some(child.join(rt));
    }
    end
}

/// Ends the receivers: those of connections, and once they have ended the one of datagrams. If there is one, it is the last.
/// Returns how they ended, in order, and whether there was memory to keep all of that.
fn end_receivers<R: Threads + Wait + Clock, O, S, A: FirstWork<R, O, S>>(
    rt: &R,
    alloc: Global,
    stopper: Stopper<'_>,
    receivers: Vec<JoinHandle<ThreadEnd<DoorRecord, FedLog>>>,
    work: &mut A,
) -> (Vec<ThreadEnd<DoorRecord, FedLog>>, bool) {
    let mut receivers = receivers;
    let last = receivers.pop();
    stopper.stop_receivers();
    work.wake_receivers();
    let (mut ends, mut are_kept) = join_all(rt, alloc, receivers);
    stopper.stop_datagrams();
    work.wake_receivers();
    if let Some(last) = last {
        are_kept = ends.push(last.join(rt)).is_ok() && are_kept;
    }
    (ends, are_kept)
}

/// How the first thread served, if there was memory to keep what the others left; otherwise out of memory.
fn served_if(are_kept: bool, served: Result<(), RelayFault>) -> Result<(), RelayFault>
    ensures { result ≡ (if are_kept then served else Err RelayFault.NoMemory) }
{
    if are_kept {
        served
    } else {
        Err(RelayFault::NoMemory)
    }
}

/// Joins all of these threads. Returns how they ended, and whether there was memory to keep all of that.
fn join_all<R: Threads + Wait, T: Send + Drop>(
    rt: &R,
    alloc: Global,
    children: Vec<JoinHandle<T>>,
) -> (Vec<T>, bool) {
    let mut ends = Vec::new(alloc);
    let mut are_kept = true;
    for child in children {
        if ends.push(child.join(rt)).is_err() {
            are_kept = false;
        }
    }
    (ends, are_kept)
}

/// What the first thread does while the others run, beside saying that the relay is ready. It does not reach the output.
pub trait FirstWork<R: Wait + Clock, O, S> {
    ghost use Rattle.std.specs.Prelude.{Bool};

    // Whether no run was before.
    ghost is_first: { Self → Bool };

    /// Whether no run was before, so that the output is to say that the relay is ready.
    fn is_first(&self) -> bool
        ensures { result ≡ is_first self.now };

    /// Does what is left to do for the run before, and answers commands until one is `stop`, or until another run is to follow.
    fn serve(&mut self, rt: &R, alloc: Global);

    /// How the run ends, now that the first thread has served, or that the run has failed: the carry-over of a run that
    /// could not begin is not lost either.
    fn end_of_run(&self, has_failed: bool) -> RunEnd;

    /// Tells the sender to destinations that are gone to end, and answers commands until it has ended.
    fn end_parting(&mut self, rt: &R, alloc: Global);

    /// Closes the receivers before they are stopped, so that they read what was sent to them.
    fn close_receivers(&mut self, rt: &R, alloc: Global);

    /// Closes those of them whose ports the run that follows does not have.
    fn close_leaving(&mut self, rt: &R, alloc: Global);

    /// Ends the waits of the receivers, so that they see their stop flags.
    fn wake_receivers(&self);

    /// Waits, once the receivers have ended, for as long as the senders are to go on, and notes for whom it does not wait. Then, if
    /// files keep what was not sent, it has the senders write them, and waits until they have.
    fn drain(&mut self, rt: &R, alloc: Global);

    /// Ends the waits of the senders, so that they see their stop flags.
    fn wake_senders(&self);

    /// Keeps what the watching threads left: the log's output, and the status server.
    fn keep_watchers(&mut self, log: Option<O>, server: Option<S>);
}
