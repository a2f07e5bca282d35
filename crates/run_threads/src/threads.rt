//! The threads of a relay: one for each receiver and each sender, and the watching threads.

ghost use Rattle.std.specs.Prelude.{◌≡◌, IfErr, OnOk};
ghost use Rattle.std.specs.Io.KnownBytes.{Appends};
ghost use Rattle.relay_files.specs.Output.{GrowsByPart};
ghost use Rattle.run_threads.specs.Served.{Served, opening};
ghost use denote.Param.Send.{IsSync, IsSend};

use crate::ending::{FirstWork, ThreadEnd, ThreadEnds, end_threads};
use finished_run::FedLog;
use locked_queues::{DoorRecord, OutletRecord};
use mio_loops::WriteLog;
use relay_files::{RelayFault, write_out};
use run_state::{Signals, Stopper, ThreadWork};
use std::alloc::Global;
use std::io::Write;
use std::rt::Clock;
use std::sync::Wait;
use std::thread;
use std::thread::{Builder, JoinHandle, Scope, Threads};

/// What the threads of a run work on: its receivers and its senders, the sender to destinations that are gone, the keeper of
/// files, the log and the status server, if any.
#[derive(Drop)]
pub struct Jobs<J, K, G, H, L, V> {
    /// The receivers.
    pub receiving: Receiving<J>,
    /// The senders.
    pub sending: Vec<K>,
    /// The sender to destinations that are gone.
    pub parting: Option<G>,
    /// The keeper of files.
    pub keeping: Option<H>,
    /// The log.
    pub logging: Option<L>,
    /// The status server.
    pub serving: Option<V>,
}

/// Receivers, and the records of seats that are unused.
#[derive(Drop)]
pub struct Receiving<J> {
    /// The receivers.
    pub jobs: Vec<J>,
    /// The records of seats that are unused.
    pub unused: Vec<DoorRecord>,
}

impl<J> Receiving<J> {
    /// No receivers. It takes no memory.
    pub fn none(alloc: Global) -> Receiving<J> {
        Receiving {
            jobs: Vec::new(alloc),
            unused: Vec::new(alloc),
        }
    }
}

/// The signals between the threads and the first one.
#[derive(Clone, Copy)]
struct SignalLink<'s> {
    signals: &'s Signals,
}

/// The handles of threads that were started, and whether all were; and the records of unused seats. The log's thread leaves an `O`, and the status server's an `S`.
#[derive(Drop)]
pub(crate) struct StartedThreads<O, S> {
    pub(crate) receivers: Vec<JoinHandle<ThreadEnd<DoorRecord, FedLog>>>,
    pub(crate) sending: SendingThreads,
    pub(crate) logs: Vec<JoinHandle<O>>,
    pub(crate) servers: Vec<JoinHandle<S>>,
    pub(crate) unused: Vec<DoorRecord>,
    are_all: bool,
}

/// The handles of those that send: the senders, the one to destinations that are gone, and the keeper of files.
#[derive(Drop)]
pub(crate) struct SendingThreads {
    pub(crate) senders: Vec<JoinHandle<ThreadEnd<OutletRecord, Vec<WriteLog>>>>,
    pub(crate) parting: Vec<JoinHandle<()>>,
    pub(crate) keeping: Vec<JoinHandle<()>>,
}

impl<O, S> StartedThreads<O, S> {
    /// Waits until all receivers and senders have begun, and the keeper of files, if there is one. Returns whether they have: false
    /// if a thread could not be started, or has not the memory to begin.
    fn wait_for_begun<R: Wait + Clock>(&self, rt: &R, signals: &Signals) -> bool {
        let count = self
            .receivers
            .len()
            .saturating_add(self.sending.senders.len())
            .saturating_add(self.sending.keeping.len());
        self.are_all && signals.wait_for_begun(rt, count)
    }
}

/// What the first thread does while the others run, and its output. These are references alone, so that it is known what was
/// written once they are taken apart.
#[derive(Drop)]
struct WithOutput<'a, 'p, A, W> {
    work: &'a mut A,
    output: &'p mut W,
}

/// Starts a thread for each job, and has the first one do its work, with this output, until the run has ended.
pub fn run_all_threads<
    R: Threads + Wait + Clock + Sync,
    J: ThreadWork<R, ThreadEnd<DoorRecord, FedLog>> + Send + Drop,
    K: ThreadWork<R, ThreadEnd<OutletRecord, Vec<WriteLog>>> + Send + Drop,
    G: ThreadWork<R, ()> + Send + Drop,
    H: ThreadWork<R, ()> + Send + Drop,
    L: ThreadWork<R, O> + Send + Drop,
    V: ThreadWork<R, S> + Send + Drop,
    O: Send + Drop,
    S: Send + Drop,
    A: FirstWork<R, O, S>,
    W: Write,
>(
    rt: &R,
    alloc: Global,
    jobs: Jobs<J, K, G, H, L, V>,
    stopper: Stopper<'_>,
    work: &mut A,
    output: &mut W,
) -> ThreadEnds
    ensures { Served (opening (A.is_first work.old))
        (W.contents output.old) (W.contents output.new) result.served }
{
    let first = WithOutput { work, output };
    let (ends, first) = run_threads(rt, alloc, jobs, stopper, first);
    // Taken apart, it ends here: then it is known what its output has.
    let WithOutput {
        work: _work,
        output: _output,
    } = first;
    ends
}

/// Starts a thread for each job, serves until the relay is stopped, and ends the threads.
fn run_threads<
    'a,
    'p,
    R: Threads + Wait + Clock + Sync,
    J: ThreadWork<R, ThreadEnd<DoorRecord, FedLog>> + Send + Drop,
    K: ThreadWork<R, ThreadEnd<OutletRecord, Vec<WriteLog>>> + Send + Drop,
    G: ThreadWork<R, ()> + Send + Drop,
    H: ThreadWork<R, ()> + Send + Drop,
    L: ThreadWork<R, O> + Send + Drop,
    V: ThreadWork<R, S> + Send + Drop,
    O: Send + Drop,
    S: Send + Drop,
    A: FirstWork<R, O, S>,
    W: Write,
>(
    rt: &R,
    alloc: Global,
    jobs: Jobs<J, K, G, H, L, V>,
    stopper: Stopper<'_>,
    first: WithOutput<'a, 'p, A, W>,
) -> (ThreadEnds, WithOutput<'a, 'p, A, W>)
    ensures same { result.1.output.ghost_name ≡ first.entry.output.ghost_name }
    ensures served { Served (opening (A.is_first first.entry.work.now))
        (W.contents first.entry.output.now) (W.contents result.1.output.now) result.0.served }
{
    thread::scope(
        thread::scope_env(),
        rt,
        move |scope| -> (ThreadEnds, WithOutput<'_, '_, A, W>)
            requires { IsSync R.row × IsSend J.row × IsSend K.row × IsSend G.row × IsSend H.row
                × IsSend L.row
                × IsSend V.row × IsSend O.row × IsSend S.row }
            ensures same { result.1.output.ghost_name ≡ first.entry.output.ghost_name }
            ensures served { Served (opening (A.is_first first.entry.work.now))
                (W.contents first.entry.output.now) (W.contents result.1.output.now) result.0.served }
        {
            let signals = stopper.signals();
            let started = start_all(scope, rt, alloc, jobs, SignalLink { signals });
            let WithOutput { work, output } = first;
            let ends = run_in_scope(rt, alloc, stopper, started, &mut *work, &mut *output);
            (ends, WithOutput { work, output })
        },
    )
}

/// Runs the threads that were started in their scope: serves, and ends them.
fn run_in_scope<
    R: Threads + Wait + Clock,
    O: Send + Drop,
    S: Send + Drop,
    A: FirstWork<R, O, S>,
    W: Write,
>(
    rt: &R,
    alloc: Global,
    stopper: Stopper<'_>,
    started: StartedThreads<O, S>,
    work: &mut A,
    output: &mut W,
) -> ThreadEnds
    ensures { Served (opening (A.is_first work.old))
        (W.contents output.old) (W.contents output.new) result.served }
{
    let are_begun = started.wait_for_begun(rt, stopper.signals());
    let served = serve_if(rt, alloc, are_begun, work, output);
    end_threads(rt, alloc, stopper, started, served, work)
}

/// Says that the relay is ready, if no run was before, and serves. If not all threads have begun, it is out of memory, and
/// nothing is written.
fn serve_if<R: Wait + Clock, O, S, A: FirstWork<R, O, S>, W: Write>(
    rt: &R,
    alloc: Global,
    are_begun: bool,
    work: &mut A,
    output: &mut W,
) -> Result<(), RelayFault>
    ensures { Served (opening (A.is_first work.old))
        (W.contents output.old) (W.contents output.new) result }
{
    if !are_begun {
        return Err(RelayFault::NoMemory);
    }
    let said = say_opening(work.is_first(), output);
    if said.is_ok() {
        work.serve(rt, alloc);
    }
    said
}

/// Writes that the relay is ready, if no run was before.
fn say_opening<W: Write>(is_first: bool, output: &mut W) -> Result<(), RelayFault>
    ensures ok { OnOk result
        (Appends (W.contents output.old) (W.contents output.new) (opening is_first)) }
    ensures err { IfErr result (λ fault. (fault ≡ RelayFault.Output)
        × GrowsByPart (W.contents output.old) (W.contents output.new) (opening is_first)) }
{
    if is_first {
        write_out(output, b"ready\n")?;
    }
    Ok(())
}

/// Starts a thread for each job.
fn start_all<
    's,
    E,
    R: Threads + Wait + Clock + Sync,
    J: ThreadWork<R, ThreadEnd<DoorRecord, FedLog>> + Send + Drop + 's,
    K: ThreadWork<R, ThreadEnd<OutletRecord, Vec<WriteLog>>> + Send + Drop + 's,
    G: ThreadWork<R, ()> + Send + Drop + 's,
    H: ThreadWork<R, ()> + Send + Drop + 's,
    L: ThreadWork<R, O> + Send + Drop + 's,
    V: ThreadWork<R, S> + Send + Drop + 's,
    O: Send + Drop + 's,
    S: Send + Drop + 's,
>(
    scope: &Scope<'s, E>,
    rt: &'s R,
    alloc: Global,
    jobs: Jobs<J, K, G, H, L, V>,
    link: SignalLink<'s>,
) -> StartedThreads<O, S> {
    let Jobs {
        receiving,
        sending,
        parting,
        keeping,
        logging,
        serving,
    } = jobs;
    let Receiving {
        jobs: receiving,
        unused,
    } = receiving;
    let (receivers, are_receivers) = start_each(scope, rt, alloc, receiving, link);
    let (senders, are_senders) = start_each(scope, rt, alloc, sending, link);
    let (parting, is_parting) = start_if(scope, rt, alloc, parting, link);
    let (keeping, is_keeping) = start_if(scope, rt, alloc, keeping, link);
    let (logs, is_logging) = start_if(scope, rt, alloc, logging, link);
    let (servers, is_serving) = start_if(scope, rt, alloc, serving, link);
    StartedThreads {
        receivers,
        sending: SendingThreads {
            senders,
            parting,
            keeping,
        },
        logs,
        servers,
        unused,
        are_all: are_receivers
            && are_senders
            && is_parting
            && is_keeping
            && is_logging
            && is_serving,
    }
}

/// Starts a thread for each of these jobs. Returns their handles, and whether it has started and kept all.
fn start_each<
    's,
    E,
    R: Threads + Wait + Clock + Sync,
    T: Send + Drop + 's,
    J: ThreadWork<R, T> + Send + Drop + 's,
>(
    scope: &Scope<'s, E>,
    rt: &'s R,
    alloc: Global,
    jobs: Vec<J>,
    link: SignalLink<'s>,
) -> (Vec<JoinHandle<T>>, bool) {
    let mut handles = Vec::new(alloc);
    let mut are_all = true;
    for job in jobs {
        are_all = start_thread(scope, rt, alloc, job, link, &mut handles) && are_all;
    }
    (handles, are_all)
}

/// Starts the thread of a job, if there is one. Returns its handle, and whether it has started and kept it.
fn start_if<
    's,
    E,
    R: Threads + Wait + Clock + Sync,
    T: Send + Drop + 's,
    J: ThreadWork<R, T> + Send + Drop + 's,
>(
    scope: &Scope<'s, E>,
    rt: &'s R,
    alloc: Global,
    job: Option<J>,
    link: SignalLink<'s>,
) -> (Vec<JoinHandle<T>>, bool) {
    let mut handles = Vec::new(alloc);
    let is_started = match job {
        Some(job) => start_thread(scope, rt, alloc, job, link, &mut handles),
        None => true,
    };
    (handles, is_started)
}

/// Starts the thread of a job, and keeps its handle. Returns whether it could.
fn start_thread<
    's,
    E,
    R: Threads + Wait + Clock + Sync,
    T: Send + Drop + 's,
    J: ThreadWork<R, T> + Send + Drop + 's,
>(
    scope: &Scope<'s, E>,
    rt: &'s R,
    alloc: Global,
    job: J,
    link: SignalLink<'s>,
    handles: &mut Vec<JoinHandle<T>>,
) -> bool {
    let Ok(name) = job.name(alloc) else {
        drop(job);
        return false;
    };
    let started = Builder::new()
        .name(name)
        .spawn_scoped(scope, move || job.work(rt, alloc, link.signals));
    match started {
        Ok(handle) => handles.push(handle).is_ok(),
        Err(_) => false,
    }
}
