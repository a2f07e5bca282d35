//! The end of a run: what its threads left, with the first fault of one, the line that says whether it settled, and its record.

ghost use Rattle.std.specs.Prelude.{◌≡◌, ◌≤◌, length, None, IfOk, IfErr, ◌⊎◌, map, IsErrOf, IsOk, OnOk};
ghost use Rattle.std.specs.Io.KnownBytes.{Appends};
ghost use Rattle.std.specs.String.{string_bytes};
ghost use Rattle.relay_run.specs.Closing.{closing_line, ended_line, differs_line, closing_status, input_fault, output_fault};
ghost use Rattle.relay_run.specs.Running.{ClosesWith, first_fault, thread_fault};

use finished_run::{FinishedRun, Recorder, RunPlace, ThreadLogs};
use locked_queues::{DoorRecord, OutletRecord, SettleFault, Settled};
use mio_loops::ReadinessFault;
use relay_base::{LARGEST_MESSAGE, LARGEST_QUEUE_SIZE, NoMemory, add};
use relay_files::{RelayFault, Status, write_out};
use relay_ports::FirstPorts;
use relay_watchers::{LogEnd, StatusServer};
use run_threads::{ThreadEnd, ThreadEnds};
use std::alloc::Global;
use std::fmt::Write as _;
use std::io::Write;

/// Writes what a run leaves whose threads had this fault, if any: the line that says how it settled, and what its recorder, if
/// it has one, makes of it. Returns as [`close_run`] does.
pub(crate) fn write_end<W: Write, K: Recorder>(
    alloc: Global,
    run: &FinishedRun<'_>,
    fault: Option<RelayFault>,
    output: &mut W,
    recorder: &mut Option<K>,
) -> Result<Status, RelayFault>
    requires dests { length run.now.configuration.now.settings.routing.destinations
        ≡ run.now.shape.dests }
    requires size { (1 ≤ run.now.shape.size) × (run.now.shape.size ≤ LARGEST_QUEUE_SIZE) }
    requires limit { (1 ≤ run.now.shape.limit) × (run.now.shape.limit ≤ LARGEST_MESSAGE) }
    ensures ok { IfOk result (λ status. Appends (W.contents output.old) (W.contents output.new)
        (closing_line run.now.settled.now) × (status ≡ closing_status run.now.settled.now)
        × (fault ≡ None)) }
    ensures err { IfErr result (ClosesWith (W.contents output.old) (W.contents output.new)
        run.now.settled.now fault) }
{
    let ended = close_run(alloc, run.settled, fault, output);
    if let Some(recorder) = recorder {
        recorder.take(alloc, RunPlace::Last, run);
    }
    ended
}

/// The lines of the log on a run that another one follows: how it settled, and the fault of a thread, if one had a fault.
pub(crate) fn closing_text(
    alloc: Global,
    number: u64,
    settled: &Result<Settled, SettleFault>,
    fault: Option<RelayFault>,
) -> Result<String, NoMemory>
    ensures line { fault ≡ None → IfOk result (λ text.
        string_bytes text ≡ ended_line number settled.now) }
{
    let line = closing_line(alloc, settled)?;
    let mut text = format!(in alloc; "run {number}: {line}")?;
    drop(line);
    if let Some(fault) = fault {
        write!(text, "run {number}: {fault}\n")?;
    }
    Ok(text)
}

/// Closes a run: writes the line that says how it settled, and returns its status, or the fault of a thread if one had
/// a fault.
fn close_run<W: Write>(
    alloc: Global,
    settled: &Result<Settled, SettleFault>,
    fault: Option<RelayFault>,
    output: &mut W,
) -> Result<Status, RelayFault>
    ensures ok { IfOk result (λ status. Appends (W.contents output.old) (W.contents output.new)
        (closing_line settled.now) × (status ≡ closing_status settled.now) × (fault ≡ None)) }
    ensures err { IfErr result (ClosesWith (W.contents output.old) (W.contents output.new)
        settled.now fault) }
{
    let line = closing_line(alloc, settled)?;
    write_out(output, line.as_str().as_bytes())?;
    match fault {
        Some(fault) => Err(fault),
        None => Ok(closing_status(settled)),
    }
}

/// The line that says how a run settled; there is none if the settling ran out of memory.
fn closing_line(alloc: Global, settled: &Result<Settled, SettleFault>) -> Result<String, NoMemory>
    ensures { IfOk result (λ line. string_bytes line ≡ closing_line settled.now) }
{
    match settled {
        Ok(_) => Ok(String::from_str(alloc, "settled\n")?),
        Err(SettleFault::Sealed { dest, .. }) => Ok(format!(in alloc; "sealed {}\n", dest.0)?),
        Err(SettleFault::Totals { dest }) => Ok(format!(in alloc; "totals {}\n", dest.0)?),
        Err(SettleFault::Differs { dest, place, .. }) => differs_line(alloc, dest.0, *place),
        Err(SettleFault::NoOrder) => Ok(String::from_str(alloc, "no order\n")?),
        Err(SettleFault::Strangers) => Ok(String::from_str(alloc, "strangers\n")?),
        Err(SettleFault::NoMemory) => Err(NoMemory),
    }
}

/// The line of a difference at a destination and a place.
fn differs_line(alloc: Global, dest: usize, place: usize) -> Result<String, NoMemory>
    ensures { IfOk result (λ line. string_bytes line ≡ differs_line dest place) }
{
    Ok(format!(in alloc; "differs {dest} {place}\n")?)
}

/// The status of a run with this end of its settling. A sealed history, which each long run has, is no fault.
fn closing_status(settled: &Result<Settled, SettleFault>) -> Status
    ensures { result ≡ closing_status settled.now }
{
    match settled {
        Ok(_) | Err(SettleFault::Sealed { .. }) => Status::Done,
        Err(SettleFault::NoMemory) => Status::NoMemory,
        Err(_) => Status::DeviceFault,
    }
}

/// The fault of a run whose receiver ended with this fault.
fn input_fault(fault: ReadinessFault) -> RelayFault
    ensures { result ≡ input_fault fault }
{
    match fault {
        ReadinessFault::Device => RelayFault::Input,
        ReadinessFault::NoMemory => RelayFault::NoMemory,
    }
}

/// The fault of a run whose sender ended with this fault.
pub(crate) fn output_fault(fault: ReadinessFault) -> RelayFault
    ensures { result ≡ output_fault fault }
{
    match fault {
        ReadinessFault::Device => RelayFault::Output,
        ReadinessFault::NoMemory => RelayFault::NoMemory,
    }
}

/// What doors and outlets recorded, what receivers and senders logged, and the fault of a thread, if one had a fault.
#[derive(Drop)]
pub(crate) struct Records {
    pub(crate) doors: Vec<DoorRecord>,
    pub(crate) outlets: Vec<OutletRecord>,
    pub(crate) logs: ThreadLogs,
    pub(crate) fault: Option<RelayFault>,
}

impl Records {
    /// Nothing is known of what the threads recorded. It takes no memory.
    pub(crate) fn none(alloc: Global) -> Records {
        Records {
            doors: Vec::new(alloc),
            outlets: Vec::new(alloc),
            logs: ThreadLogs {
                fed: Vec::new(alloc),
                written: Vec::new(alloc),
            },
            fault: None,
        }
    }
}

/// What the threads of a run left: what they recorded, the ports of the first one, the log, if there is one, and the status server.
#[derive(Drop)]
pub(crate) struct RunLeft<O> {
    pub(crate) records: Records,
    pub(crate) ports: FirstPorts,
    pub(crate) log: Option<LogEnd<O>>,
    pub(crate) server: Option<StatusServer>,
}

/// What the threads recorded, with the records of unused seats, and the first fault of a thread.
pub(crate) fn records_of(alloc: Global, ends: ThreadEnds) -> Result<Records, RelayFault>
    ensures fault { IfOk result (λ records. records.fault
        ≡ thread_fault (map (λ end. end.fault) ends.receivers.items)
        (map (λ end. end.fault) ends.senders.items)) }
    ensures served { OnOk result (IsOk ends.served) }
    ensures err { IfErr result (λ fault. IsErrOf ends.served fault ⊎ (fault ≡ RelayFault.NoMemory)) }
{
    let ThreadEnds {
        receivers,
        senders,
        unused,
        served,
    } = ends;
    served?;
    let fault = thread_fault(receivers.as_slice(), senders.as_slice());
    let mut doors = unused;
    let mut fed = Vec::new(alloc);
    add_records(&mut doors, &mut fed, receivers)?;
    let mut outlets = Vec::new(alloc);
    let mut written = Vec::new(alloc);
    add_records(&mut outlets, &mut written, senders)?;
    Ok(Records {
        doors,
        outlets,
        logs: ThreadLogs { fed, written },
        fault,
    })
}

/// Adds what threads recorded, and what they logged.
fn add_records<T: Drop, L: Drop>(
    records: &mut Vec<T>,
    logs: &mut Vec<Option<L>>,
    ends: Vec<ThreadEnd<T, L>>,
) -> Result<(), NoMemory> {
    for end in ends {
        add(records, end.record)?;
        add(logs, end.log)?;
    }
    Ok(())
}

/// The fault of a run whose threads ended in these ways: that of the first receiver that has one, and if none has, that
/// of the first sender that has one.
fn thread_fault<T, L, U, M>(
    receivers: &[ThreadEnd<T, L>],
    senders: &[ThreadEnd<U, M>],
) -> Option<RelayFault>
    ensures { result ≡ thread_fault (map (λ end. end.fault) receivers.now)
        (map (λ end. end.fault) senders.now) }
{
    match first_fault(receivers) {
        Some(fault) => Some(input_fault(fault)),
        None => first_fault(senders).map(output_fault),
    }
}

/// The first fault of threads.
fn first_fault<T, L>(ends: &[ThreadEnd<T, L>]) -> Option<ReadinessFault>
    ensures { result ≡ first_fault (map (λ end. end.fault) ends.now) }
{
    for end in ends {
        if end.fault.is_some() {
            return end.fault;
        }
    }
    None
}
