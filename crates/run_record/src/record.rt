//! The record of a run: its replay script.

ghost use Rattle.std.specs.Prelude.{◌≡◌, ◌≤◌, length, IfOk, IfErr, Ok, Err};
ghost use Rattle.std.specs.String.{string_bytes};
ghost use Rattle.run_record.specs.Recorded.{IsRecordOfRun, settle_fault};

use crate::history::is_order_of;
use crate::parts::RunParts;
use crate::record_fault::RecordFault;
use crate::script::script_of_run;
use dest_queue::MOST_READERS;
use finished_run::{FinishedRun, RunShape, ThreadLogs};
use locked_queues::{READERS_EACH, SettleFault, Settled};
use mio_loops::{InputLog, LogInput, MOST_LOG_ENTRIES, WriteLog, WriterEntry};
use reader_core::ReaderKind;
use relay_base::{LARGEST_MESSAGE, LARGEST_QUEUE_SIZE, NoMemory, add};
use relay_core::Event;
use std::alloc::Global;

/// The record of a finished run: its replay script. Refuses a run that has not settled, or whose histories and logs are not
/// whole.
pub fn record_run(alloc: Global, run: &FinishedRun<'_>) -> Result<String, RecordFault>
    requires dests { length run.now.configuration.now.settings.routing.destinations
        ≡ run.now.shape.dests }
    requires size { (1 ≤ run.now.shape.size) × (run.now.shape.size ≤ LARGEST_QUEUE_SIZE) }
    requires limit { (1 ≤ run.now.shape.limit) × (run.now.shape.limit ≤ LARGEST_MESSAGE) }
    ensures made { IfOk result (λ script. IsRecordOfRun run.now (string_bytes script)) }
    ensures unsettled { IfErr run.now.settled.now (λ fault. result ≡ Err (settle_fault fault)) }
{
    let settled = match run.settled {
        Ok(settled) => settled,
        Err(fault) => return Err(fault_of(fault)),
    };
    let mut lists = Lists::new(alloc);
    let record = record_by(alloc, run, settled, &mut lists);
    drop(lists);
    record
}

/// Why a run that has not settled has no record.
fn fault_of(fault: &SettleFault) -> RecordFault
    ensures { result ≡ settle_fault fault.now }
{
    match fault {
        SettleFault::Sealed { dest, .. } => RecordFault::History { dest: dest.0 },
        SettleFault::NoMemory => RecordFault::NoMemory,
        _ => RecordFault::NotSettled,
    }
}

/// What was logged: the kind of each reader and what it was fed, and what each destination's writer did.
#[derive(Drop)]
struct Lists<'b> {
    kinds: Vec<ReaderKind>,
    fed: Vec<Vec<Event<'b>>>,
    written: Vec<Vec<Event<'b>>>,
}

impl<'b> Lists<'b> {
    /// Nothing was logged.
    fn new(alloc: Global) -> Lists<'b> {
        Lists {
            kinds: Vec::new(alloc),
            fed: Vec::new(alloc),
            written: Vec::new(alloc),
        }
    }

    /// Adds what the threads of a run logged. Refuses a log that is not whole.
    fn add_logs(
        &mut self,
        alloc: Global,
        shape: RunShape,
        logs: &'b ThreadLogs,
    ) -> Result<(), RecordFault> {
        add_kinds(&mut self.kinds, shape.receivers, logs)?;
        add_all_fed(alloc, &mut self.fed, self.kinds.len(), logs)?;
        add_all_written(alloc, &mut self.written, shape, logs)
    }
}

/// The record of a finished run, which has settled so: the script of a run by its configuration, with the counts of its
/// queues, made in these lists.
fn record_by<'b>(
    alloc: Global,
    run: &FinishedRun<'b>,
    settled: &Settled,
    lists: &mut Lists<'b>,
) -> Result<String, RecordFault>
    requires dests { length run.now.configuration.now.settings.routing.destinations
        ≡ run.now.shape.dests }
    requires size { (1 ≤ run.now.shape.size) × (run.now.shape.size ≤ LARGEST_QUEUE_SIZE) }
    requires limit { (1 ≤ run.now.shape.limit) × (run.now.shape.limit ≤ LARGEST_MESSAGE) }
    requires settled { run.now.settled.now ≡ Ok settled.now }
    ensures { IfOk result (λ script. IsRecordOfRun run.now (string_bytes script)) }
{
    let shape = run.shape;
    lists.add_logs(alloc, shape, run.logs)?;
    if lists.kinds.is_empty() || lists.kinds.len() > MOST_READERS {
        return Err(RecordFault::NotOneRun);
    }
    if !is_order_of(
        alloc,
        settled.histories.as_slice(),
        settled.order.as_slice(),
    )? {
        return Err(RecordFault::NotOneRun);
    }
    let Ok(plan) = run.configuration.plan(alloc) else {
        return Err(RecordFault::NoMemory);
    };
    let parts = RunParts {
        kinds: lists.kinds.as_slice(),
        fed: lists.fed.as_slice(),
        written: lists.written.as_slice(),
        histories: settled.histories.as_slice(),
        order: settled.order.as_slice(),
        counts: settled.counts.as_slice(),
    };
    Ok(script_of_run(alloc, plan, shape.size, shape.limit, shape.dests, &parts)?)
}

/// Adds the kind of each reader of this many receivers. A seat without a receiver has readers of lines, which are fed
/// nothing.
fn add_kinds(
    kinds: &mut Vec<ReaderKind>,
    receivers: usize,
    logs: &ThreadLogs,
) -> Result<(), NoMemory> {
    for receiver in 0..receivers {
        let kind = match logs.fed.get(receiver) {
            Some(Some(fed)) => fed.kind,
            _ => ReaderKind::Line,
        };
        for _ in 0..READERS_EACH {
            add(kinds, kind)?;
        }
    }
    Ok(())
}

/// Adds what each reader was fed, in order. Refuses a log that is not whole.
fn add_all_fed<'b>(
    alloc: Global,
    fed: &mut Vec<Vec<Event<'b>>>,
    readers: usize,
    logs: &'b ThreadLogs,
) -> Result<(), RecordFault> {
    for reader in 0..readers {
        add(fed, fed_to(alloc, reader, logs)?)?;
    }
    Ok(())
}

/// What a reader was fed. Refuses a log that is not whole. The readers of a seat without a receiver were fed nothing.
fn fed_to<'b>(
    alloc: Global,
    reader: usize,
    logs: &'b ThreadLogs,
) -> Result<Vec<Event<'b>>, RecordFault> {
    let receiver = reader / READERS_EACH;
    let log = match logs.fed.get(receiver) {
        Some(Some(fed)) if !fed.log.sealed() => &fed.log,
        Some(_) => return Err(RecordFault::Received { receiver }),
        None => return Ok(Vec::new(alloc)),
    };
    let mut fed = Vec::new(alloc);
    add_fed(&mut fed, reader, log)?;
    Ok(fed)
}

/// Adds what a reader was fed.
fn add_fed<'b>(
    events: &mut Vec<Event<'b>>,
    reader: usize,
    log: &'b InputLog,
) -> Result<(), NoMemory> {
    let mut entries = log.entries();
    for _ in 0..MOST_LOG_ENTRIES {
        let Some(entry) = entries.next_entry() else {
            return Ok(());
        };
        if entry.reader == reader {
            let event = match &entry.input {
                LogInput::Piece(bytes, moment) => Event::Piece(reader, *bytes, *moment),
                LogInput::End => Event::End(reader),
            };
            add(events, event)?;
        }
    }
    Ok(())
}

/// Adds what the writer of each destination did, in order. Refuses a log that is not whole.
fn add_all_written<'b>(
    alloc: Global,
    written: &mut Vec<Vec<Event<'b>>>,
    shape: RunShape,
    logs: &ThreadLogs,
) -> Result<(), RecordFault> {
    for dest in 0..shape.dests {
        let Some(log) = writer_log(shape.senders, dest, logs) else {
            return Err(RecordFault::Written { dest });
        };
        let mut own = Vec::new(alloc);
        add_written(&mut own, dest, log.entries())?;
        add(written, own)?;
    }
    Ok(())
}

/// The log of a destination's writer, which is one of the sender that owns the destination, if it is whole.
fn writer_log<'b>(senders: usize, dest: usize, logs: &'b ThreadLogs) -> Option<&'b WriteLog> {
    let owner = dest.checked_rem(senders)?;
    let Some(writers) = logs.written.get(owner)? else {
        return None;
    };
    let log = writers.get(dest)?;
    if log.sealed() { None } else { Some(log) }
}

/// Adds what a destination's writer did.
fn add_written(
    events: &mut Vec<Event<'_>>,
    dest: usize,
    entries: &[WriterEntry],
) -> Result<(), NoMemory> {
    for entry in entries {
        let event = match entry {
            WriterEntry::Up => Event::Up(dest),
            WriterEntry::Take { .. } => Event::Take(dest),
            WriterEntry::Wrote { count } => Event::Wrote(dest, *count),
            WriterEntry::Down => Event::Down(dest),
        };
        add(events, event)?;
    }
    Ok(())
}
