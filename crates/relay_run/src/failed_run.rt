//! What becomes of what a run of a reload held that failed, or could not begin: files keep it, as far as there are some.

use crate::closing::Records;
use crate::ended_run::{EndedRun, ended_of};
use crate::prepared_run::PreparedRun;
use crate::relay::Relay;
use crate::runtime::RelayRuntime;
use crate::spool_folder::SpoolFolder;
use crate::start::{Process, RunCarryOver};
use locked_queues::Set;
use log_lines::{RelayEnd, push_relay_end_line};
use relay_watchers::LogEnd;
use run_state::GoneEnd;
use std::alloc::{AllocError, Global};
use std::io::Write;
use store_lines::{DestSlots, spool_slots};

/// Writes to files what ended runs left to one that could not be opened, and says how much was kept and lost.
pub(crate) fn spool_carry_over<R: RelayRuntime, F>(
    rt: &R,
    alloc: Global,
    carry_over: RunCarryOver,
    process: &Process<'_, F>,
) {
    let limit = process.file_limit();
    let left = spool_both(rt, alloc, &carry_over.slots, &carry_over.gone.slots, limit);
    drop(carry_over);
    say_left(alloc, left, process.setup.folder);
}

/// After a reload, writes to files what a run held that failed: the run before, if the records of its threads could not be
/// kept, or the run behind, if it could not begin. Says in the log, if it is there, how much was kept and lost.
pub(crate) fn spool_failed<B: Set, R: RelayRuntime, L: Write + Drop, F>(
    rt: &R,
    alloc: Global,
    relay: Relay<B>,
    next: Option<PreparedRun<B>>,
    process: &Process<'_, F>,
    log: Option<LogEnd<L>>,
) {
    let left = left_by(rt, alloc, relay, next, process);
    match log {
        Some(LogEnd { output, receivers }) => {
            drop(receivers);
            write_left(alloc, left, output);
        }
        None => say_left(alloc, left, process.setup.folder),
    }
}

/// Writes to files what a failed run held, unless it was the first of the process. Returns how much was kept and lost.
fn left_by<B: Set, R: RelayRuntime, F>(
    rt: &R,
    alloc: Global,
    relay: Relay<B>,
    next: Option<PreparedRun<B>>,
    process: &Process<'_, F>,
) -> GoneEnd {
    let room = match next {
        Some(PreparedRun { next, room }) => {
            drop(next);
            Some(room)
        }
        None if relay.is_first() => {
            drop(relay);
            return GoneEnd {
                spooled: 0,
                unsent: 0,
            };
        }
        None => relay.queues.end_room(alloc).ok(),
    };
    let limit = process.file_limit();
    let Some(room) = room else {
        let left = spool_both(rt, alloc, &relay.slots, &relay.gone.slots, limit);
        drop(relay);
        return left;
    };
    let records = Records::none(alloc);
    spool_ended(rt, alloc, ended_of(alloc, relay, room, records), limit)
}

/// Writes to files what an ended run left that no other one can go on with. Returns how much was kept and lost.
fn spool_ended<R: RelayRuntime>(
    rt: &R,
    alloc: Global,
    ended: EndedRun,
    limit: Option<u64>,
) -> GoneEnd {
    let EndedRun {
        record,
        slots,
        dropped,
        gone,
        ..
    } = ended;
    drop(record);
    let mut left = spool_both(rt, alloc, &slots, &gone.slots, limit);
    drop((slots, gone));
    for count in &dropped {
        left.unsent = left.unsent.saturating_add(*count);
    }
    left
}

/// Writes to files what is left for destinations, and for those that are gone. Returns how much was kept and lost.
fn spool_both<R: RelayRuntime>(
    rt: &R,
    alloc: Global,
    slots: &DestSlots,
    gone: &DestSlots,
    limit: Option<u64>,
) -> GoneEnd {
    let left = spool_slots(rt, alloc, slots, limit);
    let more = spool_slots(rt, alloc, gone, limit);
    GoneEnd {
        spooled: left.spooled.saturating_add(more.spooled),
        unsent: left.unsent.saturating_add(more.unsent),
    }
}

/// Has the folder say how much was kept and lost, if there is one and something was.
fn say_left(alloc: Global, left: GoneEnd, folder: Option<SpoolFolder<'_>>) {
    if let (Some(folder), Ok(lines)) = (folder, lines_of(alloc, left)) {
        folder.fault.put_news(lines);
    }
}

/// Has the log with this output say it, and ends it.
fn write_left<L: Write + Drop>(alloc: Global, left: GoneEnd, output: L) {
    let mut output = output;
    if let Ok(lines) = lines_of(alloc, left) {
        // A log that cannot be written holds up nothing.
        let _ = output.write_all(lines.as_str().as_bytes());
        let _ = output.flush();
        drop(lines);
    }
    drop(output);
}

/// The lines on how much was kept and lost, as a stop has them.
fn lines_of(alloc: Global, left: GoneEnd) -> Result<String, AllocError> {
    let mut lines = String::new(alloc);
    if left.spooled > 0 {
        let end = RelayEnd::Spooled {
            datapoints: left.spooled,
        };
        push_relay_end_line(&mut lines, end)?;
    }
    if left.unsent > 0 {
        let end = RelayEnd::Unsent {
            datapoints: left.unsent,
        };
        push_relay_end_line(&mut lines, end)?;
    }
    Ok(lines)
}
