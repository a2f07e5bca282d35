//! The work of a sender's thread.

use crate::run_levels::RunLevels;
use locked_queues::{Outlet, OutletRecord, Set};
use mio_loops::{SystemTimes, WriteLog};
use run_state::{Signals, ThreadWork};
use run_threads::ThreadEnd;
use senders::{SenderRecord, WakeGate};
use spool::SpoolDisk;
use std::alloc::{AllocError, Global};
use std::net::Net;
use std::rt::Clock;
use std::sync::Wait;
use std::time::Instant;
use store_lines::LineSender;

/// A sender that is to run: its number, what sends its lines, and its outlet.
#[derive(Drop)]
pub(crate) struct SenderJob<'x, B: Set, R: Wait + SpoolDisk + Drop> {
    pub(crate) number: usize,
    pub(crate) lines: LineSender<'x, R, RunLevels<'x, B, R>>,
    pub(crate) outlet: Outlet<'x, 'x, 'x, B, R, WakeGate>,
    // Whether its thread returns what its writers did.
    pub(crate) is_recorded: bool,
    pub(crate) began: Option<Instant>,
}

impl<'x, B: Set, R: Wait + Clock + Net + SpoolDisk + Copy + Drop> ThreadWork<
    R,
    ThreadEnd<OutletRecord, Vec<WriteLog>>,
> for SenderJob<'x, B, R> {
    fn name(&self, alloc: Global) -> Result<String, AllocError> {
        format!(in alloc; "sender {}", self.number)
    }

    /// Sends until the senders' stop flag is set, or a fault.
    fn work(
        self,
        rt: &R,
        alloc: Global,
        signals: &Signals,
    ) -> ThreadEnd<OutletRecord, Vec<WriteLog>> {
        let SenderJob {
            number,
            lines,
            outlet,
            is_recorded,
            began,
        } = self;
        let times = SystemTimes::since(rt, began);
        let SenderRecord {
            outlet,
            logs,
            fault,
        } = lines.send(rt, alloc, outlet, &times, signals);
        signals.note_sender_end(number, fault);
        ThreadEnd {
            fault,
            log: kept(is_recorded, logs),
            record: outlet.close(),
        }
    }
}

/// What a sender's writers did, if the run is recorded.
fn kept(is_recorded: bool, logs: Vec<WriteLog>) -> Option<Vec<WriteLog>> {
    if is_recorded { Some(logs) } else { None }
}
