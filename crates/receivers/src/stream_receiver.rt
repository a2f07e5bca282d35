//! A receiver of connections.

ghost use Rattle.std.specs.Prelude.{◌≡◌, ◌≤◌, length, IfErr, IfSome};
ghost use Rattle.queue_records.specs.Offers.{IsRefusedBy};
ghost use Rattle.receivers.specs.Record.{EndsFor, MayBegin, RanOrRefused};
ghost use Rattle.receivers.specs.Turns.{TurnsProgress};

use crate::accept::{Accept, AcceptOutcome};
use crate::handing::end_loop;
use crate::noting_times::NotingTimes;
use crate::receiver::Receiver;
use crate::record::{ReceiverRecord, without_memory};
use crate::serving::serve_until;
use mio_loops::{
    LISTENER, MOST_CONNECTIONS, ReadLoop, ReadinessFault, StopFlag, TimeSource, Token, marks_of,
};
use queue_records::Door;
use reader_core::ReaderKind;
use router::Plan;
use std::alloc::Global;
use std::io::Read;
use std::sync::Wait;

/// How many milliseconds a turn waits at most for what is ready.
pub(crate) const MOST_WAIT_MS: u64 = 100;

/// Receives connections, until the stop flag is set or a fault: takes them from the receiver's listener, feeds what they
/// give to readers of a kind, `Line` or `Pickle`, and makes all their offers through its door. The readers are those of
/// its number.
///
/// Once it was stopped, each connection that it holds goes to the listener, with the bytes of its unfinished line or frame
/// ([`Accept::hand_over`]).
///
/// A connection beyond what a loop holds is dropped. The receiver looks at the stop flag before each connection
/// that a turn serves and after each turn. It ends with a fault if the listener or the readiness fails (`Device`), and
/// if there is no memory for the loop (`NoMemory`); its log is empty and sealed then.
pub fn receive_streams<R: Wait, A: Accept + Drop, D: Door + Drop, T: TimeSource, F: StopFlag>(
    rt: &R,
    alloc: Global,
    kind: ReaderKind,
    receiver: Receiver<A, D>,
    times: &T,
    stop: &F,
) -> ReceiverRecord<D>
    requires { MayBegin receiver.number receiver.plan (D.record_of receiver.door) }
    ensures ran { RanOrRefused (IsRefusedBy D.may_refuse) kind receiver.plan receiver.number (T.may_give times.now) result.log
        (D.record_of receiver.door) (D.record_of result.door) }
    ensures fault { EndsFor result.fault result.log (D.record_of receiver.door) (D.record_of result.door) }
{
    let Ok(mut reads) = ReadLoop::new(alloc, kind, receiver.number) else {
        let Receiver {
            mut source,
            number: _,
            plan,
            door,
        } = receiver;
        drop(plan);
        source.note_fault(ReadinessFault::NoMemory);
        return without_memory(alloc, kind, door);
    };
    let mut receiver = receiver;
    let fault = take_turns(rt, &mut receiver, &mut reads, times, stop);
    let Receiver {
        mut source,
        number: _,
        plan,
        door,
    } = receiver;
    source.note_totals(reads.totals(), plan.emptied());
    drop(plan);
    ReceiverRecord {
        door,
        log: end_loop(fault.is_none(), &mut source, reads),
        fault,
    }
}

/// Makes one turn after another until the stop flag is set, or a fault, which it returns.
fn take_turns<R: Wait, A: Accept, D: Door, T: TimeSource, F: StopFlag>(
    rt: &R,
    receiver: &mut Receiver<A, D>,
    reads: &mut ReadLoop<A::Stream>,
    times: &T,
    stop: &F,
) -> Option<ReadinessFault>
    requires dests { receiver.old.plan.destinations ≤ length (D.record_of receiver.old.door).totals }
    ensures went { TurnsProgress (IsRefusedBy D.may_refuse) (T.may_give times.now) receiver.old.plan reads.old reads.new
        (D.record_of receiver.old.door) (D.record_of receiver.new.door) }
    ensures device { IfSome result (λ fault. fault ≡ ReadinessFault.Device) }
{
    let mut backlog = Backlog::Empty;
    let mut noting = NotingTimes::new();
    for _ in rt.forever() {
        begin_turn(
            &mut receiver.source,
            reads,
            &receiver.plan,
            &mut noting,
            times.millis(),
        );
        match take_turn(receiver, reads, times, stop, backlog) {
            Ok(left) => backlog = left,
            Err(fault) => return Some(fault),
        }
        if stop.is_set() {
            return None;
        }
    }
    unreachable!()
}

/// Begins a turn at these milliseconds, and reports what the readers have counted, if a report is due.
fn begin_turn<A: Accept>(
    listener: &mut A,
    reads: &ReadLoop<A::Stream>,
    plan: &Plan,
    noting: &mut NotingTimes,
    millis: u64,
) {
    listener.begin_turn(millis);
    if noting.is_due(millis) {
        listener.note_totals(reads.totals(), plan.emptied());
    }
}

/// One turn: waits for what is ready, serves the connections that are ready or are in the again list, and
/// takes those that wait to be taken. Returns what of these may be left. Once the stop flag is set it serves no more.
fn take_turn<A: Accept, D: Door, T: TimeSource, F: StopFlag>(
    receiver: &mut Receiver<A, D>,
    reads: &mut ReadLoop<A::Stream>,
    times: &T,
    stop: &F,
    backlog: Backlog,
) -> Result<Backlog, ReadinessFault>
    requires dests { receiver.old.plan.destinations ≤ length (D.record_of receiver.old.door).totals }
    ensures went { TurnsProgress (IsRefusedBy D.may_refuse) (T.may_give times.now) receiver.old.plan reads.old reads.new
        (D.record_of receiver.old.door) (D.record_of receiver.new.door) }
    ensures dests { receiver.old.plan.destinations ≤ length (D.record_of receiver.new.door).totals }
    ensures plan { receiver.new.plan ≡ receiver.old.plan }
    ensures device { IfErr result (λ fault. fault ≡ ReadinessFault.Device) }
{
    let ready = receiver.source.wait(wait_for(backlog, reads.has_again()))?;
    let is_reported = has_listener(ready);
    let marks = marks_of(ready);
    serve_ready(receiver, reads, marks, times, stop);
    if !is_reported && matches!(backlog, Backlog::Empty) {
        return Ok(Backlog::Empty);
    }
    take_connections(&mut receiver.source, reads)
}

/// Serves the connections that are marked as ready or are in the again list, all at the moment that the clock returns now, until
/// the stop flag is set.
fn serve_ready<S: Read + Drop, A: Accept, D: Door, T: TimeSource, F: StopFlag>(
    receiver: &mut Receiver<A, D>,
    reads: &mut ReadLoop<S>,
    marks: [bool; MOST_CONNECTIONS],
    times: &T,
    stop: &F,
)
    requires dests { receiver.old.plan.destinations ≤ length (D.record_of receiver.old.door).totals }
    ensures went { TurnsProgress (IsRefusedBy D.may_refuse) (T.may_give times.now) receiver.old.plan reads.old reads.new
        (D.record_of receiver.old.door) (D.record_of receiver.new.door) }
    ensures dests { receiver.old.plan.destinations ≤ length (D.record_of receiver.new.door).totals }
    ensures plan { receiver.new.plan ≡ receiver.old.plan }
{
    serve_until(receiver, reads, marks, times.moment(), stop);
}

/// How many milliseconds a turn waits, by what may be left.
fn wait_for(backlog: Backlog, has_again: bool) -> u64 {
    if has_again || matches!(backlog, Backlog::More) {
        0
    } else {
        MOST_WAIT_MS
    }
}

/// Whether connections wait to be taken, as a wait reported.
fn has_listener(ready: &[Token]) -> bool {
    ready.contains(&LISTENER)
}

/// The greatest number of connections that are taken in one turn.
pub const MOST_TAKEN: usize = 64;

/// What a receiver knows of the connections that wait to be taken.
#[derive(Clone, Copy)]
pub(crate) enum Backlog {
    /// None was left: a wait reports when others arrive.
    Empty,
    /// There may be others.
    More,
    /// There may be others, which the system refuses now.
    Refused,
}

/// Takes connections until none waits to be taken, at most [`MOST_TAKEN`] of them, and returns what may be left.
/// If the loop holds as many as it may, they are closed. Refuses (`Device`) a listener that failed.
pub(crate) fn take_connections<A: Accept>(
    listener: &mut A,
    reads: &mut ReadLoop<A::Stream>,
) -> Result<Backlog, ReadinessFault>
    ensures rest { (reads.new.first ≡ reads.old.first) × (reads.new.readers ≡ reads.old.readers)
        × (reads.new.log ≡ reads.old.log) }
    ensures device { IfErr result (λ fault. fault ≡ ReadinessFault.Device) }
{
    for _ in 0..MOST_TAKEN {
        match listener.accept(reads.next_token()) {
            AcceptOutcome::Stream(stream) => {
                let _taken = reads.admit(stream);
            }
            AcceptOutcome::Closed => {}
            AcceptOutcome::Nothing => return Ok(Backlog::Empty),
            AcceptOutcome::Later => return Ok(Backlog::Refused),
            AcceptOutcome::Failed => return Err(ReadinessFault::Device),
        }
    }
    Ok(Backlog::More)
}
