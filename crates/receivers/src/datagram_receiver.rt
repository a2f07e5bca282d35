//! A receiver of datagrams.
ghost use Rattle.std.specs.Prelude.{◌≡◌, IfErr, IfSome};
ghost use Rattle.queue_records.specs.Offers.{IsRefusedBy};
ghost use Rattle.receivers.specs.Datagrams.{DatagramsProgress, IsReady};
ghost use Rattle.receivers.specs.Record.{EndsFor, MayBegin, RanOrRefused};
ghost use Rattle.reader_core.specs.declared.kind.ReaderKind.TheVariants.{Datagram};

use crate::datagram_loop::{DatagramLoop, DatagramOutcome, MOST_DATAGRAMS};
use crate::datagrams::Datagrams;
use crate::noting_times::NotingTimes;
use crate::receiver::Receiver;
use crate::record::{ReceiverRecord, without_memory};
use crate::stream_receiver::MOST_WAIT_MS;
use mio_loops::{ReadinessFault, StopFlag, TimeSource};
use queue_records::Door;
use reader_core::ReaderKind;
use router::Plan;
use std::alloc::Global;
use std::sync::Wait;

/// Receives datagrams, until the stop flag is set or a fault: takes them from the receiver's socket, each whole, feeds them
/// to the first reader of its number, and makes all offers of each through its door before the next is taken; offers that
/// were refused are tried again first.
///
/// A datagram for which there is no memory is dropped, and the reader is not fed it. The receiver looks at the stop
/// flag after each turn. It ends with a fault if the socket or the readiness fails (`Device`), and if there is no
/// memory for the buffer or the log (`NoMemory`); its log is empty and sealed then.
pub fn receive_datagrams<R: Wait, A: Datagrams + Drop, D: Door + Drop, T: TimeSource, F: StopFlag>(
    rt: &R,
    alloc: Global,
    receiver: Receiver<A, D>,
    times: &T,
    stop: &F,
) -> ReceiverRecord<D>
    requires { MayBegin receiver.number receiver.plan (D.record_of receiver.door) }
    ensures ran { RanOrRefused (IsRefusedBy D.may_refuse) Datagram receiver.plan receiver.number (T.may_give times.now) result.log
        (D.record_of receiver.door) (D.record_of result.door) }
    ensures fault { EndsFor result.fault result.log (D.record_of receiver.door) (D.record_of result.door) }
{
    let Ok(mut datagrams) = DatagramLoop::new(alloc, receiver.number) else {
        let Receiver {
            mut source,
            number: _,
            plan,
            door,
        } = receiver;
        drop(plan);
        source.note_fault(ReadinessFault::NoMemory);
        return without_memory(alloc, ReaderKind::Datagram, door);
    };
    let mut receiver = receiver;
    // The first datagram must not wait for it: meanwhile others would fill the system's buffer.
    receiver.plan.make_room();
    let fault = take_turns(rt, &mut receiver, &mut datagrams, times, stop);
    let Receiver {
        mut source,
        number: _,
        plan,
        door,
    } = receiver;
    source.note_totals(datagrams.totals(), plan.emptied());
    drop(plan);
    let log = datagrams.close();
    ReceiverRecord { door, log, fault }
}

/// Makes one turn after another until the stop flag is set, or a fault, which it returns.
fn take_turns<R: Wait, A: Datagrams, D: Door, T: TimeSource, F: StopFlag>(
    rt: &R,
    receiver: &mut Receiver<A, D>,
    datagrams: &mut DatagramLoop,
    times: &T,
    stop: &F,
) -> Option<ReadinessFault>
    requires { IsReady receiver.old.plan datagrams.old (D.record_of receiver.old.door) }
    ensures went { DatagramsProgress (IsRefusedBy D.may_refuse) (T.may_give times.now) receiver.old.plan receiver.new.plan datagrams.old
        datagrams.new (D.record_of receiver.old.door) (D.record_of receiver.new.door) }
    ensures device { IfSome result (λ fault. fault ≡ ReadinessFault.Device) }
{
    let mut is_more = false;
    let mut noting = NotingTimes::new();
    for _ in rt.forever() {
        note_totals(
            &mut receiver.source,
            datagrams,
            &receiver.plan,
            &mut noting,
            times.millis(),
        );
        match take_turn(receiver, datagrams, times, is_more) {
            Ok(more) => is_more = more,
            Err(fault) => return Some(fault),
        }
        if stop.is_set() {
            return None;
        }
    }
    unreachable!()
}

/// Reports what the reader has counted, if a report is due at these milliseconds.
fn note_totals<A: Datagrams>(
    socket: &mut A,
    datagrams: &DatagramLoop,
    plan: &Plan,
    noting: &mut NotingTimes,
    millis: u64,
) {
    if noting.is_due(millis) {
        socket.note_totals(datagrams.totals(), plan.emptied());
    }
}

/// One turn: waits for datagrams, unless there may be more, and takes some. Returns whether there may be more.
fn take_turn<A: Datagrams, D: Door, T: TimeSource>(
    receiver: &mut Receiver<A, D>,
    datagrams: &mut DatagramLoop,
    times: &T,
    is_more: bool,
) -> Result<bool, ReadinessFault>
    requires { IsReady receiver.old.plan datagrams.old (D.record_of receiver.old.door) }
    ensures went { DatagramsProgress (IsRefusedBy D.may_refuse) (T.may_give times.now) receiver.old.plan receiver.new.plan datagrams.old
        datagrams.new (D.record_of receiver.old.door) (D.record_of receiver.new.door) }
    ensures device { IfErr result (λ fault. fault ≡ ReadinessFault.Device) }
{
    if !is_more {
        receiver.source.wait(MOST_WAIT_MS)?;
    }
    match receive_now(receiver, datagrams, times) {
        DatagramOutcome::Fed => Ok(true),
        DatagramOutcome::Drained | DatagramOutcome::Refused => Ok(false),
        DatagramOutcome::Failed => Err(ReadinessFault::Device),
    }
}

/// Takes datagrams until there are no more, at most [`MOST_DATAGRAMS`] of them, all at the moment that the clock returns
/// now, and returns how that ended. Each is fed, and all its offers are made, before the next is taken; before the first
/// the offers that wait are made.
fn receive_now<A: Datagrams, D: Door, T: TimeSource>(
    receiver: &mut Receiver<A, D>,
    datagrams: &mut DatagramLoop,
    times: &T,
) -> DatagramOutcome
    requires { IsReady receiver.old.plan datagrams.old (D.record_of receiver.old.door) }
    ensures { DatagramsProgress (IsRefusedBy D.may_refuse) (T.may_give times.now) receiver.old.plan receiver.new.plan datagrams.old
        datagrams.new (D.record_of receiver.old.door) (D.record_of receiver.new.door) }
{
    let moment = times.moment();
    for _ in 0..MOST_DATAGRAMS {
        match datagrams.receive_one(
            &mut receiver.source,
            &mut receiver.plan,
            &mut receiver.door,
            moment,
        ) {
            DatagramOutcome::Fed => {}
            ended => return ended,
        }
    }
    DatagramOutcome::Fed
}
