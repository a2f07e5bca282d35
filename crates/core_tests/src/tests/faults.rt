//! Receivers and a sender that a fault ends: what they did before remains.

use crate::tests::receivings::received_by;
use crate::tests::sendings::Sending;
use crate::tests::supplies::two_lines;
use mio_loops::{LISTENER, LeftWriter, LogInput, ReadTotals, ReadinessFault, SystemTimes, Token};
use queue_records::{Door, Made};
use reader_core::ReaderCounts;
use receivers::{
    Accept, AcceptOutcome, Datagrams, Receiver, ReceiverRecord, ServedInput, receive_datagrams,
};
use relay_base::DestId;
use senders::{BatchSender, Connect, HandOver, KeptSocket, Stores, send_batches};
use std::alloc::Global;
use std::io;
use std::io::Read;
use std::rt::Clock;
use std::sync::Wait;
use std::sync::atomic::{AtomicBool, AtomicU64, Ordering};
use test_doubles::{FaultyDoor, FaultyReader, FaultyStep, FaultyWriter};

/// The number of the receiver, and of its first reader.
const RECEIVER: usize = 1;

const FIRST: u16 = 1_024;

/// Whether a receiver ended with `Device`, having noted these pieces, all of its first reader, and having offered
/// datapoints of these names.
fn has_left(record: &ReceiverRecord<FaultyDoor>, pieces: &[&[u8]], names: &[&str]) -> bool {
    record.fault == Some(ReadinessFault::Device)
        && are_made(record.door.made(), names)
        && has_noted(record, pieces)
}

/// Whether these are the first reader's offers of datapoints of these names.
fn are_made(made: &[Made], names: &[&str]) -> bool {
    for (one, name) in made.iter().zip(names.iter()) {
        if one.reader != FIRST || one.point.name.text() != *name {
            return false;
        }
    }
    made.len() == names.len()
}

/// Whether the log has these pieces and no more.
fn has_noted(record: &ReceiverRecord<FaultyDoor>, pieces: &[&[u8]]) -> bool {
    let mut entries = record.log.entries();
    for wanted in pieces {
        let Some(entry) = entries.next_entry() else {
            return false;
        };
        let LogInput::Piece(piece, _) = entry.input else {
            return false;
        };
        if piece != *wanted {
            return false;
        }
    }
    entries.next_entry().is_none() && !record.log.sealed()
}

/// What the connection of a listener does: it gives its line, and then would block.
const STEPS: [FaultyStep; 2] = [FaultyStep::Pass(6), FaultyStep::Block];

/// A listener at which one connection waits, and which fails in the next turn.
#[derive(Drop)]
struct FailingListener {
    tries: u64,
}

impl Accept for FailingListener {
    type Stream = FaultyReader<'static>;

    fn begin_turn(&mut self, _millis: u64) {}

    fn wait(&mut self, _millis: u64) -> Result<&[Token], ReadinessFault> {
        Ok(&[LISTENER])
    }

    fn has_handed(&self) -> bool {
        false
    }

    fn hand_over(&mut self, _token: Token, _stream: FaultyReader<'static>, _rest: &[u8]) {}

    fn hand_over_others(&mut self) {}

    fn note_bad(
        &mut self,
        _token: Token,
        _before: ReaderCounts,
        _now: ReaderCounts,
        _buffer: &[u8],
    ) {}

    fn accept(&mut self, _token: Option<Token>) -> AcceptOutcome<FaultyReader<'static>> {
        self.tries = self.tries.saturating_add(1);
        if self.tries == 1 {
            return AcceptOutcome::Stream(FaultyReader::new(b"a 1 2\n", &STEPS));
        }
        if self.tries == 2 {
            AcceptOutcome::Nothing
        } else {
            AcceptOutcome::Failed
        }
    }

    fn note_totals(&mut self, _totals: ReadTotals, _emptied: u64) {}

    fn note_served(&mut self, _token: Token, _served: ServedInput) {}

    fn note_fault(&mut self, _fault: ReadinessFault) {}
}

fn is_listener_reported<R: Wait + Clock>(rt: &R, alloc: Global) -> Option<bool> {
    let stop = AtomicBool::new(false);
    let listener = FailingListener { tries: 0 };
    let record = received_by(rt, alloc, RECEIVER, listener, &stop)?;
    let has_left = has_left(&record, &[b"a 1 2\n"], &["a"]);
    drop(record);
    Some(has_left)
}

#[test]
fn a_listener_that_fails(rt: HostRuntime) {
    assert!(rt; is_listener_reported(&rt, rt.alloc()) == Some(true));
}

/// Two datagrams, with an interruption between them, and then an error.
#[derive(Drop)]
struct FailingSocket {
    datagrams: FaultyReader<'static>,
}

const DATAGRAMS: [&[u8]; 2] = [b"a 1 2\r\nb 3 4\x0bbad", b"c 5 6"];

/// Their bytes, one after the other, and what each take of the socket does.
const BYTES: &[u8] = b"a 1 2\r\nb 3 4\x0bbadc 5 6";

const TAKES: [FaultyStep; 4] = [
    FaultyStep::Pass(16),
    FaultyStep::Interrupt,
    FaultyStep::Pass(5),
    FaultyStep::Fail,
];

impl Datagrams for FailingSocket {
    fn wait(&mut self, _millis: u64) -> Result<(), ReadinessFault> {
        Ok(())
    }

    fn receive(&mut self, buffer: &mut [u8]) -> io::Result<usize> {
        self.datagrams.read(buffer)
    }

    fn note_served(&mut self, _served: ServedInput) {}

    fn note_totals(&mut self, _totals: ReadTotals, _emptied: u64) {}

    fn note_fault(&mut self, _fault: ReadinessFault) {}
}

/// What a receiver of datagrams leaves that its socket ends.
fn received_by_socket<R: Wait + Clock>(
    rt: &R,
    alloc: Global,
) -> Option<ReceiverRecord<FaultyDoor>> {
    let sending = Sending::new(alloc, RECEIVER, 0)?;
    if sending.door.door().dests() < sending.plan.destinations() {
        drop(sending);
        return None;
    }
    let Sending { plan, door } = sending;
    let (times, stop) = (SystemTimes::new(rt), AtomicBool::new(false));
    let receiver = Receiver {
        source: FailingSocket {
            datagrams: FaultyReader::new(BYTES, &TAKES),
        },
        number: RECEIVER,
        plan,
        door,
    };
    Some(receive_datagrams(rt, alloc, receiver, &times, &stop))
}

fn is_socket_reported<R: Wait + Clock>(rt: &R, alloc: Global) -> Option<bool> {
    let record = received_by_socket(rt, alloc)?;
    let has_left = has_left(&record, &DATAGRAMS, &["a", "b", "c"]);
    drop(record);
    Some(has_left)
}

#[test]
fn a_socket_that_fails(rt: HostRuntime) {
    assert!(rt; is_socket_reported(&rt, rt.alloc()) == Some(true));
}

/// Gives one connection, and fails at its third wait.
#[derive(Drop)]
struct FailingConnector<'a> {
    sink: Option<&'a mut FaultyWriter<'static>>,
    waits: u64,
    /// How many milliseconds the first two waits may take together.
    waited: &'a AtomicU64,
}

impl<'a> Connect for FailingConnector<'a> {
    type Sink = &'a mut FaultyWriter<'static>;

    type Stores = FailingConnector<'a>;

    fn stores(&mut self) -> &mut FailingConnector<'a> {
        self
    }

    fn wait(&mut self, millis: u64) -> Result<&[DestId], ReadinessFault> {
        self.waits = self.waits.saturating_add(1);
        if self.waits > 2 {
            return Err(ReadinessFault::Device);
        }
        self.waited.fetch_add(millis, Ordering::SeqCst);
        Ok(&[])
    }

    fn connect(&mut self, _dest: DestId, _millis: u64) -> Option<&'a mut FaultyWriter<'static>> {
        self.sink.take()
    }

    fn has_closed(&self, _dest: DestId) -> bool {
        false
    }

    fn take_back(
        &mut self,
        _dest: DestId,
        _sink: &'a mut FaultyWriter<'static>,
    ) -> Option<KeptSocket> {
        None
    }

    fn end(&mut self) {}
}

impl<'a> HandOver for FailingConnector<'a> {
    fn hands_over(&self) -> bool {
        false
    }

    fn hand_over(&mut self, _dest: DestId, _left: LeftWriter<&'a mut FaultyWriter<'static>>) {}
}

impl<'a> Stores for FailingConnector<'a> {
    fn about_to_wait(&mut self) {}

    fn end_connection(&mut self, _dest: DestId) {}

    fn has_ended(&self, _dest: DestId) -> bool {
        true
    }

    fn end_writes(&mut self) {}

    fn is_quiet(&self) -> bool {
        true
    }
}

// A sender of two lines with this limit of a batch, which waits this long before the wait that fails.
fn is_wait_reported<R: Wait + Clock>(
    rt: &R,
    alloc: Global,
    limit: usize,
    millis: u64,
) -> Option<bool> {
    if limit == 0 || limit > 500 {
        return None;
    }
    let supply = two_lines(alloc)?;
    let (mut sink, waited) = (FaultyWriter::new(Vec::new(alloc), &[]), AtomicU64::new(0));
    let sender = BatchSender {
        connector: FailingConnector {
            sink: Some(&mut sink),
            waits: 0,
            waited: &waited,
        },
        dests: 1,
        limit,
        supply,
    };
    let (times, stop) = (SystemTimes::new(rt), AtomicBool::new(false));
    let record = send_batches(rt, alloc, sender, &times, &stop);
    let is_device = record.fault == Some(ReadinessFault::Device);
    drop(record);
    let is_written = sink.taken() == b"a 1 2\nb 3 4\n".as_slice();
    let is_patient = waited.load(Ordering::SeqCst) == millis;
    Some(is_device && is_written && is_patient)
}

// It gathers for a millisecond after it took all that was queued, and then waits long; after a whole batch it does not wait.
#[test]
fn a_wait_that_fails(rt: HostRuntime) {
    let gathers = is_wait_reported(&rt, rt.alloc(), 500, 101) == Some(true);
    assert!(rt; gathers && is_wait_reported(&rt, rt.alloc(), 1, 0) == Some(true));
}
