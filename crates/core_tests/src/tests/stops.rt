//! A receiver that is to stop: it serves no further connection.

ghost use Rattle.std.specs.Prelude.{◌≤◌, length};

use crate::tests::receivings::received_by;
use mio_loops::{LISTENER, LogInput, ReadTotals, ReadinessFault, Token};
use reader_core::ReaderCounts;
use receivers::{Accept, AcceptOutcome, ReceiverRecord, ServedInput};
use std::alloc::Global;
use std::io;
use std::io::{ErrorKind, Read};
use std::rt::Clock;
use std::sync::Wait;
use std::sync::atomic::{AtomicBool, AtomicU64, Ordering};
use test_doubles::FaultyDoor;

/// What each connection gives.
const PIECE: &[u8] = b"a 1 2\nbad\n";

/// How many connections there are.
const CONNECTIONS: u64 = 2;

/// What the listener, its connections and the test share.
#[derive(Drop)]
struct Shared {
    stop: AtomicBool,
    datapoints: AtomicU64,
    bad_lines: AtomicU64,
    connections: AtomicU64,
}

/// A connection that gives a piece and sets the stop flag, and then would block.
#[derive(Drop)]
struct StoppingStream<'a> {
    shared: &'a Shared,
    is_read: bool,
}

impl Read for StoppingStream<'_> {
    fn read(&mut self, buf: &mut [u8]) -> io::Result<usize> {
        if self.is_read {
            return Err(io::Error::from(ErrorKind::WouldBlock));
        }
        self.is_read = true;
        self.shared.stop.store(true, Ordering::SeqCst);
        let count = PIECE.len().min(buf.len());
        let (given, _) = PIECE.split_at(count);
        buf[..count].copy_from_slice(given);
        Ok(count)
    }
}

/// A listener at which some such connections wait.
#[derive(Drop)]
struct StoppingListener<'a> {
    shared: &'a Shared,
    taken: u64,
}

impl<'a> Accept for StoppingListener<'a> {
    type Stream = StoppingStream<'a>;

    fn begin_turn(&mut self, _millis: u64) {}

    fn wait(&mut self, _millis: u64) -> Result<&[Token], ReadinessFault> {
        Ok(&[LISTENER])
    }

    fn has_handed(&self) -> bool {
        false
    }

    fn hand_over(&mut self, _token: Token, _stream: StoppingStream<'a>, _rest: &[u8]) {}

    fn hand_over_others(&mut self) {}

    fn note_bad(
        &mut self,
        _token: Token,
        _before: ReaderCounts,
        _now: ReaderCounts,
        _buffer: &[u8],
    ) {}

    fn accept(&mut self, _token: Option<Token>) -> AcceptOutcome<StoppingStream<'a>> {
        if self.taken >= CONNECTIONS {
            return AcceptOutcome::Nothing;
        }
        self.taken = self.taken.saturating_add(1);
        AcceptOutcome::Stream(StoppingStream {
            shared: self.shared,
            is_read: false,
        })
    }

    fn note_served(&mut self, _token: Token, _served: ServedInput) {}

    fn note_totals(&mut self, totals: ReadTotals, _emptied: u64) {
        self.shared
            .datapoints
            .store(totals.readers.datapoints, Ordering::SeqCst);
        self.shared
            .bad_lines
            .store(totals.readers.faults.bad_lines, Ordering::SeqCst);
        self.shared
            .connections
            .store(totals.connections, Ordering::SeqCst);
    }

    fn note_fault(&mut self, _fault: ReadinessFault) {}
}

// Whether the log has the piece of the first connection and no more, and there is no fault.
fn has_only_first(record: &ReceiverRecord<FaultyDoor>) -> bool {
    let mut entries = record.log.entries();
    let is_first = match entries.next_entry() {
        Some(entry) => {
            entry.reader == 0 && matches!(entry.input, LogInput::Piece(piece, _) if piece == PIECE)
        }
        None => false,
    };
    is_first && entries.next_entry().is_none() && record.fault.is_none()
}

// Of two connections that are due, the read of the first sets the stop flag: the other is not read, and the counts
// are reported at the end.
fn is_second_left<R: Wait + Clock>(rt: &R, alloc: Global) -> bool {
    let shared = Shared {
        stop: AtomicBool::new(false),
        datapoints: AtomicU64::new(0),
        bad_lines: AtomicU64::new(0),
        connections: AtomicU64::new(0),
    };
    let listener = StoppingListener {
        shared: &shared,
        taken: 0,
    };
    let record = received_by(rt, alloc, 0, listener, &shared.stop);
    let is_left = record.as_ref().is_some_and(has_only_first);
    drop(record);
    is_left
        && shared.datapoints.load(Ordering::SeqCst) == 1
        && shared.bad_lines.load(Ordering::SeqCst) == 1
        && shared.connections.load(Ordering::SeqCst) == CONNECTIONS
}

#[test]
fn a_receiver_that_is_to_stop(rt: HostRuntime) {
    assert!(rt; is_second_left(&rt, rt.alloc()));
}
