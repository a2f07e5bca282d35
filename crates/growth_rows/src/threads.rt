//! Rows of `receivers` and `senders`: the work of their threads, one after another, over memory.

use crate::books::print_made;
use crate::loops::{plan_and_door, supply};
use crate::marks::{CALLS, begin, end};
use locked_queues::{Door, ListDoor};
use mio_loops::{LISTENER, LeftWriter, ReadTotals, ReadinessFault, SystemTimes, Token};
use reader_core::{ReaderCounts, ReaderKind};
use receivers::{
    Accept, AcceptOutcome, Datagrams, Receiver, ReceiverRecord, ServedInput, receive_datagrams,
    receive_streams,
};
use relay_base::DestId;
use senders::{BatchSender, Connect, HandOver, KeptSocket, Stores, send_batches};
use std::alloc::Global;
use std::io;
use std::io::{Read, Write};
use std::rt::Clock;
use std::sync::Wait;
use std::sync::atomic::AtomicBool;
use test_doubles::{FaultyReader, FaultyStep};

pub(crate) const NAMES: &[&str] = &["receive_streams", "receive_datagrams", "send_batches"];

pub(crate) fn run<R: Wait + Clock>(
    rt: &HostRuntime,
    waits: &R,
    alloc: Global,
    name: &str,
) -> Option<()> {
    match name {
        "receive_streams" => receive_all_streams(rt, waits, alloc),
        "receive_datagrams" => receive_all_datagrams(rt, waits, alloc),
        "send_batches" => send_all(rt, waits, alloc),
        _ => None,
    }
}

/// Prints what a receiver answered. Returns whether it made the offer of its line; if it began and made none, the
/// connection or the datagram found no memory.
fn is_received(rt: &HostRuntime, record: &ReceiverRecord<ListDoor>) -> bool {
    let made = record.door.made();
    if record.fault == Some(ReadinessFault::Device) && made.is_empty() {
        let _ = println!(rt; "answer Starved {}", record.log.sealed());
    } else {
        let _ = println!(rt; "answer {:?}", record.fault);
        print_made(rt, made);
    }
    !made.is_empty()
}

/// A connection that gives two lines and ends.
fn connection() -> FaultyReader<'static> {
    FaultyReader::new(b"a.1 1 5\na.2 2 5\n", &[])
}

/// A listener at which one connection waits, and which fails once that was served.
#[derive(Drop)]
struct OneConnection {
    tries: u64,
}

impl Accept for OneConnection {
    type Stream = FaultyReader<'static>;

    fn begin_turn(&mut self, _millis: u64) {}

    fn wait(&mut self, _millis: u64) -> Result<&[Token], ReadinessFault> {
        Ok(&[LISTENER])
    }

    fn has_handed(&self) -> bool {
        false
    }

    fn hand_over(&mut self, _token: Token, _stream: FaultyReader<'static>, _rest: &[u8]) {}

    fn hand_over_others(&mut self) {}

    fn note_bad(&mut self, _token: Token, _old: ReaderCounts, _new: ReaderCounts, _read: &[u8]) {}

    fn accept(&mut self, _token: Option<Token>) -> AcceptOutcome<FaultyReader<'static>> {
        self.tries = self.tries.saturating_add(1);
        if self.tries == 1 {
            return AcceptOutcome::Stream(connection());
        }
        if self.tries == 2 {
            AcceptOutcome::Nothing
        } else {
            AcceptOutcome::Failed
        }
    }

    fn note_totals(&mut self, _totals: ReadTotals, _emptied: u64) {}

    fn note_served(&mut self, _token: Token, _served: ServedInput) {}

    fn note_fault(&mut self, _fault: ReadinessFault) {}
}

fn receive_all_streams<R: Wait + Clock>(rt: &HostRuntime, waits: &R, alloc: Global) -> Option<()> {
    if is_stream_received(rt, waits, alloc)? || is_stream_received(rt, waits, alloc)? {
        Some(())
    } else {
        None
    }
}

fn is_stream_received<R: Wait + Clock>(rt: &HostRuntime, waits: &R, alloc: Global) -> Option<bool> {
    let (plan, door) = plan_and_door(alloc)?;
    let times = SystemTimes::new(waits);
    let stop = AtomicBool::new(false);
    let receiver = Receiver {
        source: OneConnection { tries: 0 },
        number: 0,
        plan,
        door,
    };
    begin(rt);
    let record = receive_streams(waits, alloc, ReaderKind::Line, receiver, &times, &stop);
    end(rt);
    let is_received = is_received(rt, &record);
    drop(record);
    Some(is_received)
}

/// A socket with one datagram, which fails then.
#[derive(Drop)]
struct OneDatagram {
    datagram: FaultyReader<'static>,
}

const DATAGRAM: &[u8] = b"a 1 2\r\nb 3 4\x0bbad";

static TAKES: [FaultyStep; 2] = [FaultyStep::Pass(16), FaultyStep::Fail];

impl Datagrams for OneDatagram {
    fn wait(&mut self, _millis: u64) -> Result<(), ReadinessFault> {
        Ok(())
    }

    fn receive(&mut self, buffer: &mut [u8]) -> io::Result<usize> {
        self.datagram.read(buffer)
    }

    fn note_served(&mut self, _served: ServedInput) {}

    fn note_totals(&mut self, _totals: ReadTotals, _emptied: u64) {}

    fn note_fault(&mut self, _fault: ReadinessFault) {}
}

fn receive_all_datagrams<R: Wait + Clock>(
    rt: &HostRuntime,
    waits: &R,
    alloc: Global,
) -> Option<()> {
    if is_datagram_received(rt, waits, alloc)? || is_datagram_received(rt, waits, alloc)? {
        Some(())
    } else {
        None
    }
}

fn is_datagram_received<R: Wait + Clock>(
    rt: &HostRuntime,
    waits: &R,
    alloc: Global,
) -> Option<bool> {
    let (plan, door) = plan_and_door(alloc)?;
    let times = SystemTimes::new(waits);
    let stop = AtomicBool::new(false);
    let receiver = Receiver {
        source: OneDatagram {
            datagram: FaultyReader::new(DATAGRAM, &TAKES),
        },
        number: 0,
        plan,
        door,
    };
    begin(rt);
    let record = receive_datagrams(waits, alloc, receiver, &times, &stop);
    end(rt);
    let is_received = is_received(rt, &record);
    drop(record);
    Some(is_received)
}

/// A connection that takes all bytes and keeps none.
#[derive(Drop)]
struct Taking {}

impl Write for Taking {
    fn write(&mut self, buf: &[u8]) -> io::Result<usize> {
        Ok(buf.len())
    }

    fn flush(&mut self) -> io::Result<()> {
        Ok(())
    }
}

/// Gives one connection, and fails at its second wait.
#[derive(Drop)]
struct OneConnector {
    is_connected: bool,
    has_waited: bool,
}

impl Connect for OneConnector {
    type Sink = Taking;

    type Stores = OneConnector;

    fn stores(&mut self) -> &mut OneConnector {
        self
    }

    fn wait(&mut self, _millis: u64) -> Result<&[DestId], ReadinessFault> {
        if self.has_waited {
            return Err(ReadinessFault::Device);
        }
        self.has_waited = true;
        Ok(&[])
    }

    fn connect(&mut self, _dest: DestId, _millis: u64) -> Option<Taking> {
        if self.is_connected {
            return None;
        }
        self.is_connected = true;
        Some(Taking {})
    }

    fn has_closed(&self, _dest: DestId) -> bool {
        false
    }

    fn take_back(&mut self, _dest: DestId, _sink: Taking) -> Option<KeptSocket> {
        None
    }

    fn end(&mut self) {}
}

impl HandOver for OneConnector {
    fn hands_over(&self) -> bool {
        false
    }

    fn hand_over(&mut self, _dest: DestId, _left: LeftWriter<Taking>) {}
}

impl Stores for OneConnector {
    fn about_to_wait(&mut self) {}

    fn end_connection(&mut self, _dest: DestId) {}

    fn has_ended(&self, _dest: DestId) -> bool {
        true
    }

    fn end_writes(&mut self) {}

    fn is_quiet(&self) -> bool {
        true
    }
}

fn send_all<R: Wait + Clock>(rt: &HostRuntime, waits: &R, alloc: Global) -> Option<()> {
    for _ in 0..CALLS {
        if is_sent(rt, waits, alloc)? {
            return Some(());
        }
    }
    None
}

fn is_sent<R: Wait + Clock>(rt: &HostRuntime, waits: &R, alloc: Global) -> Option<bool> {
    let supply = supply(alloc, &[b"a.1 1 5", b"a.2 2 5", b"a.3 3 5"])?;
    let times = SystemTimes::new(waits);
    let stop = AtomicBool::new(false);
    let sender = BatchSender {
        connector: OneConnector {
            is_connected: false,
            has_waited: false,
        },
        dests: 1,
        limit: 500,
        supply,
    };
    begin(rt);
    let record = send_batches(waits, alloc, sender, &times, &stop);
    end(rt);
    let _ = println!(rt; "answer {:?} {:?}", record.fault, record.logs);
    let is_sent = record.fault == Some(ReadinessFault::Device);
    drop(record);
    Some(is_sent)
}
