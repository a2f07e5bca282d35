//! What receives at a port.

ghost use Rattle.std.specs.Prelude.{◌≡◌, ◌≤◌, ◌<◌, length, IfErr};
ghost use Rattle.receivers.specs.Record.{EndsFor};
ghost use Rattle.std.specs.Io.{ReadsAtMost};

use crate::inlet::Inlet;
use crate::port_listener::{PortListener, PortNotes, Share};
use live_watch::{
    NotesOffers, PieceHead, PieceOffers, PieceStart, Tap, WatchPlace, WatchedDoor, kind_of,
};
use log_lines::ReceiverName;
use mio_loops::{ReadTotals, ReadinessFault, StopFlag, SystemTimes, TimeSource};
use queue_records::Door;
use reader_core::ReaderCounts;
use receivers::{
    DatagramSocket, Datagrams, Receiver, ReceiverRecord, ServedInput, StreamListener,
    receive_datagrams, receive_streams,
};
use router::Plan;
use run_state::{BeginNote, Signals};
use std::alloc::Global;
use std::io;
use std::rt::Clock;
use std::sync::Wait;
use std::time::Instant;

/// What receives at a port.
#[derive(Drop)]
pub struct PortReceiver<'d> {
    /// The port, which may be shared with other receivers.
    pub inlet: Inlet,
    /// The receiver's number.
    pub number: usize,
    /// How the receivers of lines share their port.
    pub share: Share<'d>,
    /// Where it hands over what it notes for a watch.
    pub watch: &'d WatchPlace,
    /// Since when the milliseconds of a run count.
    pub began: Option<Instant>,
    ghost few: { number < 8 },
}

impl PortReceiver<'_> {
    /// Receives until the receiver's stop flag is set, or a fault, by [`receive_streams`] or [`receive_datagrams`].
    pub fn receive<D: Door + Drop, R: Wait + Clock>(
        self,
        rt: &R,
        alloc: Global,
        plan: Plan,
        door: D,
        signals: &Signals,
    ) -> ReceiverRecord<D>
        requires dests { plan.destinations ≤ length (D.record_of door).totals }
        ensures { EndsFor result.fault result.log (D.record_of door) (D.record_of result.door) }
    {
        let PortReceiver {
            inlet,
            number,
            share,
            watch,
            began,
        } = self;
        let times = SystemTimes::since(rt, began);
        let tap = Tap::new(watch);
        let name = inlet.name();
        let notes = PortNotes {
            name,
            share: share_of(name, share),
            begin: BeginNote::new(signals),
            tap: &tap,
        };
        let door = WatchedDoor::new(door, PieceOffers::of(&tap));
        let stop = signals.receivers();
        let datagrams_stop = signals.datagrams();
        let left = match inlet {
            Inlet::Lines(source, _) | Inlet::Pickles(source) => {
                let inflow = Inflow {
                    alloc,
                    source,
                    number,
                    notes,
                };
                receive_connections(rt, inflow, plan, door, &times, &stop)
            }
            Inlet::Datagrams(source) => {
                let inflow = Inflow {
                    alloc,
                    source,
                    number,
                    notes,
                };
                receive_noted(rt, inflow, plan, door, &times, &datagrams_stop)
            }
        };
        without_watch(left)
    }
}

/// How a receiver shares its port: one of lines in this way, and the others with none.
fn share_of<'s>(name: ReceiverName, of_lines: Share<'s>) -> Share<'s> {
    match name {
        ReceiverName::Line | ReceiverName::LineOf(_) => of_lines,
        ReceiverName::Pickle | ReceiverName::Datagram => Share::none(),
    }
}

/// A source of a receiver of a number, and what is known of the receiver.
#[derive(Drop)]
struct Inflow<'s, S> {
    alloc: Global,
    source: S,
    number: usize,
    notes: PortNotes<'s>,
    ghost few: { number < 8 },
}

/// Receives what connections send.
fn receive_connections<
    's,
    R: Wait,
    N: NotesOffers + Drop,
    D: Door + Drop,
    T: TimeSource,
    F: StopFlag,
>(
    rt: &R,
    inflow: Inflow<'s, StreamListener>,
    plan: Plan,
    door: WatchedDoor<N, D>,
    times: &T,
    stop: &F,
) -> ReceiverRecord<WatchedDoor<N, D>>
    requires dests { plan.destinations ≤ length (D.record_of door.door).totals }
    ensures { EndsFor result.fault result.log (D.record_of door.door) (D.record_of result.door.door) }
{
    let Inflow {
        alloc,
        source,
        number,
        notes,
    } = inflow;
    let kind = kind_of(notes.name);
    let receiver = Receiver {
        source: PortListener::new(source, notes),
        number,
        plan,
        door,
    };
    receive_streams(rt, alloc, kind, receiver, times, stop)
}

/// Receives datagrams.
fn receive_noted<'s, R: Wait, N: NotesOffers + Drop, D: Door + Drop, T: TimeSource, F: StopFlag>(
    rt: &R,
    inflow: Inflow<'s, DatagramSocket>,
    plan: Plan,
    door: WatchedDoor<N, D>,
    times: &T,
    stop: &F,
) -> ReceiverRecord<WatchedDoor<N, D>>
    requires dests { plan.destinations ≤ length (D.record_of door.door).totals }
    ensures { EndsFor result.fault result.log (D.record_of door.door) (D.record_of result.door.door) }
{
    let Inflow {
        alloc,
        source,
        number,
        notes,
    } = inflow;
    let receiver = Receiver {
        source: PortDatagrams::new(source, notes),
        number,
        plan,
        door,
    };
    receive_datagrams(rt, alloc, receiver, times, stop)
}

/// What a receiver leaves, with the door that is behind the one whose offers were noted.
fn without_watch<N: Drop, D: Door>(left: ReceiverRecord<WatchedDoor<N, D>>) -> ReceiverRecord<D>
    ensures door { result.door ≡ left.door.door }
    ensures log { result.log ≡ left.log }
    ensures fault { result.fault ≡ left.fault }
{
    let ReceiverRecord { door, log, fault } = left;
    ReceiverRecord {
        door: door.into_door(),
        log,
        fault,
    }
}

/// The datagrams of a port, which are noted for a watch, if there is one. Their first wait is noted.
#[derive(Drop)]
struct PortDatagrams<'s> {
    socket: DatagramSocket,
    notes: PortNotes<'s>,
}

impl<'s> PortDatagrams<'s> {
    /// The datagrams of a socket, of a receiver of which this is known.
    fn new(socket: DatagramSocket, notes: PortNotes<'s>) -> PortDatagrams<'s> {
        PortDatagrams { socket, notes }
    }

    /// Notes a datagram for the watch of a number.
    fn note(&self, watch: u64, datagram: &[u8]) {
        let head = PieceHead {
            receiver: self.notes.name,
            producer: self.socket.sender(),
            connection: 0,
            start: PieceStart::Fresh,
        };
        let _is_noted = self.notes.tap.note_piece(watch, head, datagram);
    }
}

impl Datagrams for PortDatagrams<'_> {
    fn wait(&mut self, millis: u64) -> Result<(), ReadinessFault>
        ensures device { IfErr result (λ fault. fault ≡ ReadinessFault.Device) }
    {
        self.notes.begin.note_wait();
        self.notes.tap.hand_over();
        self.socket.wait(millis)
    }

    fn receive(&mut self, buffer: &mut [u8]) -> io::Result<usize>
        ensures bound { ReadsAtMost result buffer.new }
    {
        let count = self.socket.receive(buffer)?;
        let watch = self.notes.tap.watch();
        if watch != 0 {
            self.note(watch, &buffer[..count]);
        }
        Ok(count)
    }

    fn note_totals(&mut self, totals: ReadTotals, emptied: u64) {
        self.notes.tap.hand_over();
        self.socket.note_totals(totals, emptied);
    }

    fn note_served(&mut self, served: ServedInput) {
        self.socket.note_served(served);
    }

    fn note_bad(&mut self, before: ReaderCounts, now: ReaderCounts, datagram: &[u8]) {
        self.socket.note_bad(before, now, datagram);
    }

    // `signals` notes the end of a receiver, where its thread ends.
    fn note_fault(&mut self, _fault: ReadinessFault) {}
}
