//! A datagram socket of the network.

ghost use Rattle.std.specs.Io.{ReadsAtMost};

use crate::bad_input::{LastInput, Lines, wrong_with};
use crate::datagram_loop::MOST_DATAGRAM;
use crate::datagrams::Datagrams;
use crate::input_counts::ServedInput;
use crate::long_words::{LastWord, is_short};
use crate::optional_notes::OptionalNotes;
use crate::producer_table::ProducerTable;
use crate::producer_tallies::REPORTS_A_WINDOW;
use crate::receiver_control::{ReceiverControl, shared_control};
use crate::refusal::passing;
use crate::system_drops::SystemDrops;
use log_lines::{BadExample, LossNotes, LossReason, ReceiverNotes};
use mio::net::UdpSocket;
use mio_loops::{ReadTotals, Readiness, ReadinessFault, Token};
use reader_core::ReaderCounts;
use relay_base::NoMemory;
use std::alloc::Global;
use std::fs::File;
use std::io;
use std::io::ErrorKind;
use std::net::{IpAddr, Ipv4Addr, Net, SocketAddr};
use std::sync::Arc;

/// The token of the socket; a wait reports only that the socket is ready.
const SOCKET: Token = Token(0);

/// Of this many reports of what the receiver has counted, one looks up what the system has dropped: about one a second.
const REPORTS_A_LOOK: u32 = 8;

/// A datagram socket with its readiness. A datagram that is too long, or has a long word while memory is short, is dropped:
/// its take ends with `Interrupted`. After an error that can pass, a take ends with `WouldBlock`, and the receiver tries again
/// after the next wait.
#[derive(Drop)]
pub struct DatagramSocket {
    alloc: Global,
    readiness: Readiness,
    socket: UdpSocket,
    notes: OptionalNotes,
    control: Arc<ReceiverControl>,
    losses: LossNotes,
    drops: Option<SystemDrops>,
    // The address from which the last datagram came, and how many bytes it has.
    from: IpAddr,
    bytes: u64,
    reports: u32,
    // What came from each address, if somebody looks at that, and how many reports there were since the last window.
    producers: ProducerTable,
    is_watched: bool,
    since_window: u32,
}

impl DatagramSocket {
    /// Watches a socket. Refuses what the system refuses (`Device`), and answers `NoMemory` when out of
    /// memory.
    pub fn new(
        net: &impl Net,
        alloc: Global,
        socket: UdpSocket,
    ) -> Result<DatagramSocket, ReadinessFault> {
        let mut socket = socket;
        let (readiness, control) = match watched(net, alloc, &mut socket) {
            Ok(watch) => watch,
            Err(fault) => {
                drop(socket);
                return Err(fault);
            }
        };
        Ok(DatagramSocket {
            alloc,
            readiness,
            socket,
            notes: OptionalNotes::none(),
            control,
            losses: LossNotes::new(),
            drops: None,
            from: IpAddr::V4(Ipv4Addr::UNSPECIFIED),
            bytes: 0,
            reports: 0,
            producers: ProducerTable::new(alloc),
            is_watched: false,
            since_window: 0,
        })
    }

    /// From now on these events note that the socket failed, and what the receiver has counted.
    pub fn set_notes(&mut self, notes: Arc<ReceiverNotes>) {
        self.notes = OptionalNotes::here(notes);
    }

    /// The path of the system's table of datagram sockets that has this one.
    pub fn table(&self) -> &'static str {
        match self.socket.local_addr() {
            Ok(SocketAddr::V6(_)) => "/proc/net/udp6",
            _ => "/proc/net/udp",
        }
    }

    /// From now on this table, open for reading, says what the system dropped at the socket. Refuses if out of memory.
    pub fn set_table(&mut self, table: File) -> Result<(), NoMemory> {
        let Ok(local) = self.socket.local_addr() else {
            drop(table);
            return Ok(());
        };
        self.drops = Some(SystemDrops::new(self.alloc, table, local)?);
        Ok(())
    }

    /// What the thread that stops the receiver closes and wakes it with. Refuses if out of memory.
    pub fn control(&self) -> Result<Arc<ReceiverControl>, NoMemory> {
        Ok(Arc::try_clone(&self.control)?)
    }

    /// The address from which the last datagram came.
    pub fn sender(&self) -> IpAddr {
        self.from.to_canonical()
    }

    /// Takes the next datagram, and remembers from which address.
    fn receive_from(&mut self, buffer: &mut [u8]) -> io::Result<usize>
        ensures { ReadsAtMost result buffer.new }
    {
        let (count, from) = self.socket.recv_from(buffer)?;
        self.from = from.ip();
        self.bytes = count as u64;
        Ok(count)
    }

    /// Whether a datagram is dropped whole, which is counted.
    fn is_dropped(&self, datagram: &[u8]) -> bool {
        if datagram.len() > MOST_DATAGRAM {
            self.losses.note(LossReason::Overlong);
            return true;
        }
        if LastWord::none().is_long_with(datagram) && is_short(self.alloc) {
            self.losses.note(LossReason::MemoryShort);
            return true;
        }
        false
    }

    /// Puts what came since the last window where it is looked at, if it is time and a window is wanted.
    fn report_producers(&mut self) {
        let Some(place) = self.notes.producers() else {
            return;
        };
        self.is_watched = place.is_wanted();
        self.since_window = self.since_window.saturating_add(1);
        if self.since_window >= REPORTS_A_WINDOW && place.wants_window() {
            self.since_window = 0;
            place.put(self.producers.take());
        }
    }

    /// Looks up what the system has dropped, if that is due. It is whenever the receiver closes.
    fn look_up_drops(&mut self) {
        let is_due = self.reports % REPORTS_A_LOOK == 0 || self.control.is_closing();
        self.reports = self.reports.wrapping_add(1);
        let Some(drops) = &mut self.drops else {
            return;
        };
        if is_due {
            if let Some(count) = drops.count() {
                self.losses.set(LossReason::SystemDrop, count);
            }
        }
    }
}

/// The readiness of a socket, and its receiver's control.
fn watched(
    net: &impl Net,
    alloc: Global,
    socket: &mut UdpSocket,
) -> Result<(Readiness, Arc<ReceiverControl>), ReadinessFault> {
    let readiness = Readiness::new(net, alloc, 2)?;
    match control_of(alloc, &readiness, socket) {
        Ok(control) => Ok((readiness, control)),
        Err(fault) => {
            drop(readiness);
            Err(fault)
        }
    }
}

/// Watches a socket with a readiness, and returns its receiver's control.
fn control_of(
    alloc: Global,
    readiness: &Readiness,
    socket: &mut UdpSocket,
) -> Result<Arc<ReceiverControl>, ReadinessFault> {
    readiness.add_socket(socket, SOCKET)?;
    shared_control(alloc, readiness)
}

impl Datagrams for DatagramSocket {
    fn wait(&mut self, millis: u64) -> Result<(), ReadinessFault> {
        // Nothing waits at the socket. Datagrams go on to come, and are read until the receiver is stopped.
        self.control.note_empty();
        match self.readiness.wait(millis) {
            Ok(_) => Ok(()),
            Err(fault) => {
                self.control.note_ended();
                self.notes.note_fault(fault);
                Err(fault)
            }
        }
    }

    fn receive(&mut self, buffer: &mut [u8]) -> io::Result<usize>
        ensures bound { ReadsAtMost result buffer.new }
    {
        let received = self.receive_from(buffer);
        self.notes.note_receive(&received);
        let count = match received {
            Ok(count) => count,
            Err(error) => return Err(passing(error)),
        };
        if self.is_dropped(&buffer[..count]) {
            return Err(io::Error::from(ErrorKind::Interrupted));
        }
        Ok(count)
    }

    fn note_served(&mut self, served: ServedInput) {
        if self.is_watched {
            let from = self.from.to_canonical();
            self.producers.add(from, served.counts(self.bytes));
        }
    }

    fn note_bad(&mut self, before: ReaderCounts, now: ReaderCounts, datagram: &[u8]) {
        if !self.notes.wants_example() {
            return;
        }
        let last = LastInput::Lines(Lines::of_datagram(datagram));
        if let Some(input) = wrong_with(self.alloc, before, now, last) {
            let from = self.from.to_canonical();
            self.notes.note_example(&BadExample { input, from });
        }
    }

    fn note_totals(&mut self, totals: ReadTotals, emptied: u64) {
        self.look_up_drops();
        self.notes
            .note_totals(totals, emptied, self.losses.counts());
        self.report_producers();
    }

    fn note_fault(&mut self, fault: ReadinessFault) {
        self.notes.note_fault(fault);
    }
}
