//! The source of a receiver's datapoints.

ghost use Rattle.std.specs.Prelude.{◌≡◌, true, IfErr};
ghost use Rattle.relay_ports.specs.StartFault.{is_start_fault};

use crate::system_tables::SystemTables;
use log_lines::{ReceiverName, ReceiverNotes};
use mio::net::UdpSocket;
use mio_loops::ReadinessFault;
use reader_core::ReaderKind;
use receivers::{DatagramSocket, HandedStreams, ReceiverControl, StreamListener, StreamPort};
use relay_base::NoMemory;
use relay_files::{ListenRole, RelayFault};
use std::alloc::Global;
use std::net;
use std::net::Net;
use std::sync::Arc;

/// The source of a receiver's datapoints. It borrows nothing of a run, so what the next one receives with is made before this one
/// ends.
#[derive(Drop)]
pub enum Inlet {
    /// Connections of lines, and the name of their receiver.
    Lines(StreamListener, ReceiverName),
    /// Connections of pickles.
    Pickles(StreamListener),
    /// Datagrams of lines.
    Datagrams(DatagramSocket),
}

impl Inlet {
    /// Watches a port of lines, for the receiver of this name. If the system refuses, that is the port's fault.
    pub(crate) fn lines<R: Net>(
        rt: &R,
        alloc: Global,
        port: StreamPort,
        name: ReceiverName,
    ) -> Result<Inlet, RelayFault>
        ensures { IfErr result (λ fault. is_start_fault fault ≡ true) }
    {
        match StreamListener::new(rt, alloc, port, ReaderKind::Line) {
            Ok(listener) => Ok(Inlet::Lines(listener, name)),
            Err(fault) => Err(watch_fault(fault, ListenRole::Line)),
        }
    }

    /// Watches a port of pickles. If the system refuses, that is the port's fault.
    pub(crate) fn pickles<R: Net>(
        rt: &R,
        alloc: Global,
        port: StreamPort,
    ) -> Result<Inlet, RelayFault>
        ensures { IfErr result (λ fault. is_start_fault fault ≡ true) }
    {
        match StreamListener::new(rt, alloc, port, ReaderKind::Pickle) {
            Ok(listener) => Ok(Inlet::Pickles(listener)),
            Err(fault) => Err(watch_fault(fault, ListenRole::Pickle)),
        }
    }

    /// Watches a port of datagrams. If the system refuses, that is the port's fault.
    pub(crate) fn datagrams<R: Net + SystemTables>(
        rt: &R,
        alloc: Global,
        socket: net::UdpSocket,
    ) -> Result<Inlet, RelayFault>
        ensures { IfErr result (λ fault. is_start_fault fault ≡ true) }
    {
        match datagrams_of(rt, alloc, UdpSocket::from_std(socket)) {
            Ok(socket) => Ok(Inlet::Datagrams(socket)),
            Err(fault) => Err(watch_fault(fault, ListenRole::Udp)),
        }
    }

    /// The name of what receives here.
    pub fn name(&self) -> ReceiverName {
        match self {
            Inlet::Lines(_, name) => *name,
            Inlet::Pickles(_) => ReceiverName::Pickle,
            Inlet::Datagrams(_) => ReceiverName::Datagram,
        }
    }

    /// From now on a connection that has sent no datapoint for this number of seconds is closed; with 0 none is.
    pub(crate) fn set_idle(&mut self, seconds: u64) {
        match self {
            Inlet::Lines(listener, _) | Inlet::Pickles(listener) => listener.set_idle(seconds),
            Inlet::Datagrams(_) => {}
        }
    }

    /// Once the receiver is stopped, its connections go there, if another run follows.
    pub(crate) fn set_handed(&mut self, handed: &Arc<HandedStreams>) -> Result<(), NoMemory> {
        let handed = Arc::clone(handed)?;
        match self {
            Inlet::Lines(listener, _) | Inlet::Pickles(listener) => listener.set_handed(handed),
            Inlet::Datagrams(_) => drop(handed),
        }
        Ok(())
    }

    /// The connections that the receiver of an ended run handed over come first. That one has ended.
    pub fn resume_handed(&mut self) {
        match self {
            Inlet::Lines(listener, _) | Inlet::Pickles(listener) => listener.resume_handed(),
            Inlet::Datagrams(_) => {}
        }
    }

    /// What closes and wakes the receiver. Refuses if out of memory.
    pub(crate) fn control(&self) -> Result<Arc<ReceiverControl>, NoMemory> {
        match self {
            Inlet::Lines(listener, _) | Inlet::Pickles(listener) => listener.control(),
            Inlet::Datagrams(socket) => socket.control(),
        }
    }

    /// From now on the events of the port are noted here. Refuses if out of memory.
    pub(crate) fn set_notes(&mut self, notes: &Arc<ReceiverNotes>) -> Result<(), NoMemory> {
        let own = Arc::clone(notes)?;
        match self {
            Inlet::Lines(listener, _) | Inlet::Pickles(listener) => listener.set_notes(own),
            Inlet::Datagrams(socket) => socket.set_notes(own),
        }
        Ok(())
    }
}

/// Watches a socket, and looks up what the system drops at it, if the system has a table that says so.
fn datagrams_of<R: Net + SystemTables>(
    rt: &R,
    alloc: Global,
    socket: UdpSocket,
) -> Result<DatagramSocket, ReadinessFault> {
    let mut socket = DatagramSocket::new(rt, alloc, socket)?;
    let Ok(table) = rt.open_table(socket.table()) else {
        return Ok(socket);
    };
    match socket.set_table(table) {
        Ok(()) => Ok(socket),
        Err(_) => {
            drop(socket);
            Err(ReadinessFault::NoMemory)
        }
    }
}

/// The fault of a port of this role that cannot be watched.
pub(crate) fn watch_fault(fault: ReadinessFault, role: ListenRole) -> RelayFault
    ensures { is_start_fault result ≡ true }
{
    match fault {
        ReadinessFault::Device => RelayFault::Listen { role },
        ReadinessFault::NoMemory => RelayFault::NoMemory,
    }
}
