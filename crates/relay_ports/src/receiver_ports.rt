//! The ports at which receivers listen.

ghost use Rattle.std.specs.Prelude.{◌≡◌, true, IfErr};
ghost use Rattle.relay_ports.specs.StartFault.{is_start_fault};

use crate::datagram_room::ask_for_room;
use crate::inlet::Inlet;
use crate::system_tables::SystemTables;
use conf_text::Settings;
use config_changes::ChangedPorts;
use log_lines::ReceiverName;
use mio::net::{TcpListener, UdpSocket};
use receivers::{ConnectionRoom, StreamPort};
use relay_base::{MOST_LINE_RECEIVERS, NoMemory, add};
use relay_files::{ListenRole, RelayFault};
use std::alloc::Global;
use std::net::{IpAddr, Net, SocketAddr};
use std::sync::Arc;
use std::{io, net};

/// The ports of receivers that are bound, by what they receive. The receivers of lines share theirs.
#[derive(Drop)]
pub(crate) struct ReceiverPorts {
    lines: Option<StreamPort>,
    pickles: Option<StreamPort>,
    datagrams: Option<net::UdpSocket>,
}

/// The ports of a run.
#[derive(Clone, Copy)]
pub(crate) struct PortsOfRun<'x> {
    lines: &'x Option<StreamPort>,
    pickles: &'x Option<StreamPort>,
    datagrams: &'x Option<net::UdpSocket>,
}

impl ReceiverPorts {
    /// None is bound.
    pub(crate) fn none() -> ReceiverPorts {
        ReceiverPorts {
            lines: None,
            pickles: None,
            datagrams: None,
        }
    }

    /// Binds those of the settings that are enabled and changed, in the order lines, pickles, datagrams: a port of 0 is not
    /// enabled, and datagrams only if ENABLE_UDP_LISTENER says so. Refuses (`Listen`) the first port whose interface is no address
    /// or that the system does not bind; what was bound is closed again.
    pub(crate) fn bind<R: Net>(
        rt: &R,
        settings: &Settings,
        changed: ChangedPorts,
    ) -> Result<ReceiverPorts, RelayFault>
        ensures { IfErr result (λ fault. is_start_fault fault ≡ true) }
    {
        let mut ports = ReceiverPorts::none();
        if changed.lines {
            ports.lines = bind_lines(rt, settings)?;
        }
        if changed.pickles {
            ports.pickles = bind_pickles(rt, settings)?;
        }
        if changed.datagrams {
            ports.datagrams = bind_datagrams(rt, settings)?;
        }
        Ok(ports)
    }

    /// Whether one for connections is there of which these others have none.
    pub(crate) fn adds_streams_to(&self, others: &ReceiverPorts) -> bool {
        let adds_lines = self.lines.is_some() && others.lines.is_none();
        adds_lines || self.pickles.is_some() && others.pickles.is_none()
    }

    /// The room of the ports for connections, which share it, if it is limited.
    pub(crate) fn room(&self) -> Option<&Arc<ConnectionRoom>> {
        match (&self.lines, &self.pickles) {
            (Some(port), _) | (None, Some(port)) => port.room(),
            (None, None) => None,
        }
    }

    /// From now on connections need a place in this room.
    pub(crate) fn set_room(&mut self, room: &Arc<ConnectionRoom>) -> Result<(), NoMemory> {
        if let Some(port) = &mut self.lines {
            port.set_room(Arc::try_clone(room)?);
        }
        if let Some(port) = &mut self.pickles {
            port.set_room(Arc::try_clone(room)?);
        }
        Ok(())
    }

    /// All of them.
    pub(crate) fn all(&self) -> PortsOfRun<'_> {
        PortsOfRun {
            lines: &self.lines,
            pickles: &self.pickles,
            datagrams: &self.datagrams,
        }
    }

    /// Those of a run that follows: these others where they changed.
    pub(crate) fn after<'x>(
        &'x self,
        others: &'x ReceiverPorts,
        changed: ChangedPorts,
    ) -> PortsOfRun<'x> {
        PortsOfRun {
            lines: one_of(changed.lines, &others.lines, &self.lines),
            pickles: one_of(changed.pickles, &others.pickles, &self.pickles),
            datagrams: if changed.datagrams {
                &others.datagrams
            } else {
                &self.datagrams
            },
        }
    }

    /// These others are there in place of those that changed, which are closed. It takes no memory.
    pub(crate) fn replace(&mut self, others: ReceiverPorts, changed: ChangedPorts) {
        let ReceiverPorts {
            lines,
            pickles,
            datagrams,
        } = others;
        if changed.lines {
            self.lines = lines;
        }
        if changed.pickles {
            self.pickles = pickles;
        }
        if changed.datagrams {
            self.datagrams = datagrams;
        }
    }
}

/// The first port, or else the second one.
fn one_of<'x>(
    is_first: bool,
    first: &'x Option<StreamPort>,
    second: &'x Option<StreamPort>,
) -> &'x Option<StreamPort> {
    if is_first { first } else { second }
}

impl PortsOfRun<'_> {
    /// What receives at each, of these many receivers of lines: those of lines first, and that of datagrams last. Refuses (`Listen`)
    /// what the system refuses, and `NoMemory` if out of memory.
    pub(crate) fn inlets<R: Net + SystemTables>(
        self,
        rt: &R,
        alloc: Global,
        line_receivers: usize,
    ) -> Result<Vec<Inlet>, RelayFault>
        ensures { IfErr result (λ fault. is_start_fault fault ≡ true) }
    {
        let mut inlets = Vec::new(alloc);
        if let Some(port) = self.lines {
            add_lines(rt, alloc, port, line_receivers, &mut inlets)?;
        }
        if let Some(port) = self.pickles {
            let port = clone_of(port, ListenRole::Pickle)?;
            add(&mut inlets, Inlet::pickles(rt, alloc, port)?)?;
        }
        if let Some(socket) = self.datagrams {
            let socket = clone_or(socket.try_clone(), ListenRole::Udp)?;
            add(&mut inlets, Inlet::datagrams(rt, alloc, socket)?)?;
        }
        Ok(inlets)
    }
}

/// Adds what receives lines at a port: each of several receivers has a clone of the system's socket.
fn add_lines<R: Net>(
    rt: &R,
    alloc: Global,
    port: &StreamPort,
    receivers: usize,
    inlets: &mut Vec<Inlet>,
) -> Result<(), RelayFault>
    ensures { IfErr result (λ fault. is_start_fault fault ≡ true) }
{
    for number in 0..receivers.clamp(1, MOST_LINE_RECEIVERS) {
        let name = if receivers > 1 {
            ReceiverName::LineOf(number)
        } else {
            ReceiverName::Line
        };
        let port = clone_of(port, ListenRole::Line)?;
        add(inlets, Inlet::lines(rt, alloc, port, name)?)?;
    }
    Ok(())
}

/// Another one of a port of this role.
fn clone_of(port: &StreamPort, role: ListenRole) -> Result<StreamPort, RelayFault>
    ensures { IfErr result (λ fault. fault ≡ RelayFault.Listen role) }
{
    clone_or(port.try_clone(), role)
}

/// The clone, or that the port of this role cannot be cloned.
fn clone_or<T>(clone: io::Result<T>, role: ListenRole) -> Result<T, RelayFault>
    ensures { IfErr result (λ fault. fault ≡ RelayFault.Listen role) }
{
    match clone {
        Ok(clone) => Ok(clone),
        Err(_) => Err(RelayFault::Listen { role }),
    }
}

/// Binds the port of lines, if it is enabled.
fn bind_lines<R: Net>(rt: &R, settings: &Settings) -> Result<Option<StreamPort>, RelayFault>
    ensures { IfErr result (λ fault. fault ≡ RelayFault.Listen ListenRole.Line) }
{
    let (interface, port) = (
        settings.line_receiver_interface(),
        settings.line_receiver_port(),
    );
    bind_stream(rt, interface, port, ListenRole::Line)
}

/// Binds the port of pickles, if it is enabled.
fn bind_pickles<R: Net>(rt: &R, settings: &Settings) -> Result<Option<StreamPort>, RelayFault>
    ensures { IfErr result (λ fault. fault ≡ RelayFault.Listen ListenRole.Pickle) }
{
    let (interface, port) = (
        settings.pickle_receiver_interface(),
        settings.pickle_receiver_port(),
    );
    bind_stream(rt, interface, port, ListenRole::Pickle)
}

/// Binds a port for connections, if it is not 0.
fn bind_stream<R: Net>(
    rt: &R,
    interface: &str,
    port: u16,
    role: ListenRole,
) -> Result<Option<StreamPort>, RelayFault>
    ensures { IfErr result (λ fault. fault ≡ RelayFault.Listen role) }
{
    if port == 0 {
        return Ok(None);
    }
    let address = address_of(interface, port, role)?;
    match TcpListener::bind(rt, address) {
        Ok(listener) => Ok(Some(StreamPort::new(listener))),
        Err(_) => Err(RelayFault::Listen { role }),
    }
}

/// Binds the port of datagrams, if it is enabled, and asks for room for those that wait there.
fn bind_datagrams<R: Net>(rt: &R, settings: &Settings) -> Result<Option<net::UdpSocket>, RelayFault>
    ensures { IfErr result (λ fault. fault ≡ RelayFault.Listen ListenRole.Udp) }
{
    let (role, port) = (ListenRole::Udp, settings.udp_receiver_port());
    if !settings.enable_udp_listener() || port == 0 {
        return Ok(None);
    }
    let address = address_of(settings.udp_receiver_interface(), port, role)?;
    match UdpSocket::bind(rt, address) {
        Ok(socket) => {
            ask_for_room(rt, &socket);
            Ok(Some(net::UdpSocket::from(socket)))
        }
        Err(_) => Err(RelayFault::Listen { role }),
    }
}

/// The address of a port at an interface, which is written as an IP address.
fn address_of(interface: &str, port: u16, role: ListenRole) -> Result<SocketAddr, RelayFault>
    ensures { IfErr result (λ fault. fault ≡ RelayFault.Listen role) }
{
    match IpAddr::parse_ascii(interface.as_bytes()) {
        Ok(address) => Ok(SocketAddr::new(address, port)),
        Err(_) => Err(RelayFault::Listen { role }),
    }
}
