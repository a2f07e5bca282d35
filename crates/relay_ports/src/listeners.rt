//! The ports at which a relay listens.

ghost use Rattle.std.specs.Prelude.{◌≡◌, true, IfErr};
ghost use Rattle.relay_ports.specs.StartFault.{is_start_fault};

use crate::descriptors::room_of;
use crate::first_ports::FirstPorts;
use crate::inlet::{Inlet, watch_fault};
use crate::receiver_ports::ReceiverPorts;
use crate::run_receivers::RunReceivers;
use crate::said_refusals::SaidRefusals;
use crate::system_tables::SystemTables;
use admin_port::AdminListener;
use conf_text::Settings;
use config_changes::ChangedPorts;
use mio::net::TcpListener;
use relay_files::{ListenRole, RelayFault};
use relay_options::{RunOptions, StatusOptions};
use status_server::StatusListener;
use std::alloc::Global;
use std::net::{Ipv4Addr, Net, SocketAddr};

/// What was bound: what receives at the ports of receivers, and what is known of these; the ports that the first thread keeps; and
/// what serves the status, if there is to be that.
#[derive(Drop)]
pub struct Ports<S> {
    /// What receives, at each port of a receiver.
    pub receivers: Vec<Inlet>,
    /// What the first thread knows of the receivers.
    pub known: RunReceivers,
    /// Those that the first thread keeps.
    pub first: FirstPorts,
    /// What serves the status.
    pub status: Option<S>,
}

/// Binds the ports of receivers, the admin port and the port of the status server, in this order, and watches them. Refuses
/// (`Listen`) the first that cannot be bound or watched, and too few descriptors; what was bound is closed again. The receivers
/// leave descriptors for the stores.
pub fn bind_all<R: Net + SystemTables>(
    rt: &R,
    alloc: Global,
    settings: &Settings,
    options: RunOptions,
) -> Result<Ports<StatusListener>, RelayFault>
    ensures { IfErr result (λ fault. is_start_fault fault ≡ true) }
{
    let kept = ReceiverPorts::bind(rt, settings, ChangedPorts::all())?;
    let admin = watch_admin(rt, alloc, options.admin)?;
    let mut ports = Ports {
        receivers: Vec::new(alloc),
        known: RunReceivers::none(alloc),
        first: FirstPorts {
            admin,
            said: SaidRefusals::none(),
            kept,
        },
        status: None,
    };
    match bind_last(rt, alloc, settings, options, &mut ports) {
        Ok(()) => Ok(ports),
        Err(fault) => {
            drop(ports);
            Err(fault)
        }
    }
}

/// Binds the port of the status, the last, limits the receivers of all, and watches their ports.
fn bind_last<R: Net + SystemTables>(
    rt: &R,
    alloc: Global,
    settings: &Settings,
    options: RunOptions,
    ports: &mut Ports<StatusListener>,
) -> Result<(), RelayFault>
    ensures { IfErr result (λ fault. is_start_fault fault ≡ true) }
{
    ports.status = bind_status(rt, alloc, options.status)?;
    if let Some(room) = room_of(rt, alloc, settings, options)? {
        ports.first.kept.set_room(&room)?;
    }
    let bound = ports.first.kept.all();
    ports.receivers = bound.inlets(rt, alloc, options.line_receivers.count())?;
    let nobody = RunReceivers::none(alloc);
    ports.known = RunReceivers::after(
        alloc,
        &nobody,
        ChangedPorts::all(),
        &mut ports.receivers,
        options.idle,
    )?;
    Ok(())
}

/// Binds and watches the port for commands. Refuses (`Listen`) what the system does not bind or watch, and `NoMemory` if
/// out of memory.
fn watch_admin<R: Net>(rt: &R, alloc: Global, port: u16) -> Result<AdminListener, RelayFault>
    ensures { IfErr result (λ fault. is_start_fault fault ≡ true) }
{
    let listener = bind_admin(rt, port)?;
    match AdminListener::new(rt, alloc, listener) {
        Ok(admin) => Ok(admin),
        Err(fault) => Err(watch_fault(fault, ListenRole::Admin)),
    }
}

/// Binds the port for commands, on this machine alone. Refuses (`Listen`) what the
/// system does not bind.
fn bind_admin<R: Net>(rt: &R, port: u16) -> Result<TcpListener, RelayFault>
    ensures { IfErr result (λ fault. fault ≡ RelayFault.Listen ListenRole.Admin) }
{
    match TcpListener::bind(rt, SocketAddr::from((Ipv4Addr::LOCALHOST, port))) {
        Ok(listener) => Ok(listener),
        Err(_) => Err(RelayFault::Listen {
            role: ListenRole::Admin,
        }),
    }
}

/// Binds and watches the port of the status server, if there is to be one. Refuses (`Listen`) what the system does not
/// bind or watch, and `NoMemory` if out of memory.
fn bind_status<R: Net>(
    rt: &R,
    alloc: Global,
    status: Option<StatusOptions>,
) -> Result<Option<StatusListener>, RelayFault>
    ensures { IfErr result (λ fault. is_start_fault fault ≡ true) }
{
    let Some(options) = status else {
        return Ok(None);
    };
    let role = ListenRole::Status;
    let Ok(listener) = TcpListener::bind(rt, options.address) else {
        return Err(RelayFault::Listen { role });
    };
    match StatusListener::new(rt, alloc, listener, options.address.ip()) {
        Ok(listener) => Ok(Some(listener)),
        Err(fault) => Err(watch_fault(fault, role)),
    }
}
