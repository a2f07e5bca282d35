//! `--explain`: notes of what a command could not open, and of a bad line of a script.

use crate::explain::write;
use crate::open_files::Files;
use crate::reread_files::RereadFile;
use command_line::{Invocation, Paths, ReplayInput};
use conf_text::{Ini, Settings};
use fault_notes::{SystemNotes, notes_of_script, notes_of_unreadable, open_file_limit};
use note_text::Notes;
use relay_base::{NoMemory, add, utf8_text};
use relay_files::{RelayFault, Role};
use relay_options::RunOptions;
use relay_run::{descriptors_needed, free_descriptors};
use std::alloc::Global;
use std::io::{IsTerminal, Write};
use std::net::{IpAddr, Ipv4Addr, Net, SocketAddr, TcpListener};
use std::{fs, io};

/// Writes notes of a fault outside the configuration.
pub fn write_fault_notes(
    files: &Files<'_>,
    alloc: Global,
    invocation: &Invocation,
    fault: RelayFault,
) {
    let notes = match (fault, invocation) {
        (RelayFault::CannotRead { role }, _) => match input_of(invocation, role) {
            Some(path) => unreadable(files, alloc, path),
            None => return,
        },
        (RelayFault::Script { line }, Invocation::Replay(command)) => {
            script_notes(files, alloc, command.input.path(), line)
        }
        (RelayFault::NotText { role: Role::Script }, Invocation::Replay(command)) => {
            match &command.input {
                ReplayInput::Script(path) => script_notes(files, alloc, path, 0),
                ReplayInput::Lines(_) => return,
            }
        }
        (RelayFault::Listen { .. }, Invocation::Run(command)) => {
            port_notes(files, alloc, &command.paths, command.options)
        }
        _ => return,
    };
    let _ = write(files.runtime(), notes);
}

/// The hint after a fault, at a terminal.
const HINT: &str = "relayd: note: --explain shows where the fault is, and how to cure it\n";

/// Writes a hint after a fault of which no notes were asked for: the path of a file that cannot be read with the
/// system's reason, or that there are notes. Only a person at a terminal gets it, since the fault is one line for
/// programs.
pub fn write_hint(
    files: &Files<'_>,
    alloc: Global,
    invocation: &Invocation,
    paths: &Paths,
    fault: RelayFault,
) {
    let rt = files.runtime();
    if !rt.stderr().is_terminal() {
        return;
    }
    match fault {
        RelayFault::CannotRead { role } => {
            if let Some(path) = path_of(invocation, paths, role) {
                let _ = write(files.runtime(), unreadable(files, alloc, path));
            }
        }
        RelayFault::Input | RelayFault::Output | RelayFault::NoMemory => {}
        _ => {
            let _ = rt.stderr().write_all(HINT.as_bytes());
        }
    }
}

/// The path of the file with a role.
fn path_of<'i>(invocation: &'i Invocation, paths: &'i Paths, role: Role) -> Option<&'i String> {
    match (role, invocation) {
        (Role::Config, _) => Some(&paths.config),
        (Role::Rules, _) => paths.rules.as_ref(),
        (Role::Rewrite, _) => paths.rewrite.as_ref(),
        (Role::Names | Role::Script, _) => input_of(invocation, role),
    }
}

/// The path of the file of names, of the script or of the lines that a command reads, if it reads one.
fn input_of(invocation: &Invocation, role: Role) -> Option<&String> {
    match (role, invocation) {
        (Role::Names, Invocation::Route(command)) => command.asked.path(),
        (Role::Script, Invocation::Replay(command)) => Some(command.input.path()),
        _ => None,
    }
}

/// Notes of a file that cannot be read.
fn unreadable(files: &Files<'_>, alloc: Global, path: &String) -> Result<Notes, NoMemory> {
    let file = RereadFile::new(files, alloc, path)?;
    notes_of_unreadable(alloc, file.source())
}

/// Notes of a line of a script.
fn script_notes(
    files: &Files<'_>,
    alloc: Global,
    path: &String,
    line: usize,
) -> Result<Notes, NoMemory> {
    let file = RereadFile::new(files, alloc, path)?;
    notes_of_script(alloc, file.source(), line)
}

/// Notes of the ports that cannot be bound, and of too few descriptors: it binds the ports once more, in the same order.
fn port_notes(
    files: &Files<'_>,
    alloc: Global,
    paths: &Paths,
    options: RunOptions,
) -> Result<Notes, NoMemory> {
    let mut notes = SystemNotes::new(alloc);
    match add_port_notes(files, alloc, paths, options, &mut notes) {
        Ok(()) => notes.finish(),
        Err(fault) => {
            drop(notes);
            Err(fault)
        }
    }
}

fn add_port_notes(
    files: &Files<'_>,
    alloc: Global,
    paths: &Paths,
    options: RunOptions,
    notes: &mut SystemNotes,
) -> Result<(), NoMemory> {
    let rt = files.runtime();
    let config = RereadFile::new(files, alloc, &paths.config)?;
    let settings = settings_of(alloc, &config);
    drop(config);
    let Some(settings) = settings else {
        return Ok(());
    };
    let mut bound = Vec::new(alloc);
    let added = match bind_ports(rt, alloc, &settings, options, &mut bound, notes) {
        Ok(()) => count_descriptors(rt, alloc, &settings, options, notes),
        Err(fault) => Err(fault),
    };
    drop(bound);
    let is_unknown = notes.is_empty() && has_addresses(&settings);
    drop(settings);
    if is_unknown {
        notes.add_none_refused(file_limit(rt));
    }
    added
}

/// Whether the interface of each receiver that is on is an IP address; one that is not has a note of its own.
fn has_addresses(settings: &Settings) -> bool {
    let lines = (
        settings.line_receiver_interface(),
        settings.line_receiver_port(),
    );
    let pickles = (
        settings.pickle_receiver_interface(),
        settings.pickle_receiver_port(),
    );
    let datagrams = (
        settings.udp_receiver_interface(),
        if settings.enable_udp_listener() {
            settings.udp_receiver_port()
        } else {
            0
        },
    );
    for (interface, port) in [lines, pickles, datagrams] {
        if port > 0 && address_of(interface, port).is_none() {
            return false;
        }
    }
    true
}

/// How many files this process may open.
fn file_limit(rt: &HostRuntime) -> Option<u64> {
    let limits = fs::read(rt, "/proc/self/limits").ok()?;
    open_file_limit(utf8_text(limits.as_slice())?)
}

/// Adds a note if a relay that has its ports has too few descriptors.
fn count_descriptors(
    rt: &HostRuntime,
    alloc: Global,
    settings: &Settings,
    options: RunOptions,
    notes: &mut SystemNotes,
) -> Result<(), NoMemory> {
    let needed = descriptors_needed(settings, options);
    // The datagrams' port is closed again here, and the admin port has nothing to wait with.
    let open = usize::from(settings.enable_udp_listener() && settings.udp_receiver_port() > 0);
    let most = needed.saturating_add(open).saturating_add(1);
    let free = free_descriptors(rt, alloc, most)?;
    if free < most {
        notes.add_descriptors(needed, free.saturating_sub(open).saturating_sub(1));
    }
    Ok(())
}

/// Binds the ports of a relay, the listeners of streams into a list, so that one port is not bound twice.
fn bind_ports(
    rt: &HostRuntime,
    alloc: Global,
    settings: &Settings,
    options: RunOptions,
    bound: &mut Vec<TcpListener>,
    notes: &mut SystemNotes,
) -> Result<(), NoMemory> {
    let lines = address_of(
        settings.line_receiver_interface(),
        settings.line_receiver_port(),
    );
    let pickles = address_of(
        settings.pickle_receiver_interface(),
        settings.pickle_receiver_port(),
    );
    let admin = SocketAddr::from((Ipv4Addr::LOCALHOST, options.admin));
    let status = match options.status {
        Some(status) => Some(status.address),
        None => None,
    };
    let mut before = Vec::new(alloc);
    for address in [lines, pickles, Some(admin), status] {
        let Some(address) = address else {
            continue;
        };
        if is_taken(address, before.as_slice()) {
            notes.add_own_address(address);
        } else {
            bind_stream(rt, alloc, address, bound, notes)?;
        }
        add(&mut before, address)?;
    }
    let datagrams = address_of(
        settings.udp_receiver_interface(),
        settings.udp_receiver_port(),
    );
    match datagrams {
        Some(address) if settings.enable_udp_listener() => {
            bind_datagrams(rt, alloc, address, notes)
        }
        _ => Ok(()),
    }
}

/// Whether the relay itself listens at an address, by those that it binds before.
fn is_taken(address: SocketAddr, before: &[SocketAddr]) -> bool {
    for other in before {
        let is_met = other.ip() == address.ip() || other.ip().is_unspecified();
        if other.port() == address.port() && (is_met || address.ip().is_unspecified()) {
            return true;
        }
    }
    false
}

/// Binds an address for streams, or adds a note why the system does not bind it.
fn bind_stream(
    rt: &HostRuntime,
    alloc: Global,
    address: SocketAddr,
    bound: &mut Vec<TcpListener>,
    notes: &mut SystemNotes,
) -> Result<(), NoMemory> {
    match rt.bind(address) {
        Ok(listener) => add(bound, listener),
        Err(error) => add_reason(alloc, address, error, notes),
    }
}

/// The same for datagrams, after all others.
fn bind_datagrams(
    rt: &HostRuntime,
    alloc: Global,
    address: SocketAddr,
    notes: &mut SystemNotes,
) -> Result<(), NoMemory> {
    match rt.bind_udp(address) {
        Ok(_socket) => Ok(()),
        Err(error) => add_reason(alloc, address, error, notes),
    }
}

/// Adds a note why the system does not bind an address.
fn add_reason(
    alloc: Global,
    address: SocketAddr,
    error: io::Error,
    notes: &mut SystemNotes,
) -> Result<(), NoMemory> {
    let reason = error.to_string(alloc);
    drop(error);
    notes.add_address(address, reason?.as_str());
    Ok(())
}

/// The settings of a configuration file, if it is good.
pub fn settings_of(alloc: Global, config: &RereadFile<'_>) -> Option<Settings> {
    let ini = Ini::read(alloc, config.text()?).ok()?;
    Settings::read(alloc, &ini).ok()
}

/// The address of a port at an interface; none if the port is 0, or the interface is no IP address, which has a note
/// of its own.
fn address_of(interface: &str, port: u16) -> Option<SocketAddr> {
    if port == 0 {
        return None;
    }
    let address = IpAddr::parse_ascii(interface.as_bytes()).ok()?;
    Some(SocketAddr::new(address, port))
}
