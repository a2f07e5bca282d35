//! Notes of addresses: where the receivers listen, whether the relay sends to itself, and a host that is no address.

use conf_text::{Dest, Section, Setting, Settings};
use note_text::{EscapedText, Notes};
use std::net::IpAddr;

/// Hosts that are this machine.
const LOCAL_HOSTS: [&str; 3] = ["localhost", "127.0.0.1", "0.0.0.0"];

/// A receiver, with port 0 where it is off.
#[derive(Clone, Copy)]
struct Receiver<'a> {
    interface_key: Setting,
    port_key: Setting,
    interface: &'a str,
    port: u16,
}

impl<'a> Receiver<'a> {
    fn of_lines(settings: &'a Settings) -> Receiver<'a> {
        Receiver {
            interface_key: Setting::LineReceiverInterface,
            port_key: Setting::LineReceiverPort,
            interface: settings.line_receiver_interface(),
            port: settings.line_receiver_port(),
        }
    }

    fn of_pickles(settings: &'a Settings) -> Receiver<'a> {
        Receiver {
            interface_key: Setting::PickleReceiverInterface,
            port_key: Setting::PickleReceiverPort,
            interface: settings.pickle_receiver_interface(),
            port: settings.pickle_receiver_port(),
        }
    }

    fn of_datagrams(settings: &'a Settings) -> Receiver<'a> {
        Receiver {
            interface_key: Setting::UdpReceiverInterface,
            port_key: Setting::UdpReceiverPort,
            interface: settings.udp_receiver_interface(),
            port: datagram_port(settings),
        }
    }
}

/// Notes of an interface that is no address, of a port that is bound twice or never, of no receiver at all, and of a
/// destination that is the relay itself, or whose host is nearly an address.
pub(crate) fn add_receiver_notes(notes: &mut Notes, relay: &Section, settings: &Settings) {
    let lines = Receiver::of_lines(settings);
    let pickles = Receiver::of_pickles(settings);
    let datagrams = Receiver::of_datagrams(settings);
    for receiver in &[lines, pickles, datagrams] {
        add_interface_note(notes, *receiver);
    }
    add_same_port(notes, lines, pickles);
    if lines.port == 0 && pickles.port == 0 && datagrams.port == 0 {
        notes.add(
            "no receiver is on, so the relay receives nothing: write LINE_RECEIVER_PORT or PICKLE_RECEIVER_PORT above 0, or ENABLE_UDP_LISTENER = true",
        );
    }
    add_datagram_note(notes, relay);
    for dest in settings.destinations() {
        add_own_port(notes, lines, dest);
        add_own_port(notes, pickles, dest);
        add_host_note(notes, dest);
    }
}

/// The port at which datagrams are received, 0 for none.
fn datagram_port(settings: &Settings) -> u16 {
    if settings.enable_udp_listener() {
        settings.udp_receiver_port()
    } else {
        0
    }
}

/// A note of a port for lines and for pickles.
fn add_same_port(notes: &mut Notes, lines: Receiver<'_>, pickles: Receiver<'_>) {
    if lines.port > 0 && lines.port == pickles.port && meet(lines.interface, pickles.interface) {
        notes.add(format_args!(
            "LINE_RECEIVER_PORT and PICKLE_RECEIVER_PORT are both {}: run cannot listen twice on one port",
            lines.port
        ));
    }
}

/// A note of an interface that is not an IP address.
fn add_interface_note(notes: &mut Notes, receiver: Receiver<'_>) {
    if receiver.port > 0 && !is_address(receiver.interface) {
        notes.add(format_args!(
            "{}: `{}` is not an IP address, so run cannot listen there; write {}",
            receiver.interface_key.name(),
            EscapedText(receiver.interface),
            right_interface(receiver.interface)
        ));
    }
}

fn is_address(text: &str) -> bool {
    IpAddr::parse_ascii(text.as_bytes()).is_ok()
}

/// What to write for an interface that is no IP address.
fn right_interface(interface: &str) -> &'static str {
    if interface.starts_with('[') {
        "it without brackets"
    } else {
        "0.0.0.0 for all interfaces or 127.0.0.1 for this machine alone, and nothing after it"
    }
}

/// A note of a destination whose host is digits and points alone, and is no IP address.
fn add_host_note(notes: &mut Notes, dest: &Dest) {
    let host = dest.host.as_str();
    if is_numbers(host.as_bytes()) && !is_address(host) {
        notes.add(format_args!(
            "{dest}: `{host}` is not an IP address, so it is looked up as the name of a host"
        ));
    }
}

/// Whether bytes are digits and points alone.
fn is_numbers(bytes: &[u8]) -> bool {
    for byte in bytes {
        if *byte != b'.' && !byte.is_ascii_digit() {
            return false;
        }
    }
    true
}

/// A note of a destination at which this receiver of the relay itself listens.
fn add_own_port(notes: &mut Notes, receiver: Receiver<'_>, dest: &Dest) {
    if is_own(receiver, dest) {
        let key = receiver.port_key.name();
        notes.add(format_args!("{dest} is this relay's own {key}: it would send to itself"));
    }
}

/// A note of a port for datagrams, with no setting that says whether they are received.
fn add_datagram_note(notes: &mut Notes, relay: &Section) {
    let has_port = relay.contains_key(Setting::UdpReceiverPort.name());
    if has_port && !relay.contains_key(Setting::EnableUdpListener.name()) {
        notes.add("UDP_RECEIVER_PORT has no effect without ENABLE_UDP_LISTENER = true");
    }
}

/// Whether two interfaces have an address in common.
fn meet(one: &str, other: &str) -> bool {
    one == other || is_any(one) || is_any(other)
}

fn is_any(interface: &str) -> bool {
    matches!(interface, "0.0.0.0" | "::")
}

/// Whether a destination is a port at which this relay receives.
fn is_own(receiver: Receiver<'_>, dest: &Dest) -> bool {
    let host = dest.host.as_str();
    let is_local = LOCAL_HOSTS.contains(&host);
    let listens_there = is_any(receiver.interface) || receiver.interface == "127.0.0.1";
    let is_here = host == receiver.interface || (is_local && listens_there);
    receiver.port == dest.port && is_here
}
