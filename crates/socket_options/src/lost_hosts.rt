//! How soon a connection to a host that is gone is noticed: one that lost its power, or its network, says nothing.

use crate::option::set_option;
use libc::net::{IPPROTO_TCP, SO_KEEPALIVE, SOL_SOCKET, TCP_KEEPCNT, TCP_KEEPIDLE, TCP_KEEPINTVL};
use mio::net::{TcpListener, TcpStream};
use std::os::fd::AsRawFd;

/// The system's number of an option that the kit does not name: the longest time between two tries to send something again, in
/// milliseconds. Linux has it since 6.15.
const TCP_RTO_MAX_MS: i32 = 44;

/// So long a store's connection waits at most to send something again. After fifteen tries, some 22 seconds, Linux gives it up;
/// a store that comes back before that gets all within this time.
const BETWEEN_SENDS_MS: i32 = 1_500;

/// So long it waits at most where nobody asks for less.
const USUAL_BETWEEN_SENDS_MS: i32 = 120_000;

/// When a silent connection is probed.
#[derive(Clone, Copy)]
struct Probes {
    /// The seconds of silence before the first probe.
    idle: i32,
    /// The seconds between two, and how many of them may stay without an answer.
    between: i32,
    most: i32,
}

/// Of a store's connection: it is lost 19 seconds after its host's last word.
const OF_STORES: Probes = Probes {
    idle: 10,
    between: 3,
    most: 3,
};

/// Of a producer's connection: it is closed two minutes after its host's last word.
const OF_PRODUCERS: Probes = Probes {
    idle: 60,
    between: 10,
    most: 6,
};

/// Has the system notice that the host of a store is gone.
///
/// A store that lives and does not read loses nothing by it: its system answers.
pub fn notice_lost_store(stream: &TcpStream) {
    let descriptor = stream.as_raw_fd();
    probe(descriptor, OF_STORES);
    set_option(descriptor, IPPROTO_TCP, TCP_RTO_MAX_MS, BETWEEN_SENDS_MS);
}

/// Leaves the rest to the system, of a connection to a store that is about to be closed. With the wait of [`notice_lost_store`]
/// Linux would drop what it has for a store that reads nothing within a second and a half of the close; with the usual one it
/// has patience for minutes.
pub fn leave_rest_to_system(stream: &TcpStream) {
    set_option(
        stream.as_raw_fd(),
        IPPROTO_TCP,
        TCP_RTO_MAX_MS,
        USUAL_BETWEEN_SENDS_MS,
    );
}

/// Has the system notice that the host of a producer is gone: of each connection that the listener takes, since these have the
/// options of the listener.
pub fn notice_lost_producers(listener: &TcpListener) {
    probe(listener.as_raw_fd(), OF_PRODUCERS);
}

/// Has the system probe connections that are silent.
fn probe(descriptor: i32, probes: Probes) {
    set_option(descriptor, SOL_SOCKET, SO_KEEPALIVE, 1);
    set_option(descriptor, IPPROTO_TCP, TCP_KEEPIDLE, probes.idle);
    set_option(descriptor, IPPROTO_TCP, TCP_KEEPINTVL, probes.between);
    set_option(descriptor, IPPROTO_TCP, TCP_KEEPCNT, probes.most);
}
