//! The room that the system has for datagrams that wait at a socket.

use libc::net::{SO_RCVBUF, SOL_SOCKET, getsockopt, setsockopt};
use mio::net::UdpSocket;
use std::net::{Ipv4Addr, Net, SocketAddr};
use std::os::fd::AsRawFd;

/// How many bytes a socket is asked to have room for. The system takes twice as many, and of these some 830 for a small
/// datagram; but not more than `net.core.rmem_max` lets it.
const WANTED: i32 = 4_194_304;

/// How many bytes the value of an option has.
const VALUE: u32 = 4;

/// Asks the system for more room for the datagrams that wait at a socket, where another socket gets more by asking. It gets
/// less where `net.core.rmem_default` is far above `net.core.rmem_max`. A socket that cannot be asked has the room that it has.
pub(crate) fn ask_for_room(net: &impl Net, socket: &UdpSocket) {
    let Ok(trial) = UdpSocket::bind(net, SocketAddr::from((Ipv4Addr::LOCALHOST, 0))) else {
        return;
    };
    let before = room_of(&trial);
    ask(&trial);
    if room_of(&trial) > before {
        ask(socket);
    }
}

/// Asks for the room that is wanted.
fn ask(socket: &UdpSocket) {
    let mut value = [0u8; 16];
    value[..4].copy_from_slice(&WANTED.to_ne_bytes());
    let _ = unsafe { setsockopt(socket.as_raw_fd(), SOL_SOCKET, SO_RCVBUF, &value, VALUE) };
}

/// The room of a socket, in bytes as the system counts them; 0 if it does not say.
fn room_of(socket: &UdpSocket) -> i32 {
    let mut value = [0u8; 16];
    let mut length = VALUE;
    let _ = unsafe {
        getsockopt(
            socket.as_raw_fd(),
            SOL_SOCKET,
            SO_RCVBUF,
            &mut value,
            &mut length,
        )
    };
    i32::from_ne_bytes([value[0], value[1], value[2], value[3]])
}
