//! Stores on this machine.

use mio::net::{TcpListener, TcpStream};
use std::alloc::Global;
use std::io::Read;
use std::net::{Ipv4Addr, Net, SocketAddr};
use std::rt::Clock;
use std::thread;
use std::time::Duration;

/// How often a test looks before it gives up, and how many milliseconds lie between two looks: ten seconds together at
/// least.
const MOST_LOOKS: u64 = 1_000;

const PAUSE_MS: u64 = 10;

/// An address of this machine with a port of the system's choice.
pub(crate) fn any_port() -> SocketAddr {
    SocketAddr::from((Ipv4Addr::LOCALHOST, 0))
}

/// A store that takes one connection, and keeps what it reads.
#[derive(Drop)]
pub(crate) struct Store {
    listener: TcpListener,
    stream: Option<TcpStream>,
    taken: Vec<u8>,
}

impl Store {
    /// A store at a port of the system's choice.
    pub(crate) fn new<R: Net>(rt: &R, alloc: Global) -> Option<Store> {
        Some(Store {
            listener: TcpListener::bind(rt, any_port()).ok()?,
            stream: None,
            taken: Vec::new(alloc),
        })
    }

    /// Its port.
    pub(crate) fn port(&self) -> Option<u16> {
        Some(self.listener.local_addr().ok()?.port())
    }

    /// What it has got.
    pub(crate) fn taken(&self) -> &[u8] {
        self.taken.as_slice()
    }

    /// Waits, not for ever, until it has this many bytes.
    pub(crate) fn wait_for<R: Clock>(&mut self, rt: &R, count: usize) {
        for _ in 0..MOST_LOOKS {
            self.look();
            if self.taken.len() >= count {
                return;
            }
            let _ = thread::sleep(rt, Duration::from_millis(PAUSE_MS));
        }
    }

    /// Takes the connection, if there is one, and reads what is there, at most 256 bytes.
    fn look(&mut self) {
        if self.stream.is_none() {
            if let Ok((stream, _)) = self.listener.accept() {
                self.stream = Some(stream);
            }
        }
        let Some(stream) = &mut self.stream else {
            return;
        };
        let mut buffer = [0u8; 256];
        if let Ok(count) = stream.read(&mut buffer) {
            let _ = self.taken.extend_from_slice(&buffer[..count]);
        }
    }
}
