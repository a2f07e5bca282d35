//! A connection over loopback, through a readiness and a read loop.

use crate::tests::servings::Serving;
use mio::net::{TcpListener, TcpStream};
use mio_loops::{Readiness, Token};
use std::io::Write;
use std::net;
use std::net::{Ipv4Addr, SocketAddr};

/// Both ends of a connection.
#[derive(Drop)]
struct Ends {
    client: net::TcpStream,
    stream: TcpStream,
}

impl Ends {
    fn new(rt: &HostRuntime) -> Option<Ends> {
        let any_port = SocketAddr::from((Ipv4Addr::LOCALHOST, 0));
        let listener = TcpListener::bind(rt, any_port).ok()?;
        let client = net::TcpStream::connect(rt, listener.local_addr().ok()?).ok()?;
        let (stream, _) = listener.accept().ok()?;
        Some(Ends { client, stream })
    }
}

/// A readiness and a read loop that hold a connection under its first token.
#[derive(Drop)]
struct Reading {
    readiness: Readiness,
    serving: Serving<TcpStream>,
}

const TOKEN: Token = Token(0);

/// A readiness that has a connection under that token.
fn readiness_of(rt: &HostRuntime, stream: &mut TcpStream) -> Option<Readiness> {
    let readiness = Readiness::new(rt, rt.alloc(), 4).ok()?;
    let is_added = readiness.add_stream(stream, TOKEN).is_ok();
    is_added.then_some(readiness)
}

impl Reading {
    fn new(rt: &HostRuntime, mut stream: TcpStream) -> Option<Reading> {
        let readiness = readiness_of(rt, &mut stream)?;
        let Some(serving) = Serving::new(rt.alloc(), stream, 0) else {
            drop(readiness);
            return None;
        };
        Some(Reading { readiness, serving })
    }

    /// Whether the first turn reads nothing, and leaves nothing for the next.
    fn is_drained(&mut self) -> bool {
        self.serving.turn() == Some(1) && !self.serving.has_again()
    }

    /// Waits for readiness, takes a turn, and returns whether both could be done.
    fn goes_on(&mut self, millis: u64) -> bool {
        match self.readiness.wait(millis) {
            Ok(ready) => self.serving.turn_for(ready).is_some(),
            Err(_) => false,
        }
    }

    /// Whether the line is offered once it is there, and the connection is held then.
    fn offers_line(&mut self) -> bool {
        self.goes_on(10_000) && self.serving.has_offered("a") && self.serving.is_held()
    }

    /// Goes on until the connection has left, but not for ever, and returns whether it has.
    fn is_left(&mut self) -> bool {
        for _ in 0..100 {
            if !self.serving.is_held() {
                return true;
            }
            if !self.goes_on(100) {
                return false;
            }
        }
        false
    }
}

// A connection with nothing to read is passed over until a line arrives, and leaves once its peer has closed it.
fn is_read(reading: &mut Reading, client: net::TcpStream) -> bool {
    let mut client = client;
    let is_sent = reading.is_drained() && client.write_all(b"a 1 2\n").is_ok();
    let is_offered = is_sent && reading.offers_line();
    drop(client);
    is_offered && reading.is_left() && reading.serving.has_offered("a")
}

fn is_read_over_loopback(rt: &HostRuntime) -> Option<bool> {
    let Ends { client, stream } = Ends::new(rt)?;
    let mut reading = Reading::new(rt, stream)?;
    let is_read = is_read(&mut reading, client);
    drop(reading);
    Some(is_read)
}

#[test]
fn a_line_over_loopback(rt: HostRuntime) {
    assert!(rt; is_read_over_loopback(&rt) == Some(true));
}
