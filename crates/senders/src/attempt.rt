//! A try to connect.

use crate::wire::loss_of;
use log_lines::Why;
use mio::net::TcpStream;
use mio_loops::{Readiness, Token};
use relay_base::DestId;
use socket_options::notice_lost_store;
use std::io::Write;
use std::net::{Net, SocketAddr};

/// How long a try may take, in milliseconds.
const LONGEST_TRY_MS: u64 = 10_000;

/// The milliseconds after which a stream is looked at without a report of readiness.
const LOOK_AFTER_MS: u64 = 100;

/// A connection that was begun, and is not made yet.
#[derive(Drop)]
pub(crate) struct Attempt {
    stream: TcpStream,
    address: SocketAddr,
    // The milliseconds at which it is given up, and at which it is looked at without a report of readiness.
    end_millis: u64,
    next_look_millis: u64,
    // What waits reported of it since the last look.
    is_ready: bool,
    is_closed: bool,
}

/// The state of a try.
#[derive(Drop)]
pub(crate) enum Progress {
    /// The connection is made.
    Connected(TcpStream),
    /// It may still be made.
    UnderWay(Attempt),
    /// It will not be made.
    Failed(Why),
}

impl Attempt {
    /// Begins to connect to an address, watched under the destination's number. Refuses what the system refuses.
    pub(crate) fn begin<N: Net>(
        net: &N,
        readiness: &Readiness,
        dest: DestId,
        address: SocketAddr,
        millis: u64,
    ) -> Result<Attempt, Why> {
        let mut stream = TcpStream::connect(net, address).map_err(|error| Why::of_error(&error))?;
        stream
            .set_nodelay(true)
            .map_err(|error| Why::of_error(&error))?;
        notice_lost_store(&stream);
        readiness
            .add_stream(&mut stream, Token(dest.0))
            .map_err(|_| Why::NoReadiness)?;
        Ok(Attempt {
            stream,
            address,
            end_millis: millis.saturating_add(LONGEST_TRY_MS),
            next_look_millis: millis.saturating_add(LOOK_AFTER_MS),
            is_ready: false,
            is_closed: false,
        })
    }

    /// The address that is tried.
    pub(crate) fn address(&self) -> SocketAddr {
        self.address
    }

    /// A wait reported that the stream is ready.
    pub(crate) fn note_ready(&mut self) {
        self.is_ready = true;
    }

    /// A wait reported that the stream is closed.
    pub(crate) fn note_closed(&mut self) {
        self.is_closed = true;
    }

    /// Goes on. It asks the system only after a report of a wait, or if there was none for a while.
    pub(crate) fn go_on(self, millis: u64) -> Progress {
        if self.is_closed {
            return Progress::Failed(loss_of(&self.stream));
        }
        // One that was made counts, however late it is seen.
        let is_over = millis >= self.end_millis;
        if !self.is_ready && !is_over && millis < self.next_look_millis {
            return Progress::UnderWay(self);
        }
        match is_connected(&self.stream) {
            Ok(true) => Progress::Connected(self.stream),
            Ok(false) if is_over => Progress::Failed(Why::NoAnswer),
            Ok(false) => Progress::UnderWay(Attempt {
                next_look_millis: millis.saturating_add(LOOK_AFTER_MS),
                is_ready: false,
                ..self
            }),
            Err(why) => Progress::Failed(why),
        }
    }
}

/// Whether a stream is connected. Refuses one that failed, and one that is its own peer: the system may give a try to
/// a port of this machine at which nobody listens the same port as its own, and connects the two.
fn is_connected(stream: &TcpStream) -> Result<bool, Why> {
    match stream.take_error() {
        Ok(None) => {}
        Ok(Some(error)) => return Err(Why::of_error(&error)),
        Err(error) => return Err(Why::of_error(&error)),
    }
    match (stream.peer_addr(), stream.local_addr()) {
        (Ok(peer), Ok(local)) if peer == local => {
            reset_by_itself(stream);
            Err(Why::Itself)
        }
        (Ok(_), _) => Ok(true),
        (Err(_), _) => Ok(false),
    }
}

/// Sends a stream that is its own peer a byte, which stays unread. So its close is a reset, and the port is free at once
/// for a store that begins to listen there.
fn reset_by_itself(stream: &TcpStream) {
    let mut peer = stream;
    let _ = peer.write(b"\n");
}
