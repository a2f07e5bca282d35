//! Which sockets are ready.
ghost use Rattle.std.specs.Prelude.{◌≡◌, ◌≤◌, [], length, map, IfErr, vec_capacity};
ghost use Rattle.mio.specs.Event.{event_token};
ghost use Rattle.mio.specs.Events.{items, capacity as events_capacity};

use crate::token::Token;
use mio::net::{TcpListener, TcpStream, UdpSocket};
use mio::{Events, Interest, Poll, Registry};
use std::alloc::Global;
use std::net::Net;
use std::time::Duration;
use thiserror::Error;

/// The greatest number of events that one wait may return.
pub const MOST_EVENTS: usize = 65_536;

/// Why readiness is not known.
#[derive(Clone, Copy, Debug, PartialEq, Error)]
pub enum ReadinessFault {
    /// The system refused.
    #[error("the system refused")]
    Device,
    /// Out of memory.
    #[error("out of memory")]
    NoMemory,
}

/// The sockets that are watched, and which of them were ready in the last wait.
///
/// A socket is reported when it becomes ready, and not again while it stays so: go on with it until a
/// call would have to wait. It may be reported too often: a call may still have to wait.
#[derive(Drop)]
pub struct Readiness {
    poll: Poll,
    events: Events,
    ready: Vec<Token>,
    closed: Vec<Token>,
    ghost room: { events_capacity events ≤ vec_capacity ready },
    ghost room_for_closed: { events_capacity events ≤ vec_capacity closed },
}

impl Readiness {
    /// Watches no socket yet. There is room for `capacity` events of one wait, 1 to [`MOST_EVENTS`]; the next wait
    /// reports the others. Refuses if out of memory (`NoMemory`), and if the system has no more descriptors
    /// (`Device`).
    pub fn new(net: &impl Net, alloc: Global, capacity: usize) -> Result<Readiness, ReadinessFault>
        requires capacity { (1 ≤ capacity) × (capacity ≤ MOST_EVENTS) }
    {
        let Ok(ready) = Vec::with_capacity(alloc, capacity) else {
            return Err(ReadinessFault::NoMemory);
        };
        let Ok(closed) = Vec::with_capacity(alloc, capacity) else {
            return Err(ReadinessFault::NoMemory);
        };
        let Ok(events) = Events::with_capacity(alloc, capacity) else {
            return Err(ReadinessFault::NoMemory);
        };
        let poll = Poll::new(net).map_err(|_| ReadinessFault::Device)?;
        Ok(Readiness {
            poll,
            events,
            ready,
            closed,
        })
    }

    /// Waits until a socket is ready or this number of milliseconds has passed. Returns the tokens of the ready
    /// sockets, none if the time has passed or a signal arrived. It takes no memory, and refuses (`Device`) only
    /// what the system refuses.
    pub fn wait(&mut self, millis: u64) -> Result<&[Token], ReadinessFault>
        ensures device { IfErr result (λ fault. fault ≡ ReadinessFault.Device) }
    {
        self.ready.clear();
        self.closed.clear();
        self.poll
            .poll(&mut self.events, Some(Duration::from_millis(millis)))
            .map_err(|_| ReadinessFault::Device)?;
        list_tokens(&self.events, &mut self.ready);
        list_closed(&self.events, &mut self.closed);
        Ok(self.ready.as_slice())
    }

    /// The sockets of the last wait whose peer has closed its end, or that failed.
    pub fn closed(&self) -> &[Token] {
        self.closed.as_slice()
    }

    /// What makes wakers of the waits, and watches other sockets.
    pub fn registry(&self) -> &Registry {
        self.poll.registry()
    }

    /// Watches a listener: it is ready when there is a connection to accept. Refuses (`Device`) one that is
    /// watched already, and what the system refuses.
    pub fn add_listener(
        &self,
        listener: &mut TcpListener,
        token: Token,
    ) -> Result<(), ReadinessFault>
        ensures device { IfErr result (λ fault. fault ≡ ReadinessFault.Device) }
    {
        self.poll
            .registry()
            .register(listener, mio::Token(token.0), Interest::READABLE)
            .map_err(|_| ReadinessFault::Device)
    }

    /// Watches a stream: it is ready when it may be read, and when it may be written. Refuses as
    /// [`Readiness::add_listener`] does.
    pub fn add_stream(&self, stream: &mut TcpStream, token: Token) -> Result<(), ReadinessFault>
        ensures device { IfErr result (λ fault. fault ≡ ReadinessFault.Device) }
    {
        self.poll
            .registry()
            .register(
                stream,
                mio::Token(token.0),
                Interest::READABLE | Interest::WRITABLE,
            )
            .map_err(|_| ReadinessFault::Device)
    }

    /// Watches a datagram socket: it is ready when it may be read. Refuses as [`Readiness::add_listener`]
    /// does.
    pub fn add_socket(&self, socket: &mut UdpSocket, token: Token) -> Result<(), ReadinessFault>
        ensures device { IfErr result (λ fault. fault ≡ ReadinessFault.Device) }
    {
        self.poll
            .registry()
            .register(socket, mio::Token(token.0), Interest::READABLE)
            .map_err(|_| ReadinessFault::Device)
    }
}

/// Puts the tokens of events into an empty list that has the room for them.
fn list_tokens(events: &Events, ready: &mut Vec<Token>)
    requires empty { ready.old.items ≡ [] }
    requires room { length (items events.now) ≤ vec_capacity ready.old }
    ensures tokens { map (λ token. token.0) ready.new.items
        ≡ map (λ event. (event_token event).0) (items events.now) }
    ensures capacity { vec_capacity ready.new ≡ vec_capacity ready.old }
{
    for event in events {
        ready.push_reserved(Token(event.token().0));
    }
}

/// Puts the tokens of the events that report a closed end or a failure into an empty list that has the
/// room for all.
fn list_closed(events: &Events, closed: &mut Vec<Token>)
    requires empty { closed.old.items ≡ [] }
    requires room { length (items events.now) ≤ vec_capacity closed.old }
    ensures capacity { vec_capacity closed.new ≡ vec_capacity closed.old }
{
    for event in events {
        if event.is_read_closed() || event.is_error() {
            closed.push_reserved(Token(event.token().0));
        }
    }
}
