//! The listener of the status server, and its connections.

use crate::page::StatusTexts;
use crate::service::StatusService;
use crate::status_connection::{Progress, StatusConnection};
use mio::net::{TcpListener, TcpStream};
use mio_loops::{Readiness, ReadinessFault, Token};
use relay_base::{NoMemory, add, put};
use std::alloc::Global;
use std::fmt::Write as _;
use std::hash::RandomState;
use std::io::ErrorKind;
use std::net::{IpAddr, Net};
use std::rt::Clock;
use std::sync::Wait;
use std::time::Duration;

/// How many connections are served side by side. Others wait to be taken.
const MOST_CONNECTIONS: usize = 64;

/// How many milliseconds a turn waits at most while there are connections, or some could not be taken.
const PAUSE_MS: u64 = 100;

/// The listener of the status server, with its connections.
#[derive(Drop)]
pub struct StatusListener {
    alloc: Global,
    readiness: Readiness,
    listener: TcpListener,
    // The interface, if it is a loopback interface, which it answers for alone; otherwise empty.
    interface: String,
    slots: Vec<Option<StatusConnection>>,
}

impl StatusListener {
    /// Watches a port that was bound at an interface. Refuses (`Device`) what the system refuses, and `NoMemory` if out of
    /// memory.
    pub fn new(
        rt: &impl Net,
        alloc: Global,
        listener: TcpListener,
        interface: IpAddr,
    ) -> Result<StatusListener, ReadinessFault> {
        let mut listener = listener;
        let readiness = Readiness::new(rt, alloc, MOST_CONNECTIONS + 1)?;
        readiness.add_listener(&mut listener, Token(MOST_CONNECTIONS))?;
        let mut made = StatusListener {
            alloc,
            readiness,
            listener,
            interface: String::new(alloc),
            slots: Vec::new(alloc),
        };
        match made.prepare(interface) {
            Ok(()) => Ok(made),
            Err(_) => {
                drop(made);
                Err(ReadinessFault::NoMemory)
            }
        }
    }

    /// Adds a place for each connection, and remembers a loopback interface.
    fn prepare(&mut self, interface: IpAddr) -> Result<(), NoMemory> {
        for _ in 0..MOST_CONNECTIONS {
            add(&mut self.slots, None)?;
        }
        if interface.is_loopback() {
            write!(self.interface, "{interface}")?;
        }
        Ok(())
    }

    /// One turn, at these milliseconds: takes connections, goes on with each, and waits for at most `pause` milliseconds.
    pub fn take_turn<R: Wait + Clock, T: StatusTexts>(
        &mut self,
        rt: &R,
        keys: RandomState,
        texts: &T,
        millis: u64,
        pause: u64,
    ) {
        let is_more = self.take_connections(keys, millis);
        let is_open = self.go_on(texts, millis);
        let pause = if is_more || is_open {
            pause.min(PAUSE_MS)
        } else {
            pause
        };
        if self.readiness.wait(pause).is_err() {
            rt.sleep(Duration::from_millis(PAUSE_MS));
        }
    }

    /// Goes on with each connection, and closes those that are over. Returns whether one is left.
    fn go_on<T: StatusTexts>(&mut self, texts: &T, millis: u64) -> bool {
        let mut service = StatusService {
            alloc: self.alloc,
            texts,
            interface: self.interface.as_str(),
        };
        let mut is_open = false;
        for slot in self.slots.as_mut_slice().iter_mut() {
            let progress = match slot {
                Some(connection) => connection.go_on(&mut service, millis),
                None => continue,
            };
            match progress {
                Progress::Waits => is_open = true,
                Progress::Over => put(slot, None),
            }
        }
        is_open
    }

    /// Takes the connections that wait, as many as there is room for. Returns whether others may wait.
    fn take_connections(&mut self, keys: RandomState, millis: u64) -> bool {
        for _ in 0..MOST_CONNECTIONS {
            let Some(place) = self.place_for_one(millis) else {
                return true;
            };
            match self.listener.accept() {
                Ok((stream, _)) => self.keep(keys, stream, place, millis),
                Err(error) => return error.kind() != ErrorKind::WouldBlock,
            }
        }
        true
    }

    /// The place of the next connection: one that is free, or that of a connection that may have to make room.
    fn place_for_one(&self, millis: u64) -> Option<usize> {
        let slots = self.slots.as_slice();
        slots.iter().position(|slot| slot.is_none()).or_else(|| slots
            .iter()
            .position(|slot| may_give_way(slot, millis)))
    }

    /// Watches a connection under the number of its place, and keeps it there, in place of the one that it had.
    fn keep(&mut self, keys: RandomState, stream: TcpStream, place: usize, millis: u64) {
        let mut stream = stream;
        if self
            .readiness
            .add_stream(&mut stream, Token(place))
            .is_err()
        {
            return;
        }
        if let Some(slot) = self.slots.get_mut(place) {
            put(
                slot,
                Some(StatusConnection::new(self.alloc, keys, stream, millis)),
            );
        }
    }
}

/// Whether there is a connection that may have to make room, at these milliseconds.
fn may_give_way(slot: &Option<StatusConnection>, millis: u64) -> bool {
    match slot {
        Some(connection) => connection.may_give_way(millis),
        None => false,
    }
}
