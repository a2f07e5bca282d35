//! The way to a destination's connection.

use crate::address_choice::AddressChoice;
use crate::attempt::{Attempt, Progress};
use crate::connection::Connection;
use crate::lookup::{Lookup, LookupAnswer};
use crate::wire::Wire;
use conf_text::Dest;
use log_lines::{DestNotes, Why};
use mio::net::TcpStream;
use mio_loops::Readiness;
use relay_base::{DestId, NoMemory};
use std::alloc::Global;
use std::mem;
use std::net::{IpAddr, Net, SocketAddr};
use std::sync::Arc;

/// The least time between the beginnings of two tries, in milliseconds.
const BETWEEN_TRIES_MS: u64 = 1_000;

/// How many milliseconds a look-up may take before that is noted.
const LONG_LOOKUP_MS: u64 = 1_000;

/// How many milliseconds a store may take to close its end behind the last line of a connection.
const LONGEST_END_MS: u64 = 1_000;

/// The state of a destination.
#[derive(Drop)]
enum Stage {
    /// No try is under way.
    Idle,
    /// The host's address is being looked up.
    LookingUp,
    /// A connection was begun.
    Connecting(Attempt),
    /// There is a connection, or it was lost since the last call.
    Connected,
    /// The last connection has had its last line. It is closed once the store has closed its end, and at these
    /// milliseconds at the latest.
    Ending { end_millis: u64 },
}

/// One try to connect: which destination, at which milliseconds, and where its events are noted, if they are.
#[derive(Clone, Copy)]
pub(crate) struct LinkTry<'n> {
    pub(crate) dest: DestId,
    pub(crate) millis: u64,
    pub(crate) notes: Option<&'n DestNotes>,
}

/// The way to a destination's connection: the host's addresses, as far as they are known, the state of the try, and
/// the connection.
///
/// A host that is written as an address is never looked up. For another, each try begins a look-up,
/// unless one is under way; the try goes to one of the addresses that were found last, and waits for them only if
/// none is known.
#[derive(Drop)]
pub(crate) struct Link {
    port: u16,
    is_address: bool,
    addresses: AddressChoice,
    // No try begins at fewer milliseconds.
    next_try_millis: u64,
    // When the last look-up was begun, in milliseconds.
    asked_millis: u64,
    stage: Stage,
    connection: Connection,
}

impl Link {
    /// No try was made. Refuses if out of memory.
    pub(crate) fn new(alloc: Global, dest: &Dest) -> Result<Link, NoMemory> {
        let address = dest.host.as_str().parse::<IpAddr>().ok();
        Ok(Link {
            port: dest.port,
            is_address: address.is_some(),
            addresses: AddressChoice::new(address),
            next_try_millis: 0,
            asked_millis: 0,
            stage: Stage::Idle,
            connection: Connection::new(alloc)?,
        })
    }

    /// A wait reported that the destination's socket is ready.
    pub(crate) fn note_ready(&mut self) {
        match &mut self.stage {
            Stage::Connecting(attempt) => attempt.note_ready(),
            Stage::Connected | Stage::Ending { .. } => self.connection.note_ready(),
            Stage::Idle | Stage::LookingUp => {}
        }
    }

    /// A wait reported that the destination's socket is closed.
    pub(crate) fn note_closed(&mut self) {
        match &mut self.stage {
            Stage::Connecting(attempt) => attempt.note_closed(),
            Stage::Connected | Stage::Ending { .. } => self.connection.note_end(),
            Stage::Idle | Stage::LookingUp => {}
        }
    }

    /// Reads what the store has sent, and drops it, if there may be something.
    pub(crate) fn read_away(&mut self) {
        self.connection.read_away();
    }

    /// Nothing more is written to the connection, if there is one.
    pub(crate) fn end_writes(&self) {
        self.connection.end_writes();
    }

    /// The connection takes no more, if there is one: the store sees the end once it has read what was written.
    pub(crate) fn end_connection(&self) {
        if let Stage::Connected = self.stage {
            self.connection.half_close();
        }
    }

    /// Whether the store has ended the last connection, or lost it, or there is none.
    pub(crate) fn has_ended(&self) -> bool {
        match self.stage {
            Stage::Connected | Stage::Ending { .. } => self.connection.has_ended(),
            _ => true,
        }
    }

    /// Whether the store has sent something by a connection, and may still send.
    pub(crate) fn may_send(&self) -> bool {
        self.connection.may_send()
    }

    /// Whether the connection has had its last line.
    pub(crate) fn is_over(&self) -> bool {
        self.connection.is_over()
    }

    /// Begins a try if one is due, or goes on with the one that is under way. Returns the connection once
    /// it is made. If events are noted, it notes a try that fails and a look-up that takes long. Call it while the
    /// destination has no connection: the last one is closed.
    pub(crate) fn connect<N: Net, L: Lookup>(
        &mut self,
        net: &N,
        readiness: &Readiness,
        lookup: &mut L,
        tried: LinkTry<'_>,
    ) -> Option<Arc<Wire>> {
        self.end_last(tried.millis);
        let stage = match mem::replace(&mut self.stage, Stage::Idle) {
            Stage::Idle if tried.millis < self.next_try_millis => return None,
            Stage::Idle => {
                self.look_up(lookup, tried);
                self.begin(net, readiness, tried)
            }
            Stage::LookingUp => match self.answer(lookup, tried) {
                LookupAnswer::UnderWay => Stage::LookingUp,
                LookupAnswer::Found(found) => {
                    self.addresses.note_found(found);
                    self.begin(net, readiness, tried)
                }
                LookupAnswer::None | LookupAnswer::NotFound => {
                    self.fail(tried.notes, Why::NotFound, None)
                }
            },
            Stage::Connecting(attempt) => {
                let address = attempt.address();
                match attempt.go_on(tried.millis) {
                    Progress::Connected(socket) => {
                        self.enter(Stage::Connected);
                        self.addresses.note_connected();
                        return self.connection.open(socket, false);
                    }
                    Progress::UnderWay(attempt) => Stage::Connecting(attempt),
                    Progress::Failed(why) => self.fail(tried.notes, why, Some(address)),
                }
            }
            stage => stage,
        };
        self.enter(stage);
        None
    }

    /// The socket of the connection, if there is one that may take more, and its stream was given up.
    pub(crate) fn take_socket(&mut self) -> Option<TcpStream> {
        match self.stage {
            Stage::Connected => self.connection.take_socket(),
            _ => None,
        }
    }

    /// Whether the connection is half-closed.
    pub(crate) fn is_half_closed(&self) -> bool {
        self.connection.is_half_closed()
    }

    /// From now on this is the connection, which another sender made, and maybe half-closed. Returns what its stream writes to.
    pub(crate) fn keep(&mut self, socket: TcpStream, is_half_closed: bool) -> Option<Arc<Wire>> {
        self.enter(Stage::Connected);
        self.addresses.note_connected();
        self.connection.open(socket, is_half_closed)
    }

    /// Closes the last connection, which is lost, if it is not closed yet. One that has had its last line is closed
    /// only once the store has closed its end, or has had its time for that. Behind one that is done the next try begins at
    /// once.
    fn end_last(&mut self, millis: u64) {
        if let Stage::Connected = self.stage {
            if self.connection.is_done() {
                self.next_try_millis = millis;
            }
        }
        let end_millis = match self.stage {
            Stage::Connected if self.connection.is_over() => millis.saturating_add(LONGEST_END_MS),
            Stage::Connected => millis,
            Stage::Ending { end_millis } => end_millis,
            _ => return,
        };
        if millis >= end_millis || self.connection.has_ended() {
            self.connection.close();
            self.enter(Stage::Idle);
        } else {
            self.enter(Stage::Ending { end_millis });
        }
    }

    /// The next stage, in place of the last.
    fn enter(&mut self, stage: Stage) {
        self.stage = stage;
    }

    /// Keeps the last answer, and begins a look-up unless one is under way or the host is an address.
    fn look_up<L: Lookup>(&mut self, lookup: &mut L, tried: LinkTry<'_>) {
        if self.is_address {
            return;
        }
        match self.answer(lookup, tried) {
            LookupAnswer::UnderWay => return,
            LookupAnswer::Found(found) => self.addresses.note_found(found),
            LookupAnswer::None | LookupAnswer::NotFound => {}
        }
        self.asked_millis = tried.millis;
        lookup.begin(tried.dest.0);
    }

    /// The state of the last look-up. If events are noted, it notes whether one has been under way for more than a second.
    fn answer<L: Lookup>(&self, lookup: &mut L, tried: LinkTry<'_>) -> LookupAnswer {
        let answer = lookup.answer(tried.dest.0);
        if let Some(notes) = tried.notes {
            let is_under_way = matches!(answer, LookupAnswer::UnderWay);
            notes.note_lookup(
                is_under_way && tried.millis.saturating_sub(self.asked_millis) > LONG_LOOKUP_MS,
            );
        }
        answer
    }

    /// Begins to connect to the address whose turn it is, if any is known; otherwise waits for one.
    fn begin<N: Net>(&mut self, net: &N, readiness: &Readiness, tried: LinkTry<'_>) -> Stage {
        self.next_try_millis = tried.millis.saturating_add(BETWEEN_TRIES_MS);
        let Some(address) = self.addresses.next() else {
            return Stage::LookingUp;
        };
        let address = SocketAddr::new(address, self.port);
        match Attempt::begin(net, readiness, tried.dest, address, tried.millis) {
            Ok(attempt) => Stage::Connecting(attempt),
            Err(why) => self.fail(tried.notes, why, Some(address)),
        }
    }

    /// A try has failed, at this address if one was tried, which is noted, if events are. None is under way then.
    fn fail(&self, notes: Option<&DestNotes>, why: Why, address: Option<SocketAddr>) -> Stage {
        if let Some(notes) = notes {
            // A connection that is done is lost if no other follows it.
            notes.note_lost(why);
            notes.note_failure(why, address);
            if self.addresses.are_all_tried() {
                notes.note_all_tried();
            }
        }
        Stage::Idle
    }
}
