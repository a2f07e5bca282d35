//! Connects to the stores that destinations name, by the system's sockets.

use crate::alarm::Alarm;
use crate::connect::{Connect, HandOver, KeptSocket, Stores};
use crate::host_lookup::{HostLookup, HostThreads};
use crate::link::{Link, LinkTry};
use crate::lookup::Lookup;
use crate::resolve::Resolve;
use crate::sender_share::SenderShare;
use crate::store_stream::StoreStream;
use crate::wire::Wire;
use log_lines::{DestNotes, Why};
use mio::net::TcpStream;
use mio_loops::{LeftWriter, Readiness, ReadinessFault, Token};
use relay_base::{DestId, NoMemory};
use std::alloc::Global;
use std::net::Net;
use std::sync::{Arc, Wait};
use std::thread::Threads;

/// Connects to the destinations of one sender's share. The others are never connected.
///
/// The first try of a destination begins at once, and each later one a second after the one before it began,
/// or later. Of the addresses of a host each try takes the next one. A connection that is not made after ten seconds is
/// given up, and so is one to itself. A store that refuses, hangs or is never found holds up no other destination. What
/// stores send is read and dropped.
#[derive(Drop)]
pub struct StoreConnector<'g, R, L = HostLookup<R>> {
    rt: R,
    readiness: Readiness,
    alarm: &'g Alarm,
    lookup: L,
    // By destination: how it is connected, if it is one of this sender's.
    links: Vec<Option<Link>>,
    // Has room for each destination.
    ready: Vec<DestId>,
    // Where events are noted, by destination; empty if they are not.
    notes: &'g [DestNotes],
}

impl<'g, R: Threads + Wait + Net + Resolve + Copy + Send + Drop + 'static> StoreConnector<'g, R> {
    /// The connector of a sender to its share of destinations, by this readiness, whose waits the
    /// alarm ends. Hosts are looked up by these threads. Refuses if out of memory (`NoMemory`).
    pub fn new(
        rt: R,
        alloc: Global,
        threads: &HostThreads,
        readiness: Readiness,
        alarm: &'g Alarm,
        share: SenderShare<'_>,
    ) -> Result<StoreConnector<'g, R>, ReadinessFault> {
        let Ok(lookup) = HostLookup::new(rt, alloc, threads, share) else {
            drop(readiness);
            return Err(ReadinessFault::NoMemory);
        };
        StoreConnector::with_lookup(rt, alloc, readiness, alarm, share, lookup)
    }
}

impl<'g, R: Net + Drop, L: Lookup + Drop> StoreConnector<'g, R, L> {
    /// As [`StoreConnector::new`], but `lookup` looks hosts up.
    pub fn with_lookup(
        rt: R,
        alloc: Global,
        readiness: Readiness,
        alarm: &'g Alarm,
        share: SenderShare<'_>,
        lookup: L,
    ) -> Result<StoreConnector<'g, R, L>, ReadinessFault> {
        let Ok((links, ready)) = tables_of(alloc, share) else {
            drop(lookup);
            drop(readiness);
            return Err(ReadinessFault::NoMemory);
        };
        Ok(StoreConnector {
            rt,
            readiness,
            alarm,
            lookup,
            links,
            ready,
            notes: &[],
        })
    }

    /// From now on the events of the sender's destinations are noted in these, by destination; those of a
    /// destination that has none are not noted.
    pub fn set_notes(&mut self, notes: &'g [DestNotes]) {
        self.notes = notes;
    }
}

impl<'g, R: Net + Drop, L: Lookup + Drop> StoreConnector<'g, R, L> {
    /// The socket of a destination's connection, whose stream was given up after this many bytes of a begun line. `None` if
    /// there is none, or if it takes no more.
    fn take_socket(&mut self, dest: DestId, begun: usize) -> Option<KeptSocket> {
        let Some(Some(link)) = self.links.get_mut(dest.0) else {
            return None;
        };
        let is_half_closed = link.is_half_closed();
        let socket = link.take_socket()?;
        Some(KeptSocket {
            socket,
            begun,
            is_half_closed,
        })
    }

    /// Takes over the connection of a destination from another sender: it goes on here. `None` if the system does not watch it,
    /// or the destination is not of this sender; the connection is lost then. It counts as made at these milliseconds if
    /// nothing was noted of the destination before.
    pub fn keep(&mut self, dest: DestId, kept: KeptSocket, millis: u64) -> Option<StoreStream<'g>> {
        if let Some(notes) = self.notes.get(dest.0) {
            notes.note_kept(millis);
        }
        let KeptSocket {
            socket,
            begun,
            is_half_closed,
        } = kept;
        match self.watch(dest, socket, is_half_closed) {
            Some(wire) => Some(StoreStream::resumed(wire, begun, self.notes.get(dest.0))),
            None => {
                self.note_lost(dest, Why::NoReadiness);
                None
            }
        }
    }

    /// From now on this socket, which is watched, and may be half-closed, is the connection of a destination. Returns what its
    /// stream writes to.
    fn watch(
        &mut self,
        dest: DestId,
        socket: TcpStream,
        is_half_closed: bool,
    ) -> Option<Arc<Wire>> {
        let Some(Some(link)) = self.links.get_mut(dest.0) else {
            drop(socket);
            return None;
        };
        let mut socket = socket;
        if self
            .readiness
            .add_stream(&mut socket, Token(dest.0))
            .is_err()
        {
            drop(socket);
            return None;
        }
        link.keep(socket, is_half_closed)
    }

    /// The connection of a destination is lost, which is noted.
    fn note_lost(&self, dest: DestId, why: Why) {
        if let Some(notes) = self.notes.get(dest.0) {
            notes.note_lost(why);
        }
    }
}

/// The links of a sender's destinations, by destination, and an empty list with room for each destination.
fn tables_of(
    alloc: Global,
    share: SenderShare<'_>,
) -> Result<(Vec<Option<Link>>, Vec<DestId>), NoMemory> {
    let ready = Vec::with_capacity(alloc, share.dests.len())?;
    let links = links_of(alloc, share)?;
    Ok((links, ready))
}

/// The links of a sender's destinations, by destination.
fn links_of(alloc: Global, share: SenderShare<'_>) -> Result<Vec<Option<Link>>, NoMemory> {
    let mut links = Vec::with_capacity(alloc, share.dests.len())?;
    for (place, dest) in share.dests.iter().enumerate() {
        let link = if share.has(place) {
            Some(Link::new(alloc, dest)?)
        } else {
            None
        };
        links.push(link)?;
    }
    Ok(links)
}

/// Puts the destinations of these tokens into a list, and passes the news to their links. A token that is no destination's
/// is left out.
fn note_ready(tokens: &[Token], links: &mut [Option<Link>], ready: &mut Vec<DestId>) {
    for token in tokens {
        if token.0 < links.len() {
            if let Some(link) = &mut links[token.0] {
                link.note_ready();
            }
            list_once(DestId(token.0), ready);
        }
    }
}

/// Puts a destination into a list that has room for each destination once, if it is not there.
fn list_once(dest: DestId, ready: &mut Vec<DestId>) {
    if !ready.contains(&dest) && ready.len() < ready.capacity() {
        ready.push_reserved(dest);
    }
}

/// Reads what the stores of links have sent, and drops it.
fn read_away(links: &mut [Option<Link>]) {
    for link in links {
        if let Some(link) = link {
            link.read_away();
        }
    }
}

/// Reports to the links of these tokens that their streams are closed.
fn note_closed(tokens: &[Token], links: &mut [Option<Link>]) {
    for token in tokens {
        if token.0 < links.len() {
            if let Some(link) = &mut links[token.0] {
                link.note_closed();
            }
        }
    }
}

/// Notes that the sender has failed: the destinations that have links are no longer connected.
fn note_failed(links: &[Option<Link>], notes: &[DestNotes]) {
    for (link, notes) in links.iter().zip(notes) {
        if link.is_some() {
            notes.note_lost(Why::NoReadiness);
            notes.note_failure(Why::NoReadiness, None);
            notes.note_all_tried();
        }
    }
}

impl<'g, R: Net + Drop, L: Lookup + Drop> Connect for StoreConnector<'g, R, L> {
    type Sink = StoreStream<'g>;

    type Stores = StoreConnector<'g, R, L>;

    fn stores(&mut self) -> &mut StoreConnector<'g, R, L> {
        self
    }

    fn wait(&mut self, millis: u64) -> Result<&[DestId], ReadinessFault> {
        self.ready.clear();
        self.alarm.begin_wait();
        let waited = self.readiness.wait(millis);
        self.alarm.clear();
        let Ok(tokens) = waited else {
            note_failed(&self.links, self.notes);
            return Err(ReadinessFault::Device);
        };
        note_ready(tokens, &mut self.links, &mut self.ready);
        note_closed(self.readiness.closed(), &mut self.links);
        read_away(&mut self.links);
        Ok(self.ready.as_slice())
    }

    fn connect(&mut self, dest: DestId, millis: u64) -> Option<StoreStream<'g>> {
        if dest.0 >= self.links.len() {
            return None;
        }
        let Some(link) = &mut self.links[dest.0] else {
            return None;
        };
        let notes = self.notes.get(dest.0);
        if let Some(notes) = notes {
            notes.note_down(millis);
        }
        let tried = LinkTry {
            dest,
            millis,
            notes,
        };
        let wire = link.connect(&self.rt, &self.readiness, &mut self.lookup, tried)?;
        Some(StoreStream::new(wire, millis, notes))
    }

    fn has_closed(&self, dest: DestId) -> bool {
        let closed = self.readiness.closed();
        closed.iter().any(|token| token.0 == dest.0) || is_over(&self.links, dest)
    }

    fn take_back(&mut self, dest: DestId, sink: StoreStream<'g>) -> Option<KeptSocket> {
        let kept = self.take_socket(dest, sink.give_up());
        if kept.is_none() {
            self.note_lost(dest, Why::Closed);
        }
        kept
    }

    fn end(&mut self) {}
}

impl<'g, R: Net + Drop, L: Lookup + Drop> HandOver for StoreConnector<'g, R, L> {
    fn hands_over(&self) -> bool {
        false
    }

    fn hand_over(&mut self, _dest: DestId, _left: LeftWriter<StoreStream<'g>>) {}
}

impl<'g, R: Net + Drop, L: Lookup + Drop> Stores for StoreConnector<'g, R, L> {
    fn about_to_wait(&mut self) {
        self.alarm.set();
    }

    fn end_connection(&mut self, dest: DestId) {
        if let Some(Some(link)) = self.links.get_mut(dest.0) {
            link.end_connection();
        }
    }

    fn has_ended(&self, dest: DestId) -> bool {
        match self.links.get(dest.0) {
            Some(Some(link)) => link.has_ended(),
            _ => true,
        }
    }

    fn end_writes(&mut self) {
        read_away(&mut self.links);
        for link in &self.links {
            if let Some(link) = link {
                link.end_writes();
            }
        }
    }

    fn is_quiet(&self) -> bool {
        for link in &self.links {
            if let Some(link) = link {
                if link.may_send() {
                    return false;
                }
            }
        }
        true
    }
}

/// Whether the connection of a destination has had its last line.
fn is_over(links: &[Option<Link>], dest: DestId) -> bool {
    match links.get(dest.0) {
        Some(Some(link)) => link.is_over(),
        _ => false,
    }
}
