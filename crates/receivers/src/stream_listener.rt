//! A listener of the network.

ghost use Rattle.std.specs.Prelude.{◌≡◌, [], ◌∷◌, ◌++◌, IfErr};
ghost use Rattle.receivers.specs.Accepted.{IfTaken};
ghost use Rattle.receivers.specs.declared.handing.HandedStream.{HandedStream};

use crate::accept::{Accept, AcceptOutcome};
use crate::bad_input::{LastInput, wrong_with};
use crate::connection_room::{ConnectionRoom, Place, place_in};
use crate::connections::Connections;
use crate::handing::{HandedStream, HandedStreams};
use crate::held_stream::HeldStream;
use crate::input_counts::ServedInput;
use crate::optional_notes::OptionalNotes;
use crate::producer_tallies::ProducerTallies;
use crate::receiver_control::{ReceiverControl, shared_control};
use crate::refusal::{no_descriptor, refused};
use crate::stream_port::StreamPort;
use handover::FirstBytes;
use log_lines::{BadExample, ReceiverNotes};
use mio::net::{TcpListener, TcpStream};
use mio_loops::{LISTENER, MOST_CONNECTIONS, ReadTotals, Readiness, ReadinessFault, Token};
use reader_core::{ReaderCounts, ReaderKind};
use relay_base::NoMemory;
use std::alloc::Global;
use std::io::Error;
use std::net::{IpAddr, Net};
use std::sync::Arc;

/// The greatest number of tokens that a wait returns: of what is ready, with the listener and the waker, of all connections,
/// and of the listener once more.
const MOST_TOKENS: usize = 2 * MOST_CONNECTIONS + 3;

/// What a wait returns while connections are left that were handed over.
static ONLY_LISTENER: [Token; 1] = [LISTENER];

/// How far a listener has closed.
#[derive(Clone, Copy, PartialEq)]
enum ClosingStep {
    /// It is not asked to.
    Open,
    /// It half-closes the connections that it holds.
    Closing,
    /// It takes the last connections, and shuts its port.
    LastCall,
    /// It half-closes those that it took while it closed.
    Shut,
}

/// A listener with the readiness of it and of the connections that it gave.
#[derive(Drop)]
pub struct StreamListener {
    alloc: Global,
    kind: ReaderKind,
    readiness: Readiness,
    // `None` once the port is shut.
    listener: Option<TcpListener>,
    room: Option<Arc<ConnectionRoom>>,
    notes: OptionalNotes,
    connections: Arc<Connections>,
    step: ClosingStep,
    // What the connection of each token has sent, or the last that it had, and from which address.
    producers: ProducerTallies,
    // The tokens of the last wait, if it returned others than those of what is ready.
    tokens: Vec<Token>,
    // Where its connections go once it is stopped; without it they are closed.
    handed: Option<Arc<HandedStreams>>,
    // The connections of an ended run that it takes first, the last one first.
    resumed: Vec<HandedStream>,
    // A connection to which another one gives way: it is taken once there is room.
    waiting: Option<HandedStream>,
}

/// What watches a listener and its connections.
#[derive(Drop)]
struct Watch {
    readiness: Readiness,
    connections: Arc<Connections>,
    producers: ProducerTallies,
    tokens: Vec<Token>,
}

impl Watch {
    /// Watches a listener.
    fn new(
        net: &impl Net,
        alloc: Global,
        listener: &mut TcpListener,
    ) -> Result<Watch, ReadinessFault> {
        let Ok(tokens) = Vec::with_capacity(alloc, MOST_TOKENS) else {
            return Err(ReadinessFault::NoMemory);
        };
        let Ok(producers) = ProducerTallies::new(alloc) else {
            return Err(ReadinessFault::NoMemory);
        };
        let readiness = readiness_of(net, alloc, listener)?;
        match connections_of(alloc, &readiness) {
            Ok(connections) => Ok(Watch {
                readiness,
                connections,
                producers,
                tokens,
            }),
            Err(fault) => {
                drop((readiness, tokens, producers));
                Err(fault)
            }
        }
    }
}

/// The readiness of a listener, and of as many connections as a loop holds.
fn readiness_of(
    net: &impl Net,
    alloc: Global,
    listener: &mut TcpListener,
) -> Result<Readiness, ReadinessFault> {
    let readiness = Readiness::new(net, alloc, MOST_CONNECTIONS + 2)?;
    match readiness.add_listener(listener, LISTENER) {
        Ok(()) => Ok(readiness),
        Err(fault) => {
            drop(readiness);
            Err(fault)
        }
    }
}

/// What the listener with this readiness and its connections share.
fn connections_of(
    alloc: Global,
    readiness: &Readiness,
) -> Result<Arc<Connections>, ReadinessFault> {
    let control = shared_control(alloc, readiness)?;
    match Connections::new(alloc, control) {
        Ok(connections) => Ok(connections),
        Err(NoMemory) => Err(ReadinessFault::NoMemory),
    }
}

impl StreamListener {
    /// Watches the listener of a port, of whose connections readers of this kind read, and has the room to report as many
    /// connections at once as a loop holds. Refuses what the system refuses (`Device`), and answers `NoMemory` when out of
    /// memory.
    pub fn new(
        net: &impl Net,
        alloc: Global,
        port: StreamPort,
        kind: ReaderKind,
    ) -> Result<StreamListener, ReadinessFault> {
        let (mut listener, room) = port.into_parts();
        match Watch::new(net, alloc, &mut listener) {
            Ok(watch) => Ok(StreamListener {
                alloc,
                kind,
                readiness: watch.readiness,
                listener: Some(listener),
                room,
                notes: OptionalNotes::none(),
                connections: watch.connections,
                step: ClosingStep::Open,
                producers: watch.producers,
                tokens: watch.tokens,
                handed: None,
                resumed: Vec::new(alloc),
                waiting: None,
            }),
            Err(fault) => {
                drop((listener, room));
                Err(fault)
            }
        }
    }

    /// From now on these events note that connections cannot be taken, or can again, that the listener failed, and what
    /// the receiver has counted.
    pub fn set_notes(&mut self, notes: Arc<ReceiverNotes>) {
        self.notes = OptionalNotes::here(notes);
    }

    /// From now on a connection that sent no datapoint for this number of seconds is closed, within a second after that: a read
    /// of it fails. With 0, as before this call, none is.
    pub fn set_idle(&mut self, seconds: u64) {
        self.connections.idle.set_limit(seconds);
    }

    /// What the thread that stops the receiver closes and wakes it with. Refuses if out of memory.
    pub fn control(&self) -> Result<Arc<ReceiverControl>, NoMemory> {
        Ok(Arc::try_clone(&self.connections.control)?)
    }

    /// Once the receiver is stopped, its connections go there, if they are handed over.
    pub fn set_handed(&mut self, handed: Arc<HandedStreams>) {
        self.handed = Some(handed);
    }

    /// Takes first the connections that are there where its own go, which the receiver of an ended run handed over, as if they were
    /// new; but the bytes that were not read come first.
    pub fn resume_handed(&mut self) {
        if let Some(handed) = &self.handed {
            let mut resumed = handed.take(self.alloc);
            resumed.reverse();
            self.resumed = resumed;
        }
    }

    /// The address of the connection of a token, or of the last that it had.
    pub fn peer(&self, token: Token) -> IpAddr {
        self.producers.peer(token)
    }

    /// Takes the next connection that was handed over, if there is one, and watches it under the token. Without a token it is
    /// closed.
    fn resume(&mut self, token: Option<Token>) -> AcceptOutcome<HeldStream>
        // It is the last of the list, and the bytes that come first are those with which it was handed over.
        ensures { IfTaken result (λ held. (handed : HandedStream)
            × (self.old.resumed.items ≡ self.new.resumed.items ++ handed ∷ [])
            × (held.stream.bytes ≡ handed.first.items)) }
    {
        let Some(handed) = self.resumed.pop() else {
            return AcceptOutcome::Nothing;
        };
        let HandedStream {
            stream,
            peer,
            first,
            place,
            last_datapoint,
            since,
        } = handed;
        self.note_peer(token, peer, since);
        let watched = self.watch(stream, first, token, place);
        if let Some(token) = token {
            self.connections.idle.note_taken_at(token, last_datapoint);
        }
        watched
    }

    /// Takes a new connection, and watches it under the token. Without a token it waits if another one gives way to it, and
    /// otherwise it is closed.
    fn admit(&mut self, token: Option<Token>, stream: HandedStream) -> AcceptOutcome<HeldStream> {
        if token.is_some() {
            self.notes.note_taken();
        } else if self.connections.idle.give_way() {
            self.waiting = Some(stream);
            return AcceptOutcome::Later;
        } else {
            self.notes.note_refused();
        }
        let HandedStream {
            stream,
            peer,
            first,
            place,
            last_datapoint: _,
            since,
        } = stream;
        self.note_peer(token, peer, since);
        self.watch(stream, first, token, place)
    }

    /// Watches a connection under a token. One that has none, or that the system does not watch, is dropped.
    fn watch(
        &self,
        stream: TcpStream,
        first: Vec<u8>,
        token: Option<Token>,
        place: Option<Place>,
    ) -> AcceptOutcome<HeldStream>
        ensures { IfTaken result (λ held. held.stream.bytes ≡ first.items) }
    {
        let Some(token) = token else {
            return AcceptOutcome::Closed;
        };
        let Ok(connections) = Arc::try_clone(&self.connections) else {
            return AcceptOutcome::Closed;
        };
        let mut stream = stream;
        match self.readiness.add_stream(&mut stream, token) {
            Ok(()) => {
                let held = HeldStream::new(
                    self.alloc,
                    FirstBytes::new(self.alloc, first, stream),
                    token,
                    self.kind,
                    connections,
                    place,
                );
                AcceptOutcome::Stream(held)
            }
            Err(_) => AcceptOutcome::Closed,
        }
    }

    /// Remembers the address of the connection that a token gets, which was taken at these milliseconds.
    fn note_peer(&mut self, token: Option<Token>, address: IpAddr, since: u64)
        ensures { self.new.resumed.items ≡ self.old.resumed.items }
    {
        if let Some(token) = token {
            self.producers.begin(token, address, since);
        }
    }

    /// Notes that no connection was taken, and returns what the error means for those that wait. If these were the last to
    /// be taken, the port is shut.
    fn note_refusal(&mut self, error: &Error) -> AcceptOutcome<HeldStream> {
        let accepted = refused(error);
        self.notes.note_refusal(&accepted, error);
        match accepted {
            AcceptOutcome::Closed => {}
            AcceptOutcome::Failed => self.connections.note_failed(),
            _ => self.shut_at_last_call(),
        }
        accepted
    }

    /// Shuts the port, if the last connections were called for: the receiver takes none of those that wait still.
    pub fn shut_at_last_call(&mut self) {
        if self.connections.control.is_last_call() {
            drop(self.listener.take());
            self.connections.control.note_shut();
        }
    }

    /// Takes the next step of closing, if the receiver was asked for it. Returns whether it did.
    fn take_step(&mut self) -> bool {
        let control = &self.connections.control;
        let step = if control.are_shut() {
            ClosingStep::Shut
        } else if control.is_last_call() {
            ClosingStep::LastCall
        } else if control.is_closing() {
            ClosingStep::Closing
        } else {
            ClosingStep::Open
        };
        let is_taken = step != self.step;
        self.step = step;
        is_taken
    }
}

impl Accept for StreamListener {
    type Stream = HeldStream;

    fn begin_turn(&mut self, millis: u64) {
        self.connections.idle.begin_turn(millis);
    }

    fn wait(&mut self, millis: u64) -> Result<&[Token], ReadinessFault> {
        if self.has_handed() {
            // What was taken is served meanwhile, since each is in the again list at first.
            return Ok(&ONLY_LISTENER);
        }
        let is_stepping = self.take_step();
        let is_urgent = is_stepping || self.connections.idle.has_over();
        let control = &self.connections.control;
        if !is_urgent && !self.connections.idle.is_look_due() {
            return wait_noted(&mut self.readiness, &mut self.notes, control, millis);
        }
        // A step does not wait: it returns the tokens of all connections, each of which half-closes itself when it is read,
        // and that of the listener. Nor does a connection that is to be closed, since another may wait for its place.
        let millis = if is_urgent { 0 } else { millis };
        let ready = wait_noted(&mut self.readiness, &mut self.notes, control, millis)?;
        list(ready, &mut self.tokens);
        if is_stepping {
            add_all(&mut self.tokens);
        } else {
            self.connections.idle.add_idle(&mut self.tokens);
        }
        Ok(self.tokens.as_slice())
    }

    fn has_handed(&self) -> bool {
        !self.resumed.is_empty()
    }

    fn accept(&mut self, token: Option<Token>) -> AcceptOutcome<HeldStream> {
        if self.has_handed() {
            return self.resume(token);
        }
        if let Some(stream) = self.waiting.take() {
            return self.admit(token, stream);
        }
        let Ok(place) = place_in(&self.room) else {
            return self.note_refusal(&no_descriptor());
        };
        let Some(listener) = &self.listener else {
            return AcceptOutcome::Nothing;
        };
        match listener.accept() {
            Ok((stream, peer)) => {
                self.notes.note_open();
                let now = self.connections.idle.now();
                let stream = HandedStream {
                    stream,
                    peer: peer.ip(),
                    first: Vec::new(self.alloc),
                    place,
                    last_datapoint: now,
                    since: now,
                };
                self.admit(token, stream)
            }
            Err(error) => self.note_refusal(&error),
        }
    }

    fn hand_over(&mut self, token: Token, stream: HeldStream, rest: &[u8]) {
        let Some(handed) = &self.handed else {
            drop(stream);
            return;
        };
        if !handed.is_open() {
            drop(stream);
            return;
        }
        let (peer, since) = (self.producers.peer(token), self.producers.since(token));
        if let Some(stream) = stream.hand_over(rest, peer, since) {
            handed.put(stream);
        }
    }

    fn hand_over_others(&mut self) {
        for _ in 0..self.resumed.len() {
            if let (Some(stream), Some(handed)) = (self.resumed.pop(), &self.handed) {
                handed.put(stream);
            }
        }
        if let (Some(stream), Some(handed)) = (self.waiting.take(), &self.handed) {
            handed.put(stream);
        }
    }

    fn note_totals(&mut self, totals: ReadTotals, emptied: u64) {
        self.connections.want_example(self.notes.wants_example());
        // Those that were handed over and not taken yet are open too.
        let mut totals = totals;
        totals.connections = totals.connections.saturating_add(self.resumed.len() as u64);
        self.notes
            .note_totals(totals, emptied, self.connections.losses.counts());
        if let Some(place) = self.notes.producers() {
            self.producers.report(place, &self.connections.idle);
        }
    }

    fn note_served(&mut self, token: Token, served: ServedInput) {
        self.connections
            .idle
            .note_served(token, served.has_datapoints());
        let bytes = self.connections.take_bytes();
        self.producers.add(token, bytes, served);
    }

    fn note_bad(&mut self, token: Token, before: ReaderCounts, now: ReaderCounts, buffer: &[u8]) {
        if !self.notes.wants_example() {
            return;
        }
        let Some(last) = self.connections.last_piece() else {
            return;
        };
        let piece = &buffer[..last.length.min(buffer.len())];
        let input = LastInput::of_piece(self.kind, piece, last.before);
        if let Some(input) = wrong_with(self.alloc, before, now, input) {
            let from = self.producers.peer(token);
            self.notes.note_example(&BadExample { input, from });
        }
    }

    fn note_fault(&mut self, fault: ReadinessFault) {
        self.notes.note_fault(fault);
    }
}

/// Makes these tokens the list, as many as memory has room for.
fn list(ready: &[Token], tokens: &mut Vec<Token>) {
    tokens.clear();
    for token in ready {
        let _kept = tokens.push(*token);
    }
}

/// Adds the tokens of all connections and of the listener, as many as memory has room for.
fn add_all(tokens: &mut Vec<Token>) {
    for token in 0..MOST_CONNECTIONS {
        let _kept = tokens.push(Token(token));
    }
    let _kept = tokens.push(LISTENER);
}

/// Waits, and notes a failure, and for the thread that stops the receiver that it waits.
fn wait_noted<'a>(
    readiness: &'a mut Readiness,
    notes: &mut OptionalNotes,
    control: &ReceiverControl,
    millis: u64,
) -> Result<&'a [Token], ReadinessFault>
    ensures device { IfErr result (λ fault. fault ≡ ReadinessFault.Device) }
{
    control.note_waiting(millis > 0);
    let waited = readiness.wait(millis);
    control.note_waiting(false);
    match waited {
        Ok(ready) => Ok(ready),
        Err(fault) => {
            control.note_ended();
            notes.note_fault(fault);
            Err(fault)
        }
    }
}
