//! The connections that a receiver hands over once it was stopped, and who takes them.

ghost use Rattle.std.specs.Prelude.{◌≡◌, ◌≢◌, ℕ, ◌<◌};
ghost use Rattle.slab.specs.Slab.{get};
ghost use Rattle.receivers.specs.Handing.{IsHanded, IsHandedEach};

use crate::accept::Accept;
use crate::connection_room::Place;
use mio::net::TcpStream;
use mio_loops::{InputLog, LeavingLoop, MOST_CONNECTIONS, ReadLoop, Token};
use relay_base::NoMemory;
use std::alloc::Global;
use std::io::Read;
use std::mem;
use std::net::IpAddr;
use std::sync::atomic::{AtomicBool, Ordering};
use std::sync::{Arc, Mutex};

/// Ends a loop of connections, and returns what its readers were fed. If the receiver was stopped, the listener gets each
/// connection that is held, with the bytes that were not read as whole lines or frames; otherwise they are closed.
pub(crate) fn end_loop<A: Accept>(
    is_stopped: bool,
    listener: &mut A,
    reads: ReadLoop<A::Stream>,
) -> InputLog
    ensures { result ≡ reads.log }
{
    let mut leaving = LeavingLoop::new(reads);
    if is_stopped {
        hand_over_each(&mut leaving, &mut ToListener { listener });
        listener.hand_over_others();
    }
    leaving.close()
}

/// Gives the taker each connection that is held, behind the rest of its reader's bytes.
fn hand_over_each<S: Read + Drop, T: ConnectionTaker<S>>(
    leaving: &mut LeavingLoop<S>,
    taker: &mut T,
)
    ensures given { IsHandedEach T.takes leaving.old MOST_CONNECTIONS taker.old taker.new }
    ensures log { leaving.new.log ≡ leaving.old.log }
{
    for token in 0..MOST_CONNECTIONS {
        hand_over_one(leaving, Token(token), taker);
    }
}

/// Gives the taker the connection of a token, if it is held.
fn hand_over_one<S: Read + Drop, T: ConnectionTaker<S>>(
    leaving: &mut LeavingLoop<S>,
    token: Token,
    taker: &mut T,
)
    requires within { token.0 < MOST_CONNECTIONS }
    ensures given { IsHanded T.takes leaving.old token.0 taker.old taker.new }
    ensures others { (other : ℕ) → other ≢ token.0
        → get leaving.new.sources other ≡ get leaving.old.sources other }
    ensures rest { (leaving.new.readers ≡ leaving.old.readers) × (leaving.new.log ≡ leaving.old.log) }
{
    if let Some(stream) = leaving.take_out(token) {
        taker.take_connection(token, stream, leaving.rest(token));
    }
}

/// Who takes the connections that a receiver gives up.
pub(crate) trait ConnectionTaker<S> {
    ghost use Rattle.std.specs.Prelude.{ℕ, List};

    // How a connection that is given up behind these bytes changes who takes it. Where an impl does not say, any change will do.
    ghost takes: { Self → ℕ → S → List ℕ → Self → Type 0 } = { λ _ _ _ _ _. Unit {0} };

    /// Takes the connection of a token, which is given up behind these bytes ([`Accept::hand_over`]).
    fn take_connection(&mut self, token: Token, stream: S, rest: &[u8])
        ensures { takes self.old token.0 stream rest.now self.new };
}

/// A listener that takes them.
#[derive(Drop)]
pub(crate) struct ToListener<'l, A> {
    pub(crate) listener: &'l mut A,
}

impl<A: Accept> ConnectionTaker<A::Stream> for ToListener<'_, A> {
    fn take_connection(&mut self, token: Token, stream: A::Stream, rest: &[u8])
        ensures { Unit {0} }
    {
        self.listener.hand_over(token, stream, rest);
    }
}

/// A connection that a receiver hands over: its socket, the address of its producer, the bytes that whoever reads on is fed
/// first, its place, if places are limited, the milliseconds at which its last datapoint was accepted, or it was taken, and those at which
/// it was taken.
#[derive(Drop)]
pub struct HandedStream {
    pub(crate) stream: TcpStream,
    pub(crate) peer: IpAddr,
    pub(crate) first: Vec<u8>,
    pub(crate) place: Option<Place>,
    pub(crate) last_datapoint: u64,
    pub(crate) since: u64,
}

/// Where a receiver puts the connections that it hands over, for the thread that stopped it. A receiver whose run is not the
/// last one hands them over; otherwise it closes them.
#[derive(Drop)]
pub struct HandedStreams {
    is_open: AtomicBool,
    streams: Mutex<Vec<HandedStream>>,
}

impl HandedStreams {
    /// None yet; or out of memory.
    pub fn new(alloc: Global) -> Result<Arc<HandedStreams>, NoMemory> {
        let streams = Mutex::new(Vec::new(alloc));
        let is_open = AtomicBool::new(false);
        Ok(Arc::new(alloc, HandedStreams { is_open, streams })?)
    }

    /// From now on connections are handed over. Call it before the receiver is stopped.
    pub fn open(&self) {
        self.is_open.store(true, Ordering::SeqCst);
    }

    /// Whether connections are handed over.
    pub(crate) fn is_open(&self) -> bool {
        self.is_open.load(Ordering::SeqCst)
    }

    /// Adds a connection. Without memory for it it is closed.
    pub(crate) fn put(&self, stream: HandedStream) {
        // Nobody else looks before the receiver has ended.
        if let Some(mut streams) = self.streams.try_lock() {
            let _kept = streams.push(stream);
        }
    }

    /// Takes all connections, in the order of their tokens, for the receiver of the next run, which hands none over before
    /// [`HandedStreams::open`]. The receiver before has ended.
    pub(crate) fn take(&self, alloc: Global) -> Vec<HandedStream> {
        self.is_open.store(false, Ordering::SeqCst);
        match self.streams.try_lock() {
            Some(mut streams) => mem::replace(&mut *streams, Vec::new(alloc)),
            None => Vec::new(alloc),
        }
    }
}
