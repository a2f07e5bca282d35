//! A listener of a port, which several receivers may share, and its connections.

ghost use Rattle.std.specs.Prelude.{◌≡◌, IfErr};

use live_watch::{PieceHead, PieceStart, Tap};
use log_lines::ReceiverName;
use mio_loops::{MOST_CONNECTIONS, ReadTotals, ReadinessFault, Token};
use reader_core::ReaderCounts;
use receivers::{Accept, AcceptOutcome, HeldStream, ServedInput, StreamListener};
use run_state::BeginNote;
use std::io;
use std::io::Read;
use std::sync::atomic::{AtomicU64, Ordering};

/// The longest time that a receiver leaves a connection to the others, in milliseconds, while it holds more than one of them.
const HOLD_MS: u64 = 2;

/// What a port knows of its receiver: its name, its share of the port, the note of its first wait, and the tap of a watch.
#[derive(Drop)]
pub(crate) struct PortNotes<'s> {
    pub(crate) name: ReceiverName,
    pub(crate) share: Share<'s>,
    pub(crate) begin: BeginNote<'s>,
    pub(crate) tap: &'s Tap<'s>,
}

/// A listener that several receivers may share. One that holds more connections than another takes the next one only after
/// [`HOLD_MS`] milliseconds, and one that is full takes none while another has room. So the connections are spread over all, and
/// are refused only when all are full. Its connections note what they read for a watch, if there is one.
#[derive(Drop)]
pub(crate) struct PortListener<'s> {
    listener: StreamListener,
    notes: PortNotes<'s>,
    // The milliseconds at which this turn began, and until which the connections that wait are left to other receivers, if
    // they are.
    now: u64,
    held_until: Option<u64>,
}

impl<'s> PortListener<'s> {
    /// The listener of a receiver of which this is known.
    pub(crate) fn new(listener: StreamListener, notes: PortNotes<'s>) -> PortListener<'s> {
        PortListener {
            listener,
            notes,
            now: 0,
            held_until: None,
        }
    }

    /// Whether the connections that wait are left to other receivers now. The time for which they are begins if it has not.
    fn leaves(&mut self) -> bool {
        if !self.notes.share.is_ahead() {
            return false;
        }
        match self.held_until {
            Some(until) => self.now < until,
            None => {
                self.held_until = Some(self.now.saturating_add(HOLD_MS));
                true
            }
        }
    }

    /// What is known of the pieces of a connection that is watched under a token.
    fn head_of(&self, token: Token) -> PieceHead {
        PieceHead {
            receiver: self.notes.name,
            producer: self.listener.peer(token),
            connection: token.0,
            start: PieceStart::Fresh,
        }
    }
}

impl<'s> Accept for PortListener<'s> {
    type Stream = PortStream<'s>;

    fn begin_turn(&mut self, millis: u64) {
        self.now = millis;
        self.notes.tap.hand_over();
        self.listener.begin_turn(millis);
    }

    fn wait(&mut self, millis: u64) -> Result<&[Token], ReadinessFault>
        ensures device { IfErr result (λ fault. fault ≡ ReadinessFault.Device) }
    {
        self.notes.begin.note_wait();
        let millis = if self.held_until.is_some() {
            millis.max(1)
        } else {
            millis
        };
        self.listener.wait(millis)
    }

    fn has_handed(&self) -> bool {
        self.listener.has_handed()
    }

    fn accept(&mut self, token: Option<Token>) -> AcceptOutcome<PortStream<'s>> {
        // What was handed over to this receiver is left to no other.
        if !self.listener.has_handed() {
            if token.is_none() && self.notes.share.has_room() {
                // The system has told the others of the connection too.
                self.listener.shut_at_last_call();
                return AcceptOutcome::Nothing;
            }
            if self.leaves() {
                return AcceptOutcome::Closed;
            }
            self.held_until = None;
        }
        match self.listener.accept(token) {
            AcceptOutcome::Stream(stream) => {
                let (share, tap) = (self.notes.share, self.notes.tap);
                share.note_held();
                let head = self.head_of(token.unwrap_or(Token(0)));
                AcceptOutcome::Stream(PortStream::new(stream, share, tap, head))
            }
            AcceptOutcome::Closed => AcceptOutcome::Closed,
            AcceptOutcome::Nothing => AcceptOutcome::Nothing,
            AcceptOutcome::Later => AcceptOutcome::Later,
            AcceptOutcome::Failed => AcceptOutcome::Failed,
        }
    }

    fn hand_over(&mut self, token: Token, stream: PortStream<'s>, rest: &[u8]) {
        self.listener.hand_over(token, stream.into_stream(), rest);
    }

    fn hand_over_others(&mut self) {
        self.listener.hand_over_others();
    }

    fn note_totals(&mut self, totals: ReadTotals, emptied: u64) {
        self.listener.note_totals(totals, emptied);
    }

    fn note_served(&mut self, token: Token, served: ServedInput) {
        self.listener.note_served(token, served);
    }

    fn note_bad(&mut self, token: Token, before: ReaderCounts, now: ReaderCounts, buffer: &[u8]) {
        self.listener.note_bad(token, before, now, buffer);
    }

    // `signals` notes the end of a receiver, where its thread ends.
    fn note_fault(&mut self, _fault: ReadinessFault) {}
}

/// The number of connections that each of the receivers holds that share a listener, and which of them this one is.
#[derive(Clone, Copy)]
pub struct Share<'s> {
    /// The numbers of all.
    pub held: &'s [AtomicU64],
    /// The place of this one.
    pub own: usize,
}

impl<'s> Share<'s> {
    /// A listener that is not shared.
    pub(crate) fn none() -> Share<'s> {
        Share { held: &[], own: 0 }
    }

    /// Whether this receiver holds more connections than another one.
    fn is_ahead(&self) -> bool {
        let Some(own) = self.held.get(self.own) else {
            return false;
        };
        let own = own.load(Ordering::SeqCst);
        self.held
            .iter()
            .any(|other| other.load(Ordering::SeqCst) < own)
    }

    /// Whether some receiver has room for a connection.
    fn has_room(&self) -> bool {
        self.held.iter().any(|held| held.load(Ordering::SeqCst) < MOST_CONNECTIONS as u64)
    }

    /// It holds one more.
    fn note_held(&self) {
        if let Some(own) = self.held.get(self.own) {
            let _before = own.fetch_add(1, Ordering::SeqCst);
        }
    }

    /// It holds one less.
    fn note_left(&self) {
        if let Some(own) = self.held.get(self.own) {
            let _before = own.fetch_sub(1, Ordering::SeqCst);
        }
    }
}

/// A connection at a port. Its receiver holds one less once it is dropped. Its pieces are noted for a watch, if there is one.
pub(crate) struct PortStream<'s> {
    stream: HeldStream,
    share: Share<'s>,
    tap: &'s Tap<'s>,
    head: PieceHead,
    // The number of the watch for which its last piece was noted; 0 if it was not.
    noted: u64,
}

impl<'s> PortStream<'s> {
    /// A connection that the receiver of this share has taken, with what is known of each of its pieces.
    fn new(
        stream: HeldStream,
        share: Share<'s>,
        tap: &'s Tap<'s>,
        head: PieceHead,
    ) -> PortStream<'s> {
        PortStream {
            stream,
            share,
            tap,
            head,
            noted: 0,
        }
    }

    /// The connection alone, which the receiver of the share holds no longer.
    fn into_stream(self) -> HeldStream {
        let PortStream {
            stream,
            share,
            tap: _,
            head: _,
            noted: _,
        } = self;
        share.note_left();
        stream
    }

    /// Notes a piece for the watch of a number, before which the connection lacked so many bytes.
    fn note(&mut self, watch: u64, lacks: usize, piece: &[u8]) {
        let start = if lacks == 0 {
            PieceStart::Fresh
        } else if self.noted == watch {
            PieceStart::Follows
        } else {
            PieceStart::Within { lacks }
        };
        let head = PieceHead { start, ..self.head };
        let is_noted = self.tap.note_piece(watch, head, piece);
        self.noted = if is_noted { watch } else { 0 };
    }
}

impl Read for PortStream<'_> {
    fn read(&mut self, buf: &mut [u8]) -> io::Result<usize> {
        let lacks = self.stream.lacks();
        let count = self.stream.read(buf)?;
        let watch = self.tap.watch();
        if watch != 0 && count > 0 {
            self.note(watch, lacks, &buf[..count]);
        }
        Ok(count)
    }
}

impl Drop for PortStream<'_> {
    fn drop(self) {
        let PortStream {
            stream: _stream,
            share,
            tap: _,
            head: _,
            noted: _,
        } = self;
        share.note_left();
    }
}
