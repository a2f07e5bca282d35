//! Where connections come from.
ghost use Rattle.std.specs.Prelude.{◌≡◌, IfErr};

use crate::input_counts::ServedInput;
use mio_loops::{ReadTotals, ReadinessFault, Token};
use reader_core::ReaderCounts;
use std::io::Read;

/// The outcome of a try to take a connection.
#[derive(Drop)]
pub enum AcceptOutcome<S> {
    /// A connection, which is watched under the token.
    Stream(S),
    /// A connection was closed, or the try failed. Others may wait to be taken.
    Closed,
    /// No connection waits to be taken.
    Nothing,
    /// The system has no more descriptors or memory now. The connection still waits to be taken.
    Later,
    /// The listener failed.
    Failed,
}

/// The source of a receiver's connections: waits for what is ready, and takes connections.
pub trait Accept {
    /// A connection.
    type Stream: Read + Drop;

    /// A turn begins, at these milliseconds of a clock that never falls.
    fn begin_turn(&mut self, millis: u64);

    /// Waits until something is ready or this number of milliseconds has passed, and returns the tokens of what is ready:
    /// `mio_loops::LISTENER` if connections wait to be taken, and otherwise those under which connections are
    /// watched. What is ready is reported once, and not again while it stays so; a token may be reported without cause.
    /// Refuses (`Device`) only what the system refuses.
    fn wait(&mut self, millis: u64) -> Result<&[Token], ReadinessFault>
        ensures device { IfErr result (λ fault. fault ≡ ReadinessFault.Device) };

    /// Whether the next connection is one that an ended run has handed over. These come first, and a wait reports at once that
    /// they wait to be taken.
    fn has_handed(&self) -> bool;

    /// Takes the next connection, and watches it under the token. Without a token it is closed, unless a connection gives way
    /// to it.
    fn accept(&mut self, token: Option<Token>) -> AcceptOutcome<Self::Stream>;

    /// Takes over the connection of a token, which the receiver gives up behind these bytes: those of its unfinished line or
    /// frame. Whoever reads on is fed these first. Called for each held connection once the receiver was stopped. A listener
    /// that hands nothing on drops it.
    fn hand_over(&mut self, token: Token, stream: Self::Stream, rest: &[u8]);

    /// Hands on, behind these, the connections that were handed over and that the receiver did not take.
    fn hand_over_others(&mut self);

    /// Takes note of what the receiver has counted since it began, and how many names its plan has emptied. Called ten times a
    /// second, or once a turn where turns are longer, and when the receiver ends.
    fn note_totals(&mut self, totals: ReadTotals, emptied: u64);

    /// Takes note that the connection of a token was served, and what its reader counted of that.
    fn note_served(&mut self, token: Token, served: ServedInput);

    /// Takes note that the connection of a token sent bad input: what its reader had counted before and has counted now.
    /// The buffer begins with the last piece that the connection sent.
    fn note_bad(&mut self, token: Token, before: ReaderCounts, now: ReaderCounts, buffer: &[u8]);

    /// Takes note that the receiver cannot begin, for this reason.
    fn note_fault(&mut self, fault: ReadinessFault);
}
