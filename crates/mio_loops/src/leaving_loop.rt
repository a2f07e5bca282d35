//! The connections of a loop that serves none any more.
ghost use Rattle.std.specs.Prelude.{◌≡◌, ◌≢◌, ◌<◌, ℕ, Some, None, MatchOption, slice_get};
ghost use Rattle.slab.specs.Slab.{get};
ghost use Rattle.dest_writer.specs.Counting.{stream_of};
ghost use Rattle.dest_writer.specs.declared.counting.Counting.{Counting};
ghost use Rattle.reader_core.specs.Reader.{ReaderModel};
ghost use Rattle.reader_core.specs.Scan.{rest_of};
ghost use Rattle.mio_loops.specs.LoopState.{is_listed};

use crate::input_log::InputLog;
use crate::read_loop::{MOST_CONNECTIONS, ReadLoop};
use crate::token::Token;
use std::io::Read;
use std::marker::Model;

/// The connections of a loop that serves none any more, and takes none: they go on elsewhere, each behind what its reader
/// has of an unfinished line or frame ([`LeavingLoop::rest`]). So no connection is ever read behind the rest of another one.
///
/// Clauses see it as the loop.
#[derive(Drop)]
pub struct LeavingLoop<S: Drop> {
    reads: ReadLoop<S>,
}

impl<S: Drop> Model for LeavingLoop<S> {
    ghost use Rattle.mio_loops.specs.LoopState.{LoopState};

    ghost Value = { LoopState S };

    ghost view = { λ l. l.reads };
}

impl<S: Read + Drop> LeavingLoop<S> {
    /// The connections of this loop, which has served them for the last time. Offers that wait, since the door was out of
    /// memory, are not made.
    pub fn new(reads: ReadLoop<S>) -> LeavingLoop<S>
        ensures { result ≡ reads }
    {
        LeavingLoop { reads }
    }

    /// Takes out the connection of a token, if it is held. Its reader stays as it is, and so does the log.
    pub fn take_out(&mut self, token: Token) -> Option<S>
        ensures stream { MatchOption result (get self.old.sources token.0 ≡ None)
            (λ stream. (held : Counting S) × (get self.old.sources token.0 ≡ Some held)
            × (stream_of held ≡ stream)) }
        ensures left { get self.new.sources token.0 ≡ None }
        ensures others { (other : ℕ) → other ≢ token.0
            → get self.new.sources other ≡ get self.old.sources other }
        ensures listed { (any : ℕ) → is_listed self.new any ≡ is_listed self.old any }
        ensures rest { (self.new.first ≡ self.old.first) × (self.new.readers ≡ self.old.readers)
            × (self.new.log ≡ self.old.log) }
    {
        self.reads.take_out(token)
    }

    /// The bytes of the connection of a token behind its last whole line or frame: what its next reader is to be fed first.
    pub fn rest(&self, token: Token) -> &[u8]
        requires within { token.0 < MOST_CONNECTIONS }
        ensures { (reader : ReaderModel) → slice_get self.now.readers token.0 ≡ Some reader
            → result.now ≡ rest_of reader.scan }
    {
        self.reads.rest(token)
    }

    /// Closes the connections that were not taken out, and returns what the readers were fed.
    pub fn close(self) -> InputLog
        ensures { result ≡ self.log }
    {
        self.reads.close()
    }
}
