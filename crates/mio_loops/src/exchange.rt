//! Connections that ask one question and take its answer: their state, and what a read or a write did.
ghost use Rattle.std.specs.Prelude.{◌≡◌, IfOk, IfErr};
ghost use Rattle.std.specs.IoError.{error_kind};
ghost use Rattle.dest_writer.specs.Counting.{outcome_of_kind};
ghost use Rattle.mio_loops.specs.Exchange.{moved, not_moved};

use std::io;
use std::io::{ErrorKind, Read};

/// How many milliseconds a connection has to ask, as many to take the answer, and as many to close then.
pub const PATIENCE_MS: u64 = 1_000;

/// How many reads or writes are made at once, at most.
pub const MOST_TRIES: usize = 100;

/// The state of a connection.
#[derive(Clone, Copy)]
pub enum Stage {
    /// Its question is being read.
    Question,
    /// It takes the answer.
    Answer,
    /// It has the answer. What else it sends is read and dropped, so that closing it does not take the answer from it.
    End,
}

/// What a read or a write did.
#[derive(Clone, Copy)]
pub enum Transfer {
    /// It moved this many bytes; 0 if it was interrupted, and is to be tried again.
    Bytes(usize),
    /// It moved none: the peer sends or takes nothing more.
    End,
    /// It would have to wait.
    Blocked,
    /// It failed.
    Failed,
}

impl Transfer {
    /// What a read or a write did that returned this.
    pub fn of(returned: io::Result<usize>) -> Transfer
        ensures moved { IfOk returned (λ count. result ≡ moved count) }
        ensures not_moved { IfErr returned
            (λ error. result ≡ not_moved (outcome_of_kind (error_kind error))) }
    {
        match returned {
            Ok(0) => Transfer::End,
            Ok(count) => Transfer::Bytes(count),
            Err(error) => not_moved(error.kind()),
        }
    }
}

/// What a read or a write did with an error of this kind.
fn not_moved(kind: ErrorKind) -> Transfer
    ensures { result ≡ not_moved (outcome_of_kind kind) }
{
    match kind {
        ErrorKind::Interrupted => Transfer::Bytes(0),
        ErrorKind::WouldBlock => Transfer::Blocked,
        _ => Transfer::Failed,
    }
}

/// Reads into this room, and drops, what a peer sends that has its answer. Returns whether the connection is over: the peer
/// has closed it, or it failed.
pub fn read_away<S: Read>(stream: &mut S, room: &mut [u8]) -> bool {
    for _ in 0..MOST_TRIES {
        match Transfer::of(stream.read(room)) {
            Transfer::Bytes(_) => {}
            Transfer::Blocked => return false,
            Transfer::End | Transfer::Failed => return true,
        }
    }
    false
}
