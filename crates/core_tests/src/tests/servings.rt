//! A read loop that serves one connection.

use crate::tests::sendings::Sending;
use line_text::Moment;
use mio_loops::{InputLog, ReadLoop, Served, Token};
use queue_records::{Door, ListDoor};
use reader_core::ReaderKind;
use std::alloc::Global;
use std::io::Read;

/// A read loop of receiver 0 that serves one connection, and what it sends.
#[derive(Drop)]
pub(crate) struct Serving<S: Drop> {
    reads: ReadLoop<S>,
    token: Token,
    sending: Sending,
}

impl<S: Read + Drop> Serving<S> {
    /// Serves a connection of lines. The offer of this number, counted from 1, is refused, or none with 0; `None` if
    /// out of memory.
    pub(crate) fn new(alloc: Global, source: S, refused: u64) -> Option<Serving<S>> {
        let mut reads = ReadLoop::new(alloc, ReaderKind::Line, 0).ok()?;
        let Some(token) = reads.admit(source).ok() else {
            drop(reads);
            return None;
        };
        let Some(sending) = Sending::new(alloc, 0, refused) else {
            drop(reads);
            return None;
        };
        Some(Serving {
            reads,
            token,
            sending,
        })
    }

    /// Admits another connection, and returns whether it has the token of the one before.
    pub(crate) fn is_followed(&mut self, source: S) -> bool {
        match self.reads.admit(source) {
            Ok(token) => token == self.token,
            Err(_) => false,
        }
    }

    /// Whether the connection is held.
    pub(crate) fn is_held(&self) -> bool {
        self.reads.holds(self.token)
    }

    /// Whether the connection is in the again list.
    pub(crate) fn has_again(&self) -> bool {
        self.reads.has_again()
    }

    /// Takes a turn in which no connection is ready, and returns how many it serves.
    pub(crate) fn turn(&mut self) -> Option<usize> {
        self.turn_for(&[])
    }

    /// Takes a turn in which these connections are ready, and returns how many it serves.
    pub(crate) fn turn_for(&mut self, ready: &[Token]) -> Option<usize> {
        let Sending { plan, door } = &mut self.sending;
        let moment = Moment::new(0)?;
        if door.door().dests() < plan.destinations() {
            return None;
        }
        Some(self.reads.turn(ready, plan, door, moment).served)
    }

    /// Serves the connection, and returns how; `None` if it is not held.
    pub(crate) fn serve(&mut self) -> Option<Served> {
        let Sending { plan, door } = &mut self.sending;
        let moment = Moment::new(0)?;
        if door.door().dests() < plan.destinations() || !self.reads.holds(self.token) {
            return None;
        }
        Some(self.reads.serve_one(self.token, plan, door, moment))
    }

    /// What the reader was fed.
    pub(crate) fn log(&self) -> &InputLog {
        self.reads.log()
    }

    /// The door.
    pub(crate) fn door(&self) -> &ListDoor {
        self.sending.door.door()
    }

    /// How many offers are on record.
    pub(crate) fn offers(&self) -> usize {
        self.door().made().len()
    }

    /// Whether the offers on record are those of datapoints with these names, one after another.
    pub(crate) fn has_offered(&self, names: &str) -> bool {
        let mut left = names;
        for made in self.door().made() {
            match left.strip_prefix(made.point.name.text()) {
                Some(rest) => left = rest,
                None => return false,
            }
        }
        left.is_empty()
    }
}
