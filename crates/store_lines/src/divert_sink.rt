//! A connection of a destination that may be diverted.

use senders::{HalfClose, StoreEnd, WakeGate};
use spool::Intake;
use std::io;
use std::io::{ErrorKind, Write};
use std::sync::Wait;

/// A connection: to the store, or the destination's intake.
#[derive(Drop)]
pub(crate) enum DivertSink<'n, W, R: Wait + Drop> {
    /// To the store; the intake, if there is one, knows while it takes no more.
    Store { sink: W, intake: Option<&'n Intake> },
    /// The intake.
    Intake(IntakeSink<'n, R>),
}

impl<W: Write, R: Wait + Drop> Write for DivertSink<'_, W, R> {
    fn write(&mut self, buf: &[u8]) -> io::Result<usize> {
        let result = match self {
            DivertSink::Store { sink, .. } => sink.write(buf),
            DivertSink::Intake(sink) => return sink.write(buf),
        };
        if let DivertSink::Store {
            intake: Some(intake),
            ..
        } = self
        {
            note_blocked(intake, &result);
        }
        result
    }

    fn flush(&mut self) -> io::Result<()> {
        match self {
            DivertSink::Store { sink, .. } => sink.flush(),
            DivertSink::Intake(_) => Ok(()),
        }
    }
}

/// Notes that a connection takes no more before it is ready, if a write says so.
fn note_blocked(intake: &Intake, answer: &io::Result<usize>) {
    if let Err(error) = answer {
        if error.kind() == ErrorKind::WouldBlock {
            intake.note_blocked(true);
        }
    }
}

impl<W: HalfClose, R: Wait + Drop> HalfClose for DivertSink<'_, W, R> {
    fn half_close(&mut self) {
        if let DivertSink::Store { sink, .. } = self {
            sink.half_close();
        }
    }

    fn store_end(&self) -> StoreEnd {
        match self {
            DivertSink::Store { sink, .. } => sink.store_end(),
            DivertSink::Intake(_) => StoreEnd::Orderly,
        }
    }
}

/// The intake of a destination, as a connection. It is shut once it is dropped.
pub(crate) struct IntakeSink<'n, R: Wait + Drop> {
    rt: R,
    intake: &'n Intake,
    gate: &'n WakeGate,
}

impl<'n, R: Wait + Drop> IntakeSink<'n, R> {
    /// The connection that writes to an intake, whose keeper this gate wakes.
    pub(crate) fn new(rt: R, intake: &'n Intake, gate: &'n WakeGate) -> IntakeSink<'n, R> {
        IntakeSink { rt, intake, gate }
    }
}

impl<R: Wait + Drop> Write for IntakeSink<'_, R> {
    fn write(&mut self, buf: &[u8]) -> io::Result<usize> {
        let (count, is_half_full) = self.intake.push(&self.rt, buf);
        if is_half_full {
            self.gate.wake_all();
        }
        if count == 0 && !buf.is_empty() {
            self.intake.note_blocked(true);
            return Err(io::Error::from(ErrorKind::WouldBlock));
        }
        Ok(count)
    }

    fn flush(&mut self) -> io::Result<()> {
        Ok(())
    }
}

impl<R: Wait + Drop> Drop for IntakeSink<'_, R> {
    fn drop(self) {
        let IntakeSink { rt, intake, gate } = self;
        intake.shut(&rt);
        gate.wake_all();
        drop(rt);
    }
}
