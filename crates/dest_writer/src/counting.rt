//! Readers and writers whose calls and failures are counted.
ghost use Rattle.std.specs.Prelude.{◌≡◌, ◌≤◌, length, true, IsTrue, ◌↔◌};
ghost use Rattle.std.specs.Io.{ReadsAtMost, WritesAtMost};
ghost use Rattle.std.specs.Io.KnownBytes.{Keeps, ReadConsumes, WriteAppends};
ghost use Rattle.dest_writer.specs.Calls.{greatest_count};
ghost use Rattle.dest_writer.specs.Counting.{outcome_of_kind, outcome_of_call, outcome_of_write, is_failure, counts_after, stream_of, counts_of};

use std::io;
use std::io::{ErrorKind, Read, Write};
use std::marker::Model;

/// How a call of a reader or a writer ended.
#[derive(Clone, Copy)]
pub enum Outcome {
    /// It did what it was called for: a read or a write moved some bytes, or none where none were
    /// asked for or left.
    Moved,
    /// It would have had to wait.
    WouldBlock,
    /// It was interrupted.
    Interrupted,
    /// It failed.
    Failed,
}

/// The calls of a reader or a writer that were counted.
///
/// A failure is an error other than `WouldBlock` and `Interrupted`, and a write that takes nothing
/// of some bytes. Both counts stay at `u64::MAX` once they are there. Only a call that this module
/// makes is counted: nothing else can write the counts or the outcome.
///
/// Clauses see it as [`CallCounts::calls`], [`CallCounts::failures`] and [`CallCounts::last`].
#[derive(Clone, Copy)]
pub struct CallCounts {
    calls: u64,
    failures: u64,
    last: Outcome,
}

impl Model for CallCounts {
    ghost use Rattle.std.specs.Prelude.{◌≤◌};
    ghost use Rattle.dest_writer.specs.Calls.{CountedCalls, greatest_count};

    ghost Value = { CountedCalls };

    ghost view = { λ c. record { calls = c.calls; failures = c.failures; last = c.last } };

    ghost invariant = { λ c. c.calls ≤ greatest_count };

    ghost inverse = { λ c. record { calls = c.calls; failures = c.failures; last = c.last } };
}

impl CallCounts {
    /// No call was made.
    pub fn new() -> CallCounts
        ensures { result ≡ record { calls = 0; failures = 0; last = Outcome.Moved } }
    {
        CallCounts {
            calls: 0,
            failures: 0,
            last: Outcome::Moved,
        }
    }

    /// How many calls were made, at most `u64::MAX`.
    pub fn calls(&self) -> u64
        ensures { result ≡ self.now.calls }
    {
        self.calls
    }

    /// How many of them failed, at most `u64::MAX`.
    pub fn failures(&self) -> u64
        ensures { result ≡ self.now.failures }
    {
        self.failures
    }

    /// How the last call ended; `Moved` before the first.
    pub fn last(&self) -> Outcome
        ensures last { result ≡ self.now.last }
        ensures bound { self.now.calls ≤ greatest_count }
    {
        self.last
    }

    /// Counts a call that ended so.
    fn count(&mut self, outcome: Outcome)
        ensures { self.new ≡ counts_after outcome self.old }
    {
        self.calls = self.calls.saturating_add(1);
        if is_failure(outcome) {
            self.failures = self.failures.saturating_add(1);
        }
        self.last = outcome;
    }

    /// Makes a write to a stream, and counts it here.
    pub(crate) fn write<W: Write>(&mut self, stream: &mut W, buf: &[u8]) -> io::Result<usize>
        ensures bound { WritesAtMost result buf.now }
        ensures bytes { WriteAppends (W.contents stream.old) (W.contents stream.new) result
            buf.now }
        ensures counts { self.new
            ≡ counts_after (outcome_of_write (length buf.now) result) self.old }
    {
        let result = stream.write(buf);
        self.count(outcome_of_write(buf.len(), &result));
        result
    }
}

/// A reader or a writer that counts its calls.
#[derive(Drop)]
pub struct Counting<S> {
    pub(crate) stream: S,
    pub(crate) counts: CallCounts,
}

impl<S> Counting<S> {
    /// Counts the calls of this stream. None was made.
    pub fn new(stream: S) -> Counting<S>
        ensures stream { stream_of result ≡ stream }
        ensures counts { counts_of result
            ≡ record { calls = 0; failures = 0; last = Outcome.Moved } }
    {
        Counting {
            stream,
            counts: CallCounts::new(),
        }
    }

    /// How many calls failed, at most `u64::MAX`.
    pub fn failures(&self) -> u64
        ensures { result ≡ (counts_of self.now).failures }
    {
        self.counts.failures()
    }

    /// What was counted.
    pub fn counts(&self) -> CallCounts
        ensures { result ≡ counts_of self.now }
    {
        self.counts
    }

    /// The stream, to look at.
    pub fn stream(&self) -> &S
        ensures { result.now ≡ stream_of self.now }
    {
        &self.stream
    }

    /// Gives the stream back.
    pub fn into_stream(self) -> S
        ensures { result ≡ stream_of self }
    {
        self.stream
    }
}

impl<W: Write> Write for Counting<W> {
    ghost contents = { λ c. W.contents c.stream };

    fn write(&mut self, buf: &[u8]) -> io::Result<usize>
        ensures bound { WritesAtMost result buf.now }
        ensures bytes { WriteAppends (W.contents (stream_of self.old))
            (W.contents (stream_of self.new)) result buf.now }
        ensures counts { counts_of self.new
            ≡ counts_after (outcome_of_write (length buf.now) result) (counts_of self.old) }
    {
        self.counts.write(&mut self.stream, buf)
    }

    fn flush(&mut self) -> io::Result<()>
        ensures bytes { Keeps (W.contents (stream_of self.old)) (W.contents (stream_of self.new)) }
        ensures counts { counts_of self.new
            ≡ counts_after (outcome_of_call result) (counts_of self.old) }
    {
        let result = self.stream.flush();
        self.counts.count(outcome_of_call(&result));
        result
    }
}

impl<R: Read> Read for Counting<R> {
    ghost remaining = { λ c. R.remaining c.stream };

    fn read(&mut self, buf: &mut [u8]) -> io::Result<usize>
        ensures bound { ReadsAtMost result buf.new }
        ensures bytes { ReadConsumes (R.remaining (stream_of self.old))
            (R.remaining (stream_of self.new)) result buf.new }
        ensures counts { counts_of self.new
            ≡ counts_after (outcome_of_call result) (counts_of self.old) }
    {
        let result = self.stream.read(buf);
        self.counts.count(outcome_of_call(&result));
        result
    }
}

/// How a write of this many bytes ended.
fn outcome_of_write(wanted: usize, answer: &io::Result<usize>) -> Outcome
    ensures { result ≡ outcome_of_write wanted answer.now }
{
    match answer {
        Ok(0) if wanted > 0 => Outcome::Failed,
        Ok(_) => Outcome::Moved,
        Err(error) => outcome_of_kind(error.kind()),
    }
}

/// How a read or a flush ended.
fn outcome_of_call<A>(answer: &io::Result<A>) -> Outcome
    ensures { result ≡ outcome_of_call answer.now }
{
    match answer {
        Ok(_) => Outcome::Moved,
        Err(error) => outcome_of_kind(error.kind()),
    }
}

/// How a call with an error of this kind ended.
fn outcome_of_kind(kind: ErrorKind) -> Outcome
    ensures { result ≡ outcome_of_kind kind }
{
    match kind {
        ErrorKind::WouldBlock => Outcome::WouldBlock,
        ErrorKind::Interrupted => Outcome::Interrupted,
        _ => Outcome::Failed,
    }
}

fn is_failure(outcome: Outcome) -> bool
    ensures { result ≡ is_failure outcome }
{
    matches!(outcome, Outcome::Failed)
}
