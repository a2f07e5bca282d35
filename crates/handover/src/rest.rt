//! What an ended run left for a destination.

ghost use Rattle.std.specs.Prelude.{◌≡◌, ℕ, ◌≤◌, ◌++◌, ◌+◌, [], length, min, take, true, IsTrue};
ghost use Rattle.dest_writer.specs.Counting.{stream_of};
ghost use Rattle.dest_writer.specs.Writer.{bytes_left, unfinished_points};
ghost use Rattle.dest_writer.specs.declared.driven.Driven.TheVariants.{Idle};
ghost use Rattle.line_text.specs.Print.{printed_lines};
ghost use Rattle.handover.specs.Rest.{TookFirst, left_text, without_connection};

use dest_queue::{Hand, QueuedPoints};
use dest_writer::{Counting, Driven, GatherBuf, Writer};
use std::io::Write;
use std::marker::Model;

/// What an ended run left for a destination: its writer with the batch in hand, and what was queued behind that. It takes no
/// more memory than that run had for it.
///
/// Clauses see it as the writer, and what is queued behind its hand.
#[derive(Drop)]
pub struct Rest {
    pub(crate) limit: usize,
    pub(crate) writer: Writer,
    // Lent for a batch, and empty before and after.
    pub(crate) lent: Hand,
    pub(crate) queued: QueuedPoints,
}

impl Model for Rest {
    ghost use Rattle.handover.specs.Rest.{RestLeft, IsSoundRest};

    ghost Value = { RestLeft };

    ghost view = { λ r. record { writer = r.writer.writer; queued = r.queued } };

    ghost invariant = { λ r. IsSoundRest r.limit r.writer r.lent };
}

impl Rest {
    /// What was left by a writer for batches of at most `limit` datapoints, with the hand that was lent it, which is empty and
    /// has room for a batch, and by its queue. It takes no memory.
    pub fn new(limit: usize, writer: Writer, lent: Hand, queued: QueuedPoints) -> Rest
        requires least { 1 ≤ limit }
        requires fits { writer.limit ≡ limit }
        requires empty { lent.points ≡ [] }
        requires room { limit ≤ lent.room }
        ensures writer { result.writer ≡ writer.writer }
        ensures queued { result.queued ≡ queued }
    {
        Rest {
            limit,
            writer,
            lent,
            queued,
        }
    }

    /// Adds what a later run left in its queue, whose writer had no connection, and so nothing in hand. If nothing is queued yet,
    /// the later queue takes that place, with its room. Otherwise as many datapoints are added as the room of the first queue has
    /// places for, and at most `most` are queued in all; the others are dropped. Returns how many these are. It takes no memory.
    pub fn add(&mut self, points: QueuedPoints, most: usize) -> usize
        ensures writer { self.new.writer ≡ self.old.writer }
        ensures added { (kept : ℕ) × (self.new.queued ≡ self.old.queued ++ take kept points)
            × (length points ≡ min kept (length points) + result) }
        ensures all { self.old.queued ≡ [] → (self.new.queued ≡ points) × (result ≡ 0) }
    {
        self.queued.add(points, most)
    }

    /// How many datapoints are queued behind the hand.
    pub fn queued(&self) -> usize
        ensures { result ≡ length self.now.queued }
    {
        self.queued.len()
    }

    /// How many datapoints in hand no connection has taken whole.
    pub fn in_hand(&self) -> usize
        ensures { result ≡ length (unfinished_points self.now.writer.written self.now.writer.hand) }
    {
        self.writer.unsent()
    }

    /// Whether nothing is left: no connection has to take anything.
    pub fn is_empty(&self) -> bool
        ensures { IsTrue result → (bytes_left self.now.writer ≡ []) × (self.now.queued ≡ []) }
    {
        self.writer.left() == 0 && self.is_last_batch()
    }

    /// Whether nothing is queued behind the hand.
    pub(crate) fn is_last_batch(&self) -> bool
        ensures { IsTrue result → self.now.queued ≡ [] }
    {
        self.queued.is_empty()
    }

    /// The connection is gone, if the writer had one: the next one gets the rest from the first line that it did not take
    /// whole.
    pub fn lose(&mut self)
        ensures writer { self.new.writer ≡ without_connection self.old.writer }
        ensures queued { self.new.queued ≡ self.old.queued }
    {
        // Refuses if there was no connection, and changes nothing then.
        let _ = self.writer.down();
    }

    /// There is a new connection, if the writer has none.
    pub(crate) fn connect(&mut self)
        ensures up { self.new.writer.up ≡ true }
        ensures text { bytes_left self.new.writer ≡ bytes_left self.old.writer }
        ensures queued { self.new.queued ≡ self.old.queued }
    {
        // Refuses if there is one, and changes nothing then.
        let _ = self.writer.up();
    }

    /// Takes the next batch in hand, if one is wanted, and drives the writer once, which has a connection. Takes no memory.
    pub(crate) fn send_batch<W: Write>(
        &mut self,
        gathered: &mut GatherBuf,
        sink: &mut Counting<W>,
    ) -> Driven
        requires up { self.old.writer.up ≡ true }
        ensures up { self.new.writer.up ≡ true }
        ensures took { TookFirst (left_text self.old) (left_text self.new)
            (W.contents (stream_of sink.old)) (W.contents (stream_of sink.new)) }
        ensures idle { result ≡ Idle → bytes_left self.new.writer ≡ [] }
    {
        self.take_batch();
        self.writer.drive_gathered(gathered, sink).driven
    }

    /// Takes the next batch in hand, if one is wanted.
    fn take_batch(&mut self)
        ensures up { self.new.writer.up ≡ self.old.writer.up }
        ensures text { (bytes_left self.new.writer ++ printed_lines self.new.queued)
            ≡ (bytes_left self.old.writer ++ printed_lines self.old.queued) }
    {
        if self.writer.wants_batch() {
            let _taken = self.queued.take(self.limit, &mut self.lent);
            self.writer.fill(&mut self.lent);
        }
    }
}
