//! One destination: its queue, its writer, and what its connections got.
ghost use Rattle.std.specs.Prelude.{◌≡◌, ◌≤◌, ◌<◌, ◌+◌, ◌++◌, ◌&&◌, ◌↔◌, true, false, nat_lt, length, map, slice_index, vec_len, vec_capacity, IfOk, IfSome, IsSome, OnOk, OnErr};
ghost use Rattle.std.specs.Arc.{arc_value};
ghost use Rattle.dest_queue.specs.Queue.{kept_of};
ghost use Rattle.dest_queue.specs.Counts.{counts_of};
ghost use Rattle.dest_queue.specs.Offer.{last_count};
ghost use Rattle.dest_writer.specs.Writer.{wants_batch, left, bytes_written, writer_after_write};
ghost use Rattle.relay_core.specs.Destination.{Offered, Taken, Connected, Written, Lost, fresh_destination, may_act, with_more_bytes};
ghost use Rattle.relay_core.specs.WorldModel.{with_sizes, sized_after, act_of, takes_memory_at};

use dest_queue::{Counts, DestQueue, Hand, Kept, LARGEST_SIZE, MOST_READERS, OfferFault};
use dest_writer::Writer;
use line_text::Point;
use relay_base::NoMemory;
use std::alloc::Global;
use std::marker::Model;
use std::sync::Arc;

/// What may happen at a destination, beside offers.
#[derive(Clone, Copy)]
pub(crate) enum Act {
    /// The writer takes a batch from the queue.
    Take,
    /// There is a new connection.
    Connect,
    /// The connection takes this number of bytes.
    Write(usize),
    /// The connection is lost.
    Lose,
}

/// A destination's queue and writer, and the bytes that each of its connections got.
///
/// In clauses it is the destination machine's state, with the queue's size and the limit of a batch.
#[derive(Drop)]
pub(crate) struct Destination {
    limit: usize,
    queue: DestQueue,
    writer: Writer,
    // A batch on its way from the queue to the writer; empty between two acts.
    hand: Hand,
    // The newest connection last.
    connections: Vec<Vec<u8>>,
}

impl Model for Destination {
    ghost use Rattle.relay_core.specs.WorldModel.{SizedDestination};

    ghost Value = { SizedDestination };

    ghost use Rattle.relay_core.specs.Stored.{sized_destination_of, HandsOver};

    ghost view = { sized_destination_of };

    ghost invariant = { HandsOver };
}

impl Destination {
    /// A destination with nothing queued and no connection, for queues of at most `size` datapoints,
    /// batches of at most `limit`, and this number of readers.
    pub(crate) fn new(
        alloc: Global,
        size: usize,
        limit: usize,
        readers: usize,
    ) -> Result<Destination, NoMemory>
        requires size { (1 ≤ size) × (size ≤ LARGEST_SIZE) }
        requires limit { 1 ≤ limit }
        requires readers { (1 ≤ readers) × (readers ≤ MOST_READERS) }
        ensures { IfOk result (λ dest. dest ≡ with_sizes size limit (fresh_destination readers)) }
    {
        let writer = Writer::new(alloc, limit)?;
        let hand = Hand::new(alloc, limit)?;
        let queue = DestQueue::new(alloc, size, readers)?;
        Ok(Destination {
            limit,
            queue,
            writer,
            hand,
            connections: Vec::new(alloc),
        })
    }

    /// A reader offers a datapoint. The queue must have the reader, and be able to count the offer.
    pub(crate) fn offer(&mut self, reader: usize, point: &Arc<Point>) -> Result<Kept, NoMemory>
        requires reader { reader < length self.old.destination.queue.next }
        requires counted { self.old.destination.queue.offered < last_count }
        ensures kept { IfOk result
            (λ kept. kept ≡ kept_of self.old.size self.old.destination.queue) }
        ensures act { OnOk result
            (self.new ≡ sized_after (Offered reader (arc_value point.now)) self.old) }
        ensures err { OnErr result (self.new ≡ self.old) }
    {
        let Some(number) = self.queue.next_number(reader) else {
            unreachable!();
        };
        match self.queue.offer(reader, number, point) {
            Ok(kept) => Ok(kept),
            Err(fault) => Err(no_memory(fault)),
        }
    }

    /// Whether an act may happen.
    pub(crate) fn may(&self, act: Act) -> bool
        ensures { result ≡ may_act self.now.destination (act_of act) }
    {
        match act {
            Act::Take => self.writer.wants_batch(),
            Act::Connect => !self.writer.is_up(),
            Act::Write(count) => self.writer.is_up() && count <= self.writer.left(),
            Act::Lose => self.writer.is_up(),
        }
    }

    /// Performs an act that may happen.
    pub(crate) fn act(&mut self, alloc: Global, act: Act) -> Result<(), NoMemory>
        requires { may_act self.old.destination (act_of act) ≡ true }
        ensures act { OnOk result (self.new ≡ sized_after (act_of act) self.old) }
        ensures err { OnErr result (self.new ≡ self.old) }
        ensures memory { OnErr result (takes_memory_at (act_of act) ≡ true) }
    {
        match act {
            Act::Take => {
                self.take();
                Ok(())
            }
            Act::Connect => self.connect(alloc),
            Act::Write(count) => self.write(count),
            Act::Lose => {
                self.lose();
                Ok(())
            }
        }
    }

    /// What each connection got, the newest connection last.
    pub(crate) fn connections(&self) -> &[Vec<u8>]
        ensures { map (λ c. c.items) result.now ≡ self.now.destination.connections }
    {
        self.connections.as_slice()
    }

    /// What the queue has counted.
    pub(crate) fn counts(&self) -> Counts
        ensures { result ≡ counts_of self.now.destination.queue }
    {
        self.queue.counts()
    }

    /// The number that a reader's next offer has; none for a reader that the queue does not have.
    pub(crate) fn next_number(&self, reader: usize) -> Option<u64>
        ensures there { IsSome result
            ↔ (reader < length self.now.destination.queue.next) }
        ensures number { IfSome result
            (λ number. number ≡ slice_index self.now.destination.queue.next reader) }
    {
        self.queue.next_number(reader)
    }

    /// Takes a batch from the queue into the hand. The writer must want one.
    fn take(&mut self)
        requires { wants_batch self.old.destination.writer ≡ true }
        ensures { self.new ≡ sized_after Taken self.old }
    {
        self.queue.take(self.limit, &mut self.hand);
        self.writer.fill(&mut self.hand);
    }

    /// Adds a new connection when there is none.
    fn connect(&mut self, alloc: Global) -> Result<(), NoMemory>
        requires { self.old.destination.writer.up ≡ false }
        ensures act { OnOk result (self.new ≡ sized_after Connected self.old) }
        ensures err { OnErr result (self.new ≡ self.old) }
        ensures memory { OnErr result (takes_memory_at Connected ≡ true) }
    {
        self.connections.push(Vec::new(alloc))?;
        self.writer.up().unwrap();
        Ok(())
    }

    /// The connection takes the next bytes: this number of those that are left.
    fn write(&mut self, count: usize) -> Result<(), NoMemory>
        requires up { self.old.destination.writer.up ≡ true }
        requires left { count ≤ left self.old.destination.writer }
        ensures act { OnOk result (self.new ≡ sized_after (Written count) self.old) }
        ensures err { OnErr result (self.new ≡ self.old) }
        ensures memory { OnErr result (takes_memory_at (Written count) ≡ true) }
    {
        give(&mut self.writer, &mut self.connections, count)?;
        Ok(())
    }

    /// The connection is lost.
    fn lose(&mut self)
        requires { self.old.destination.writer.up ≡ true }
        ensures { self.new ≡ sized_after Lost self.old }
    {
        self.writer.down().unwrap();
    }
}

/// Out of memory: the only refusal of an offer that is next and can be counted.
fn no_memory(fault: OfferFault) -> NoMemory
    requires { fault ≡ OfferFault.NoMemory }
{
    match fault {
        OfferFault::NoMemory => NoMemory,
        _ => unreachable!(),
    }
}

/// Gives the last connection this number of the writer's next bytes. Returns `NoMemory`, and changes
/// nothing, if there is no memory for them; for no bytes there always is.
fn give(writer: &mut Writer, connections: &mut Vec<Vec<u8>>, count: usize) -> Result<(), NoMemory>
    requires up { writer.old.writer.up ≡ true }
    requires left { count ≤ left writer.old.writer }
    ensures writer { OnOk result (writer.new.writer ≡ writer_after_write count writer.old.writer) }
    ensures limit { writer.new.limit ≡ writer.old.limit }
    ensures ok { OnOk result (map (λ c. c.items) connections.new.items ≡ with_more_bytes
        (bytes_written count writer.old.writer) (map (λ c. c.items) connections.old.items)) }
    ensures same { OnErr result (writer.new ≡ writer.old) }
    ensures err { OnErr result (map (λ c. c.items) connections.new.items
        ≡ map (λ c. c.items) connections.old.items) }
    ensures memory { OnErr result (nat_lt 0 count ≡ true) }
{
    match connections.last_mut() {
        Some(last) => {
            last.reserve(count)?;
            move_bytes(writer, last, count);
        }
        None => writer.wrote(count).unwrap(),
    }
    Ok(())
}

/// Moves this number of a writer's next bytes to the end of a vector that has room for them.
fn move_bytes(writer: &mut Writer, to: &mut Vec<u8>, count: usize)
    requires up { writer.old.writer.up ≡ true }
    requires left { count ≤ left writer.old.writer }
    requires room { vec_len to.old + count ≤ vec_capacity to.old }
    ensures writer { writer.new.writer ≡ writer_after_write count writer.old.writer }
    ensures limit { writer.new.limit ≡ writer.old.limit }
    ensures bytes { to.new.items ≡ to.old.items ++ bytes_written count writer.old.writer }
{
    // No effect at run time: the proof reads the law.
    dest_writer::laws::writes_add_up();
    let mut left = count;
    loop {
        let bytes = writer.next_bytes();
        let next = left.min(bytes.len());
        to.extend_from_slice(&bytes[..next]).unwrap();
        writer.wrote(next).unwrap();
        left -= next;
        if left == 0 {
            return;
        }
    }
}
