//! Writes datapoints as lines, through a queue of one and the writer of the output.

ghost use Rattle.std.specs.Prelude.{◌≡◌, [], ◌∷◌, length, true, IfOk, OnOk};
ghost use Rattle.std.specs.Io.KnownBytes.{Appends};
ghost use Rattle.line_text.specs.Print.{printed_line, printed_lines};
ghost use Rattle.dest_writer.specs.Writer.{bytes_left};
ghost use Rattle.relay_files.specs.Output.{GrowsByPart};

use crate::write_fault::WriteFault;
use dest_queue::{DestQueue, Hand, OfferFault};
use dest_writer::{CallCounts, Driven, Writer, laws};
use line_text::{NoMemory, Point};
use std::alloc::Global;
use std::io::Write;
use std::sync::Arc;

/// After this many recorded steps the queue starts anew: each recorded offer holds its datapoint, and
/// `pass` does not read the history.
const MOST_RECORDED: usize = 64;

/// A queue of one datapoint, which is empty between datapoints, and the writer of its batches of
/// one. The output is the writer's connection, which is open from the start and is lost when a write
/// fails.
#[derive(Drop)]
pub(crate) struct PointWriter {
    alloc: Global,
    queue: DestQueue,
    hand: Hand,
    writer: Writer,
    counts: CallCounts,
    ghost one: { queue.size ≡ 1 },
    ghost empty: { length queue.queue.points ≡ 0 },
    ghost in_turn: { queue.queue.next ≡ queue.queue.offered ∷ [] },
    ghost hand_empty: { length hand.points ≡ 0 },
    ghost hand_room: { hand.room ≡ 1 },
    ghost limit: { writer.limit ≡ 1 },
}

impl PointWriter {
    /// Makes a writer that has written no datapoint.
    pub(crate) fn new(alloc: Global) -> Result<PointWriter, NoMemory> {
        let writer = connected_writer(alloc)?;
        let queue = DestQueue::new(alloc, 1, 1)?;
        let hand = Hand::new(alloc, 1)?;
        Ok(PointWriter {
            alloc,
            queue,
            hand,
            writer,
            counts: CallCounts::new(),
        })
    }

    /// Writes the lines of all these datapoints, in order, and leaves none.
    pub(crate) fn write_all<W: Write>(
        &mut self,
        points: &mut Vec<Point>,
        output: &mut W,
    ) -> Result<(), WriteFault>
        ensures ok { OnOk result (Appends (W.contents output.old) (W.contents output.new)
            (printed_lines points.old.items)) }
        ensures none_left { OnOk result (points.new.items ≡ []) }
        ensures part { GrowsByPart (W.contents output.old) (W.contents output.new)
            (printed_lines points.old.items) }
    {
        points.reverse();
        while let Some(point) = points.pop() {
            self.write(point, output)?;
        }
        Ok(())
    }

    /// Offers a datapoint to the queue, and writes the batch that is taken out of it.
    fn write<W: Write>(&mut self, point: Point, output: &mut W) -> Result<(), WriteFault>
        ensures ok { OnOk result (Appends (W.contents output.old) (W.contents output.new)
            (printed_line point)) }
        ensures part { GrowsByPart (W.contents output.old) (W.contents output.new)
            (printed_line point) }
    {
        self.hand_over(point)?;
        write_batch(&mut self.writer, output, &mut self.counts)
    }

    /// Offers a datapoint to the queue, takes it out as a batch, and fills the writer with that.
    /// Returns `Output` if an earlier write failed.
    fn hand_over(&mut self, point: Point) -> Result<(), WriteFault>
        ensures { OnOk result (self.new.writer.writer
            ≡ record { hand = point ∷ []; written = 0; up = true }) }
    {
        if !self.writer.wants_batch() {
            return Err(WriteFault::Output);
        }
        self.renew_queue();
        let shared = Arc::new(self.alloc, point).map_err(|_| NoMemory)?;
        let number = self.queue.counts().offered;
        match self.queue.offer(0, number, &shared) {
            Ok(_) => {}
            Err(OfferFault::NoMemory) => return Err(WriteFault::NoMemory),
            // An offer in turn has no other fault, and the queue has counted far fewer than it can.
            Err(_) => return Err(WriteFault::Output),
        }
        self.queue.take(1, &mut self.hand);
        self.writer.fill(&mut self.hand);
        Ok(())
    }

    /// Restarts a queue that has recorded many steps, which frees the datapoints that were
    /// written.
    fn renew_queue(&mut self)
        ensures { self.new.writer ≡ self.old.writer }
    {
        if self.queue.history().len() >= MOST_RECORDED {
            self.queue.restart();
        }
    }
}

/// Makes a writer of batches of one that has its connection.
fn connected_writer(alloc: Global) -> Result<Writer, NoMemory>
    ensures limit { IfOk result (λ writer. writer.limit ≡ 1) }
{
    let mut writer = Writer::new(alloc, 1)?;
    let _ = writer.up();
    Ok(writer)
}

/// Drives a writer until nothing is left of its batch. It repeats the drive if the output would
/// block or one drive has made all its writes. If a write fails, the connection is lost.
fn write_batch<W: Write>(
    writer: &mut Writer,
    output: &mut W,
    counts: &mut CallCounts,
) -> Result<(), WriteFault>
    requires { writer.old.writer.up ≡ true }
    ensures ok { OnOk result (Appends (W.contents output.old) (W.contents output.new)
        (bytes_left writer.old.writer)) }
    ensures part { GrowsByPart (W.contents output.old) (W.contents output.new)
        (bytes_left writer.old.writer) }
    ensures limit { writer.new.limit ≡ writer.old.limit }
{
    // No effect at run time: the proof reads the law.
    laws::leaves_the_rest();
    for _drive in 0..u64::MAX {
        match writer.drive_over(output, counts) {
            Driven::Idle => return Ok(()),
            Driven::Blocked | Driven::Again => {}
            Driven::Failed => {
                let _ = writer.down();
                return Err(WriteFault::Output);
            }
        }
    }
    Err(WriteFault::Output)
}
