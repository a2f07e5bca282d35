//! Passes one connection of lines to the output.
ghost use Rattle.std.specs.Prelude.{◌≡◌, ◌++◌, [], true, length, List, IfOk};
ghost use Rattle.line_text.specs.Connection.{Arrival, arrivals, accepted_points};
ghost use Rattle.line_text.specs.Reader.{Represents, GivesNoMore, is_too_long};
ghost use Rattle.pass_lines.specs.Pass.{Relays, RelaysPart};

use crate::point_writer::PointWriter;
use crate::write_fault::WriteFault;
use line_text::{FeedEnd, LineReader, Moment, NoMemory, Point, laws};
use std::alloc::Global;
use std::io::Write;

/// A reader of lines, and the writer of its datapoints. Between pieces no datapoint waits.
#[derive(Drop)]
pub(crate) struct Relay {
    reader: LineReader,
    writer: PointWriter,
    points: Vec<Point>,
    ghost none_left: { length points.items ≡ 0 },
}

impl Relay {
    /// Makes a relay of a connection that has given no byte yet.
    pub(crate) fn new(alloc: Global) -> Result<Relay, NoMemory>
        ensures { IfOk result (λ relay. Represents relay.reader []) }
    {
        let writer = PointWriter::new(alloc)?;
        Ok(Relay {
            reader: LineReader::new(alloc),
            writer,
            points: Vec::new(alloc),
        })
    }

    /// Reads a piece of the connection, and writes the lines of the datapoints that it completes.
    pub(crate) fn take<W: Write>(
        &mut self,
        piece: &[u8],
        moment: Moment,
        output: &mut W,
    ) -> Result<FeedEnd, WriteFault>
        ensures represents { IfOk result (λ _. (c : List Arrival) → Represents self.old.reader c
            → Represents self.new.reader (c ++ arrivals piece.now moment)) }
        ensures relayed { IfOk result (λ _. (c : List Arrival) → Represents self.old.reader c
            → Relays (W.contents output.old) (W.contents output.new) (accepted_points c)
            (accepted_points (c ++ arrivals piece.now moment))) }
        ensures end { IfOk result (λ end. is_too_long end ≡ self.new.reader.closed) }
        ensures ends { IfOk result
            (λ end. is_too_long end ≡ true → (c : List Arrival) → Represents self.old.reader c
            → GivesNoMore (c ++ arrivals piece.now moment)) }
        ensures part { (c : List Arrival) → Represents self.old.reader c
            → RelaysPart (W.contents output.old) (W.contents output.new) (accepted_points c)
            (accepted_points (c ++ arrivals piece.now moment)) }
    {
        // No effect at run time: the proof reads the law.
        laws::accepted_grows();
        let end = self.reader.feed(piece, moment, &mut self.points)?;
        let written = self.writer.write_all(&mut self.points, output);
        self.points.clear();
        written?;
        Ok(end)
    }

    /// Returns how many lines were bad so far.
    pub(crate) fn bad_lines(&self) -> u64
        ensures { result ≡ self.now.reader.bad }
    {
        self.reader.bad_lines()
    }
}
