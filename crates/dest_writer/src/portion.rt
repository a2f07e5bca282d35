//! What one write of a drive offers.
ghost use Rattle.std.specs.Prelude.{◌≡◌, ◌<◌, ◌≤◌};
ghost use Rattle.dest_writer.specs.Drive.{WritesOnce};
ghost use Rattle.dest_writer.specs.Gathered.{IsEmptyOrGathered, most_gathered};
ghost use Rattle.dest_writer.specs.Writer.{left};

use crate::counting::CallCounts;
use crate::gather_buf::GatherBuf;
use crate::writer::Writer;
use crate::writes::write_once;
use std::io::Write;

/// What one write of a drive offers.
pub(crate) trait Portion<W: Write> {
    ghost use Rattle.dest_writer.specs.Writer.{WriterState};

    // Between two writes it goes with the writer.
    ghost fits: { WriterState → Self → Type 0 };

    /// Makes one write of the next bytes, of which some are left, and returns how many were taken.
    fn write(&mut self, writer: &mut Writer, stream: &mut W, counts: &mut CallCounts) -> usize
        requires some { 0 < left writer.old.writer }
        requires fits { fits writer.old.writer self.old }
        ensures once { WritesOnce result writer.old.writer writer.new.writer counts.old counts.new
            (W.contents stream.old) (W.contents stream.new) }
        ensures fits { fits writer.new.writer self.new }
        ensures most { result ≤ most_gathered }
        ensures limit { writer.new.limit ≡ writer.old.limit };
}

/// What is left of the current line.
#[derive(Drop)]
pub(crate) struct OneLine;

impl<W: Write> Portion<W> for OneLine {
    ghost fits = { λ writer line. Unit {0} };

    fn write(&mut self, writer: &mut Writer, stream: &mut W, counts: &mut CallCounts) -> usize {
        let bytes = writer.next_bytes();
        let length = bytes.len();
        let count = write_once(bytes, stream, counts);
        writer.pass_in_line(length, count);
        count
    }
}

/// What is gathered, or more lines where nothing is.
impl<W: Write> Portion<W> for GatherBuf {
    ghost fits = { λ writer gathered. IsEmptyOrGathered writer gathered };

    fn write(&mut self, writer: &mut Writer, stream: &mut W, counts: &mut CallCounts) -> usize {
        writer.gather_more(self);
        let count = write_once(self.bytes(), stream, counts);
        writer.pass_gathered(self, count);
        count
    }
}
