//! `relayd pass --pickle`: frames of pickles in, lines out.

use line_text::{LineBuf, Moment, NoMemory, Point, print_line};
use pickle_subset::{FrameEnd, PickleReader};
use relay_files::{OutputFailed, PIECE, RelayFault, Status, flush, read_piece, write_all};
use std::alloc::Global;
use std::io::{Read, Write};

/// Reads `input` as one connection of frames, all of one moment, and writes the line of each datapoint to `output`, in order.
/// Then `notes` gets the line `frame too long` if a long frame closed the connection, and the lines `bad pickles n` and
/// `bad rows n` of what gave no datapoint, if there was any.
///
/// It flushes, reads and ends as `pass` does with lines.
pub fn pass_pickles<R: Read, W: Write, N: Write>(
    alloc: Global,
    input: &mut R,
    output: &mut W,
    notes: &mut N,
    moment: Moment,
) -> Result<Status, RelayFault> {
    let mut piece = vec![in alloc; 0u8; PIECE].map_err(|_| NoMemory)?;
    let mut relay = PickleRelay::new(alloc)?;
    let ended = relay.pass_pieces(&mut piece, input, output, moment);
    let end = relay.end(alloc);
    drop((relay, piece));
    let is_too_long = ended?;
    flush(output)?;
    if is_too_long {
        write_all(notes, b"frame too long\n")?;
    }
    write_all(notes, end?.as_str().as_bytes())?;
    Ok(Status::Done)
}

/// A reader of pickles, and the lines of its datapoints. Between pieces no datapoint waits.
#[derive(Drop)]
struct PickleRelay {
    reader: PickleReader,
    points: Vec<Point>,
    line: LineBuf,
}

impl PickleRelay {
    /// A relay of a connection that has given no byte yet.
    fn new(alloc: Global) -> Result<PickleRelay, NoMemory> {
        let line = LineBuf::new(alloc)?;
        Ok(PickleRelay {
            reader: PickleReader::new(alloc),
            points: Vec::new(alloc),
            line,
        })
    }

    /// Writes the lines of the input, piece by piece; `piece` is the buffer of a read. Returns whether a frame was too long.
    fn pass_pieces<R: Read, W: Write>(
        &mut self,
        piece: &mut [u8],
        input: &mut R,
        output: &mut W,
        moment: Moment,
    ) -> Result<bool, RelayFault> {
        for _ in 0..u64::MAX {
            flush(output)?;
            if piece.is_empty() {
                break;
            }
            let count = read_piece(input, piece)?;
            if count == 0 {
                return Ok(false);
            }
            let (given, _) = piece.split_at(count);
            let end = self.reader.feed(given, moment, &mut self.points)?;
            self.write_points(output)?;
            if matches!(end, FrameEnd::FrameTooLong) {
                return Ok(true);
            }
        }
        Err(RelayFault::Input)
    }

    /// Writes the lines of the datapoints that wait.
    fn write_points<W: Write>(&mut self, output: &mut W) -> Result<(), OutputFailed> {
        for point in self.points.drain(..) {
            print_line(&point, &mut self.line);
            write_all(output, self.line.bytes())?;
        }
        Ok(())
    }

    /// The lines of what gave no datapoint.
    fn end(&self, alloc: Global) -> Result<String, NoMemory> {
        let pickles = counted(alloc, "bad pickles", self.reader.bad_pickles())?;
        let rows = counted(alloc, "bad rows", self.reader.bad_rows())?;
        Ok(format!(in alloc; "{pickles}{rows}")?)
    }
}

/// The line of a count, if it is not 0.
fn counted(alloc: Global, what: &str, count: u64) -> Result<String, NoMemory> {
    if count == 0 {
        return Ok(String::new(alloc));
    }
    Ok(format!(in alloc; "{what} {count}\n")?)
}
