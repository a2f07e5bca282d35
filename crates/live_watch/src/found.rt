//! The datapoints of a piece, with the lines that they were read from.

use line_text::{LineFault, Moment, Point};
use relay_base::{NoMemory, add};
use std::alloc::Global;

/// A datapoint, and which bytes of its text it was read from; none, if it is a row of a pickle.
#[derive(Drop)]
pub(crate) struct Found {
    pub(crate) point: Point,
    from: usize,
    to: usize,
}

/// Which bytes end a line.
#[derive(Clone, Copy)]
pub(crate) enum LineEnds {
    /// Byte 10, in a connection.
    Newline,
    /// Bytes 10 to 13, in a datagram.
    Break,
}

impl LineEnds {
    fn has(self, byte: u8) -> bool {
        match self {
            LineEnds::Newline => byte == b'\n',
            LineEnds::Break => matches!(byte, 10..=13),
        }
    }
}

/// The datapoints of a piece, in their order, and the text that has their lines.
#[derive(Drop)]
pub(crate) struct FoundPiece {
    pub(crate) text: Vec<u8>,
    pub(crate) found: Vec<Found>,
    // Whether the line or the frame that the piece ends first was seen from its begin.
    pub(crate) is_head_known: bool,
}

impl FoundPiece {
    /// Nothing yet.
    pub(crate) fn none(alloc: Global) -> FoundPiece {
        FoundPiece {
            text: Vec::new(alloc),
            found: Vec::new(alloc),
            is_head_known: true,
        }
    }

    /// The line of a datapoint, as it was read; nothing of a row of a pickle.
    pub(crate) fn line_of(&self, found: &Found) -> &[u8] {
        match self.text.as_slice().get(found.from..found.to) {
            Some(line) => line,
            None => &[],
        }
    }

    /// Adds the rows of pickles.
    pub(crate) fn add_rows(&mut self, points: Vec<Point>) -> Result<(), NoMemory> {
        for point in points {
            add(
                &mut self.found,
                Found {
                    point,
                    from: 0,
                    to: 0,
                },
            )?;
        }
        Ok(())
    }

    /// Finds the datapoints in the first so many bytes of the text: lines, each up to a byte that ends one.
    pub(crate) fn find_lines(
        &mut self,
        alloc: Global,
        count: usize,
        ends: LineEnds,
        moment: Moment,
    ) -> Result<(), NoMemory> {
        let (lines, _) = self.text.as_slice().split_at(count.min(self.text.len()));
        let mut from: usize = 0;
        for line in lines.split(|byte| ends.has(*byte)) {
            let to = from.saturating_add(line.len());
            if let Some(point) = point_in(alloc, line, moment)? {
                add(&mut self.found, Found { point, from, to })?;
            }
            from = to.saturating_add(1);
        }
        Ok(())
    }
}

/// The datapoint of a line, if it has one.
fn point_in(alloc: Global, line: &[u8], moment: Moment) -> Result<Option<Point>, NoMemory> {
    match Point::read_line(alloc, line, moment) {
        Ok(point) => Ok(point),
        Err(LineFault::NoMemory) => Err(NoMemory),
        Err(_) => Ok(None),
    }
}
