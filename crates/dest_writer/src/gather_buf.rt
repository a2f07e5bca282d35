//! The lines that one write offers.
ghost use Rattle.std.specs.Prelude.{◌≡◌, ◌≤◌, ◌<◌, ◌+◌, ◌-◌, ℕ, true, false, [], ◌++◌, length, take, drop, map, IfOk, ◌==◌};
ghost use Rattle.line_text.specs.Print.{printed_lines, longest_printed};
ghost use Rattle.dest_writer.specs.Gathered.{most_gathered};
ghost use Rattle.dest_writer.specs.Place.{line_at};

use crate::place::Place;
use crate::printing::{print_at, print_point};
use line_text::{LONGEST_PRINTED, LineBuf, Point};
use relay_base::NoMemory;
use std::alloc::Global;
use std::marker::Model;

/// Lines are gathered until they have at least this many bytes.
pub const ENOUGH_GATHERED: usize = 65_536;

const _: () = prove!(ENOUGH_GATHERED == 65_536);

/// Room for the lines that one write offers, one after another: 65,536 bytes, and one more line.
///
/// Any number of writers may share it, one after another: a drive begins with it empty.
///
/// Clauses see it as the bytes that are still to be offered.
#[derive(Drop)]
pub struct GatherBuf {
    bytes: Vec<u8>,
    // How many of them were taken.
    taken: usize,
    // How many datapoints of the hand have their last byte before the end of the bytes.
    end: usize,
}

impl Model for GatherBuf {
    ghost use Rattle.dest_writer.specs.Gathered.{GatheredBytes};

    ghost Value = { GatheredBytes };

    ghost use Rattle.dest_writer.specs.Gathered.{gathered_in, IsSoundBuf};

    ghost view = { gathered_in };

    ghost invariant = { IsSoundBuf };
}

impl GatherBuf {
    /// Room with nothing in it. `NoMemory` if the system refuses the memory for it.
    pub fn new(alloc: Global) -> Result<GatherBuf, NoMemory>
        ensures { IfOk result (λ gathered. gathered.bytes ≡ []) }
    {
        Ok(GatherBuf {
            bytes: Vec::with_capacity(alloc, ENOUGH_GATHERED + LONGEST_PRINTED)?,
            taken: 0,
            end: 0,
        })
    }

    /// The bytes that are still to be offered.
    pub(crate) fn bytes(&self) -> &[u8]
        ensures bytes { result.now ≡ self.now.bytes }
        ensures most { length result.now ≤ most_gathered }
    {
        &self.bytes[self.taken..]
    }

    /// Whether none is.
    pub(crate) fn is_empty(&self) -> bool
        ensures { result ≡ (length self.now.bytes == 0) }
    {
        self.bytes().is_empty()
    }

    /// How many datapoints of the hand have their last byte before the end of the bytes.
    pub(crate) fn end(&self) -> usize
        ensures { result ≡ self.now.end }
    {
        self.end
    }

    /// The connection took the next `count` bytes.
    pub(crate) fn take(&mut self, count: usize)
        requires { count ≤ length self.old.bytes }
        ensures bytes { self.new.bytes ≡ drop count self.old.bytes }
        ensures end { self.new.end ≡ self.old.end }
    {
        self.taken += count;
    }

    /// Drops what is gathered.
    pub(crate) fn clear(&mut self)
        ensures bytes { self.new.bytes ≡ [] }
        ensures full { self.new.full ≡ false }
    {
        self.bytes.clear();
        self.taken = 0;
    }

    /// Gathers what is behind a place in the text of datapoints, up to the end of a line.
    pub(crate) fn gather(&mut self, points: &[Point], place: Place, line: &mut LineBuf)
        requires { place.offset < length (line_at place.index points.now) }
        ensures within { self.new.end ≤ length points.now }
        ensures behind { place.index < self.new.end }
        ensures bytes { self.new.bytes ≡ drop place.offset (printed_lines
            (take (self.new.end - place.index) (drop place.index points.now))) }
    {
        self.clear();
        let start = print_at(points, place, line);
        self.push(&line.bytes()[start..]);
        let next = place.index + 1;
        let more = self.push_lines(&points[next..], line);
        self.end = next + more;
    }

    /// Prints the lines of datapoints behind the others, until there is no room for one more, and
    /// returns how many.
    fn push_lines(&mut self, points: &[Point], line: &mut LineBuf) -> usize
        ensures within { result ≤ length points.now }
        ensures bytes { self.new.bytes ≡ self.old.bytes
            ++ printed_lines (take result points.now) }
    {
        let mut count = 0;
        for point in points {
            if self.is_full() {
                return count;
            }
            print_point(point, line);
            self.push(line.bytes());
            count += 1;
        }
        count
    }

    /// Whether there is no room for one more line.
    fn is_full(&self) -> bool
        ensures { result ≡ self.now.full }
    {
        self.bytes.len() >= ENOUGH_GATHERED
    }

    /// Puts a line behind the others. There is room for it.
    fn push(&mut self, line: &[u8])
        requires room { self.old.full ≡ false }
        requires short { length line.now ≤ longest_printed }
        ensures { self.new.bytes ≡ self.old.bytes ++ line.now }
    {
        self.bytes.extend_from_slice(line).unwrap()
    }
}
