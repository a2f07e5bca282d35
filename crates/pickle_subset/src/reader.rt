//! Readers of connections: pickles from pieces, however the connection is cut into pieces.
ghost use Rattle.std.specs.Prelude.{◌≡◌, ◌≤◌, true, List, [], ◌++◌, length, take, IfOk, OnOk, OnErr};
ghost use Rattle.line_text.specs.Connection.{Arrival, arrivals};
ghost use Rattle.line_text.specs.Reader.{GainsAlike, CountsMore};
ghost use Rattle.pickle_subset.specs.Accepted.{accepted_points, bad_pickles, bad_rows};
ghost use Rattle.pickle_subset.specs.Reader.{Represents, GivesNoMore, model_after, is_too_long};

use crate::frames::{FoundFrames, read_piece};
use crate::no_names::NoNames;
use line_text::{Moment, NextRest, Point, SharedNames};
use relay_base::NoMemory;
use std::alloc::Global;
use std::marker::Model;

/// Whether a connection goes on after a piece.
#[derive(Clone, Copy, Debug)]
pub enum FrameEnd {
    /// It goes on.
    Open,
    /// A frame's length was over 1,048,576, so nothing more of the connection is read.
    FrameTooLong,
}

/// Reads the pickles of one connection from its pieces. What follows the last whole frame is kept for the next piece.
///
/// In clauses it is what it keeps: the rest, whether the connection is closed, how many pickles could not be read,
/// and how many rows of the others gave no datapoint.
#[derive(Drop)]
pub struct PickleReader {
    alloc: Global,
    rest: Vec<u8>,
    closed: bool,
    bad_pickles: u64,
    bad_rows: u64,
}

impl Model for PickleReader {
    ghost use Rattle.pickle_subset.specs.Reader.{ReaderModel};

    ghost Value = { ReaderModel };

    ghost view = { λ r. record {
      rest = r.rest.items;
      closed = r.closed;
      bad_pickles = r.bad_pickles;
      bad_rows = r.bad_rows;
    } };
}

impl PickleReader {
    /// A reader of a connection with no input yet.
    pub fn new(alloc: Global) -> PickleReader
        ensures { Represents result [] }
    {
        PickleReader {
            alloc,
            rest: Vec::new(alloc),
            closed: false,
            bad_pickles: 0,
            bad_rows: 0,
        }
    }

    /// Reads the next piece of the connection, received at a moment: adds the datapoints of its frames to `out`, in
    /// order, and keeps what follows the last whole frame. A frame is a length of four bytes, the highest first, and
    /// a pickle of that length; its moment is that of the piece that held its last byte. The reader counts a pickle
    /// that it cannot read, and a row that gives no datapoint, and goes on.
    ///
    /// Returns `FrameTooLong` once the four bytes of a length over 1,048,576 are there. It still adds the datapoints
    /// of the frames before that one, reads nothing more, and returns the same for each later piece. `NoMemory`
    /// leaves the reader and `out` unchanged.
    pub fn feed(
        &mut self,
        piece: &[u8],
        moment: Moment,
        out: &mut Vec<Point>,
    ) -> Result<FrameEnd, NoMemory>
        ensures represents { IfOk result (λ _. (c : List Arrival) → Represents self.old c
            → Represents self.new (c ++ arrivals piece.now moment)) }
        ensures gained { IfOk result (λ _. (c : List Arrival) → Represents self.old c
            → GainsAlike out.old.items out.new.items (accepted_points c)
            (accepted_points (c ++ arrivals piece.now moment))) }
        ensures end { IfOk result (λ end. is_too_long end ≡ self.new.closed) }
        ensures ends { IfOk result
            (λ end. is_too_long end ≡ true → (c : List Arrival) → Represents self.old c
            → GivesNoMore (c ++ arrivals piece.now moment)) }
        ensures err { OnErr result ((self.new ≡ self.old) × (out.new.items ≡ out.old.items)) }
    {
        let before = out.len();
        let found = self.find(&NoNames, piece, moment, out)?;
        match self.move_on(&found) {
            Ok(end) => Ok(end),
            Err(fault) => {
                out.truncate(before);
                Err(fault)
            }
        }
    }

    /// Finds what the next piece of the connection gives, received at a moment, and leaves the reader unchanged: adds
    /// the datapoints of its frames to `out`, in order, and returns what [`PickleReader::move_on`] moves on with. A
    /// caller that can still refuse the datapoints calls these two in place of [`PickleReader::feed`]: until it calls
    /// `move_on`, the reader is as it was before the piece. A path whose name is remembered shares it, and takes no
    /// memory for it. `NoMemory` leaves `out` unchanged.
    pub fn find<'a, N: SharedNames>(
        &mut self,
        names: &N,
        piece: &'a [u8],
        moment: Moment,
        out: &mut Vec<Point>,
    ) -> Result<FoundFrames<'a>, NoMemory>
        ensures represents { IfOk result (λ found. (c : List Arrival) → Represents self.old c
            → Represents (model_after self.old found) (c ++ arrivals piece.now moment)) }
        ensures gained { IfOk result (λ _. (c : List Arrival) → Represents self.old c
            → GainsAlike out.old.items out.new.items (accepted_points c)
            (accepted_points (c ++ arrivals piece.now moment))) }
        ensures bad_pickles { IfOk result (λ found. (c : List Arrival) → Represents self.old c
            → CountsMore found.bad_pickles (bad_pickles c)
            (bad_pickles (c ++ arrivals piece.now moment))) }
        ensures bad_rows { IfOk result (λ found. (c : List Arrival) → Represents self.old c
            → CountsMore found.bad_rows (bad_rows c) (bad_rows (c ++ arrivals piece.now moment))) }
        ensures kept { take (length out.old.items) out.new.items ≡ out.old.items }
        ensures err { OnErr result (out.new.items ≡ out.old.items) }
        ensures same { self.new ≡ self.old }
    {
        if self.closed {
            return Ok(FoundFrames {
                bad_pickles: 0,
                bad_rows: 0,
                rest: NextRest::Closed,
            });
        }
        let kept = self.rest.len();
        let points = out.len();
        match read_piece(self.alloc, names, &mut self.rest, piece, moment, out) {
            Ok(found) => {
                self.rest.truncate(kept);
                Ok(found)
            }
            Err(fault) => {
                self.rest.truncate(kept);
                out.truncate(points);
                Err(fault)
            }
        }
    }

    /// Moves on over the piece for which this was found. `NoMemory` leaves the reader unchanged, and the caller may
    /// call it again.
    pub fn move_on(&mut self, found: &FoundFrames<'_>) -> Result<FrameEnd, NoMemory>
        ensures moved { OnOk result (self.new ≡ model_after self.old found.now) }
        ensures end { IfOk result (λ end. is_too_long end ≡ self.new.closed) }
        ensures err { OnErr result (self.new ≡ self.old) }
    {
        found.rest.move_rest(&mut self.rest)?;
        self.closed = self.closed || found.rest.closes();
        self.bad_pickles = self.bad_pickles.saturating_add(found.bad_pickles);
        self.bad_rows = self.bad_rows.saturating_add(found.bad_rows);
        Ok(end_of(self.closed))
    }

    /// What is kept of a connection that is not closed: the bytes behind its last whole frame. Another reader that is fed these
    /// first reads on where this one is.
    pub fn rest(&self) -> &[u8]
        ensures { result.now ≡ self.now.rest }
    {
        self.rest.as_slice()
    }

    /// Whether nothing more of the connection is read.
    pub fn is_closed(&self) -> bool
        ensures { result ≡ self.now.closed }
    {
        self.closed
    }

    /// How many pickles could not be read. The count stays at `u64::MAX` once it is there.
    pub fn bad_pickles(&self) -> u64
        ensures { result ≡ self.now.bad_pickles }
    {
        self.bad_pickles
    }

    /// How many rows of the pickles that were read gave no datapoint. The count stays at `u64::MAX` once it is there.
    pub fn bad_rows(&self) -> u64
        ensures { result ≡ self.now.bad_rows }
    {
        self.bad_rows
    }
}

/// The answer for a connection that is closed, or is not.
fn end_of(closed: bool) -> FrameEnd
    ensures { is_too_long result ≡ closed }
{
    if closed {
        FrameEnd::FrameTooLong
    } else {
        FrameEnd::Open
    }
}
