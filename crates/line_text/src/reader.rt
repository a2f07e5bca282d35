//! Readers of connections: lines from pieces, however the connection is cut into pieces.
ghost use Rattle.std.specs.Prelude.{◌≡◌, true, List, [], ◌++◌, length, take, IfOk, OnOk, OnErr};
ghost use Rattle.line_text.specs.Connection.{Arrival, arrivals, accepted_points, bad_lines};
ghost use Rattle.line_text.specs.Reader.{Represents, GainsAlike, GivesNoMore, CountsMore, model_after, is_too_long};

use crate::found_lines::{FoundLines, NextRest, read_piece};
use crate::moment::Moment;
use crate::point::Point;
use crate::shared_names::{NoNames, SharedNames};
use relay_base::NoMemory;
use std::alloc::Global;
use std::marker::Model;

/// Whether a connection goes on after a piece.
#[derive(Clone, Copy, Debug)]
pub enum FeedEnd {
    /// It goes on.
    Open,
    /// A line was too long, so nothing more of the connection is read.
    LineTooLong,
}

/// Reads the lines of one connection from its pieces. What follows the last newline is kept for the next
/// piece, at most 16,384 bytes.
///
/// In clauses it is what it keeps: the rest, whether the connection is closed, and how many lines were bad.
#[derive(Drop)]
pub struct LineReader {
    alloc: Global,
    rest: Vec<u8>,
    closed: bool,
    bad_lines: u64,
}

impl Model for LineReader {
    ghost use Rattle.line_text.specs.Reader.{ReaderModel};

    ghost Value = { ReaderModel };

    ghost view = { λ r. record { rest = r.rest.items; closed = r.closed; bad = r.bad_lines } };
}

impl LineReader {
    /// A reader of a connection with no input yet.
    pub fn new(alloc: Global) -> LineReader
        ensures { Represents result [] }
    {
        LineReader {
            alloc,
            rest: Vec::new(alloc),
            closed: false,
            bad_lines: 0,
        }
    }

    /// Reads the next piece of the connection, received at a moment: adds the datapoints of its lines to `out`, in
    /// order, and keeps what follows the last newline. A line ends at byte 10, and the moment of a line is that of
    /// the piece that held its byte 10.
    ///
    /// Returns `LineTooLong` once a line, or the part of a line received so far, is over 16,384 bytes. It still adds
    /// the datapoints of the lines before that one, reads nothing more, and returns the same for each later piece.
    /// `NoMemory` leaves the reader and `out` unchanged.
    pub fn feed(
        &mut self,
        piece: &[u8],
        moment: Moment,
        out: &mut Vec<Point>,
    ) -> Result<FeedEnd, NoMemory>
        ensures represents { IfOk result (λ _. (c : List Arrival) → Represents self.old c
            → Represents self.new (c ++ arrivals piece.now moment)) }
        ensures gained { IfOk result (λ _. (c : List Arrival) → Represents self.old c
            → GainsAlike out.old.items out.new.items (accepted_points c)
            (accepted_points (c ++ arrivals piece.now moment))) }
        ensures end { IfOk result (λ end. is_too_long end ≡ self.new.closed) }
        ensures ends { IfOk result (λ end. is_too_long end ≡ true → (c : List Arrival)
            → Represents self.old c
            → GivesNoMore (c ++ arrivals piece.now moment)) }
        ensures err { OnErr result ((self.new ≡ self.old) × (out.new.items ≡ out.old.items)) }
    {
        let before = out.len();
        let found = self.find(&NoNames, piece, moment, out)?;
        match self.move_on(&found) {
            Ok(end) => Ok(end),
            Err(fault) => {
                out.truncate(before);
                Err(fault)
            }
        }
    }

    /// Finds what the next piece of the connection gives, received at a moment, and leaves the reader unchanged: adds
    /// the datapoints of its lines to `out`, in order, and returns what [`LineReader::move_on`] moves on with. A
    /// caller that can still refuse the datapoints calls these two in place of [`LineReader::feed`]: until it calls
    /// `move_on`, the reader is as it was before the piece. A name that `names` remembers is shared, and takes no
    /// memory. `NoMemory` leaves `out` unchanged.
    pub fn find<'a, N: SharedNames>(
        &mut self,
        names: &N,
        piece: &'a [u8],
        moment: Moment,
        out: &mut Vec<Point>,
    ) -> Result<FoundLines<'a>, NoMemory>
        ensures represents { IfOk result (λ found. (c : List Arrival) → Represents self.old c
            → Represents (model_after self.old found) (c ++ arrivals piece.now moment)) }
        ensures gained { IfOk result (λ _. (c : List Arrival) → Represents self.old c
            → GainsAlike out.old.items out.new.items (accepted_points c)
            (accepted_points (c ++ arrivals piece.now moment))) }
        ensures bad { IfOk result (λ found. (c : List Arrival) → Represents self.old c
            → CountsMore found.bad_lines (bad_lines c)
            (bad_lines (c ++ arrivals piece.now moment))) }
        ensures kept { take (length out.old.items) out.new.items ≡ out.old.items }
        ensures err { OnErr result (out.new.items ≡ out.old.items) }
        ensures same { self.new ≡ self.old }
    {
        if self.closed {
            return Ok(FoundLines {
                bad_lines: 0,
                rest: NextRest::Closed,
            });
        }
        let points = out.len();
        let Ok(found) = read_piece(self.alloc, names, &mut self.rest, piece, moment, out) else {
            out.truncate(points);
            return Err(NoMemory);
        };
        Ok(found)
    }

    /// Moves on over the piece for which this was found. `NoMemory` leaves the reader unchanged, and the caller may
    /// call it again.
    pub fn move_on(&mut self, found: &FoundLines<'_>) -> Result<FeedEnd, NoMemory>
        ensures moved { OnOk result (self.new ≡ model_after self.old found.now) }
        ensures end { IfOk result (λ end. is_too_long end ≡ self.new.closed) }
        ensures err { OnErr result (self.new ≡ self.old) }
    {
        found.rest.move_rest(&mut self.rest)?;
        self.closed = self.closed || found.rest.closes();
        self.bad_lines = self.bad_lines.saturating_add(found.bad_lines);
        Ok(end_of(self.closed))
    }

    /// What is kept of a connection that is not closed: the bytes behind its last newline. Another reader that is fed these
    /// first reads on where this one is.
    pub fn rest(&self) -> &[u8]
        ensures { result.now ≡ self.now.rest }
    {
        self.rest.as_slice()
    }

    /// Whether nothing more of the connection is read.
    pub fn is_closed(&self) -> bool
        ensures { result ≡ self.now.closed }
    {
        self.closed
    }

    /// How many lines were neither a datapoint nor blank. The count stays at `u64::MAX` once it is there.
    pub fn bad_lines(&self) -> u64
        ensures { result ≡ self.now.bad }
    {
        self.bad_lines
    }
}

/// The answer for a connection that is closed, or is not.
fn end_of(closed: bool) -> FeedEnd
    ensures { is_too_long result ≡ closed }
{
    if closed {
        FeedEnd::LineTooLong
    } else {
        FeedEnd::Open
    }
}
