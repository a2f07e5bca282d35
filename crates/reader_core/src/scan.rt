//! The three kinds of reading, as one.
ghost use Rattle.std.specs.Prelude.{◌≡◌, true, false, [], IfOk, OnOk, OnErr};
ghost use Rattle.line_text.specs.Connection.{arrivals};
ghost use Rattle.line_text.specs.Reader.{is_too_long as lines_too_long};
ghost use Rattle.pickle_subset.specs.Reader.{is_too_long as frames_too_long};
ghost use Rattle.reader_core.specs.Input.{Stream};
ghost use Rattle.reader_core.specs.declared.scan.Scan.TheVariants.{Datagrams};
ghost use Rattle.reader_core.specs.Scan.{kind_of, is_closed, rest_of, Keeps, PieceFound, scan_after, fits, counts_found, gone_on, is_too_long};

use crate::fault::ReaderEnd;
use crate::kind::ReaderKind;
use line_text::{FeedEnd, FoundLines, LineReader, Moment, Point, datagram_with};
use pickle_subset::{FoundFrames, FrameEnd, PickleReader};
use reader_counts::ReaderCounts;
use relay_base::NoMemory;
use router::Plan;
use std::alloc::Global;

/// What a reader keeps of the current connection. It keeps nothing of datagrams.
#[derive(Drop)]
pub(crate) enum Scan {
    Lines(LineReader),
    Pickles(PickleReader),
    Datagrams,
}

/// What a piece gives beside its datapoints, with which its reader moves on.
#[derive(Clone, Copy)]
pub(crate) enum FoundInPiece<'a> {
    InLines(FoundLines<'a>),
    InFrames(FoundFrames<'a>),
    InDatagram { bad_lines: u64 },
}

impl Scan {
    /// What a reader keeps of a connection with no input yet.
    pub(crate) fn new(alloc: Global, kind: ReaderKind) -> Scan
        ensures kind { kind_of result ≡ kind }
        ensures keeps { Keeps result [] }
        ensures open { is_closed result ≡ false }
    {
        match kind {
            ReaderKind::Line => Scan::Lines(LineReader::new(alloc)),
            ReaderKind::Pickle => Scan::Pickles(PickleReader::new(alloc)),
            ReaderKind::Datagram => Scan::Datagrams,
        }
    }

    /// What is read.
    pub(crate) fn kind(&self) -> ReaderKind
        ensures { result ≡ kind_of self.now }
    {
        match self {
            Scan::Lines(_) => ReaderKind::Line,
            Scan::Pickles(_) => ReaderKind::Pickle,
            Scan::Datagrams => ReaderKind::Datagram,
        }
    }

    /// Begins another connection, with no input yet.
    pub(crate) fn begin(&mut self, alloc: Global)
        ensures kind { kind_of self.new ≡ kind_of self.old }
        ensures keeps { Keeps self.new [] }
        ensures open { is_closed self.new ≡ false }
        ensures datagrams { self.old ≡ Datagrams → self.new ≡ self.old }
    {
        match self.kind() {
            ReaderKind::Datagram => {}
            kind => *self = Scan::new(alloc, kind),
        }
    }

    /// Whether nothing more of the connection is read.
    pub(crate) fn is_closed(&self) -> bool
        ensures { result ≡ is_closed self.now }
    {
        match self {
            Scan::Lines(reader) => reader.is_closed(),
            Scan::Pickles(reader) => reader.is_closed(),
            Scan::Datagrams => false,
        }
    }

    /// The bytes of the current connection behind its last whole line or frame, if it is not closed.
    pub(crate) fn rest(&self) -> &[u8]
        ensures { result.now ≡ rest_of self.now }
    {
        match self {
            Scan::Lines(reader) => reader.rest(),
            Scan::Pickles(reader) => reader.rest(),
            Scan::Datagrams => &[],
        }
    }

    /// Finds what a piece gives, and changes nothing: adds its datapoints to `out`, and returns
    /// what [`Scan::move_on`] moves on with. It shares the names that the plan remembers.
    pub(crate) fn find<'a>(
        &mut self,
        alloc: Global,
        plan: &mut Plan,
        piece: &'a [u8],
        moment: Moment,
        out: &mut Vec<Point>,
    ) -> Result<FoundInPiece<'a>, NoMemory>
        ensures found { IfOk result (λ found. (connection : Stream) → Keeps self.old connection
            → PieceFound self.old (gone_on (kind_of self.old) connection)
            (arrivals piece.now moment)
            out.old.items out.new.items found) }
        ensures fits { IfOk result (λ found. fits self.old found ≡ true) }
        ensures same { self.new ≡ self.old }
        ensures plan { plan.new ≡ plan.old }
    {
        match self {
            Scan::Lines(reader) => {
                plan.prefetch(piece);
                let found = reader.find(&*plan, piece, moment, out)?;
                Ok(FoundInPiece::InLines(found))
            }
            Scan::Pickles(reader) => {
                let found = reader.find(&*plan, piece, moment, out)?;
                Ok(FoundInPiece::InFrames(found))
            }
            Scan::Datagrams => {
                plan.prefetch(piece);
                let bad_lines = datagram_with(alloc, &*plan, piece, moment, out)?;
                Ok(FoundInPiece::InDatagram { bad_lines })
            }
        }
    }

    /// Moves on over the piece for which this was found. `NoMemory` leaves everything unchanged.
    pub(crate) fn move_on(&mut self, found: &FoundInPiece<'_>) -> Result<ReaderEnd, NoMemory>
        requires { fits self.old found.now ≡ true }
        ensures moved { OnOk result (self.new ≡ scan_after self.old found.now) }
        ensures end { IfOk result (λ end. is_too_long end ≡ is_closed self.new) }
        ensures err { OnErr result (self.new ≡ self.old) }
    {
        match self {
            Scan::Lines(reader) => match found {
                FoundInPiece::InLines(found) => Ok(end_of_lines(reader.move_on(found)?)),
                _ => unreachable!(),
            },
            Scan::Pickles(reader) => match found {
                FoundInPiece::InFrames(found) => Ok(end_of_frames(reader.move_on(found)?)),
                _ => unreachable!(),
            },
            Scan::Datagrams => Ok(ReaderEnd::Open),
        }
    }
}

impl FoundInPiece<'_> {
    /// What was wrong with the piece, and how many names were bad.
    pub(crate) fn counts(&self, bad_names: u64) -> ReaderCounts
        ensures { result ≡ counts_found self.now bad_names }
    {
        let zero = ReaderCounts {
            bad_lines: 0,
            bad_pickles: 0,
            bad_rows: 0,
            bad_names,
        };
        match self {
            FoundInPiece::InLines(found) => ReaderCounts {
                bad_lines: found.bad_lines,
                ..zero
            },
            FoundInPiece::InFrames(found) => ReaderCounts {
                bad_pickles: found.bad_pickles,
                bad_rows: found.bad_rows,
                ..zero
            },
            FoundInPiece::InDatagram { bad_lines } => ReaderCounts {
                bad_lines: *bad_lines,
                ..zero
            },
        }
    }
}

/// Whether the connection goes on after a piece of lines.
fn end_of_lines(end: FeedEnd) -> ReaderEnd
    ensures { is_too_long result ≡ lines_too_long end }
{
    match end {
        FeedEnd::Open => ReaderEnd::Open,
        FeedEnd::LineTooLong => ReaderEnd::TooLong,
    }
}

/// Whether the connection goes on after a piece of frames.
fn end_of_frames(end: FrameEnd) -> ReaderEnd
    ensures { is_too_long result ≡ frames_too_long end }
{
    match end {
        FrameEnd::Open => ReaderEnd::Open,
        FrameEnd::FrameTooLong => ReaderEnd::TooLong,
    }
}
