//! The frames of a piece.
ghost use Rattle.std.specs.Prelude.{◌≡◌, ◌+◌, ◌++◌, List, ℕ, false, length, take, if◌then◌else◌, IfOk, OnOk};
ghost use Rattle.line_text.specs.Line.{count_of};
ghost use Rattle.line_text.specs.Connection.{arrivals};
ghost use Rattle.line_text.specs.Reader.{closes, rest_after};
ghost use Rattle.pickle_subset.specs.Frame.{reception, front, Partial, is_over};
ghost use Rattle.pickle_subset.specs.Accepted.{points, bad_pickle_count, bad_rows_count};

use crate::frame::{Front, LENGTH_SIZE, front_of};
use crate::frame_points::{FrameFaults, read_frame};
use line_text::{Moment, NextRest, Point, SharedNames};
use relay_base::NoMemory;
use std::alloc::Global;

/// What a piece gives beside its datapoints, with which its reader moves on.
#[derive(Clone, Copy)]
pub struct FoundFrames<'a> {
    /// How many of its pickles could not be read.
    pub bad_pickles: u64,
    /// How many rows of the others give no datapoint.
    pub bad_rows: u64,
    /// What follows its last whole frame.
    pub rest: NextRest<'a>,
}

/// Adds the datapoints of the frames that a rest and a piece begin with. The end of a frame may be left after the
/// rest. After an `Err`, `out` begins with what it held before.
///
/// Reads a frame that is whole in the piece there, and puts together only the frame that the rest begins. A
/// remembered name is shared.
pub fn read_piece<'a, N: SharedNames>(
    alloc: Global,
    names: &N,
    rest: &mut Vec<u8>,
    piece: &'a [u8],
    moment: Moment,
    out: &mut Vec<Point>,
) -> Result<FoundFrames<'a>, NoMemory>
    ensures gained { OnOk result (front rest.old.items ≡ Partial → out.new.items ≡ out.old.items
        ++ points (reception (arrivals (rest.old.items ++ piece.now) moment)).frames) }
    ensures bad_pickles { IfOk result (λ found. front rest.old.items ≡ Partial
        → found.bad_pickles ≡ count_of
        (bad_pickle_count (reception (arrivals (rest.old.items ++ piece.now) moment)).frames)) }
    ensures bad_rows { IfOk result (λ found. front rest.old.items ≡ Partial
        → found.bad_rows ≡ count_of
        (bad_rows_count (reception (arrivals (rest.old.items ++ piece.now) moment)).frames)) }
    ensures closed { IfOk result (λ found. front rest.old.items ≡ Partial → closes found.rest
        ≡ (reception (arrivals (rest.old.items ++ piece.now) moment)).closed) }
    ensures partial { IfOk result (λ found. front rest.old.items ≡ Partial
        → closes found.rest ≡ false → rest_after rest.old.items found.rest
        ≡ (reception (arrivals (rest.old.items ++ piece.now) moment)).partial) }
    ensures kept { take (length rest.old.items) rest.new.items ≡ rest.old.items }
    ensures kept_out { take (length out.old.items) out.new.items ≡ out.old.items }
{
    if rest.is_empty() {
        return read_frames(alloc, names, piece, moment, out);
    }
    match front_of(rest.as_slice(), piece) {
        Front::Partial => Ok(nothing_more(NextRest::Longer(piece))),
        Front::TooLong => Ok(nothing_more(NextRest::Closed)),
        Front::Whole { end, rest: others } => {
            rest.extend_from_slice(end)?;
            let first = read_frame(alloc, names, &rest[LENGTH_SIZE..], moment, out)?;
            let found = read_frames(alloc, names, others, moment, out)?;
            Ok(with_first(first, found))
        }
    }
}

/// What is found in a frame and in those after it.
fn with_first<'a>(first: FrameFaults, others: FoundFrames<'a>) -> FoundFrames<'a>
    ensures bad_pickles { result.bad_pickles
        ≡ count_of (others.entry.bad_pickles + (if first.is_bad then 1 else 0)) }
    ensures bad_rows { result.bad_rows
        ≡ count_of (others.entry.bad_rows + first.bad_rows) }
    ensures rest { result.rest ≡ others.entry.rest }
{
    FoundFrames {
        bad_pickles: others.bad_pickles.saturating_add(u64::from(first.is_bad)),
        bad_rows: others.bad_rows.saturating_add(first.bad_rows),
        rest: others.rest,
    }
}

/// What is found if no frame is whole.
fn nothing_more(rest: NextRest<'_>) -> FoundFrames<'_>
    ensures bad_pickles { result.bad_pickles ≡ 0 }
    ensures bad_rows { result.bad_rows ≡ 0 }
    ensures rest { result.rest ≡ rest.entry }
{
    FoundFrames {
        bad_pickles: 0,
        bad_rows: 0,
        rest,
    }
}

/// Adds the datapoints of the frames that a piece begins with. After an `Err`, `out` begins with what it held before.
fn read_frames<'a, N: SharedNames>(
    alloc: Global,
    names: &N,
    piece: &'a [u8],
    moment: Moment,
    out: &mut Vec<Point>,
) -> Result<FoundFrames<'a>, NoMemory>
    ensures gained { OnOk result
        (out.new.items ≡ out.old.items ++ points (reception (arrivals piece.now moment)).frames) }
    ensures bad_pickles { IfOk result (λ found. found.bad_pickles
        ≡ count_of (bad_pickle_count (reception (arrivals piece.now moment)).frames)) }
    ensures bad_rows { IfOk result (λ found. found.bad_rows
        ≡ count_of (bad_rows_count (reception (arrivals piece.now moment)).frames)) }
    ensures closed { IfOk result
        (λ found. closes found.rest ≡ (reception (arrivals piece.now moment)).closed) }
    ensures partial { IfOk result (λ found. closes found.rest ≡ false → (rest : List ℕ)
        → rest_after rest found.rest ≡ (reception (arrivals piece.now moment)).partial) }
    ensures kept { take (length out.old.items) out.new.items ≡ out.old.items }
{
    let mut left = piece;
    let mut bad_pickles: u64 = 0;
    let mut bad_rows: u64 = 0;
    while let Front::Whole { end, rest } = front_of(&[], left) {
        let faults = read_frame(alloc, names, &end[LENGTH_SIZE..], moment, out)?;
        bad_pickles = bad_pickles.saturating_add(u64::from(faults.is_bad));
        bad_rows = bad_rows.saturating_add(faults.bad_rows);
        left = rest;
    }
    Ok(FoundFrames {
        bad_pickles,
        bad_rows,
        rest: rest_of(left),
    })
}

/// What a reader keeps of bytes that do not begin with a whole frame.
fn rest_of(left: &[u8]) -> NextRest<'_>
    ensures closed { closes result ≡ is_over (front left.now) }
    ensures rest { closes result ≡ false → (rest : List ℕ) → rest_after rest result ≡ left.now }
{
    match front_of(&[], left) {
        Front::TooLong => NextRest::Closed,
        _ => NextRest::New(left),
    }
}
