//! What a piece of a connection gives after the rest of the piece before it.
ghost use Rattle.std.specs.Prelude.{◌≡◌, ◌+◌, ◌||◌, ℕ, true, false, not, List, [], ◌∷◌, ◌++◌, length, take, take_while, nat_le, is_err, IfOk, OnOk, OnErr};
ghost use Rattle.std.specs.List.{list_all};
ghost use Rattle.line_text.specs.Line.{points, bad_count, one_line, count_of, reading};
ghost use Rattle.line_text.specs.Connection.{fits, is_short, longest_line};
ghost use Rattle.line_text.specs.Reader.{rest_after, closes, continuation, short_lines, is_open_cut};
ghost use Rattle.line_text.specs.Split.{lines_at};

use crate::bytes::replace;
use crate::fault::LineFault;
use crate::moment::Moment;
use crate::point::Point;
use crate::shared_names::SharedNames;
use crate::split::{Cut, Lines, split_piece};
use relay_base::NoMemory;
use std::alloc::Global;

/// The longest line, in bytes, without its newline.
pub const LONGEST_LINE: usize = 16_384;

/// What a piece gives beside its datapoints, with which its reader moves on.
#[derive(Clone, Copy)]
pub struct FoundLines<'a> {
    /// How many of its lines are neither a datapoint nor blank.
    pub bad_lines: u64,
    /// What follows its last line.
    pub rest: NextRest<'a>,
}

/// What a reader keeps after a piece.
#[derive(Clone, Copy)]
pub enum NextRest<'a> {
    /// What it kept before, and then these bytes.
    Longer(&'a [u8]),
    /// These bytes, in place of what it kept before.
    New(&'a [u8]),
    /// A line is too long, and nothing more is read.
    Closed,
}

impl NextRest<'_> {
    /// Moves on what was kept before. `NoMemory` leaves it unchanged.
    pub fn move_rest(&self, rest: &mut Vec<u8>) -> Result<(), NoMemory>
        ensures moved { OnOk result (rest.new.items ≡ rest_after rest.old.items self.now) }
        ensures err { OnErr result (rest.new.items ≡ rest.old.items) }
    {
        match *self {
            NextRest::Longer(more) => rest.extend_from_slice(more)?,
            NextRest::New(text) => replace(rest, text)?,
            NextRest::Closed => {}
        }
        Ok(())
    }

    /// Whether nothing more is read.
    pub fn closes(&self) -> bool
        ensures { result ≡ closes self.now }
    {
        matches!(*self, NextRest::Closed)
    }
}

/// What lines gave beside their datapoints.
#[derive(Clone, Copy)]
struct LinesRead {
    bad_lines: u64,
    too_long: bool,
}

/// Reads a piece after the rest of the last one, and leaves that rest unchanged. After an `Err`, `out` begins
/// with what it held before.
pub(crate) fn read_piece<'a, N: SharedNames>(
    alloc: Global,
    names: &N,
    rest: &mut Vec<u8>,
    piece: &'a [u8],
    moment: Moment,
    out: &mut Vec<Point>,
) -> Result<FoundLines<'a>, NoMemory>
    ensures gained { OnOk result (out.new.items
        ≡ out.old.items ++ points
        (short_lines (continuation rest.old.items piece.now moment))) }
    ensures bad { IfOk result (λ found. found.bad_lines
        ≡ count_of (bad_count (short_lines (continuation rest.old.items piece.now moment)))) }
    ensures closed { IfOk result (λ found. closes found.rest
        ≡ not (is_open_cut (continuation rest.old.items piece.now moment))) }
    ensures rest { IfOk result
        (λ found. is_open_cut (continuation rest.old.items piece.now moment) ≡ true
        → rest_after rest.old.items found.rest
        ≡ (continuation rest.old.items piece.now moment).unended) }
    ensures same { rest.new.items ≡ rest.old.items }
    ensures kept { take (length out.old.items) out.new.items ≡ out.old.items }
{
    let Cut {
        head,
        lines,
        rest: unended,
    } = split_piece(piece);
    let Some(head) = head else {
        return Ok(longer(rest, piece));
    };
    let read = read_after_rest(alloc, names, rest, head, lines, moment, out)?;
    Ok(found(read, unended))
}

/// What more of a line that has not ended gives: a longer rest, unless it is too long.
fn longer<'a>(rest: &Vec<u8>, more: &'a [u8]) -> FoundLines<'a>
    ensures bad { result.bad_lines ≡ 0 }
    ensures closed { closes result.rest ≡ not (fits (rest.now.items ++ more.now)) }
    ensures rest { fits (rest.now.items ++ more.now) ≡ true
        → rest_after rest.now.items result.rest ≡ rest.now.items ++ more.now }
{
    let rest = if is_over_limit(rest.len(), more.len()) {
        NextRest::Closed
    } else {
        NextRest::Longer(more)
    };
    FoundLines { bad_lines: 0, rest }
}

/// What the lines of a piece and the bytes after them give: a new rest, unless one of them is too long.
fn found(read: LinesRead, unended: &[u8]) -> FoundLines<'_>
    ensures bad { result.bad_lines ≡ read.bad_lines }
    ensures closed { closes result.rest ≡ (read.too_long || not (fits unended.now)) }
    ensures rest { closes result.rest ≡ false
        → (rest : List ℕ) → rest_after rest result.rest ≡ unended.now }
{
    let rest = if read.too_long || is_over_limit(0, unended.len()) {
        NextRest::Closed
    } else {
        NextRest::New(unended)
    };
    FoundLines {
        bad_lines: read.bad_lines,
        rest,
    }
}

/// Whether two parts of a line are too long together.
fn is_over_limit(held: usize, more: usize) -> bool
    ensures { result ≡ not (nat_le (held + more) longest_line) }
{
    held > LONGEST_LINE || more > LONGEST_LINE - held
}

/// Reads the line that the rest and the head are, and then the other lines, up to the first that is too long.
fn read_after_rest<N: SharedNames>(
    alloc: Global,
    names: &N,
    rest: &mut Vec<u8>,
    head: &[u8],
    lines: Lines<'_>,
    moment: Moment,
    out: &mut Vec<Point>,
) -> Result<LinesRead, NoMemory>
    ensures gained { let all = lines_at moment ((rest.old.items ++ head.now) ∷ lines.entry) in
        OnOk result (out.new.items ≡ out.old.items ++ points (take_while is_short all)) }
    ensures bad { let all = lines_at moment ((rest.old.items ++ head.now) ∷ lines.entry) in
        IfOk result (λ read. read.bad_lines ≡ count_of (bad_count (take_while is_short all))) }
    ensures too_long { let all = lines_at moment ((rest.old.items ++ head.now) ∷ lines.entry) in
        IfOk result (λ read. read.too_long ≡ not (list_all is_short all)) }
    ensures same { rest.new.items ≡ rest.old.items }
    ensures kept { take (length out.old.items) out.new.items ≡ out.old.items }
{
    if is_over_limit(rest.len(), head.len()) {
        return Ok(LinesRead {
            bad_lines: 0,
            too_long: true,
        });
    }
    let bad = push_joined(alloc, names, rest, head, moment, out)?;
    let others = read_lines(alloc, names, lines, moment, out)?;
    Ok(LinesRead {
        bad_lines: u64::from(bad).saturating_add(others.bad_lines),
        too_long: others.too_long,
    })
}

/// Reads the line that the rest and these bytes are. They are after the rest only while the line is read, and
/// nothing is copied if the rest is empty.
fn push_joined<N: SharedNames>(
    alloc: Global,
    names: &N,
    rest: &mut Vec<u8>,
    more: &[u8],
    moment: Moment,
    out: &mut Vec<Point>,
) -> Result<bool, NoMemory>
    ensures gained { OnOk result (out.new.items
        ≡ out.old.items ++ points (one_line (rest.old.items ++ more.now) moment)) }
    ensures bad { IfOk result (λ bad. bad
        ≡ is_err (reading (record { text = rest.old.items ++ more.now; moment = moment }))) }
    ensures err { OnErr result (out.new.items ≡ out.old.items) }
    ensures same { rest.new.items ≡ rest.old.items }
{
    if rest.is_empty() {
        return push_point_of(alloc, names, more, moment, out);
    }
    let kept = rest.len();
    rest.extend_from_slice(more)?;
    let read = push_point_of(alloc, names, rest.as_slice(), moment, out);
    rest.truncate(kept);
    read
}

/// Reads lines, up to the first that is too long.
fn read_lines<N: SharedNames>(
    alloc: Global,
    names: &N,
    lines: Lines<'_>,
    moment: Moment,
    out: &mut Vec<Point>,
) -> Result<LinesRead, NoMemory>
    ensures gained { OnOk result (out.new.items
        ≡ out.old.items ++ points (take_while is_short (lines_at moment lines.entry))) }
    ensures bad { IfOk result (λ read. read.bad_lines
        ≡ count_of (bad_count (take_while is_short (lines_at moment lines.entry)))) }
    ensures too_long { IfOk result (λ read. read.too_long
        ≡ not (list_all is_short (lines_at moment lines.entry))) }
    ensures kept { take (length out.old.items) out.new.items ≡ out.old.items }
{
    let mut lines = lines;
    let mut bad_lines: u64 = 0;
    while let Some(line) = lines.next() {
        if is_over_limit(0, line.len()) {
            return Ok(LinesRead {
                bad_lines,
                too_long: true,
            });
        }
        let bad = push_point_of(alloc, names, line, moment, out)?;
        bad_lines = bad_lines.saturating_add(u64::from(bad));
    }
    Ok(LinesRead {
        bad_lines,
        too_long: false,
    })
}

/// Reads a line, adds its datapoint if it has one, and says whether the line was bad.
pub(crate) fn push_point_of<N: SharedNames>(
    alloc: Global,
    names: &N,
    text: &[u8],
    moment: Moment,
    out: &mut Vec<Point>,
) -> Result<bool, NoMemory>
    ensures gained { OnOk result (out.new.items
        ≡ out.old.items ++ points (one_line text.now moment)) }
    ensures bad { IfOk result (λ bad. bad
        ≡ is_err (reading (record { text = text.now; moment = moment }))) }
    ensures err { OnErr result (out.new.items ≡ out.old.items) }
{
    match Point::read_line_with(alloc, names, text, moment) {
        Ok(Some(point)) => {
            out.push(point)?;
            Ok(false)
        }
        Ok(None) => Ok(false),
        Err(LineFault::NoMemory) => Err(NoMemory),
        Err(_) => Ok(true),
    }
}
