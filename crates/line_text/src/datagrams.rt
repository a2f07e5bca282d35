//! Datagrams: all their lines at once.
ghost use Rattle.std.specs.Prelude.{◌≡◌, ◌<◌, ◌++◌, length, position, take, IfOk, IfSome, MatchOption, OnOk, OnErr};
ghost use Rattle.line_text.specs.Line.{points, bad_count, count_of};
ghost use Rattle.line_text.specs.Datagram.{is_line_break, lines, accepted_points, bad_lines, IsLastLine, BeginsLine};

use crate::found_lines::push_point_of;
use crate::line_end::{FirstLine, line_to};
use crate::moment::Moment;
use crate::point::Point;
use crate::shared_names::{NoNames, SharedNames};
use relay_base::NoMemory;
use std::alloc::Global;

/// Reads a datagram, received at a moment: adds the datapoints of its lines to `out`, in order, and returns
/// how many of its lines are neither a datapoint nor blank. A line ends at each byte from 10 to 13, and at
/// the end of the datagram; each line has the moment of the datagram. The only limit on a line is the
/// datagram's size, and nothing is kept from one datagram to the next. `NoMemory` leaves `out` unchanged.
pub fn datagram(
    alloc: Global,
    bytes: &[u8],
    moment: Moment,
    out: &mut Vec<Point>,
) -> Result<u64, NoMemory>
    ensures gained { OnOk result (out.new.items
        ≡ out.old.items ++ accepted_points bytes.now moment) }
    ensures bad { IfOk result (λ bad. bad ≡ count_of (bad_lines bytes.now moment)) }
    ensures err { OnErr result (out.new.items ≡ out.old.items) }
{
    datagram_with(alloc, &NoNames, bytes, moment, out)
}

/// Like [`datagram`], but shares a name that `names` remembers, which takes no memory.
pub fn datagram_with<N: SharedNames>(
    alloc: Global,
    names: &N,
    bytes: &[u8],
    moment: Moment,
    out: &mut Vec<Point>,
) -> Result<u64, NoMemory>
    ensures gained { OnOk result (out.new.items
        ≡ out.old.items ++ accepted_points bytes.now moment) }
    ensures bad { IfOk result (λ bad. bad ≡ count_of (bad_lines bytes.now moment)) }
    ensures err { OnErr result (out.new.items ≡ out.old.items) }
{
    let points = out.len();
    match read_lines(alloc, names, bytes, moment, out) {
        Ok(bad) => Ok(bad),
        Err(fault) => {
            out.truncate(points);
            Err(fault)
        }
    }
}

/// Reads the lines of a datagram. After an `Err`, `out` begins with what it held before.
fn read_lines<N: SharedNames>(
    alloc: Global,
    names: &N,
    text: &[u8],
    moment: Moment,
    out: &mut Vec<Point>,
) -> Result<u64, NoMemory>
    ensures gained { OnOk result (out.new.items ≡ out.old.items ++ points (lines text.now moment)) }
    ensures bad { IfOk result (λ bad. bad ≡ count_of (bad_count (lines text.now moment))) }
    ensures kept { OnErr result (take (length out.old.items) out.new.items ≡ out.old.items) }
{
    let mut text = text;
    let mut bad_lines: u64 = 0;
    while let Some(line) = first_line(text) {
        let bad = push_point_of(alloc, names, line.text, moment, out)?;
        bad_lines = bad_lines.saturating_add(u64::from(bad));
        text = line.rest;
    }
    let last = push_point_of(alloc, names, text, moment, out)?;
    Ok(bad_lines.saturating_add(u64::from(last)))
}

/// The first line of a text, or `None` if the text is the last one.
fn first_line(text: &[u8]) -> Option<FirstLine<'_>>
    ensures line { MatchOption result (IsLastLine text.now)
        (λ line. BeginsLine text.now line.text.now line.rest.now) }
    ensures shorter { IfSome result (λ line. length line.rest.now < length text.now) }
{
    Some(line_to(text, place_of_break(text)?))
}

/// Where the first line of a text ends, or `None` if it is the last one.
fn place_of_break(text: &[u8]) -> Option<usize>
    ensures place { result ≡ position is_line_break text.now }
    ensures within { IfSome result (λ at. at < length text.now) }
{
    text.iter().position(|b| b'\n' <= *b && *b <= b'\r')
}
