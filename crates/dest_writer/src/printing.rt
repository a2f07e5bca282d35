//! The lines of the datapoints in hand.
ghost use Rattle.std.specs.Prelude.{◌≡◌, ◌≤◌, ◌*◌, ◌^◌, ◌-◌, length, drop, map};
ghost use Rattle.line_text.specs.Print.{printed_line, printed_lines, longest_printed};
ghost use Rattle.dest_writer.specs.Place.{line_at};

use crate::place::Place;
use line_text::{LineBuf, Point, laws, line_length, print_line};

/// Prints the line at a place, and returns how many of its bytes are before the place. Behind the
/// last line nothing is printed, and all that was there is before the place.
pub(crate) fn print_at(points: &[Point], place: Place, line: &mut LineBuf) -> usize
    requires { place.offset ≤ length (line_at place.index points.now) }
    ensures within { result ≤ length line.new }
    ensures bytes { drop result line.new
        ≡ drop place.offset (line_at place.index points.now) }
    ensures short { length line.new - result ≤ longest_printed }
{
    if place.index < points.len() {
        print_point(&points[place.index], line);
        place.offset
    } else {
        line.bytes().len()
    }
}

/// Prints the line of a datapoint.
pub(crate) fn print_point(point: &Point, line: &mut LineBuf)
    ensures line { line.new ≡ printed_line point.now }
    ensures short { length line.new ≤ longest_printed }
{
    // No effect at run time: the proof reads the law, and what the datapoint's parts are.
    laws::one_line();
    let _time = point.time;
    let _name = point.name.text();
    let _value = point.value.units();
    print_line(point, line);
}

/// How many bytes the lines of datapoints have.
pub(crate) fn text_length(points: &[Point]) -> usize
    requires { length points.now * longest_printed ≤ 2 ^ 64 - 1 }
    ensures { result ≡ length (printed_lines points.now) }
{
    let mut total = 0;
    for point in points {
        total += length_of(point);
    }
    total
}

/// How many bytes the line of a datapoint has.
fn length_of(point: &Point) -> usize
    ensures length { result ≡ length (printed_line point.now) }
    ensures short { result ≤ longest_printed }
{
    // No effect at run time: the proof reads the law, and what the datapoint's parts are.
    laws::one_line();
    let _time = point.time;
    let _name = point.name.text();
    let _value = point.value.units();
    line_length(point)
}
