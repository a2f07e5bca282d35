//! Places in the text of datapoints.
ghost use Rattle.std.specs.Prelude.{◌≡◌, ◌<◌, ◌≤◌, ◌+◌, length, map, IfSome, IfNone};
ghost use Rattle.line_text.specs.Print.{printed_lines};
ghost use Rattle.dest_writer.specs.Place.{line_at, position, IsPlace};

use line_text::{Point, line_length};

/// A place in the text of datapoints: the index of a datapoint, and how many bytes of its line are
/// before the place.
#[derive(Clone, Copy)]
pub(crate) struct Place {
    pub(crate) index: usize,
    pub(crate) offset: usize,
}

/// The place `count` bytes behind another place in the first line of datapoints, or `None` if their
/// text has fewer.
pub(crate) fn place_behind(points: &[Point], offset: usize, count: usize) -> Option<Place>
    requires { offset ≤ length (line_at 0 points.now) }
    ensures place { IfSome result (λ place. IsPlace place points.now) }
    ensures position { IfSome result (λ place.
        position place points.now ≡ offset + count) }
    ensures few { IfNone result
        (length (printed_lines points.now) < offset + count) }
{
    let mut index = 0;
    let mut before = offset;
    let mut left = count;
    for point in points {
        let length = line_length(point) - before;
        if left < length {
            let offset = before + left;
            return Some(Place { index, offset });
        }
        left -= length;
        before = 0;
        index += 1;
    }
    if left > 0 {
        return None;
    }
    Some(Place { index, offset: 0 })
}
