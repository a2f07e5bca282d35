//! Where datapoints lie in the room of a queue or of a base.
ghost use Rattle.std.specs.Prelude.{◌≡◌};
ghost use Rattle.std.specs.VecDeque.{deque_capacity};

use line_text::Point;
use std::collections::VecDeque;
use std::mem;

/// Moves the datapoints to the front of their room if they are at most `most`. A ring that always goes on where it was
/// walks through all of its room, although it is nearly empty; one that begins again at the front touches only as much
/// as it held at a time.
pub(crate) fn lie_in_front(points: &mut VecDeque<Point>, most: usize)
    ensures same { points.new.items ≡ points.old.items }
    ensures room { deque_capacity points.new ≡ deque_capacity points.old }
{
    if points.len() > most {
        return;
    }
    let none = VecDeque::new(*points.allocator());
    let lying = mem::replace(points, none).into_vec();
    *points = VecDeque::from_vec(lying);
}
