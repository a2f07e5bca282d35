//! The datapoints that a queue held at its end.
ghost use Rattle.std.specs.Prelude.{◌≡◌, ℕ, ◌≤◌, ◌↔◌, [], ◌+◌, ◌++◌, length, min, take, drop, IsTrue};

use crate::hand::Hand;
use line_text::Point;
use std::alloc::Global;
use std::collections::VecDeque;
use std::marker::Model;

/// The datapoints that a queue held when it ended, the oldest first, without what it counted and recorded. They lie where they
/// lay in the queue: none was copied, and the queue's room for them goes with them.
///
/// In clauses it is its datapoints.
#[derive(Drop)]
pub struct QueuedPoints {
    points: VecDeque<Point>,
}

impl Model for QueuedPoints {
    ghost use Rattle.std.specs.Prelude.{List};
    ghost use Rattle.line_text.specs.Datapoint.{Datapoint};

    ghost Value = { List Datapoint };

    ghost view = { λ q. q.points.items };
}

impl QueuedPoints {
    /// No datapoints. It takes no memory.
    pub fn none(alloc: Global) -> QueuedPoints
        ensures { result ≡ [] }
    {
        QueuedPoints {
            points: VecDeque::new(alloc),
        }
    }

    /// These datapoints.
    pub(crate) fn of(points: VecDeque<Point>) -> QueuedPoints
        ensures { result ≡ points.items }
    {
        QueuedPoints { points }
    }

    /// How many datapoints there are.
    pub fn len(&self) -> usize
        ensures { result ≡ length self.now }
    {
        self.points.len()
    }

    /// Whether there is no datapoint.
    pub fn is_empty(&self) -> bool
        ensures { IsTrue result ↔ (self.now ≡ []) }
    {
        self.points.is_empty()
    }

    /// Adds those of a later queue behind them, the oldest first, as many as their own room has places for and at most `most`
    /// in all; the others are dropped. Returns how many these are. If there are none yet, the later queue takes their place,
    /// with its room. It takes no memory.
    pub fn add(&mut self, later: QueuedPoints, most: usize) -> usize
        ensures added { (kept : ℕ) × (self.new ≡ self.old ++ take kept later)
            × (length later ≡ min kept (length later) + result) }
        // With none before, all of them go on.
        ensures all { self.old ≡ [] → (self.new ≡ later) × (result ≡ 0) }
    {
        let QueuedPoints { mut points } = later;
        if self.points.is_empty() {
            self.points = points;
            return 0;
        }
        let places = most.min(self.points.capacity());
        let count = points.len();
        points.truncate(places.saturating_sub(self.points.len()));
        let dropped = count - points.len();
        self.points.append(&mut points).unwrap();
        dropped
    }

    /// Hands over the oldest datapoints, at most `limit`, and returns how many. The hand is empty ([`Hand::is_empty`]) and has
    /// room for that many ([`Hand::room`]). It takes no memory.
    pub fn take(&mut self, limit: usize, hand: &mut Hand) -> usize
        requires empty { hand.old.points ≡ [] }
        requires room { limit ≤ hand.old.room }
        ensures handed { hand.new.points ≡ take limit self.old }
        ensures left { self.new ≡ drop limit self.old }
        ensures count { result ≡ length hand.new.points }
        ensures room { hand.new.room ≡ hand.old.room }
    {
        hand.move_from(&mut self.points, limit)
    }
}
