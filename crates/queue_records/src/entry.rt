//! An entry of a record, and the step that it records.
ghost use Rattle.std.specs.Prelude.{◌≡◌, ℕ, ◌+◌, ◌-◌, ◌*◌, ◌<◌, ◌≤◌, ◌^◌, ◌↔◌, IsTrue};
ghost use Rattle.std.specs.Arc.{arc_value};
ghost use Rattle.dest_queue.specs.Step.{recorded_of};
ghost use Rattle.queue_records.specs.Made.{offer_of};
ghost use Rattle.queue_records.specs.Numbered.{StepAt, key_of, step_of_offer, step_of_take};
ghost use Rattle.queue_records.specs.TakenBatch.{take_of};

use crate::made::Made;
use crate::taken_batch::TakenBatch;
use dest_queue::Step;
use line_text::Point;

/// An entry of a record: it records a step.
pub(crate) trait Entry {
    ghost use Rattle.queue_records.specs.Numbered.{StepAt};

    // The step that it records.
    ghost step_of: { Self → StepAt };

    /// Who made the step at which destination, as one number; the greatest one if that is no number.
    fn key(&self, readers: usize) -> usize
        ensures { result < 2 ^ 64 - 1
            → result ≡ key_of readers (step_of self.now).dest (step_of self.now).step };

    /// Whether this is the step.
    fn is(&self, dest: usize, step: &Step) -> bool
        ensures { IsTrue result ↔ ((dest ≡ (step_of self.now).dest)
            × (recorded_of step.now ≡ (step_of self.now).step)) };
}

impl Entry for Made {
    ghost step_of = { λ made. step_of_offer (offer_of made) };

    fn key(&self, readers: usize) -> usize {
        key(self.dest.0, self.reader as usize, readers)
    }

    fn is(&self, dest: usize, step: &Step) -> bool {
        match step {
            Step::Offer {
                reader,
                number,
                point,
                kept,
            } => {
                dest == self.dest.0
                    && *reader == self.reader
                    && *number == self.number
                    && *kept == self.kept
                    && is_same_point(point, &self.point)
            }
            Step::Take { .. } => false,
        }
    }
}

impl Entry for TakenBatch {
    ghost step_of = { λ taken. step_of_take (take_of taken) };

    fn key(&self, readers: usize) -> usize {
        key(self.dest.0, readers, readers)
    }

    fn is(&self, dest: usize, step: &Step) -> bool {
        match step {
            Step::Offer { .. } => false,
            Step::Take { limit, taken } => {
                dest == self.dest.0 && *limit == self.limit && *taken == self.taken
            }
        }
    }
}

/// Who made a step at a destination, as one number.
fn key(dest: usize, maker: usize, readers: usize) -> usize
    ensures { result < 2 ^ 64 - 1 → result ≡ (readers + 1) * dest + maker }
{
    readers
        .saturating_add(1)
        .saturating_mul(dest)
        .saturating_add(maker)
}

/// Whether two datapoints are equal, wherever they lie.
fn is_same_point(one: &Point, other: &Point) -> bool
    ensures { IsTrue result ↔ (one.now ≡ other.now) }
{
    one.value == other.value && one.time == other.time && one.name.text() == other.name.text()
}
