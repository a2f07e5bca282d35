//! A step of a history that is made in a world.
ghost use Rattle.std.specs.Prelude.{◌≡◌, ◌<◌, ℕ, [], ◌∷◌, length, true, OnOk};
ghost use Rattle.std.specs.String.{string_bytes};
ghost use Rattle.dest_queue.specs.Step.{recorded_of};
ghost use Rattle.relay_core.specs.World.{Offer, Take};
ghost use Rattle.relay_core.specs.WorldModel.{OfItsRuns};
ghost use Rattle.run_record.specs.Making.{Continues, IsAnswered, IsFirst, IsOffer, IsTake, Records, answer_of};

use crate::applying::{has_happened, try_event};
use crate::parts::RunScriptFault;
use dest_queue::{Kept, Step};
use line_text::Point;
use relay_core::{Answer, Event, World};
use std::alloc::Global;

/// Makes the offer that is a step of a destination's history: it must be the reader's first that waits, and be answered as
/// the history says.
pub(crate) fn make_offer(
    alloc: Global,
    world: &mut World,
    text: &mut String,
    reader: usize,
    dest: usize,
    step: &Step,
) -> Result<(), RunScriptFault>
    ensures continues { OnOk result (Continues world.old world.new
        (string_bytes text.old) (string_bytes text.new) (Offer reader ∷ [])) }
    ensures records { OnOk result ((limit : ℕ)
        → Records world.old limit (string_bytes text.old) (Offer reader ∷ [])
        (record { dest = dest; step = recorded_of step.now } ∷ [])) }
{
    if !is_first(world, reader, dest, step) {
        return Err(RunScriptFault::NotOneRun);
    }
    let answer = try_event(alloc, world, text, &Event::Offer(reader))?;
    if !is_answered(step, answer) {
        return Err(RunScriptFault::NotOneRun);
    }
    Ok(())
}

/// Whether a step is the first offer of a reader that waits, at this destination.
fn is_first(world: &World, reader: usize, dest: usize, step: &Step) -> bool
    ensures { result ≡ true → IsFirst world.now reader dest (recorded_of step.now) }
{
    let Some((to, first)) = world.first_offer(reader) else {
        return false;
    };
    let Some(next) = world.next_number(reader, dest) else {
        return false;
    };
    to.0 == dest && is_offer_of(step, reader, next, first)
}

/// Whether a step is an offer of a reader, with this number and datapoint.
fn is_offer_of(step: &Step, reader: usize, number: u64, point: &Point) -> bool
    ensures { result ≡ true → IsOffer (recorded_of step.now) reader number point.now }
{
    match step {
        Step::Offer {
            reader: by,
            number: own,
            point: offered,
            ..
        } => *by as usize == reader && *own == number && is_same_point(offered, point),
        Step::Take { .. } => false,
    }
}

/// Whether two datapoints are equal, wherever they lie.
fn is_same_point(one: &Point, other: &Point) -> bool
    ensures { result ≡ true → one.now ≡ other.now }
{
    one.value == other.value && one.time == other.time && one.name.text() == other.name.text()
}

/// Whether a step is an offer with this answer.
fn is_answered(step: &Step, answer: Answer) -> bool
    ensures { result ≡ true → IsAnswered (recorded_of step.now) answer }
{
    match step {
        Step::Offer { kept, .. } => is_answer_of(*kept, answer),
        Step::Take { .. } => false,
    }
}

/// Whether this is the world's answer to an offer that is queued or dropped.
fn is_answer_of(kept: Kept, answer: Answer) -> bool
    ensures { result ≡ true → answer ≡ answer_of kept }
{
    match kept {
        Kept::Queued => matches!(answer, Answer::Done),
        Kept::Dropped => matches!(answer, Answer::Dropped),
    }
}

/// Makes the take that is a step of a destination's history: it must hand over as many datapoints as the history says, in a
/// batch of at most `limit`.
pub(crate) fn make_take(
    alloc: Global,
    world: &mut World,
    text: &mut String,
    limit: usize,
    dest: usize,
    step: &Step,
) -> Result<(), RunScriptFault>
    requires { dest < length world.old.destinations }
    ensures continues { OnOk result (Continues world.old world.new
        (string_bytes text.old) (string_bytes text.new) (Take dest ∷ [])) }
    ensures records { OnOk result
        (Records world.old limit (string_bytes text.old) (Take dest ∷ [])
        (record { dest = dest; step = recorded_of step.now } ∷ [])) }
{
    let queued = world.counts(dest).queued as usize;
    if !is_take(step, limit, queued) {
        return Err(RunScriptFault::NotOneRun);
    }
    let answer = try_event(alloc, world, text, &Event::Take(dest))?;
    if !has_happened(answer) {
        return Err(RunScriptFault::NotOneRun);
    }
    Ok(())
}

/// Whether a step is a take of this limit from a queue that holds this many datapoints.
fn is_take(step: &Step, limit: usize, queued: usize) -> bool
    ensures { result ≡ true → IsTake (recorded_of step.now) limit queued }
{
    match step {
        Step::Offer { .. } => false,
        Step::Take { limit: own, taken } => {
            *own == limit && *taken == limit.min(queued) && *taken > 0
        }
    }
}
