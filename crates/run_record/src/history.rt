//! The steps of histories, by their numbers.
ghost use Rattle.std.specs.Prelude.{ℕ, ◌≡◌, ◌<◌, ◌/◌, ◌%◌, length, replicate, slice_index, true, Some, IfOk, IfSome};
ghost use Rattle.dest_queue.specs.Queue.{most_steps};
ghost use Rattle.dest_queue.specs.Step.{recorded_of};
ghost use Rattle.run_record.specs.QueueSteps.{AreHistories, AreUpTo, history_at, step_numbered, steps_numbered};

use dest_queue::{MOST_STEPS, Step};
use relay_base::NoMemory;
use std::alloc::Global;

/// The step of a number, if there is one.
pub(crate) fn step_of(histories: &[Vec<Step>], number: u64) -> Option<&Step>
    ensures { IfSome result (λ step. step_numbered histories.now number
        ≡ Some (record { dest = number / most_steps; step = recorded_of step.now })) }
{
    histories.get(dest_of(number))?.get(place_of(number))
}

/// The destination of a step's number.
pub(crate) fn dest_of(number: u64) -> usize
    ensures { result ≡ number / most_steps }
{
    (number / MOST_STEPS as u64) as usize
}

/// The step's place in the history there.
fn place_of(number: u64) -> usize
    ensures { result ≡ number % most_steps }
{
    (number % MOST_STEPS as u64) as usize
}

/// Whether an order has each step of each history once, those of one history one after the other.
pub(crate) fn is_order_of(
    alloc: Global,
    histories: &[Vec<Step>],
    order: &[u64],
) -> Result<bool, NoMemory>
    ensures { IfOk result (λ is. is ≡ true
        → AreHistories histories.now (steps_numbered histories.now order.now)) }
{
    let mut places = vec![in alloc; 0; histories.len()]?;
    Ok(are_next(histories, order, &mut places) && are_ends(histories, &places))
}

/// Goes through an order, and moves for each step the place in its history. Returns whether each step was the next one there.
fn are_next(histories: &[Vec<Step>], order: &[u64], places: &mut [usize]) -> bool
    requires { places.old ≡ replicate (length histories.now) 0 }
    ensures count { length places.new ≡ length histories.now }
    ensures up_to { result ≡ true
        → AreUpTo histories.now places.new (steps_numbered histories.now order.now) }
{
    for number in order {
        let dest = dest_of(*number);
        let place = place_of(*number);
        let Some(_) = step_of(histories, *number) else {
            return false;
        };
        if dest >= places.len() || places[dest] != place {
            return false;
        }
        places[dest] = place + 1;
    }
    true
}

/// Whether each place is the end of its history.
fn are_ends(histories: &[Vec<Step>], places: &[usize]) -> bool
    requires { length places.now ≡ length histories.now }
    ensures { result ≡ true → (d : ℕ) → d < length histories.now
        → slice_index places.now d ≡ length (history_at histories.now d) }
{
    for dest in 0..histories.len() {
        if places[dest] != histories[dest].len() {
            return false;
        }
    }
    true
}
