//! The events of a run, made of its parts.
ghost use Rattle.std.specs.Prelude.{ℕ, ◌≡◌, ◌≤◌, ◌<◌, [], ◌∷◌, length, map, replicate, slice_index, slice_set, true, IfOk, IfSome, OnOk};
ghost use Rattle.std.specs.String.{string_bytes};
ghost use Rattle.dest_queue.specs.Step.{recorded_of};
ghost use Rattle.relay_core.specs.Event.{run_event};
ghost use Rattle.relay_core.specs.World.{Offer, Take};
ghost use Rattle.run_record.specs.PartEvents.{list_at, lists_of, parts_of};
ghost use Rattle.run_record.specs.Making.{MakesParts, Moves, number_of, rest_of};

use crate::applying::{Part, apply_own};
use crate::history::{dest_of, step_of};
use crate::parts::{RunParts, RunScriptFault};
use crate::queue_step::{make_offer, make_take};
use dest_queue::Step;
use relay_core::{Event, World};
use std::alloc::{AllocError, Global};

/// Applies the events of a run to a world, and writes them: the steps of the queues in their order; right before an offer
/// what its reader was fed up to it, and right before a take what its writer did up to it; at the end the rest, reader by
/// reader, then destination by destination. Batches have at most `limit` datapoints.
pub(crate) fn apply_parts(
    alloc: Global,
    world: &mut World,
    text: &mut String,
    limit: usize,
    parts: &RunParts<'_, '_>,
) -> Result<(), RunScriptFault>
    requires { length parts.now.written.now ≤ length world.old.destinations }
    ensures { OnOk result (MakesParts (parts_of parts.now) limit world.old world.new
        (string_bytes text.old) (string_bytes text.new)) }
{
    let mut fed = starts(alloc, parts.fed.len())?;
    let mut written = starts(alloc, parts.written.len())?;
    apply_from(alloc, world, text, limit, parts, &mut fed, &mut written)
}

/// The same, with a start for each list of a reader and of a destination.
fn apply_from(
    alloc: Global,
    world: &mut World,
    text: &mut String,
    limit: usize,
    parts: &RunParts<'_, '_>,
    fed: &mut [usize],
    written: &mut [usize],
) -> Result<(), RunScriptFault>
    requires dests { length parts.now.written.now ≤ length world.old.destinations }
    requires fed { fed.old ≡ replicate (length parts.now.fed.now) 0 }
    requires written { written.old ≡ replicate (length parts.now.written.now) 0 }
    ensures { OnOk result (MakesParts (parts_of parts.now) limit world.old world.new
        (string_bytes text.old) (string_bytes text.new)) }
{
    for number in parts.order {
        let dest = dest_of(*number);
        let Some(step) = step_of(parts.histories, *number) else {
            return Err(RunScriptFault::NotOneRun);
        };
        match step {
            Step::Offer { reader, .. } => {
                let reader = *reader as usize;
                offer(alloc, world, text, parts.fed, fed, reader, dest, step)?;
            }
            Step::Take { .. } => {
                take(
                    alloc,
                    world,
                    text,
                    limit,
                    parts.written,
                    written,
                    dest,
                    step,
                )?;
            }
        }
    }
    for reader in 0..parts.fed.len() {
        let part = Part::Reader(reader);
        apply_rest(alloc, world, text, parts.fed, fed, part)?;
    }
    for dest in 0..parts.written.len() {
        let part = Part::Writer(dest);
        apply_rest(alloc, world, text, parts.written, written, part)?;
    }
    Ok(())
}

/// A start for each of this many lists.
fn starts(alloc: Global, count: usize) -> Result<Vec<usize>, AllocError>
    ensures { IfOk result (λ starts. starts.items ≡ replicate count 0) }
{
    vec![in alloc; 0; count]
}

/// The list of that number, if there is one.
fn list_at<'p, 'b>(lists: &'p [Vec<Event<'b>>], number: usize) -> Option<&'p [Event<'b>]>
    ensures there { IfSome result (λ _. number < length lists.now) }
    ensures list { IfSome result
        (λ list. map run_event list.now ≡ list_at (lists_of lists.now) number) }
{
    if number >= lists.len() {
        return None;
    }
    Some(lists[number].as_slice())
}

/// The start of that number. Without one, it is 0.
fn start_at(starts: &[usize], number: usize) -> usize
    ensures { result ≡ slice_index starts.now number }
{
    match starts.get(number) {
        Some(start) => *start,
        None => 0,
    }
}

/// Moves a start to a place.
fn move_to(starts: &mut [usize], number: usize, place: usize) -> Result<(), RunScriptFault>
    ensures there { OnOk result (number < length starts.old) }
    ensures moved { OnOk result (starts.new ≡ slice_set starts.old number place) }
{
    if number >= starts.len() {
        return Err(RunScriptFault::NotOneRun);
    }
    starts[number] = place;
    Ok(())
}

/// Makes an offer of a reader at a destination, after as much of what the reader was fed as gives one.
fn offer(
    alloc: Global,
    world: &mut World,
    text: &mut String,
    lists: &[Vec<Event<'_>>],
    starts: &mut [usize],
    reader: usize,
    dest: usize,
    step: &Step,
) -> Result<(), RunScriptFault>
    ensures { OnOk result ((limit : ℕ) → Moves (Part.Reader reader) (lists_of lists.now)
        starts.old starts.new limit world.old world.new (string_bytes text.old) (string_bytes text.new)
        [] (Offer reader ∷ []) (record { dest = dest; step = recorded_of step.now } ∷ [])) }
{
    let Some(list) = list_at(lists, reader) else {
        return Err(RunScriptFault::NotOneRun);
    };
    let start = start_at(starts, reader);
    for place in start..list.len() {
        if world.first_offer(reader).is_some() {
            make_offer(alloc, world, text, reader, dest, step)?;
            move_to(starts, reader, place)?;
            return Ok(());
        }
        apply_own(alloc, world, text, Part::Reader(reader), &list[place])?;
    }
    make_offer(alloc, world, text, reader, dest, step)?;
    move_to(starts, reader, list.len())?;
    Ok(())
}

/// Applies what a destination's writer did up to its next take, and makes the take.
fn take(
    alloc: Global,
    world: &mut World,
    text: &mut String,
    limit: usize,
    lists: &[Vec<Event<'_>>],
    starts: &mut [usize],
    dest: usize,
    step: &Step,
) -> Result<(), RunScriptFault>
    requires { length lists.now ≤ length world.old.destinations }
    ensures { OnOk result (Moves (Part.Writer dest) (lists_of lists.now)
        starts.old starts.new limit world.old world.new (string_bytes text.old) (string_bytes text.new)
        (Take dest ∷ []) (Take dest ∷ []) (record { dest = dest; step = recorded_of step.now } ∷ [])) }
{
    let Some(list) = list_at(lists, dest) else {
        return Err(RunScriptFault::NotOneRun);
    };
    let start = start_at(starts, dest);
    for place in start..list.len() {
        if is_take(&list[place], dest) {
            make_take(alloc, world, text, limit, dest, step)?;
            move_to(starts, dest, place + 1)?;
            return Ok(());
        }
        apply_own(alloc, world, text, Part::Writer(dest), &list[place])?;
    }
    Err(RunScriptFault::NotOneRun)
}

/// Whether an event is a destination's take.
fn is_take(event: &Event<'_>, dest: usize) -> bool
    ensures { result ≡ true → run_event event.now ≡ run_event (Event.Take dest) }
{
    match event {
        Event::Take(number) => *number == dest,
        _ => false,
    }
}

/// Applies the rest of a part: no take is left.
fn apply_rest(
    alloc: Global,
    world: &mut World,
    text: &mut String,
    lists: &[Vec<Event<'_>>],
    starts: &mut [usize],
    part: Part,
) -> Result<(), RunScriptFault>
    ensures moves { OnOk result ((limit : ℕ) → Moves part (lists_of lists.now) starts.old starts.new
        limit world.old world.new (string_bytes text.old) (string_bytes text.new) [] [] []) }
    ensures used { OnOk result
        (rest_of (lists_of lists.now) starts.new (number_of part) ≡ []) }
{
    let number = number_of(part);
    let Some(list) = list_at(lists, number) else {
        return Err(RunScriptFault::NotOneRun);
    };
    let start = start_at(starts, number);
    for place in start..list.len() {
        apply_own(alloc, world, text, part, &list[place])?;
    }
    move_to(starts, number, list.len())?;
    Ok(())
}

/// The number of a part.
fn number_of(part: Part) -> usize
    ensures { result ≡ number_of part }
{
    match part {
        Part::Reader(reader) => reader,
        Part::Writer(dest) => dest,
    }
}
