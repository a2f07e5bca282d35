//! The steps of histories, by who made them.
ghost use Rattle.std.specs.Prelude.{◌≡◌, ℕ, ◌+◌, ◌*◌, ◌<◌, ◌≤◌, [], ◌∷◌, ◌++◌, ◌==◌, if◌then◌else◌, length, map, slice_index_or, IfOk};
ghost use Rattle.std.specs.Vec.{vec_len};
ghost use Rattle.dest_queue.specs.Step.{recorded_of};
ghost use Rattle.queue_records.specs.FoundStep.{found_by_key, numbered_of};
ghost use Rattle.dest_queue.specs.Queue.{most_steps};
ghost use Rattle.dest_queue.specs.Numbered.{all_numbered, numbered_from};
ghost use Rattle.queue_records.specs.Numbered.{made_by, key_of, maker_of};

use crate::limits::MOST_DESTS;
use dest_queue::{MOST_READERS, MOST_STEPS, Step};
use relay_base::NoMemory;
use std::alloc::Global;

/// A step of a history, with its number.
#[derive(Drop)]
pub(crate) struct FoundStep<'a> {
    pub(crate) dest: usize,
    pub(crate) number: u64,
    pub(crate) step: &'a Step,
}

/// The steps of all histories: for each destination the steps of each reader, and then those of the sender.
pub(crate) fn found_steps<'a>(
    alloc: Global,
    histories: &'a [Vec<Step>],
    readers: usize,
) -> Result<Vec<Vec<FoundStep<'a>>>, NoMemory>
    requires histories { length histories.now ≤ MOST_DESTS }
    requires readers { readers ≤ MOST_READERS }
    ensures keys { IfOk result (λ found.
        vec_len found ≡ (readers + 1) * length histories.now) }
    ensures found { IfOk result (λ found. (key : ℕ) → key < vec_len found
        → slice_index_or (found_by_key found.items) key []
        ≡ made_by readers key (all_numbered 0 (map
        (λ history. map recorded_of history.items) histories.now))) }
{
    let mut found = empty_lists(alloc, (readers + 1) * histories.len())?;
    for dest in 0..histories.len() {
        add_steps(&mut found, histories[dest].as_slice(), dest, readers)?;
    }
    Ok(found)
}

/// This many empty lists.
fn empty_lists<'a>(alloc: Global, count: usize) -> Result<Vec<Vec<FoundStep<'a>>>, NoMemory>
    ensures count { IfOk result (λ lists. vec_len lists ≡ count) }
    ensures empty { IfOk result (λ lists. (key : ℕ)
        → slice_index_or (found_by_key lists.items) key [] ≡ []) }
{
    let mut lists = Vec::with_capacity(alloc, count)?;
    for _ in 0..count {
        lists.push_reserved(Vec::new(alloc));
    }
    Ok(lists)
}

/// Adds the steps of a destination's history to the lists of those who made them.
fn add_steps<'a>(
    lists: &mut Vec<Vec<FoundStep<'a>>>,
    steps: &'a [Step],
    dest: usize,
    readers: usize,
) -> Result<(), NoMemory>
    requires dest { dest < MOST_DESTS }
    requires readers { readers ≤ MOST_READERS }
    ensures count { IfOk result (λ _. vec_len lists.new ≡ vec_len lists.old) }
    ensures added { IfOk result (λ _. (key : ℕ) → key < vec_len lists.old
        → slice_index_or (found_by_key lists.new.items) key []
        ≡ slice_index_or (found_by_key lists.old.items) key []
        ++ made_by readers key (numbered_from dest (most_steps * dest)
        (map recorded_of steps.now))) }
{
    for place in 0..steps.len() {
        let step = &steps[place];
        let key = (readers + 1) * dest + maker_of_step(step, readers);
        let number = MOST_STEPS as u64 * dest as u64 + place as u64;
        add_to(lists, key, FoundStep { dest, number, step })?;
    }
    Ok(())
}

/// Adds a step to the list of a key, if there is one.
fn add_to<'a>(
    lists: &mut Vec<Vec<FoundStep<'a>>>,
    key: usize,
    found: FoundStep<'a>,
) -> Result<(), NoMemory>
    ensures count { IfOk result (λ _. vec_len lists.new ≡ vec_len lists.old) }
    ensures added { IfOk result (λ _. (k : ℕ) → k < vec_len lists.old
        → slice_index_or (found_by_key lists.new.items) k []
        ≡ slice_index_or (found_by_key lists.old.items) k []
        ++ (if key == k then numbered_of found.entry ∷ [] else [])) }
{
    if key >= lists.len() {
        return Ok(());
    }
    add(&mut lists[key], found)
}

/// Adds a step to a list.
fn add<'a>(list: &mut Vec<FoundStep<'a>>, found: FoundStep<'a>) -> Result<(), NoMemory>
    ensures { IfOk result (λ _. list.new.items ≡ list.old.items ++ found.entry ∷ []) }
{
    list.push(found)?;
    Ok(())
}

/// Who made a step: a reader, or, as the number of readers, the sender.
fn maker_of_step(step: &Step, readers: usize) -> usize
    requires { readers ≤ MOST_READERS }
    ensures maker { result ≡ maker_of readers (recorded_of step.now) }
    ensures few { result ≤ 65535 }
{
    match step {
        Step::Offer { reader, .. } => *reader as usize,
        Step::Take { .. } => readers,
    }
}
