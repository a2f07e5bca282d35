//! The lists that a settling merges into one order.
ghost use Rattle.std.specs.Prelude.{◌≡◌, ℕ, ◌+◌, ◌-◌, ◌*◌, ◌^◌, ◌<◌, ◌≤◌, ◌++◌, [], None, length, map, slice_index_or, IfOk};
ghost use Rattle.std.specs.List.{range_with_len};
ghost use Rattle.std.specs.Vec.{vec_len};
ghost use Rattle.dest_queue.specs.Step.{recorded_of};
ghost use Rattle.queue_records.specs.FoundStep.{found_by_key};
ghost use Rattle.queue_records.specs.Met.{Meets};
ghost use Rattle.dest_queue.specs.Numbered.{all_numbered, history_numbers};
ghost use Rattle.queue_records.specs.Numbered.{made_by};
ghost use Rattle.queue_records.specs.OrderLists.{IfAgree};

use crate::door_record::DoorRecord;
use crate::entry::Entry;
use crate::found_step::{FoundStep, found_steps};
use crate::limits::MOST_DESTS;
use crate::matching::{Difference, Matching};
use crate::outlet_record::OutletRecord;
use crate::record::Record;
use dest_queue::{MOST_READERS, MOST_STEPS, Step};
use relay_base::NoMemory;
use std::alloc::Global;

/// The numbers of the steps, history by history and record by record, or where they differ.
#[derive(Drop)]
pub enum OrderLists {
    /// The numbers of each history's steps, of each door's and of each outlet's.
    Agree(Vec<Vec<u64>>),
    /// Histories and records differ.
    Differ(Difference),
}

/// Compares the records with the histories of a set with this number of readers: `Agree` has the lists that the order of a
/// settling merges, `Differ` the least difference. Refuses if out of memory (`NoMemory`).
pub fn lists_to_order(
    alloc: Global,
    histories: &[Vec<Step>],
    readers: usize,
    doors: &[DoorRecord],
    outlets: &[OutletRecord],
) -> Result<OrderLists, NoMemory>
    requires histories { length histories.now ≤ MOST_DESTS }
    requires readers { readers ≤ MOST_READERS }
    ensures { IfOk result (λ lists. IfAgree readers
        (map (λ history. map recorded_of history.items) histories.now)
        doors.now outlets.now lists) }
{
    let found = found_steps(alloc, histories, readers)?;
    let lists = lists_of_found(alloc, histories, found.as_slice(), readers, doors, outlets);
    drop(found);
    lists
}

/// Compares the records with the steps that were found in the histories.
fn lists_of_found(
    alloc: Global,
    histories: &[Vec<Step>],
    found: &[Vec<FoundStep>],
    readers: usize,
    doors: &[DoorRecord],
    outlets: &[OutletRecord],
) -> Result<OrderLists, NoMemory>
    requires histories { length histories.now ≤ MOST_DESTS }
    requires keys { length found.now ≡ (readers + 1) * length histories.now }
    requires found { (key : ℕ) → key < length found.now
        → slice_index_or (found_by_key found.now) key []
        ≡ made_by readers key (all_numbered 0 (map
        (λ history. map recorded_of history.items) histories.now)) }
    ensures { IfOk result (λ lists. IfAgree readers
        (map (λ history. map recorded_of history.items) histories.now)
        doors.now outlets.now lists) }
{
    let mut matching = Matching::new(alloc, found.len())?;
    let mut of_doors = record_numbers(alloc, &mut matching, found, readers, doors)?;
    let mut of_outlets = record_numbers(alloc, &mut matching, found, readers, outlets)?;
    if let Some(difference) = matching.difference(found) {
        return Ok(OrderLists::Differ(difference));
    }
    let lists = all_lists(alloc, histories, &mut of_doors, &mut of_outlets)?;
    Ok(OrderLists::Agree(lists))
}

/// The numbers of each history's steps, and then these lists.
fn all_lists(
    alloc: Global,
    histories: &[Vec<Step>],
    of_doors: &mut Vec<Vec<u64>>,
    of_outlets: &mut Vec<Vec<u64>>,
) -> Result<Vec<Vec<u64>>, NoMemory>
    requires histories { length histories.now ≤ MOST_DESTS }
    ensures { IfOk result (λ lists. map (λ list. list.items) lists.items
        ≡ history_numbers 0 (map (λ history. map recorded_of history.items) histories.now)
        ++ (map (λ list. list.items) of_doors.old.items
        ++ map (λ list. list.items) of_outlets.old.items)) }
{
    let mut lists = history_lists(alloc, histories)?;
    lists.append(of_doors)?;
    lists.append(of_outlets)?;
    Ok(lists)
}

/// The numbers of each history's steps.
fn history_lists(alloc: Global, histories: &[Vec<Step>]) -> Result<Vec<Vec<u64>>, NoMemory>
    requires histories { length histories.now ≤ MOST_DESTS }
    ensures { IfOk result (λ lists. map (λ list. list.items) lists.items
        ≡ history_numbers 0 (map (λ history. map recorded_of history.items) histories.now)) }
{
    let mut lists = Vec::with_capacity(alloc, histories.len())?;
    for dest in 0..histories.len() {
        let first = MOST_STEPS as u64 * dest as u64;
        lists.push_reserved(numbers_from(alloc, first, histories[dest].len())?);
    }
    Ok(lists)
}

/// `count` numbers, from the first one on.
fn numbers_from(alloc: Global, first: u64, count: usize) -> Result<Vec<u64>, NoMemory>
    requires { first + count ≤ 2 ^ 64 - 1 }
    ensures { IfOk result (λ numbers. numbers.items ≡ range_with_len first count) }
{
    let mut numbers = Vec::with_capacity(alloc, count)?;
    for place in 0..count {
        numbers.push_reserved(first + place as u64);
    }
    Ok(numbers)
}

/// The numbers of the steps of each record.
fn record_numbers<E: Entry, R: Record<E>>(
    alloc: Global,
    matching: &mut Matching,
    found: &[Vec<FoundStep>],
    readers: usize,
    records: &[R],
) -> Result<Vec<Vec<u64>>, NoMemory>
    ensures none { matching.new.least ≡ None → matching.old.least ≡ None }
    ensures met { IfOk result (λ numbers. Meets readers (found_by_key found.now)
        (map (λ r. map E.step_of (R.entries_of r)) records.now)
        (map (λ list. list.items) numbers.items)
        matching.new.least matching.old.reached.items matching.new.reached.items) }
    ensures keys { vec_len matching.new.reached ≡ vec_len matching.old.reached }
{
    let mut numbers = Vec::with_capacity(alloc, records.len())?;
    for record in records {
        let own = matching.numbers_of(alloc, found, readers, record.entries())?;
        numbers.push_reserved(own);
    }
    Ok(numbers)
}
