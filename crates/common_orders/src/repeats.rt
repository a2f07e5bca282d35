//! Lists that hold a number twice.
ghost use Rattle.std.specs.Prelude.{◌≡◌, ℕ, ◌<◌, ◌≤◌, [], length, map, slice_index_or, IfOk, IfSome, IfNone, IsTrue};
ghost use Rattle.std.specs.Bool.{OnFalse, OnTrue};
ghost use Rattle.common_orders.specs.CommonOrder.{HoldsTwice, HoldsEachOnce, HoldEachOnce, IsFirstRepeat};

use relay_base::NoMemory;
use std::alloc::Global;
use std::collections::HashSet;

/// The least list that holds a number twice.
pub(crate) fn first_repeat(alloc: Global, lists: &[Vec<u64>]) -> Result<Option<usize>, NoMemory>
    ensures found { IfOk result (λ found. IfSome found (λ place.
        IsFirstRepeat (map (λ list. list.items) lists.now) place)) }
    ensures none { IfOk result (λ found. IfNone found
        (HoldEachOnce (length lists.now) (map (λ list. list.items) lists.now))) }
{
    for place in 0..lists.len() {
        if holds_twice(alloc, lists[place].as_slice())? {
            return Ok(Some(place));
        }
    }
    Ok(None)
}

/// Whether a list holds a number twice.
fn holds_twice(alloc: Global, numbers: &[u64]) -> Result<bool, NoMemory>
    ensures twice { IfOk result (λ twice. OnTrue twice (HoldsTwice numbers.now)) }
    ensures once { IfOk result (λ twice. OnFalse twice (HoldsEachOnce numbers.now)) }
{
    let mut seen = HashSet::with_capacity(alloc, numbers.len())?;
    for place in 0..numbers.len() {
        let Ok(is_new) = seen.insert(numbers[place]) else {
            return Err(NoMemory);
        };
        if !is_new {
            return Ok(true);
        }
    }
    Ok(false)
}
