//! The search for a common order: it places what is first in every list that holds it.
ghost use Rattle.std.specs.Prelude.{◌≡◌, ℕ, ◌+◌, ◌≤◌, ◌<◌, ◌↔◌, ◌==◌, if◌then◌else◌, List, length, map, IfOk, OnOk, IsTrue};
ghost use Rattle.std.specs.Bool.{OnFalse, OnTrue};
ghost use Rattle.common_orders.specs.CommonOrder.{times, times_in_all, HoldEachOnce};
ghost use Rattle.common_orders.specs.OrderSearch.{all_left, times_behind, without_first, all_without_first, rest, begins, uncovers, AreAllEmpty, HasWaits, HasReady, waits_at};

use crate::waits::{count_of, lower, raise_all};
use relay_base::NoMemory;
use std::alloc::Global;
use std::collections::HashMap;

/// What is left of the lists, how many of them each number waits for, and the numbers that may be
/// placed next.
#[derive(Drop)]
pub(crate) struct Search<'a> {
    pub(crate) left: Vec<&'a [u64]>,
    pub(crate) waits: HashMap<u64, u64>,
    pub(crate) ready: Vec<u64>,
}

impl<'a> Search<'a> {
    /// The search at its beginning.
    pub(crate) fn new(alloc: Global, lists: &'a [Vec<u64>]) -> Result<Search<'a>, NoMemory>
        requires once { HoldEachOnce (length lists.now) (map (λ list. list.items) lists.now) }
        ensures left { IfOk result (λ search. map (λ list. list.now) search.left.items
            ≡ map (λ list. list.items) lists.now) }
        ensures waits { IfOk result (λ search.
            HasWaits (map (λ list. list.now) search.left.items) search.waits) }
        ensures ready { IfOk result (λ search.
            HasReady (map (λ list. list.now) search.left.items) search.ready.items) }
    {
        let left = slices(alloc, lists)?;
        let mut waits = HashMap::new(alloc);
        raise_rests(&mut waits, left.as_slice())?;
        let ready = firsts(alloc, left.as_slice(), &waits)?;
        Ok(Search { left, waits, ready })
    }

    /// Removes a number that was ready from the front of each list that it begins, and says whether
    /// there was one.
    pub(crate) fn place(&mut self, number: u64) -> Result<bool, NoMemory>
        requires first { times_behind number (map (λ list. list.now) self.old.left.items) ≡ 0 }
        requires waits { HasWaits (map (λ list. list.now) self.old.left.items) self.old.waits }
        ensures left { OnOk result (map (λ list. list.now) self.new.left.items
            ≡ all_without_first number (map (λ list. list.now) self.old.left.items)) }
        ensures waits { OnOk result
            (HasWaits (map (λ list. list.now) self.new.left.items) self.new.waits) }
        ensures ready_before { OnOk result ((x : ℕ) → times x self.old.ready.items
            ≤ times x self.new.ready.items) }
        ensures ready_first { OnOk result ((x : ℕ) → times x self.old.ready.items
            < times x self.new.ready.items
            → times_behind x (map (λ list. list.now) self.new.left.items) ≡ 0) }
        ensures ready_all { OnOk result ((x : ℕ)
            → 0 < times_behind x (map (λ list. list.now) self.old.left.items)
            → times_behind x (map (λ list. list.now) self.new.left.items) ≡ 0
            → 0 < times x self.new.ready.items) }
        ensures fewer { OnOk result (length self.new.ready.items
            + all_left (map (λ list. list.now) self.new.left.items)
            ≤ length self.old.ready.items
            + all_left (map (λ list. list.now) self.old.left.items)) }
        ensures there { IfOk result (λ there. OnTrue there
            (0 < times_in_all number (map (λ list. list.now) self.old.left.items))) }
        ensures nowhere { IfOk result (λ there. OnFalse there
            (all_without_first number (map (λ list. list.now) self.old.left.items)
            ≡ map (λ list. list.now) self.old.left.items)) }
    {
        let mut there = false;
        for place in 0..self.left.len() {
            let begins = advance(
                &mut self.left[place],
                &mut self.waits,
                &mut self.ready,
                number,
            )?;
            there = there || begins;
        }
        Ok(there)
    }

    /// Whether nothing is left.
    pub(crate) fn is_done(&self) -> bool
        ensures { IsTrue result ↔ AreAllEmpty (map (λ list. list.now) self.now.left.items) }
    {
        for place in 0..self.left.len() {
            if !self.left[place].is_empty() {
                return false;
            }
        }
        true
    }
}

/// Removes a number from the front of a list, if it is there, and says so. The number that is then
/// in front waits for one list less, and is ready if it waits for none.
fn advance(
    list: &mut &[u64],
    waits: &mut HashMap<u64, u64>,
    ready: &mut Vec<u64>,
    number: u64,
) -> Result<bool, NoMemory>
    requires { (x : ℕ) → uncovers number x list.old.now ≤ waits_at waits.old x }
    ensures list { OnOk result (list.new.now ≡ without_first number list.old.now) }
    ensures waits { OnOk result ((x : ℕ)
        → waits_at waits.new x + uncovers number x list.old.now ≡ waits_at waits.old x) }
    ensures ready_before { OnOk result
        ((x : ℕ) → times x ready.old.items ≤ times x ready.new.items) }
    ensures ready_first { OnOk result ((x : ℕ) → times x ready.old.items < times x ready.new.items
        → waits_at waits.new x ≡ 0) }
    ensures ready_all { OnOk result ((x : ℕ) → 0 < waits_at waits.old x
        → waits_at waits.new x ≡ 0 → 0 < times x ready.new.items) }
    ensures fewer { OnOk result (length ready.new.items + length list.new.now
        ≤ length ready.old.items + length list.old.now) }
    ensures there { IfOk result (λ there. OnTrue there (0 < times number list.old.now)) }
    ensures nowhere { IfOk result (λ there. OnFalse there
        (without_first number list.old.now ≡ list.old.now)) }
{
    if list.first() != Some(&number) {
        return Ok(false);
    }
    let rest = &list[1..];
    *list = rest;
    if let Some(front) = rest.first() {
        let count = lower(waits, *front);
        push_if_free(ready, *front, count)?;
    }
    Ok(true)
}

/// Adds a number to what is ready, if it waits for no list.
fn push_if_free(ready: &mut Vec<u64>, number: u64, count: u64) -> Result<(), NoMemory>
    ensures times { OnOk result ((x : ℕ) → times x ready.new.items
        ≡ times x ready.old.items + (if number == x then (if count == 0 then 1 else 0) else 0)) }
    ensures length { OnOk result (length ready.new.items ≤ length ready.old.items + 1) }
{
    if count == 0 {
        ready.push(number).map_err(|_| NoMemory)?;
    }
    Ok(())
}

/// The lists, each as a slice.
fn slices<'a>(alloc: Global, lists: &'a [Vec<u64>]) -> Result<Vec<&'a [u64]>, NoMemory>
    ensures { IfOk result (λ left. map (λ list. list.now) left.items
        ≡ map (λ list. list.items) lists.now) }
{
    let mut left = Vec::with_capacity(alloc, lists.len())?;
    for place in 0..lists.len() {
        left.push_reserved(lists[place].as_slice());
    }
    Ok(left)
}

/// A list without its first number.
fn rest_of(list: &[u64]) -> &[u64]
    ensures { result.now ≡ rest list.now }
{
    if list.is_empty() { list } else { &list[1..] }
}

/// Counts, from nothing, how many lists each number waits for.
fn raise_rests(waits: &mut HashMap<u64, u64>, left: &[&[u64]]) -> Result<(), NoMemory>
    requires none { (x : ℕ) → waits_at waits.old x ≡ 0 }
    requires once { HoldEachOnce (length left.now) (map (λ list. list.now) left.now) }
    ensures { OnOk result (HasWaits (map (λ list. list.now) left.now) waits.new) }
{
    for place in 0..left.len() {
        raise_all(waits, rest_of(left[place]))?;
    }
    Ok(())
}

/// The first numbers of lists that wait for no list.
fn firsts(alloc: Global, left: &[&[u64]], waits: &HashMap<u64, u64>) -> Result<Vec<u64>, NoMemory>
    requires { HasWaits (map (λ list. list.now) left.now) waits.now }
    ensures { IfOk result (λ ready. HasReady (map (λ list. list.now) left.now) ready.items) }
{
    let mut ready = Vec::new(alloc);
    for place in 0..left.len() {
        add_first(&mut ready, left[place], waits)?;
    }
    Ok(ready)
}

/// Adds the first number of a list to what is ready, if it waits for no list.
fn add_first(ready: &mut Vec<u64>, list: &[u64], waits: &HashMap<u64, u64>) -> Result<(), NoMemory>
    ensures { OnOk result ((x : ℕ) → times x ready.new.items
        ≡ times x ready.old.items + (if waits_at waits.now x == 0 then begins x list.now else 0)) }
{
    if let Some(front) = list.first() {
        push_if_free(ready, *front, count_of(waits, *front))?;
    }
    Ok(())
}
