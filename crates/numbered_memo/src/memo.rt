//! What is stored under numbers.
ghost use Rattle.std.specs.Prelude.{◌≡◌, ◌+◌, ◌<◌, vec_len, slice_set, if◌then◌else◌, IfOk, OnErr, OnOk, option_map};
ghost use Rattle.std.specs.FinMap as map;
ghost use Rattle.numbered_memo.specs.Memo.{stored_in, memo};

use crate::meaning::Meaning;
use relay_base::NoMemory;
use std::alloc::Global;
use std::collections::BTreeMap;
use std::marker::Model;

/// What is stored under each number.
///
/// In clauses it is what its values mean, read as a finite map.
#[derive(Drop)]
pub struct Memo<T: Meaning> {
    /// What is stored under 0, 1, 2 and so on. It hides what `others` has under the same number.
    first: Vec<T>,
    others: BTreeMap<u64, T>,
    /// The number of keys that have something stored under them.
    count: u64,
    ghost counted: { count ≡ map.len (memo T.meaning (stored_in first.items others.entries)) },
}

impl<T: Meaning> Model for Memo<T> {
    ghost use Rattle.numbered_memo.specs.Memo.{Stored, stored_in};

    ghost Value = { Stored T };

    ghost view = { λ m. stored_in m.first.items m.others.entries };
}

impl<T: Meaning + Drop> Memo<T> {
    /// A memo in which nothing is stored.
    pub fn new(alloc: Global) -> Memo<T>
        ensures { memo T.meaning result ≡ map.empty }
    {
        Memo {
            first: Vec::new(alloc),
            others: BTreeMap::new(alloc),
            count: 0,
        }
    }

    /// How many numbers have something stored under them.
    pub fn len(&self) -> u64
        ensures { result ≡ map.len (memo T.meaning self.now) }
    {
        self.count
    }

    /// What is stored under a number.
    pub fn get(&self, number: u64) -> Option<&T>
        ensures { option_map (λ stored. T.meaning stored.now) result ≡ map.get (memo T.meaning self.now) number }
    {
        stored_under(&self.first, &self.others, number)
    }

    /// Stores a value under a number, in place of what is stored there. If out of memory, the memo is as before.
    pub fn insert(&mut self, number: u64, stored: T) -> Result<(), NoMemory>
        ensures ok { OnOk result
            (memo T.meaning self.new ≡ map.insert (memo T.meaning self.old) number (T.meaning stored)) }
        ensures same { OnErr result (memo T.meaning self.new ≡ memo T.meaning self.old) }
    {
        let is_taken = self.get(number).is_some();
        let count = count_after(self.count, is_taken)?;
        store(&mut self.first, &mut self.others, number, stored)?;
        self.count = count;
        Ok(())
    }
}

/// The number of keys that have something stored under them, after a value is stored under a new key, or under one
/// in use.
fn count_after(count: u64, is_taken: bool) -> Result<u64, NoMemory>
    ensures { IfOk result (λ after. after ≡ if is_taken then count else count + 1) }
{
    if is_taken {
        return Ok(count);
    }
    match count.checked_add(1) {
        Some(after) => Ok(after),
        None => Err(NoMemory),
    }
}

/// What is stored under a number.
fn stored_under<'m, T: Meaning>(
    first: &'m [T],
    others: &'m BTreeMap<u64, T>,
    number: u64,
) -> Option<&'m T>
    ensures { option_map (λ stored. T.meaning stored.now) result
        ≡ map.get (memo T.meaning (stored_in first.now others.now.entries)) number }
{
    match first.get(number as usize) {
        Some(stored) => Some(stored),
        None => others.get(&number),
    }
}

/// Stores a value. An `Err` leaves everything unchanged.
fn store<T: Meaning + Drop>(
    first: &mut Vec<T>,
    others: &mut BTreeMap<u64, T>,
    number: u64,
    stored: T,
) -> Result<(), NoMemory>
    ensures ok { OnOk result (memo T.meaning (stored_in first.new.items others.new.entries)
        ≡ map.insert (memo T.meaning (stored_in first.old.items others.old.entries)) number
        (T.meaning stored)) }
    ensures same { OnErr result (memo T.meaning (stored_in first.new.items others.new.entries)
        ≡ memo T.meaning (stored_in first.old.items others.old.entries)) }
{
    let place = number as usize;
    if place < first.len() {
        replace_at(first, place, stored)?;
    } else if place == first.len() {
        first.push(stored)?;
    } else {
        others.insert(number, stored)?;
    }
    Ok(())
}

/// Puts a value in place of another. An `Err` leaves everything unchanged.
fn replace_at<T: Drop>(values: &mut Vec<T>, place: usize, stored: T) -> Result<(), NoMemory>
    requires { place < vec_len values.old }
    ensures ok { OnOk result (values.new.items ≡ slice_set values.old.items place stored) }
    ensures same { OnErr result (values.new.items ≡ values.old.items) }
{
    values.push(stored)?;
    drop(values.swap_remove(place));
    Ok(())
}
