//! The greatest of many texts, by how often each comes.

use relay_base::{NoMemory, add};
use std::alloc::Global;
use std::collections::HashMap;

/// How many texts are counted at once.
const MOST_COUNTED: usize = 1_024;

/// How often a text came at most: `count`, of which up to `error` may be of others.
#[derive(Drop)]
pub(crate) struct Counter {
    pub(crate) text: String,
    pub(crate) count: u64,
    pub(crate) error: u64,
}

/// Counts texts, in a memory that does not grow (the sketch of Metwally, Agrawal and El Abbadi, called space-saving): a text that
/// is new takes the counter of the least one once all are taken, and its count, which is its error then. A text that came more
/// often than the least counter says is there.
#[derive(Drop)]
pub(crate) struct NameSketch {
    alloc: Global,
    counters: Vec<Counter>,
    places: HashMap<String, usize>,
    // All that came, and how often a text came that was not counted.
    pub(crate) all: u64,
    pub(crate) new: u64,
    // No counter is below this; from that place on one may be at it.
    least: u64,
    next: usize,
}

impl NameSketch {
    /// Nothing came.
    pub(crate) fn new(alloc: Global) -> NameSketch {
        NameSketch {
            alloc,
            counters: Vec::new(alloc),
            places: HashMap::new(alloc),
            all: 0,
            new: 0,
            least: 1,
            next: 0,
        }
    }

    /// A text came. Refuses if out of memory.
    pub(crate) fn note(&mut self, text: &str) -> Result<(), NoMemory> {
        self.all = self.all.saturating_add(1);
        if let Some(place) = self.places.get(text) {
            if let Some(counter) = self.counters.get_mut(*place) {
                counter.count = counter.count.saturating_add(1);
            }
            return Ok(());
        }
        self.new = self.new.saturating_add(1);
        if self.counters.len() < MOST_COUNTED {
            self.add(text)
        } else {
            self.replace(text)
        }
    }

    /// Counts a text by a counter that is free.
    fn add(&mut self, text: &str) -> Result<(), NoMemory> {
        let key = String::from_str(self.alloc, text)?;
        let counter = Counter {
            text: String::from_str(self.alloc, text)?,
            count: 1,
            error: 0,
        };
        let place = self.counters.len();
        add(&mut self.counters, counter)?;
        let _before = self.places.insert(key, place)?;
        Ok(())
    }

    /// Counts a text by the counter of the least one.
    fn replace(&mut self, text: &str) -> Result<(), NoMemory> {
        let place = self.least_place();
        let key = String::from_str(self.alloc, text)?;
        let own = String::from_str(self.alloc, text)?;
        let Some(counter) = self.counters.get_mut(place) else {
            return Ok(());
        };
        let _place = self.places.remove(counter.text.as_str());
        counter.text = own;
        counter.error = counter.count;
        counter.count = counter.count.saturating_add(1);
        let _before = self.places.insert(key, place)?;
        Ok(())
    }

    /// The place of a least counter. Counters only grow, so the search goes on where the last one ended, and begins anew only once
    /// no counter is as small.
    fn least_place(&mut self) -> usize {
        for _ in 0..2 {
            for place in self.next..self.counters.len() {
                if self.count_at(place) <= self.least {
                    self.next = place.saturating_add(1);
                    return place;
                }
            }
            self.least = self.least_count();
            self.next = 0;
        }
        0
    }

    /// The least count.
    fn least_count(&self) -> u64 {
        let mut least = u64::MAX;
        for counter in self.counters.as_slice() {
            least = least.min(counter.count);
        }
        least
    }

    fn count_at(&self, place: usize) -> u64 {
        match self.counters.get(place) {
            Some(counter) => counter.count,
            None => u64::MAX,
        }
    }

    /// Its counters, the greatest first.
    pub(crate) fn into_greatest(self) -> Result<Vec<Counter>, NoMemory> {
        let NameSketch {
            alloc: _,
            counters,
            places,
            all: _,
            new: _,
            least: _,
            next: _,
        } = self;
        drop(places);
        let mut counters = counters;
        counters.sort_by_key(|counter| u64::MAX.wrapping_sub(counter.count))?;
        Ok(counters)
    }
}
