//! How many bad lines an input has, by cause.

use note_text::{EscapedBytes, Notes};
use std::alloc::Global;
use std::fmt::Write as _;

/// How many first names are kept of a cause.
const MOST_NAMES: u64 = 3;

/// How many bytes of a name are kept.
const MOST_BYTES: usize = 60;

/// The bad lines with one cause: how many there are, and the first names.
#[derive(Drop)]
struct Tally {
    why: &'static str,
    count: u64,
    names: String,
}

/// The bad lines of an input by cause, in the order in which the causes first appear.
#[derive(Drop)]
pub(crate) struct Tallies {
    alloc: Global,
    tallies: Vec<Tally>,
}

impl Tallies {
    /// No bad line. It takes no memory.
    pub(crate) fn new(alloc: Global) -> Tallies {
        Tallies {
            alloc,
            tallies: Vec::new(alloc),
        }
    }

    /// Counts a line; a name for which there is no memory is left out.
    pub(crate) fn add(&mut self, why: &'static str, name: &[u8]) {
        for tally in &mut self.tallies {
            if tally.why == why {
                return tally.add(name);
            }
        }
        let mut tally = Tally {
            why,
            count: 0,
            names: String::new(self.alloc),
        };
        tally.add(name);
        let _ = self.tallies.push(tally);
    }

    /// Adds a note of each cause.
    pub(crate) fn add_notes(&self, notes: &mut Notes) {
        for tally in &self.tallies {
            let Tally { why, count, names } = tally;
            notes.add(format_args!("{count} in all: {why}; the first: {names}"));
        }
    }
}

impl Tally {
    fn add(&mut self, name: &[u8]) {
        if self.count < MOST_NAMES {
            let comma = if self.names.is_empty() { "" } else { ", " };
            let shown = name.get(..MOST_BYTES).unwrap_or(name);
            let _ = write!(self.names, "{comma}{}", EscapedBytes(shown));
        }
        self.count = self.count.saturating_add(1);
    }
}
