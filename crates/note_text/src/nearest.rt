//! The key that an unknown key may be meant for.

use crate::escaped::EscapedText;
use crate::notes::Notes;
use crate::section_at::SectionAt;
use std::alloc::Global;
use strsim::levenshtein;

/// How many letters a key may differ in from the one that it is meant for.
const MOST_EDITS: usize = 3;

/// How many letters a key has at most that is too short to be the beginning of another.
const MOST_CUT: usize = 7;

/// Whether a key differs from a name, whatever the case, in a few letters.
pub fn is_misspelt(alloc: Global, notes: &mut Notes, key: &str, name: &'static str) -> bool {
    let Some(upper) = notes.answer(key.to_ascii_uppercase(alloc)) else {
        return false;
    };
    let Some(wanted) = notes.answer(name.to_ascii_uppercase(alloc)) else {
        return false;
    };
    match notes.answer(levenshtein(alloc, upper.as_str(), wanted.as_str())) {
        Some(edits) => edits <= MOST_EDITS,
        None => false,
    }
}

/// The nearest of the names that were offered.
#[derive(Clone, Copy)]
pub struct NearestKey<'k> {
    key: &'k str,
    name: Option<&'static str>,
    edits: usize,
}

impl<'k> NearestKey<'k> {
    /// No name was offered for this key yet.
    pub fn new(key: &'k str) -> NearestKey<'k> {
        NearestKey {
            key,
            name: None,
            edits: MOST_EDITS.saturating_add(1),
        }
    }

    /// Offers a name.
    pub fn offer(&mut self, alloc: Global, notes: &mut Notes, name: &'static str) {
        if let Some(edits) = notes.answer(levenshtein(alloc, self.key, name)) {
            // A key that is cut short is meant too, as ENABLE_UDP for ENABLE_UDP_LISTENER.
            let is_cut = self.key.len() > MOST_CUT && name.starts_with(self.key);
            let edits = if self.key.eq_ignore_ascii_case(name) {
                0
            } else if is_cut {
                MOST_EDITS
            } else {
                edits
            };
            if edits < self.edits {
                self.edits = edits;
                self.name = Some(name);
            }
        }
    }

    /// Adds the note of a key that is none of the names.
    pub fn add_note(self, notes: &mut Notes, at: SectionAt<'_>, key: &str) {
        let key = EscapedText(key);
        match self.name {
            Some(name) => notes.add(format_args!(
                "{at}: `{key}` is not a key that relayd reads; did you mean {name}?"
            )),
            None => notes.add(format_args!("{at}: `{key}` is not a key that relayd reads")),
        }
    }
}
