//! The segments of a destination behind the first one.

ghost use Rattle.std.specs.Prelude.{◌≡◌, [], ◌∷◌, ◌++◌, length, OnOk, MatchOption};

use relay_base::{NoMemory, add};
use std::alloc::Global;

/// A segment: its number, how many bytes its whole lines have, and how many these are.
#[derive(Clone, Copy)]
pub(crate) struct Segment {
    pub(crate) number: u32,
    pub(crate) bytes: u64,
    pub(crate) lines: u64,
}

/// Segments in the order in which they are sent.
#[derive(Drop)]
pub(crate) struct Segments {
    list: Vec<Segment>,
}

impl Segments {
    /// There is none.
    pub(crate) fn none(alloc: Global) -> Segments
        ensures { result.list.items ≡ [] }
    {
        Segments {
            list: Vec::new(alloc),
        }
    }

    /// A segment is behind all others. Refuses if out of memory.
    pub(crate) fn add(&mut self, segment: Segment) -> Result<(), NoMemory>
        ensures { OnOk result (self.new.list.items ≡ self.old.list.items ++ segment ∷ []) }
    {
        add(&mut self.list, segment)
    }

    /// Takes the first one.
    pub(crate) fn take_first(&mut self) -> Option<Segment>
        ensures { MatchOption result (self.new.list.items ≡ self.old.list.items)
            (λ first. self.old.list.items ≡ first ∷ self.new.list.items) }
    {
        if self.list.is_empty() {
            None
        } else {
            Some(self.list.remove(0))
        }
    }

    /// The first one.
    pub(crate) fn first(&self) -> Option<Segment> {
        self.list.first().copied()
    }

    /// The last one is not there.
    pub(crate) fn drop_last(&mut self) {
        let _last = self.list.pop();
    }

    /// The number of the last one.
    pub(crate) fn last_number(&self) -> Option<u32> {
        match self.list.last() {
            Some(segment) => Some(segment.number),
            None => None,
        }
    }

    /// The last one has so many bytes of whole lines, and so many lines more.
    pub(crate) fn note_last(&mut self, bytes: u64, more_lines: u64) {
        if let Some(segment) = self.list.last_mut() {
            segment.bytes = bytes;
            segment.lines = segment.lines.saturating_add(more_lines);
        }
    }

    /// The one of a place has another number.
    pub(crate) fn note_number(&mut self, place: usize, number: u32) {
        if let Some(segment) = self.list.get_mut(place) {
            segment.number = number;
        }
    }

    /// How many there are.
    pub(crate) fn len(&self) -> usize {
        self.list.len()
    }

    /// Whether there is none.
    pub(crate) fn are_none(&self) -> bool {
        self.list.is_empty()
    }

    /// How many bytes they have.
    pub(crate) fn bytes(&self) -> u64 {
        let mut bytes: u64 = 0;
        for segment in &self.list {
            bytes = bytes.saturating_add(segment.bytes);
        }
        bytes
    }

    /// How many lines they have.
    pub(crate) fn lines(&self) -> u64 {
        let mut lines: u64 = 0;
        for segment in &self.list {
            lines = lines.saturating_add(segment.lines);
        }
        lines
    }

    /// The segments.
    pub(crate) fn as_slice(&self) -> &[Segment] {
        self.list.as_slice()
    }
}
