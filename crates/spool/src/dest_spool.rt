//! The files of one destination.

use crate::file_names::FileNames;
use crate::held_file::{HeldFile, SentPart};
use crate::limited_file::LimitedFile;
use crate::segments::Segments;
use crate::sent_table::SentPlace;
use crate::spool_notes::SpoolNotes;
use crate::waiting::Waiting;
use std::fs::File;

/// How many bytes are looked at together when a file goes on.
pub(crate) const LOOK: usize = 4_096;

/// The files of a destination: the one that an earlier run left, while it holds lines that are not sent, those behind it, its
/// segments, and their names.
#[derive(Drop)]
pub struct DestSpool {
    pub(crate) names: FileNames,
    pub(crate) owner: Option<u32>,
    pub(crate) held: Option<HeldFile>,
    // Which part is sent of the file that takes what is not sent.
    pub(crate) sent: SentPart,
    // The number of the segment that is held, and those behind it. The last one is written while it is open.
    pub(crate) number: u32,
    pub(crate) later: Segments,
    pub(crate) tail: Option<LimitedFile<File>>,
    // The second since 1970 at which it was last written in this run.
    pub(crate) written_at: u64,
    // While none is held: where it is to be noted how far the next one is sent.
    pub(crate) place: Option<SentPlace>,
    // Whether the store does not end connections, by what was seen at earlier segments.
    pub(crate) has_no_end: bool,
    // Whether the file that takes what is not sent is a segment behind others.
    pub(crate) is_new_behind: bool,
    // Whether files are made while the relay runs.
    pub(crate) makes_segments: bool,
}

impl DestSpool {
    /// Whether a file can have the destination's name.
    pub fn has_names(&self) -> bool {
        self.names.are_short()
    }

    /// Whether an earlier file holds lines that are to be sent.
    pub fn is_behind(&self) -> bool {
        let is_held = match &self.held {
            Some(held) => !held.has_failed(),
            None => false,
        };
        is_held || self.later.bytes() > 0
    }

    /// Counts what waits in the earlier file, as far as that is not counted, and notes it.
    pub fn note_waiting(&mut self, piece: &mut [u8], notes: &SpoolNotes) {
        if let Some(held) = &mut self.held {
            held.count_lines(piece);
        }
        notes.note_waiting(self.waiting());
    }

    /// What waits in the earlier file and in those behind it, as far as it is counted.
    pub fn waiting(&self) -> Waiting {
        let held = match &self.held {
            Some(held) => held.waiting(),
            None => Waiting::nothing(),
        };
        Waiting {
            datapoints: held.datapoints.saturating_add(self.later.lines()),
            bytes: held.bytes.saturating_add(self.later.bytes()),
            written_at: held.written_at.max(self.written_at),
        }
    }

    /// From now on it is noted how far a file is sent, if that can be noted and is not.
    pub(crate) fn give_place(&mut self, held: &mut HeldFile) {
        if held.has_place() {
            return;
        }
        if let Some(place) = kept(self.place.take(), self.names.name()) {
            held.note_at(place);
        }
    }
}

/// A place at which a file was noted is that of the next one, if it could be written.
pub(crate) fn kept(place: Option<SentPlace>, name: &str) -> Option<SentPlace> {
    let mut place = place?;
    if place.give_to(name) {
        Some(place)
    } else {
        drop(place);
        None
    }
}

/// A place at which a file was noted is no file's.
pub(crate) fn free(place: Option<SentPlace>) {
    if let Some(place) = place {
        place.free();
        drop(place);
    }
}
