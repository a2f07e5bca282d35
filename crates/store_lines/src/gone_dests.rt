//! The destinations that are gone.

use crate::dest_carry_over::{DestCarryOver, DestSlots};
use conf_text::Dest;
use config_changes::place_of;
use log_lines::DestNotes;
use relay_base::NoMemory;
use run_state::{GoneDest, GoneEnd, GoneNotes, GoneSources, RestNotes};
use spool::SpoolNotes;
use std::alloc::Global;
use std::sync::atomic::{AtomicBool, Ordering};

/// The destinations that the runs before had and this one has not, as far as something is left for them. All lists are in the
/// same order.
#[derive(Drop)]
pub struct GoneDests {
    /// The destinations, as they are sent to.
    pub dests: Vec<Dest>,
    // As the log shows them.
    shown: Vec<GoneDest>,
    /// Until which milliseconds each is sent to.
    pub until: Vec<u64>,
    /// What is noted of their connections.
    pub links: Vec<DestNotes>,
    /// What is noted of their files.
    pub files: Vec<SpoolNotes>,
    /// What is noted of their rests.
    pub rests: Vec<RestNotes>,
    /// What is left for each.
    pub slots: DestSlots,
    // Whether their sender has ended.
    is_sender_over: AtomicBool,
}

/// A destination that is gone, as it is sent to and as the log shows it, and until which milliseconds it is sent to.
#[derive(Drop)]
pub struct PartingDest {
    dest: Dest,
    shown: Dest,
    until: u64,
}

impl PartingDest {
    /// This destination, until these milliseconds. Refuses if out of memory.
    pub fn new(dest: &Dest, until: u64) -> Result<PartingDest, NoMemory> {
        Ok(PartingDest {
            dest: dest.clone()?,
            shown: dest.clone()?,
            until,
        })
    }
}

/// What is seen of a destination that is gone and still sent to: how much the connection has still to take, `None` if there is
/// none that takes it; and until which milliseconds it is sent to.
#[derive(Clone, Copy)]
pub struct SeenGone {
    /// How much is left.
    pub left: Option<u64>,
    /// The end.
    pub until: u64,
}

impl GoneDests {
    /// Room for so many, of which there is none yet. Refuses if out of memory.
    pub fn with_room(alloc: Global, count: usize) -> Result<GoneDests, NoMemory> {
        Ok(GoneDests {
            dests: Vec::with_capacity(alloc, count)?,
            shown: Vec::with_capacity(alloc, count)?,
            until: Vec::with_capacity(alloc, count)?,
            links: Vec::with_capacity(alloc, count)?,
            files: Vec::with_capacity(alloc, count)?,
            rests: Vec::with_capacity(alloc, count)?,
            slots: DestSlots::new(alloc, count)?,
            is_sender_over: AtomicBool::new(false),
        })
    }

    /// What the log shows of them.
    pub fn sources(&self) -> GoneSources<'_> {
        GoneSources {
            dests: self.shown.as_slice(),
            files: self.files.as_slice(),
        }
    }

    /// Their sender has ended.
    pub(crate) fn note_sender_over(&self) {
        self.is_sender_over.store(true, Ordering::SeqCst);
    }

    /// Whether their sender has ended.
    pub fn is_sender_over(&self) -> bool {
        self.is_sender_over.load(Ordering::SeqCst)
    }

    /// Adds one, for which there is room, with what is left for it.
    pub fn add(&mut self, parting: PartingDest, left: DestCarryOver) {
        let PartingDest { dest, shown, until } = parting;
        let (queued, in_hand) = left.counts();
        let rest = RestNotes::new(0);
        rest.note(queued, in_hand);
        let place = self.dests.len();
        let shown = GoneDest {
            dest: shown,
            notes: GoneNotes::new(),
        };
        // These take no memory, since there is room.
        let _added = (
            self.dests.push(dest),
            self.shown.push(shown),
            self.until.push(until),
            self.links.push(DestNotes::new()),
            self.files.push(SpoolNotes::new()),
            self.rests.push(rest),
        );
        self.slots.put(place, left);
    }

    /// Whether there is none.
    pub fn are_none(&self) -> bool {
        self.dests.is_empty()
    }

    /// Whether nothing more is sent to the destination of a place at these milliseconds.
    pub(crate) fn is_over(&self, place: usize, millis: u64) -> bool {
        let is_late = match self.until.get(place) {
            Some(until) => millis >= *until,
            None => true,
        };
        is_late || self.has_ended(place)
    }

    /// Whether the end of the destination of a place is known.
    pub(crate) fn has_ended(&self, place: usize) -> bool {
        match self.shown.get(place) {
            Some(shown) => shown.notes.end().is_some(),
            None => true,
        }
    }

    /// Whether something is still sent to one of them at these milliseconds.
    pub(crate) fn are_sent_to(&self, millis: u64) -> bool {
        (0..self.dests.len()).any(|place| !self.is_over(place, millis))
    }

    /// What a stop sees of the destination of a place at these milliseconds, if it is still sent to.
    pub fn seen_at(&self, place: usize, millis: u64) -> Option<SeenGone> {
        if self.is_over(place, millis) {
            return None;
        }
        Some(SeenGone {
            left: self.left_at(place),
            until: *self.until.get(place)?,
        })
    }

    /// How much the connection of the destination of a place has still to take; `None` if there is none, or if it takes an
    /// earlier file first.
    fn left_at(&self, place: usize) -> Option<u64> {
        let is_up = self.links.get(place)?.status(0, true).is_up;
        if is_up && !self.files.get(place)?.is_behind() {
            Some(self.rests.get(place)?.left())
        } else {
            None
        }
    }

    /// Takes what is left for the destination of a place; nothing if its end is known, since its file has that.
    pub fn take_unless_over(&self, place: usize) -> DestCarryOver {
        if self.has_ended(place) {
            DestCarryOver::none()
        } else {
            self.slots.take(place)
        }
    }

    /// How many of them are not in this list, and their end is not known.
    pub fn sent_beside(&self, dests: &[Dest]) -> usize {
        let mut count: usize = 0;
        for (place, dest) in self.dests.iter().enumerate() {
            if !self.has_ended(place) && place_of(dest, dests).is_none() {
                count = count.saturating_add(1);
            }
        }
        count
    }

    /// This is the end of the destination of a place. What its files did not take was lost before.
    pub(crate) fn note_over(&self, place: usize, end: GoneEnd) {
        let end = GoneEnd {
            spooled: end.spooled,
            unsent: end.unsent.saturating_add(self.lost_at(place)),
        };
        if let Some(shown) = self.shown.get(place) {
            shown.notes.note_over(end);
        }
    }

    /// How many datapoints of the destination of a place were to go to its files, and did not.
    fn lost_at(&self, place: usize) -> u64 {
        match self.files.get(place) {
            Some(notes) => {
                let (taken, kept) = notes.datapoints();
                taken.saturating_sub(kept)
            }
            None => 0,
        }
    }
}
