//! The destinations of a run that may be diverted to files while it goes on.

use crate::dest_carry_over::{DestCarryOver, DestSlots};
use relay_base::{DestId, NoMemory, add};
use senders::WakeGate;
use spool::{Intake, SpoolNotes};
use std::alloc::Global;
use std::io;

/// The system's error of a name that is too long for a file.
const NAME_TOO_LONG: i32 = 36;

/// The intakes of a run's destinations, by destination: none if the run diverts none, or if a destination has too long a name for
/// a file.
#[derive(Drop)]
pub struct Diversions {
    intakes: Vec<Option<Intake>>,
}

impl Diversions {
    /// The intakes of so many destinations, none of which is diverted. Refuses if out of memory.
    pub fn new(alloc: Global, dests: usize) -> Result<Diversions, NoMemory> {
        let mut intakes = Vec::new(alloc);
        for _ in 0..dests {
            add(&mut intakes, Some(Intake::new(alloc)?))?;
        }
        Ok(Diversions { intakes })
    }

    /// The destinations of which lines are left in these slots begin as returning ones; those of which no file can have the name
    /// have none, which is noted.
    pub fn begin(&mut self, slots: &mut DestSlots, notes: &[SpoolNotes]) {
        for (place, intake) in self.intakes.as_mut_slice().iter_mut().enumerate() {
            if let (Some(left), Some(notes)) = (slots.get_mut(place), notes.get(place)) {
                begin_one(intake, left, notes);
            }
        }
    }

    /// The intake of a destination, if it may be diverted.
    pub fn intake(&self, place: usize) -> Option<&Intake> {
        self.intakes.get(place)?.as_ref()
    }

    /// How many destinations may be diverted.
    pub fn len(&self) -> usize {
        self.intakes.len()
    }
}

/// Begins with the intake of a destination, of which this is left.
fn begin_one(slot: &mut Option<Intake>, left: &DestCarryOver, notes: &SpoolNotes) {
    if !left.has_names() {
        let error = io::Error::from_raw_os_error(NAME_TOO_LONG);
        notes.note_failed(&error);
        drop(error);
        *slot = None;
        return;
    }
    if let Some(intake) = slot {
        if left.is_behind_keeper() {
            intake.begin_behind();
        }
    }
}

/// What a sender diverts destinations by: their intakes, what wakes the keeper of the files, and where it is noted what happens
/// to these.
#[derive(Clone, Copy)]
pub struct DivertTo<'n> {
    /// The intakes.
    pub diversions: &'n Diversions,
    /// What wakes the keeper.
    pub gate: &'n WakeGate,
    /// The notes, by destination.
    pub notes: &'n [SpoolNotes],
}

/// How full the queues of a run are.
pub trait QueueLevels {
    /// Whether the queue of a destination, with what ended runs left of it, is as full as so many eighths of its size.
    fn is_filled(&self, dest: DestId, eighths: u64) -> bool;
}

/// The queues of a run that diverts nothing: nobody asks how full they are.
#[derive(Drop)]
pub(crate) struct NoLevels;

impl QueueLevels for NoLevels {
    fn is_filled(&self, _dest: DestId, _eighths: u64) -> bool {
        false
    }
}
