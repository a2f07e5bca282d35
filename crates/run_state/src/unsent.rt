//! What is not sent at the end of a run, and what becomes of it.

ghost use Rattle.std.specs.Prelude.{◌≡◌, ◌≤◌, ◌<◌, length};
ghost use Rattle.run_state.specs.Unsent.{IsLeftOf, IsLeftInAll, left_of};

use crate::counters::counters;
use crate::run_state::DestSources;
use locked_queues::{Queues, Set};
use relay_base::{DestId, NoMemory, add};
use spool::SpoolNotes;
use std::alloc::Global;
use std::sync::Wait;
use std::sync::atomic::{AtomicU64, Ordering};

/// The queues of destinations, the events of their connections, and what becomes at the end of what is queued, with how many
/// datapoints the connections took to the last byte.
#[derive(Drop)]
pub struct Unsent<'x, B: Set> {
    queues: &'x Queues<B>,
    noted: DestSources<'x>,
    end: &'x EndState,
    ghost few: { length noted.dests.now ≤ B.dests },
}

impl<'x, B: Set> Unsent<'x, B> {
    /// What remains to be sent to these destinations, whose connections count what they took.
    pub fn new(queues: &'x Queues<B>, noted: DestSources<'x>, end: &'x EndState) -> Unsent<'x, B>
        requires few { length noted.dests.now ≤ B.dests }
        ensures queues { result.queues.now ≡ queues.now }
        ensures noted { result.noted ≡ noted.entry }
        ensures end { result.end.now ≡ end.now }
    {
        Unsent { queues, noted, end }
    }

    /// For how many seconds the senders go on at most.
    pub fn drain_seconds(&self) -> u64 {
        self.end.drain_seconds()
    }

    /// How many destinations there are.
    pub fn dests(&self) -> usize
        ensures dests { result ≡ length self.now.noted.dests.now }
        ensures few { result ≤ B.dests }
    {
        self.noted.dests.len()
    }

    /// Whether a destination is connected.
    pub fn is_up(&self, place: usize) -> bool {
        match self.noted.notes.get(place) {
            Some(notes) => notes.status(0, true).is_up,
            None => false,
        }
    }

    /// Whether what remains is written to files at the end.
    pub fn is_spooled(&self) -> bool {
        self.end.is_spooled()
    }

    /// What happened to the file of a destination, if there are files.
    pub fn spool_notes_at(&self, place: usize) -> Option<&'x SpoolNotes> {
        self.end.spool_notes().get(place)
    }

    /// Whether the connection of a destination takes nothing of the queue, since an earlier file is not sent yet.
    pub fn is_behind(&self, place: usize) -> bool {
        match self.spool_notes_at(place) {
            Some(notes) => notes.is_behind(),
            None => false,
        }
    }

    /// How many datapoints were queued for a destination, which exists, in this run and in those that have ended, and not taken
    /// by its connections to the last byte: they are queued or in hand.
    pub fn left_at<R: Wait>(&self, rt: &R, place: usize) -> u64
        requires place { place < B.dests }
        ensures left { IsLeftInAll B.size result }
    {
        let rest = match self.noted.rests.get(place) {
            Some(rest) => rest.left(),
            None => 0,
        };
        rest.saturating_add(self.left_of_run(rt, place))
    }

    /// How many of them were queued in this run.
    fn left_of_run<R: Wait>(&self, rt: &R, place: usize) -> u64
        requires place { place < B.dests }
        ensures left { IsLeftOf B.size result }
    {
        let counts = self.queues.counts(rt, DestId(place));
        match self.end.taken_at(place) {
            Some(taken) => left_of(counts.kept, taken),
            None => counts.queued,
        }
    }
}

/// How many of the datapoints that a queue kept were not taken to the last byte, if so many were. Both are read one
/// after the other, so more may have been taken than were kept at the first reading.
fn left_of(kept: u64, taken: u64) -> u64
    ensures { result ≡ left_of kept taken }
{
    kept.saturating_sub(taken)
}

/// What a relay does after `stop` with what is queued and in hand: for how many seconds at most its senders go on, and
/// whether files keep the rest. Beside that, how many datapoints the connections of each destination took to the last byte,
/// by which it is known what is not sent, and what happens to the files.
///
/// A relay that neither drains nor spools has none: it loses what is queued and in hand.
#[derive(Drop)]
pub struct EndState {
    drain_seconds: u64,
    taken: Vec<AtomicU64>,
    spooled: Option<Vec<SpoolNotes>>,
    // How many bytes the files of all destinations may have while the relay runs, 0 if they are written at its end alone; and
    // how many they have.
    spool_size: u64,
    spool_used: AtomicU64,
}

impl EndState {
    /// The end of a relay of this many destinations, whose connections took nothing. It drains for this many seconds at most,
    /// not at all with 0. Files keep what is not sent if there is a size for them, which is 0 if they are written at its end alone.
    /// Refuses if out of memory.
    pub(crate) fn new(
        alloc: Global,
        dests: usize,
        drain_seconds: u64,
        spool_size: Option<u64>,
    ) -> Result<EndState, NoMemory> {
        let taken = counters(alloc, dests)?;
        let spooled = if spool_size.is_some() {
            Some(spool_notes_of(alloc, dests)?)
        } else {
            None
        };
        Ok(EndState {
            drain_seconds,
            taken,
            spooled,
            spool_size: spool_size.unwrap_or(0),
            spool_used: AtomicU64::new(0),
        })
    }

    /// For how many seconds the senders go on at most.
    pub fn drain_seconds(&self) -> u64 {
        self.drain_seconds
    }

    /// How many datapoints the connections of each destination took: one counter each, to which the senders add.
    pub fn taken(&self) -> &[AtomicU64] {
        self.taken.as_slice()
    }

    /// How many datapoints the connections of a destination took, if it has a counter.
    pub(crate) fn taken_at(&self, place: usize) -> Option<u64> {
        match self.taken.get(place) {
            Some(taken) => Some(taken.load(Ordering::SeqCst)),
            None => None,
        }
    }

    /// Whether files keep what is not sent.
    pub fn is_spooled(&self) -> bool {
        self.spooled.is_some()
    }

    /// How many bytes the files of all destinations may have while the relay runs; 0 if they are written at its end alone.
    pub fn spool_size(&self) -> u64 {
        self.spool_size
    }

    /// How many bytes the files of all destinations have while the relay runs, as their keeper knew it last.
    pub fn spool_used(&self) -> &AtomicU64 {
        &self.spool_used
    }

    /// What happens to the file of each destination; none if there are no files.
    pub fn spool_notes(&self) -> &[SpoolNotes] {
        match &self.spooled {
            Some(notes) => notes.as_slice(),
            None => &[],
        }
    }
}

/// Where what happens to the files of this many destinations is noted: nothing yet.
fn spool_notes_of(alloc: Global, dests: usize) -> Result<Vec<SpoolNotes>, NoMemory> {
    let mut notes = Vec::new(alloc);
    for _ in 0..dests {
        add(&mut notes, SpoolNotes::new())?;
    }
    Ok(notes)
}
