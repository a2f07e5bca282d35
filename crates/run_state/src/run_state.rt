//! What the threads of a run share beside the queues.

ghost use Rattle.std.specs.Prelude.{◌≡◌, ◌≤◌, ◌<◌, length, slice_get, IfSome, option_copied};
ghost use Rattle.run_state.specs.DestSources.{IsCountOfRuns};

use crate::counters::counters;
use crate::rest_notes::RestNotes;
use crate::run_notes::RunNotes;
use crate::signals::{Signals, Stopper};
use crate::unsent::EndState;
use conf_text::Dest;
use dest_queue::{Counts, EarlierCounts};
use log_lines::DestNotes;
use relay_base::NoMemory;
use spool::{SpoolNotes, Waiting};
use std::alloc::Global;
use std::sync::atomic::AtomicU64;

/// The signals between the threads, what is noted over all runs, how many connections each receiver of lines holds, and, if
/// what is queued at the end is not lost, what becomes of that.
#[derive(Drop)]
pub struct RunState {
    signals: Signals,
    notes: RunNotes,
    held: Vec<AtomicU64>,
    end: Option<EndState>,
}

/// Destinations, with their events, and what becomes at the end of what is queued for them, if it is not lost.
#[derive(Clone, Copy)]
pub struct DestSources<'x> {
    /// The destinations.
    pub dests: &'x [Dest],
    /// The events of each.
    pub notes: &'x [DestNotes],
    /// What the queues of each counted in runs that have ended.
    pub earlier: &'x [EarlierCounts],
    /// How much of what these left is not sent.
    pub rests: &'x [RestNotes],
    /// What becomes of what is queued at the end; none if it is lost.
    pub end: Option<&'x EndState>,
}

impl<'x> DestSources<'x> {
    /// What the queues of a destination have counted in all runs, with what that of this run has. What of it went to a file is
    /// queued until that is sent; what was lost with a file is dropped, and no longer kept.
    pub fn counts_at(&self, place: usize, counts: Counts) -> Counts
        ensures beyond { length self.now.earlier.now ≤ place → result ≡ counts }
        ensures counts { place < length self.now.rests.now → IfSome (slice_get self.now.earlier.now place)
            (λ earlier. IsCountOfRuns earlier counts result) }
    {
        let (Some(earlier), Some(rest)) = (self.earlier.get(place), self.rests.get(place)) else {
            return counts;
        };
        let in_file = if self.is_behind(place) {
            rest.in_file()
        } else {
            0
        };
        // Read once, so that what is no longer kept is dropped.
        let lost = rest.lost();
        let earlier = EarlierCounts {
            kept: earlier.kept.saturating_sub(lost),
            dropped: earlier.dropped.saturating_add(lost),
            ..*earlier
        };
        earlier.with_rest(rest.queued().saturating_add(in_file), counts)
    }

    /// What waits in the file of a destination.
    pub fn waiting_at(&self, place: usize) -> Waiting {
        match self.file_at(place) {
            Some(notes) => notes.waiting(),
            None => Waiting::nothing(),
        }
    }

    /// How many bytes more the files of a destination may have while the relay runs, and whether they take no more for now.
    pub fn room_at(&self, place: usize) -> (u64, bool) {
        match self.file_at(place) {
            Some(notes) => (notes.room(), notes.stall().is_some()),
            None => (0, false),
        }
    }

    /// How many datapoints of the file of a destination connections took in this run, those that went out again too.
    pub fn passed_at(&self, place: usize) -> u64 {
        match self.file_at(place) {
            Some(notes) => notes.passed(),
            None => 0,
        }
    }

    /// Whether a file of a destination is not sent yet.
    fn is_behind(&self, place: usize) -> bool {
        match self.file_at(place) {
            Some(notes) => notes.is_behind(),
            None => false,
        }
    }

    /// What is noted of the file of a destination, if there is a spool.
    fn file_at(&self, place: usize) -> Option<&'x SpoolNotes> {
        self.end?.spool_notes().get(place)
    }
}

impl RunState {
    /// The state of a run with this many destinations, and receivers of lines, without notes yet. It drains for this many
    /// seconds at most, not at all with 0. Files keep what is not sent if there is a size for them ([`EndState::spool_size`]).
    /// Refuses if out of memory.
    pub fn new(
        alloc: Global,
        dests: usize,
        line_receivers: usize,
        drain_seconds: u64,
        spool_size: Option<u64>,
    ) -> Result<RunState, NoMemory> {
        Ok(RunState {
            signals: Signals::new(),
            notes: RunNotes::none(alloc),
            held: counters(alloc, line_receivers)?,
            end: end_of(alloc, dests, drain_seconds, spool_size)?,
        })
    }

    /// The state with these notes.
    pub fn with_notes(self, notes: RunNotes) -> RunState
        ensures { result ≡ record self { notes = notes } }
    {
        let mut state = self;
        state.notes = notes;
        state
    }

    /// The notes, for the next run.
    pub fn into_notes(self) -> RunNotes
        ensures { result ≡ self.notes }
    {
        let RunState {
            signals: _,
            notes,
            held: _,
            end: _,
        } = self;
        notes
    }

    /// The signals between the threads.
    pub fn signals(&self) -> &Signals {
        &self.signals
    }

    /// Who tells the threads to stop: it is for the first one.
    pub fn stopper(&self) -> Stopper<'_> {
        Stopper::of(&self.signals)
    }

    /// How much of what ended runs left for each destination is not sent.
    pub fn rests(&self) -> &[RestNotes] {
        self.notes.rests.as_slice()
    }

    /// How many connections each receiver of lines holds.
    pub fn held(&self) -> &[AtomicU64] {
        self.held.as_slice()
    }

    /// What becomes of what is queued at the end; none if it is lost.
    pub fn end(&self) -> Option<&EndState> {
        self.end.as_ref()
    }

    /// What happens to the file of each destination; none if there are no files.
    pub fn spool_notes(&self) -> &[SpoolNotes] {
        match &self.end {
            Some(end) => end.spool_notes(),
            None => &[],
        }
    }

    /// These destinations, with their events.
    pub fn noted<'x>(&'x self, dests: &'x [Dest]) -> DestSources<'x>
        ensures dests { result.dests.now ≡ dests.now }
        ensures notes { result.notes.now ≡ self.now.notes.dests.items }
        ensures earlier { result.earlier.now ≡ self.now.notes.earlier.items }
        ensures rests { result.rests.now ≡ self.now.notes.rests.items }
        ensures end { option_copied result.end ≡ self.now.end }
    {
        DestSources {
            dests,
            notes: self.notes.dests.as_slice(),
            earlier: self.notes.earlier.as_slice(),
            rests: self.notes.rests.as_slice(),
            end: self.end.as_ref(),
        }
    }
}

/// The end of a relay that drains, or spools; none for another one.
fn end_of(
    alloc: Global,
    dests: usize,
    drain_seconds: u64,
    spool_size: Option<u64>,
) -> Result<Option<EndState>, NoMemory> {
    if drain_seconds == 0 && spool_size.is_none() {
        return Ok(None);
    }
    Ok(Some(EndState::new(alloc, dests, drain_seconds, spool_size)?))
}
