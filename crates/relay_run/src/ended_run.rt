//! What a run leaves that another one follows.

ghost use Rattle.std.specs.Prelude.{◌≡◌, ℕ, ◌≤◌, ◌+◌, ◌-◌, [], ◌++◌, length, min, take, IfOk, IfSome};
ghost use Rattle.dest_queue.specs.EarlierCounts.{sum};
ghost use Rattle.line_text.specs.Print.{printed_lines};
ghost use Rattle.handover.specs.Rest.{left_text};
ghost use Rattle.store_lines.specs.DestCarryOver.{text_left, text_of_both};

use crate::closing::{Records, closing_text};
use crate::relay::Relay;
use crate::shape::Shape;
use dest_queue::{EarlierCounts, Hand, QueuedPoints};
use dest_writer::Writer;
use finished_run::{FinishedRun, Recorder, RunPlace, RunShape};
use handover::Rest;
use locked_queues::{EndRoom, EndedSet, Set};
use relay_base::{LARGEST_MESSAGE, MOST_DESTINATIONS, NoMemory};
use relay_files::RunConfiguration;
use run_state::RunNotes;
use std::alloc::Global;
use store_lines::{DestCarryOver, DestSlots, GoneDests, counts_of};

/// What a run leaves that another one follows: what its record is made of, and, by its own places, what was noted, what is left
/// for each destination, and how much of its queue found no room there.
#[derive(Drop)]
pub(crate) struct EndedRun {
    pub(crate) record: EndedRecord,
    pub(crate) notes: RunNotes,
    pub(crate) slots: DestSlots,
    pub(crate) dropped: [u64; MOST_DESTINATIONS],
    pub(crate) gone: GoneDests,
}

/// What the record of a run is made of: its number, its configuration and its numbers, its queues without their datapoints, and
/// what its threads recorded and logged, with the fault of one, if one had a fault.
#[derive(Drop)]
pub(crate) struct EndedRecord {
    pub(crate) number: u64,
    pub(crate) configuration: RunConfiguration,
    pub(crate) shape: RunShape,
    pub(crate) set: EndedSet,
    pub(crate) records: Records,
    ghost dests: { length configuration.settings.routing.destinations ≡ shape.dests },
    ghost size: { (1 ≤ shape.size) × (shape.size ≤ 1000000) },
    ghost limit: { (1 ≤ shape.limit) × (shape.limit ≤ 10000) },
}

impl EndedRecord {
    /// Settles the run, gives the recorder, if there is one, what it left, and frees that. Returns the lines of the log on the
    /// run.
    pub(crate) fn finish<K: Recorder>(
        self,
        alloc: Global,
        recorder: &mut Option<K>,
    ) -> Result<String, NoMemory> {
        let EndedRecord {
            number,
            configuration,
            shape,
            set,
            records,
        } = self;
        let Records {
            doors,
            outlets,
            logs,
            fault,
        } = records;
        let settled = set.settle(alloc, doors.as_slice(), outlets.as_slice());
        drop((doors, outlets));
        if let Some(recorder) = recorder {
            let run = FinishedRun {
                configuration: &configuration,
                shape,
                settled: &settled,
                logs: &logs,
            };
            recorder.take(alloc, RunPlace::Followed { number }, &run);
        }
        let text = closing_text(alloc, number, &settled, fault);
        drop(configuration);
        drop((settled, logs));
        text
    }
}

/// Takes a relay apart whose threads have ended, and recorded this: each destination's queue is behind what its sender had in
/// hand. There is room for what that leaves.
pub(crate) fn ended_of<B: Set>(
    alloc: Global,
    relay: Relay<B>,
    room: EndRoom<B>,
    records: Records,
) -> EndedRun {
    let Relay {
        configuration,
        shape,
        queues,
        state,
        slots,
        gone,
        receivers,
        number,
        ..
    } = relay;
    let mut notes = state.into_notes();
    let mut slots = slots;
    let mut set = queues.end(room);
    let mut dropped = [0; MOST_DESTINATIONS];
    for place in (0..shape.dests).rev() {
        let count = add_queue(alloc, &mut set, place, &shape, &mut notes, &mut slots);
        if let Some(dropped) = dropped.get_mut(place) {
            *dropped = count;
        }
    }
    for receiver in receivers.known() {
        receiver.notes.begin_run();
    }
    drop(receivers);
    EndedRun {
        record: EndedRecord {
            number,
            configuration,
            shape: shape.recorded(),
            set,
            records,
        },
        notes,
        slots,
        dropped,
        gone,
    }
}

/// Puts what a destination's queue held behind what is left for it, and notes what was counted. The set gives its queues up
/// from the last one on, so this is the last one that it still has. Returns how many datapoints found no room, and were dropped.
fn add_queue(
    alloc: Global,
    set: &mut EndedSet,
    place: usize,
    shape: &Shape,
    notes: &mut RunNotes,
    slots: &mut DestSlots,
) -> u64
    requires limit { (1 ≤ shape.now.limit) × (shape.now.limit ≤ LARGEST_MESSAGE) }
{
    let (Some(points), Some(counts)) = (set.take_points(), set.counts().get(place).copied()) else {
        return 0;
    };
    let Some(left) = slots.get_mut(place) else {
        return 0;
    };
    let dropped = add_points(alloc, left, points, shape) as u64;
    let (queued, in_hand) = left.counts();
    let mut lost = dropped;
    if let Some(rest) = notes.rests.get(place) {
        rest.note(queued, in_hand);
        lost = lost.saturating_add(rest.lost());
    }
    if let Some(earlier) = notes.earlier.get_mut(place) {
        *earlier = without(earlier.after_run(counts), lost);
    }
    dropped
}

/// Counts without so many datapoints that were kept: they are dropped.
fn without(counts: EarlierCounts, dropped: u64) -> EarlierCounts
    ensures offered { result.offered ≡ counts.offered }
    ensures kept { result.kept ≡ counts.kept - dropped }
    ensures dropped { result.dropped ≡ sum counts.dropped dropped }
{
    EarlierCounts {
        offered: counts.offered,
        kept: counts.kept.saturating_sub(dropped),
        dropped: counts.dropped.saturating_add(dropped),
    }
}

/// Puts the datapoints of a queue behind what is left for its destination. Returns how many were dropped: those for which there
/// was no room, or all if there is no memory for what sends them.
fn add_points(alloc: Global, left: &mut DestCarryOver, points: QueuedPoints, shape: &Shape) -> usize
    requires limit { (1 ≤ shape.now.limit) × (shape.now.limit ≤ LARGEST_MESSAGE) }
    ensures text { (kept : ℕ) × (text_of_both left.new.rest left.new.later
        ≡ text_of_both left.old.rest left.old.later ++ printed_lines (take kept points))
        × (length points ≡ min kept (length points) + result) }
    ensures files { left.new.files ≡ left.old.files }
    ensures socket { left.new.socket ≡ left.old.socket }
{
    if left.later.is_some() {
        return add_to(alloc, &mut left.later, points, shape);
    }
    if left.files.is_some() && !has_room(&left.rest, points.len(), shape.size) {
        return add_to(alloc, &mut left.later, points, shape);
    }
    add_to(alloc, &mut left.rest, points, shape)
}

/// Whether so many datapoints have room behind a rest, which may have this many queued.
fn has_room(rest: &Option<Rest>, count: usize, size: usize) -> bool {
    let (queued, _in_hand) = counts_of(rest);
    queued == 0 || queued.saturating_add(count) <= size
}

/// Puts the datapoints of a queue behind a rest. Returns how many were dropped.
fn add_to(alloc: Global, rest: &mut Option<Rest>, points: QueuedPoints, shape: &Shape) -> usize
    requires limit { (1 ≤ shape.now.limit) × (shape.now.limit ≤ LARGEST_MESSAGE) }
    ensures text { (kept : ℕ) × (text_left rest.new
        ≡ text_left rest.old ++ printed_lines (take kept points))
        × (length points ≡ min kept (length points) + result) }
    // With nothing queued before, all of them go on.
    ensures all { IfSome rest.old (λ had. had.queued ≡ []
        → (text_left rest.new ≡ text_left rest.old ++ printed_lines points) × (result ≡ 0)) }
{
    if let Some(rest) = rest {
        return rest.add(points, shape.size);
    }
    let count = points.len();
    if count == 0 {
        return 0;
    }
    match rest_of(alloc, shape.limit, points) {
        Ok(made) => {
            *rest = Some(made);
            0
        }
        Err(NoMemory) => count,
    }
}

/// A rest of these datapoints, of which none is in hand.
fn rest_of(alloc: Global, limit: usize, points: QueuedPoints) -> Result<Rest, NoMemory>
    requires limit { (1 ≤ limit) × (limit ≤ LARGEST_MESSAGE) }
    ensures { IfOk result (λ rest. left_text rest ≡ printed_lines points) }
{
    let lent = Hand::new(alloc, limit)?;
    let writer = Writer::new(alloc, limit)?;
    Ok(Rest::new(limit, writer, lent, points))
}
