//! The turns of all destinations of a write loop.
ghost use Rattle.std.specs.Prelude.{◌≡◌, ℕ, ◌≤◌, ◌<◌, List, Option, true, false, ◌||◌, ◌==◌, length, slice_index_or};
ghost use Rattle.queue_records.specs.Takes.{IsHandedBy};
ghost use Rattle.mio_loops.specs.WriteTurn.{TurnAt};
ghost use Rattle.mio_loops.specs.WriteLoop.{is_up_at, is_among, IsReportOf, IsLoopTurn};

use crate::outgoing::Outgoing;
use crate::write_report::WriteReport;
use dest_writer::GatherBuf;
use queue_records::{MOST_DESTS, Supply};
use relay_base::DestId;
use std::io::Write;

/// Takes the turn of each destination, in order. A ready token that is no destination is passed
/// over.
pub(crate) fn take_turns<W: Write + Drop, S: Supply>(
    destinations: &mut [Outgoing<W>],
    ready: &[DestId],
    gathered: &mut GatherBuf,
    supply: &mut S,
) -> WriteReport
    requires few { length destinations.old ≤ MOST_DESTS }
    requires owned { (dest : ℕ) → is_up_at destinations.old dest ≡ true
        → S.is_owned supply.old dest ≡ true }
    ensures turn { (turns : List (TurnAt W))
        × IsLoopTurn W.contents (IsHandedBy S.record_of S.may_hand) (is_among ready.now) turns destinations.old destinations.new
        (S.record_of supply.old) (S.record_of supply.new)
        × IsReportOf turns result }
    ensures ups { (dest : ℕ) → is_up_at destinations.new dest ≡ true
        → is_up_at destinations.old dest ≡ true }
    ensures owners { (dest : ℕ) → S.is_owned supply.new dest ≡ S.is_owned supply.old dest }
{
    let marks = marks_of(ready);
    let mut report = WriteReport::new();
    for dest in 0..destinations.len() {
        let destination = &mut destinations[dest];
        report.count(destination.take_turn(DestId(dest), marks[dest], gathered, supply));
    }
    report
}

/// For each destination, whether it is among those that are ready.
fn marks_of(ready: &[DestId]) -> [bool; MOST_DESTS]
    ensures { (dest : ℕ) → dest < MOST_DESTS
        → slice_index_or result dest false ≡ is_among ready.now dest }
{
    let mut marks = [false; MOST_DESTS];
    for dest in ready {
        mark(&mut marks, *dest);
    }
    marks
}

/// Marks a destination, if it is within the table.
fn mark(marks: &mut [bool], dest: DestId)
    requires { length marks.old ≡ MOST_DESTS }
    ensures { (other : ℕ) → other < MOST_DESTS → slice_index_or marks.new other false
        ≡ (slice_index_or marks.old other false || (dest.0 == other)) }
{
    if dest.0 < MOST_DESTS {
        marks[dest.0] = true;
    }
}
