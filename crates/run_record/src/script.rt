//! The script of a run.
ghost use Rattle.std.specs.Prelude.{[], ◌≡◌, ◌≤◌, true, length, map, slice_get, Some, IfOk, OnOk, ℕ};
ghost use Rattle.std.specs.String.{string_bytes};
ghost use Rattle.dest_queue.specs.Counts.{counts_of};
ghost use Rattle.dest_queue.specs.declared.counts.Counts.{Counts as CountsValue};
ghost use Rattle.reader_core.specs.Kinds.{relay_reading};
ghost use Rattle.relay_core.specs.Run.{dest_in};
ghost use Rattle.relay_core.specs.WorldModel.{OfItsRuns, RepresentsRun};
ghost use Rattle.run_record.specs.PartEvents.{parts_of};
ghost use Rattle.run_record.specs.RunScript.{IsScriptOfRun, HasTheseCounts};

use crate::events::apply_parts;
use crate::parts::{RunParts, RunScriptFault};
use crate::script_lines::write_script;
use dest_queue::{Counts, LARGEST_SIZE, MOST_READERS};
use relay_core::{LARGEST_BATCH, World};
use router::Plan;
use std::alloc::Global;

/// The script of a run by a plan, with queues of at most `size` datapoints and batches of at most `limit`, made
/// of its parts.
///
/// What is written is a run of the plan with the counts of the parts. Its events are exactly those of the parts, each part's
/// in its order: each is allowed when it happens, its queues record exactly the steps of the histories, in their order, and
/// the law of every run holds for it. The text is read back as this run.
///
/// It refuses a run with an empty datagram, for which a script has no line (`EmptyDatagram`), and parts that are no such run
/// (`NotOneRun`). The plan has this number of destinations, and there are 1 to [`MOST_READERS`] readers. Out of memory, it
/// drops the plan.
pub fn script_of_run(
    alloc: Global,
    plan: Plan,
    size: usize,
    limit: usize,
    destinations: usize,
    parts: &RunParts<'_, '_>,
) -> Result<String, RunScriptFault>
    requires size { (1 ≤ size) × (size ≤ LARGEST_SIZE) }
    requires limit { (1 ≤ limit) × (limit ≤ LARGEST_BATCH) }
    requires destinations { plan.destinations ≡ destinations }
    requires readers { (1 ≤ length parts.now.kinds.now) × (length parts.now.kinds.now ≤ MOST_READERS) }
    ensures { IfOk result
        (λ text. IsScriptOfRun plan size limit (parts_of parts.now) (string_bytes text)) }
{
    let mut world = World::new(alloc, plan, size, limit, destinations, parts.kinds)?;
    let text = script_by(alloc, &mut world, limit, destinations, parts);
    drop(world);
    text
}

/// The script of a run, made by a world in which nothing has happened.
fn script_by(
    alloc: Global,
    world: &mut World,
    limit: usize,
    destinations: usize,
    parts: &RunParts<'_, '_>,
) -> Result<String, RunScriptFault>
    requires destinations { length world.old.destinations ≡ destinations }
    requires readers { (1 ≤ length parts.now.kinds.now) × (length parts.now.kinds.now ≤ MOST_READERS) }
    requires of_each { length world.old.readers ≡ length parts.now.kinds.now }
    ensures { IfOk result (λ text. (size : ℕ)
        → RepresentsRun world.old size limit parts.now.kinds.now []
        → IsScriptOfRun world.old.plan size limit (parts_of parts.now) (string_bytes text)) }
{
    // No effect at run time: the proof reads the laws.
    relay_core::laws::prefix();
    crate::laws::reads_back();
    if parts.written.len() != destinations || parts.counts.len() != destinations {
        return Err(RunScriptFault::NotOneRun);
    }
    let mut text = String::new(alloc);
    write_script(alloc, parts.kinds, &[], &mut text)?;
    apply_parts(alloc, world, &mut text, limit, parts)?;
    if !has_counts(world, parts.counts) {
        return Err(RunScriptFault::NotOneRun);
    }
    Ok(text)
}

/// Whether the queues of a world have these counts, one for each destination.
fn has_counts(world: &World, counts: &[Counts]) -> bool
    requires { length counts.now ≤ length world.now.destinations }
    ensures { result ≡ true → OfItsRuns world.now (HasTheseCounts counts.now) }
{
    for dest in 0..counts.len() {
        if world.counts(dest) != counts[dest] {
            return false;
        }
    }
    true
}
