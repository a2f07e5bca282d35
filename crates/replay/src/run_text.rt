//! The text of a replay.
ghost use Rattle.std.specs.Prelude.{ℕ, [], ◌≡◌, ◌≤◌, ◌<◌, ◌++◌, length, map, IfOk, OnOk};
ghost use Rattle.std.specs.String.{string_bytes};
ghost use Rattle.dest_queue.specs.Counts.{counts_of};
ghost use Rattle.reader_core.specs.Kinds.{relay_reading};
ghost use Rattle.relay_core.specs.Run.{dest_in};
ghost use Rattle.relay_core.specs.WorldModel.{OfItsRuns, RepresentsRun};
ghost use Rattle.replay.specs.RunText.{handed_lines, handed_text, of_each, with_counts, reader_text, end_text, replay_text};

use crate::handed_form::HandedForm;
use crate::run_events::apply_all;
use crate::run_lines::{push_handed, push_reader};
use crate::script::Script;
use admin_report::report;
use conf_text::Dest;
use dest_queue::{Counts, LARGEST_SIZE};
use relay_base::NoMemory;
use relay_core::{LARGEST_BATCH, World};
use router::Plan;
use std::alloc::{AllocError, Global};

/// Runs a script by a plan, with queues of at most `size` datapoints and batches of at most `limit`, and writes
/// what happened: a line for each event that was no part of the run, what each connection of each destination
/// got, the report, and a line for each reader.
///
/// The plan sends to these destinations. The script has a reader. Out of memory, it drops the plan.
pub fn replay_text(
    alloc: Global,
    plan: Plan,
    size: usize,
    limit: usize,
    dests: &[Dest],
    script: &Script,
    form: HandedForm,
) -> Result<Vec<u8>, NoMemory>
    requires size { (1 ≤ size) × (size ≤ LARGEST_SIZE) }
    requires limit { (1 ≤ limit) × (limit ≤ LARGEST_BATCH) }
    requires destinations { plan.destinations ≡ length dests.now }
    requires readers { 1 ≤ length script.now.kinds }
    ensures { IfOk result
        (λ text. text.items ≡ replay_text form plan size limit dests.now script.now) }
{
    let mut world = World::new(alloc, plan, size, limit, dests.len(), script.kinds())?;
    let text = text_of_script(alloc, &mut world, dests, script, form);
    drop(world);
    text
}

/// What a world of the readers of a script, in which nothing has happened, does with its events.
fn text_of_script(
    alloc: Global,
    world: &mut World,
    dests: &[Dest],
    script: &Script,
    form: HandedForm,
) -> Result<Vec<u8>, NoMemory>
    requires destinations { length world.old.destinations ≡ length dests.now }
    requires readers { length world.old.readers ≡ length script.now.kinds }
    requires nothing { world.old.events ≡ 0 }
    ensures { IfOk result (λ text. (size limit : ℕ)
        → RepresentsRun world.old size limit script.now.kinds []
        → text.items ≡ replay_text form world.old.plan size limit dests.now script.now) }
{
    let mut text = String::new(alloc);
    apply_all(world, script.events(), &mut text)?;
    let mut bytes = text.into_bytes();
    push_end(alloc, world, dests, script.kinds().len(), form, &mut bytes)?;
    Ok(bytes)
}

/// Adds what a world has come to: what each connection of each destination got, the report, and a line for each of
/// the first `readers` readers.
pub(crate) fn push_end(
    alloc: Global,
    world: &World,
    dests: &[Dest],
    readers: usize,
    form: HandedForm,
    text: &mut Vec<u8>,
) -> Result<(), NoMemory>
    requires destinations { length dests.now ≤ length world.now.destinations }
    requires readers { readers ≤ length world.now.readers }
    ensures { OnOk result (OfItsRuns world.now (λ run. text.new.items
        ≡ text.old.items ++ end_text form world.now.plan dests.now readers run)) }
{
    push_all_handed(alloc, world, dests.len(), form, text)?;
    report(alloc, &with_counts(alloc, world, dests)?, text)?;
    let lines = readers_text(alloc, world, readers)?;
    text.extend_from_slice(lines.as_str().as_bytes())?;
    Ok(())
}

/// Adds what each connection of a destination got, of the first `count` destinations.
fn push_all_handed(
    alloc: Global,
    world: &World,
    count: usize,
    form: HandedForm,
    text: &mut Vec<u8>,
) -> Result<(), AllocError>
    requires { count ≤ length world.now.destinations }
    ensures { OnOk result (OfItsRuns world.now (λ run.
        text.new.items ≡ text.old.items ++ of_each (handed_text form run) count)) }
{
    for dest in 0..count {
        push_connections(alloc, dest, world.handed(dest), form, text)?;
    }
    Ok(())
}

/// Adds what each connection of a destination got.
fn push_connections(
    alloc: Global,
    dest: usize,
    connections: &[Vec<u8>],
    form: HandedForm,
    text: &mut Vec<u8>,
) -> Result<(), AllocError>
    ensures { OnOk result (text.new.items ≡ text.old.items
        ++ handed_lines form dest 0 (map (λ bytes. bytes.items) connections.now)) }
{
    for place in 0..connections.len() {
        push_handed(
            alloc,
            text,
            dest,
            place,
            connections[place].as_slice(),
            form,
        )?;
    }
    Ok(())
}

/// Each destination with what its queue has counted.
fn with_counts(
    alloc: Global,
    world: &World,
    dests: &[Dest],
) -> Result<Vec<(Dest, Counts)>, AllocError>
    requires { length dests.now ≤ length world.now.destinations }
    ensures { IfOk result (λ pairs. OfItsRuns world.now (λ run. pairs.items
        ≡ with_counts (λ d. counts_of (dest_in relay_reading run d).queue) 0 dests.now)) }
{
    let mut pairs = Vec::with_capacity(alloc, dests.len())?;
    for place in 0..dests.len() {
        let dest = dests[place].clone()?;
        pairs.push((dest, world.counts(place)))?;
    }
    Ok(pairs)
}

/// The lines of the first `count` readers.
fn readers_text(alloc: Global, world: &World, count: usize) -> Result<String, AllocError>
    requires { count ≤ length world.now.readers }
    ensures { IfOk result (λ text. OfItsRuns world.now (λ run.
        string_bytes text ≡ of_each (reader_text world.now.plan run) count)) }
{
    let mut text = String::new(alloc);
    for reader in 0..count {
        push_reader(
            &mut text,
            reader,
            world.waiting(reader),
            world.reader_counts(reader),
        )?;
    }
    Ok(text)
}
