//! A run of lines, without a script.
ghost use Rattle.std.specs.Prelude.{ℕ, ◌≡◌, ◌≤◌, ◌∷◌, [], length, IfOk, OnOk};
ghost use Rattle.reader_core.specs.declared.kind.ReaderKind.TheVariants.{Line};
ghost use Rattle.relay_core.specs.World.{Up};
ghost use Rattle.relay_core.specs.WorldModel.{RepresentsRun};
ghost use Rattle.replay.specs.LinesRun.{each_of, writes_to, hands_to, sends_of, opening, lines_text};
ghost use Rattle.replay.specs.RunEvents.{EventsHappen};
ghost use Rattle.replay.specs.ScriptEvent.{event_seen};

use crate::handed_form::HandedForm;
use crate::run_events::apply_event;
use crate::run_text::push_end;
use crate::script_event::OwnedEvent;
use conf_text::Dest;
use dest_queue::LARGEST_SIZE;
use line_text::Moment;
use reader_core::ReaderKind;
use relay_base::NoMemory;
use relay_core::{Answer, LARGEST_BATCH, World};
use router::Plan;
use std::alloc::Global;

/// The number of parts in which a datapoint is written. Each part is half of the one before, and the first is
/// 16,384 bytes, so that together they write any number of bytes up to 32,767; a datapoint has at most 16,434.
const PARTS: usize = 15;

const FIRST_PART: usize = 16_384;

/// Runs lines by a plan: one reader is fed them as one piece, every destination has a connection, and after each
/// offer every destination takes a batch and writes it. It writes what happened as `replay_text` does.
///
/// The time of datapoints whose time is -1 is 0. The plan sends to these destinations. Out of memory, it drops the
/// plan.
pub fn replay_lines(
    alloc: Global,
    plan: Plan,
    size: usize,
    limit: usize,
    dests: &[Dest],
    lines: Vec<u8>,
    form: HandedForm,
) -> Result<Vec<u8>, NoMemory>
    requires size { (1 ≤ size) × (size ≤ LARGEST_SIZE) }
    requires limit { (1 ≤ limit) × (limit ≤ LARGEST_BATCH) }
    requires destinations { plan.destinations ≡ length dests.now }
    ensures { IfOk result
        (λ text. text.items ≡ lines_text form plan size limit dests.now lines.items) }
{
    let kinds = [ReaderKind::Line];
    let mut world = World::new(alloc, plan, size, limit, dests.len(), &kinds)?;
    let text = text_of_lines(alloc, &mut world, dests, lines, form);
    drop(world);
    text
}

/// What a world of one reader, in which nothing has happened, does with lines.
fn text_of_lines(
    alloc: Global,
    world: &mut World,
    dests: &[Dest],
    lines: Vec<u8>,
    form: HandedForm,
) -> Result<Vec<u8>, NoMemory>
    requires destinations { length world.old.destinations ≡ length dests.now }
    requires readers { length world.old.readers ≡ 1 }
    ensures { IfOk result (λ text. (size limit : ℕ)
        → RepresentsRun world.old size limit (Line ∷ []) []
        → text.items ≡ lines_text form world.old.plan size limit dests.now lines.items) }
{
    open(world, dests.len(), lines)?;
    let offers = world.waiting(0);
    send(world, dests.len(), offers)?;
    happen(world, &OwnedEvent::End(0))?;
    let mut text = Vec::new(alloc);
    push_end(alloc, world, dests, 1, form, &mut text)?;
    Ok(text)
}

/// Each destination gets a connection, and then the first reader the lines.
fn open(world: &mut World, dests: usize, lines: Vec<u8>) -> Result<(), NoMemory>
    ensures { OnOk result (EventsHappen world.old world.new (opening dests lines.items)) }
{
    connect(world, dests)?;
    happen(world, &OwnedEvent::Piece(0, lines, first_moment()))?;
    Ok(())
}

fn first_moment() -> Moment
    ensures { result ≡ 0 }
{
    match Moment::new(0) {
        Some(moment) => moment,
        None => unreachable!(),
    }
}

/// Each destination gets a connection.
fn connect(world: &mut World, dests: usize) -> Result<(), NoMemory>
    ensures { OnOk result (EventsHappen world.old world.new (each_of (λ d. Up d ∷ []) dests)) }
{
    for dest in 0..dests {
        happen(world, &OwnedEvent::Up(dest))?;
    }
    Ok(())
}

/// The first reader makes this number of offers, and after each of them every destination takes a batch and writes it.
fn send(world: &mut World, dests: usize, offers: usize) -> Result<(), NoMemory>
    ensures { OnOk result
        (EventsHappen world.old world.new (each_of (λ _. sends_of dests) offers)) }
{
    for _ in 0..offers {
        send_one(world, dests)?;
    }
    Ok(())
}

/// The first reader makes an offer, and every destination takes a batch and writes it.
fn send_one(world: &mut World, dests: usize) -> Result<(), NoMemory>
    ensures { OnOk result (EventsHappen world.old world.new (sends_of dests)) }
{
    happen(world, &OwnedEvent::Offer(0))?;
    hand_over(world, dests)?;
    Ok(())
}

/// Every destination takes a batch and writes it.
fn hand_over(world: &mut World, dests: usize) -> Result<(), NoMemory>
    ensures { OnOk result (EventsHappen world.old world.new (each_of hands_to dests)) }
{
    for dest in 0..dests {
        hand_to(world, dest)?;
    }
    Ok(())
}

/// A destination takes a batch and writes it.
fn hand_to(world: &mut World, dest: usize) -> Result<(), NoMemory>
    ensures { OnOk result (EventsHappen world.old world.new (hands_to dest)) }
{
    happen(world, &OwnedEvent::Take(dest))?;
    write_to(world, dest)?;
    Ok(())
}

/// A destination writes what it has taken: of each part, if it has as many bytes left.
fn write_to(world: &mut World, dest: usize) -> Result<(), NoMemory>
    ensures { OnOk result (EventsHappen world.old world.new (writes_to dest)) }
{
    let mut part = FIRST_PART;
    for _ in 0..PARTS {
        happen(world, &OwnedEvent::Wrote(dest, part))?;
        part /= 2;
    }
    Ok(())
}

/// Lets an event come to a world, where the run allows it.
fn happen(world: &mut World, event: &OwnedEvent) -> Result<(), NoMemory>
    ensures { OnOk result (EventsHappen world.old world.new (event_seen event.now ∷ [])) }
{
    match apply_event(world, event)? {
        Answer::Spent => Err(NoMemory),
        _ => Ok(()),
    }
}
