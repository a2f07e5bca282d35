//! Rows of `relay_core`.

ghost use Rattle.std.specs.Prelude.{◌≡◌, ◌<◌, length, IfSome};

use crate::marks::{begin, end, print_answer, print_state, print_text};
use crate::routing::two_plan;
use line_text::{Moment, Point};
use reader_core::ReaderKind;
use relay_core::{Answer, Event, NoMemory, World};
use router::Plan;
use std::alloc::Global;

pub(crate) const NAMES: &[&str] = &["World::new", "World::apply"];

/// Rows that are refused no growth.
pub(crate) const WORKED: &[&str] = &["World::apply over a plan that remembers"];

pub(crate) fn run(rt: &HostRuntime, alloc: Global, name: &str) -> Option<()> {
    match name {
        "World::new" => new_world(rt, alloc),
        "World::apply" => apply_all(rt, alloc, &[]),
        "World::apply over a plan that remembers" => apply_all(rt, alloc, &REMEMBERED),
        _ => None,
    }
}

/// The number of destinations, and of readers.
const DESTINATIONS: usize = 2;

const KINDS: [ReaderKind; DESTINATIONS] = [ReaderKind::Line, ReaderKind::Line];

/// The greatest size of a queue, and of a batch.
const SIZE: usize = 1;

const LIMIT: usize = 500;

// The call takes the plan, so it is made again with a new one.
fn new_world(rt: &HostRuntime, alloc: Global) -> Option<()> {
    if is_world_made(rt, alloc)? || is_world_made(rt, alloc)? {
        Some(())
    } else {
        None
    }
}

/// Makes a world. Returns whether it was not refused.
fn is_world_made(rt: &HostRuntime, alloc: Global) -> Option<bool> {
    let plan = two_plan(alloc)?;
    let count = plan.destinations();
    begin(rt);
    let answer = World::new(alloc, plan, SIZE, LIMIT, count, &KINDS);
    end(rt);
    match answer {
        Ok(world) => {
            drop(world);
            print_answer(rt, &count);
            Some(true)
        }
        Err(fault) => {
            print_answer(rt, &fault);
            Some(false)
        }
    }
}

/// Lines with the names of the run, which a plan may remember before it begins.
static REMEMBERED: [&[u8]; 4] = [b"a.x 1 5", b"a.y 2 5", b"q 3 5", b"z 1 5"];

/// Sends the datapoints of these lines, and forgets where they go.
fn remember(alloc: Global, plan: &mut Plan, lines: &[&[u8]]) -> Option<()>
    ensures { plan.new ≡ plan.old }
{
    let moment = Moment::new(0)?;
    for line in lines {
        let point: Point = Point::read_line(alloc, line, moment).ok()??;
        drop(plan.send(&point).ok()?);
    }
    Some(())
}

/// A world without input, over a plan that remembers the names of these lines.
fn world(alloc: Global, lines: &[&[u8]]) -> Option<World>
    ensures readers { IfSome result (λ world. length world.readers ≡ DESTINATIONS) }
    ensures destinations { IfSome result (λ world. length world.destinations ≡ DESTINATIONS) }
{
    let mut plan = two_plan(alloc)?;
    let count = plan.destinations();
    if count != DESTINATIONS || remember(alloc, &mut plan, lines).is_none() {
        drop(plan);
        return None;
    }
    World::new(alloc, plan, SIZE, LIMIT, count, &KINDS).ok()
}

fn apply_all(rt: &HostRuntime, alloc: Global, remembered: &[&[u8]]) -> Option<()> {
    let moment = Moment::new(9)?;
    let mut world = world(alloc, remembered)?;
    let applied = apply_in_turn(rt, &mut world, moment);
    drop(world);
    applied
}

/// Applies all events, one after another. Of two datapoints for the first destination one is kept and one is dropped; the
/// second destination has a full queue, and does not matter to the first. A take comes too early, and changes nothing.
fn apply_in_turn(rt: &HostRuntime, world: &mut World, moment: Moment) -> Option<()>
    requires readers { length world.old.readers ≡ DESTINATIONS }
    requires destinations { length world.old.destinations ≡ DESTINATIONS }
{
    feed_all(rt, world, moment)?;
    send_all(rt, world)?;
    print_world(rt, world);
    Some(())
}

fn feed_all(rt: &HostRuntime, world: &mut World, moment: Moment) -> Option<()>
    requires readers { length world.old.readers ≡ DESTINATIONS }
    requires destinations { length world.old.destinations ≡ DESTINATIONS }
    ensures readers_kept { length world.new.readers ≡ DESTINATIONS }
    ensures destinations_kept { length world.new.destinations ≡ DESTINATIONS }
{
    apply(rt, world, &Event::Take(0))?;
    apply(rt, world, &Event::Piece(1, b"z 1 5\nz 2 5\n", moment))?;
    apply(rt, world, &Event::Offer(1))?;
    apply(rt, world, &Event::Offer(1))?;
    apply(rt, world, &Event::Piece(0, b"bad\na.x 1", moment))?;
    apply(rt, world, &Event::Piece(0, b" 5\nq 3 5\na.y 2 5\n", moment))
}

fn send_all(rt: &HostRuntime, world: &mut World) -> Option<()>
    requires readers { length world.old.readers ≡ DESTINATIONS }
    requires destinations { length world.old.destinations ≡ DESTINATIONS }
    ensures readers_kept { length world.new.readers ≡ DESTINATIONS }
    ensures destinations_kept { length world.new.destinations ≡ DESTINATIONS }
{
    apply(rt, world, &Event::Up(0))?;
    apply(rt, world, &Event::Offer(0))?;
    apply(rt, world, &Event::Offer(0))?;
    apply(rt, world, &Event::Offer(0))?;
    apply(rt, world, &Event::Take(0))?;
    apply(rt, world, &Event::Wrote(0, 8))
}

/// Applies an event, and once more if it was refused.
fn apply(rt: &HostRuntime, world: &mut World, event: &Event<'_>) -> Option<()>
    requires readers { length world.old.readers ≡ DESTINATIONS }
    requires destinations { length world.old.destinations ≡ DESTINATIONS }
    ensures readers_kept { length world.new.readers ≡ DESTINATIONS }
    ensures destinations_kept { length world.new.destinations ≡ DESTINATIONS }
{
    if is_applied(rt, world, event) || is_applied(rt, world, event) {
        Some(())
    } else {
        None
    }
}

/// Prints a world and applies an event to it. Returns whether it was not refused.
fn is_applied(rt: &HostRuntime, world: &mut World, event: &Event<'_>) -> bool
    requires readers { length world.old.readers ≡ DESTINATIONS }
    requires destinations { length world.old.destinations ≡ DESTINATIONS }
    ensures readers_kept { length world.new.readers ≡ DESTINATIONS }
    ensures destinations_kept { length world.new.destinations ≡ DESTINATIONS }
{
    print_world(rt, world);
    begin(rt);
    let answer = apply_to(world, event);
    end(rt);
    print_answer(rt, &answer);
    answer.is_ok()
}

/// Prints what can be seen of a world: of each destination and of each reader.
fn print_world(rt: &HostRuntime, world: &World)
    requires readers { length world.now.readers ≡ DESTINATIONS }
    requires destinations { length world.now.destinations ≡ DESTINATIONS }
{
    for place in 0..DESTINATIONS {
        print_dest(rt, world, place);
        let _ = println!(rt;
            "state {:?} {}",
            world.reader_counts(place),
            world.waiting(place)
        );
    }
}

fn print_dest(rt: &HostRuntime, world: &World, dest: usize)
    requires { dest < length world.now.destinations }
{
    let (counts, dropped) = (world.counts(dest), world.dropped(dest));
    let _ = println!(rt; "state {counts:?} {dropped}");
    for bytes in world.handed(dest) {
        print_text(rt, "state", bytes);
    }
}

/// Applies an event to a world.
fn apply_to(world: &mut World, event: &Event<'_>) -> Result<Answer, NoMemory>
    ensures readers { length world.new.readers ≡ length world.old.readers }
    ensures destinations { length world.new.destinations ≡ length world.old.destinations }
{
    match event {
        Event::Piece(reader, bytes, moment) => {
            world.apply(Event::Piece(*reader, bytes, *moment))
        }
        Event::End(reader) => world.apply(Event::End(*reader)),
        Event::Offer(reader) => world.apply(Event::Offer(*reader)),
        Event::Take(dest) => world.apply(Event::Take(*dest)),
        Event::Up(dest) => world.apply(Event::Up(*dest)),
        Event::Wrote(dest, count) => world.apply(Event::Wrote(*dest, *count)),
        Event::Down(dest) => world.apply(Event::Down(*dest)),
    }
}
