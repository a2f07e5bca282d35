//! The events of a script come to a world.
ghost use Rattle.std.specs.Prelude.{◌≡◌, ◌<◌, ◌≤◌, ◌+◌, [], ◌∷◌, length, IfOk, OnOk};
ghost use Rattle.std.specs.String.{string_bytes};
ghost use Rattle.dest_queue.specs.Offer.{last_count};
ghost use Rattle.relay_core.specs.WorldModel.{HasAsMany, Applies};
ghost use Rattle.replay.specs.ScriptEvent.{event_seen};
ghost use Rattle.replay.specs.RunEvents.{EventsCome};

use crate::run_lines::push_not_now;
use crate::script_event::{OwnedEvent, ScriptEvent};
use relay_base::NoMemory;
use relay_core::{Answer, Event, World};

/// Lets events come to a world, one after another. The text gains a line for each that is no part of the run.
pub(crate) fn apply_all(
    world: &mut World,
    events: &[ScriptEvent],
    text: &mut String,
) -> Result<(), NoMemory>
    requires { world.old.events + length events.now ≤ last_count }
    ensures come { OnOk result (EventsCome world.old world.new events.now
        (string_bytes text.old) (string_bytes text.new)) }
{
    for event in events {
        apply_one(world, event, text)?;
    }
    Ok(())
}

/// Lets an event come to a world. The text gains its line where it is no part of the run.
fn apply_one(world: &mut World, event: &ScriptEvent, text: &mut String) -> Result<(), NoMemory>
    requires { world.old.events < last_count }
    ensures come { OnOk result (EventsCome world.old world.new (event.now ∷ [])
        (string_bytes text.old) (string_bytes text.new)) }
{
    match apply_event(world, event.event())? {
        Answer::NotNow => Ok(push_not_now(text, event.line())?),
        _ => Ok(()),
    }
}

/// Lets an event of a script come to a world.
pub(crate) fn apply_event(world: &mut World, event: &OwnedEvent) -> Result<Answer, NoMemory>
    ensures applies { IfOk result
        (λ answer. Applies world.old (event_seen event.now) answer world.new) }
    ensures plan { world.new.plan ≡ world.old.plan }
    ensures places { HasAsMany world.new world.old }
{
    match event {
        OwnedEvent::Piece(reader, bytes, moment) => {
            world.apply(Event::Piece(*reader, bytes.as_slice(), *moment))
        }
        OwnedEvent::End(reader) => world.apply(Event::End(*reader)),
        OwnedEvent::Offer(reader) => world.apply(Event::Offer(*reader)),
        OwnedEvent::Take(dest) => world.apply(Event::Take(*dest)),
        OwnedEvent::Up(dest) => world.apply(Event::Up(*dest)),
        OwnedEvent::Wrote(dest, count) => world.apply(Event::Wrote(*dest, *count)),
        OwnedEvent::Down(dest) => world.apply(Event::Down(*dest)),
    }
}
