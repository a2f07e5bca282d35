//! An event that is applied to a world, and written.
ghost use Rattle.std.specs.Prelude.{◌≡◌, ◌<◌, ◌^◌, nat_lt, length, true, [], ◌∷◌, if◌then◌else◌, IfOk, OnOk};
ghost use Rattle.hex.specs.Hex.{IsBytes};
ghost use Rattle.std.specs.String.{string_bytes};
ghost use Rattle.relay_core.specs.Event.{run_event};
ghost use Rattle.relay_core.specs.WorldModel.{HasAsMany, Applies};
ghost use Rattle.run_record.specs.Laws.{IsWritable};
ghost use Rattle.run_record.specs.PartEvents.{is_fed_to, is_connection_of};
ghost use Rattle.run_record.specs.Making.{Continues, happens, is_of};

use crate::event_line::write_event;
use crate::parts::RunScriptFault;
use line_text::LAST_TIME;
use relay_base::NoMemory;
use relay_core::{Answer, Event, World};
use std::alloc::Global;

/// The greatest number that a line of a script may have: it has at most sixteen digits.
const LARGEST_NUMBER: usize = 9_999_999_999_999_999;

/// A part of a run that has a list of events.
#[derive(Clone, Copy)]
pub(crate) enum Part {
    /// What the reader of this number was fed.
    Reader(usize),
    /// What happened to the connections of the destination of this number.
    Writer(usize),
}

/// Applies an event to a world. If it happens, its line is added to the text. Returns the world's answer.
pub(crate) fn try_event(
    alloc: Global,
    world: &mut World,
    text: &mut String,
    event: &Event<'_>,
) -> Result<Answer, RunScriptFault>
    ensures applies { IfOk result
        (λ answer. Applies world.old (run_event event.now) answer world.new) }
    ensures continues { IfOk result (λ answer. Continues world.old world.new
        (string_bytes text.old) (string_bytes text.new)
        (if happens answer then run_event event.now ∷ [] else [])) }
{
    if !has_line(event) {
        return Err(RunScriptFault::EmptyDatagram);
    }
    let answer = apply_to(world, event)?;
    if has_happened(answer) {
        write_event(alloc, event, text)?;
    }
    Ok(answer)
}

/// Whether an event with this answer has happened.
pub(crate) fn has_happened(answer: Answer) -> bool
    ensures { result ≡ happens answer }
{
    match answer {
        Answer::Done | Answer::Dropped => true,
        Answer::NotNow | Answer::Spent => false,
    }
}

/// Applies an event to a world.
fn apply_to(world: &mut World, event: &Event<'_>) -> Result<Answer, NoMemory>
    ensures applies { IfOk result
        (λ answer. Applies world.old (run_event event.now) answer world.new) }
    ensures plan { world.new.plan ≡ world.old.plan }
    ensures places { HasAsMany world.new world.old }
{
    match event {
        Event::Piece(reader, bytes, moment) => {
            world.apply(Event::Piece(*reader, bytes, *moment))
        }
        Event::End(reader) => world.apply(Event::End(*reader)),
        Event::Offer(reader) => world.apply(Event::Offer(*reader)),
        Event::Take(dest) => world.apply(Event::Take(*dest)),
        Event::Up(dest) => world.apply(Event::Up(*dest)),
        Event::Wrote(dest, count) => world.apply(Event::Wrote(*dest, *count)),
        Event::Down(dest) => world.apply(Event::Down(*dest)),
    }
}

/// Applies an event that must happen to a world.
pub(crate) fn apply_event(
    alloc: Global,
    world: &mut World,
    text: &mut String,
    event: &Event<'_>,
) -> Result<(), RunScriptFault>
    ensures { OnOk result (Continues world.old world.new
        (string_bytes text.old) (string_bytes text.new) (run_event event.now ∷ [])) }
{
    if has_happened(try_event(alloc, world, text, event)?) {
        Ok(())
    } else {
        Err(RunScriptFault::NotOneRun)
    }
}

/// Applies an event of a part to a world: it must be one, and it must happen.
pub(crate) fn apply_own(
    alloc: Global,
    world: &mut World,
    text: &mut String,
    part: Part,
    event: &Event<'_>,
) -> Result<(), RunScriptFault>
    ensures own { OnOk result (is_of part (run_event event.now) ≡ true) }
    ensures continues { OnOk result (Continues world.old world.new
        (string_bytes text.old) (string_bytes text.new) (run_event event.now ∷ [])) }
{
    if !is_own(part, event) {
        return Err(RunScriptFault::NotOneRun);
    }
    apply_event(alloc, world, text, event)
}

/// Whether an event is of a part.
fn is_own(part: Part, event: &Event<'_>) -> bool
    ensures { result ≡ is_of part (run_event event.now) }
{
    match part {
        Part::Reader(reader) => is_fed_to(reader, event),
        Part::Writer(dest) => is_connection_of(dest, event),
    }
}

/// Whether a reader is fed an event.
fn is_fed_to(reader: usize, event: &Event<'_>) -> bool
    ensures { result ≡ is_fed_to reader (run_event event.now) }
{
    match event {
        Event::Piece(number, _, _) | Event::End(number) => *number == reader,
        Event::Offer(_) | Event::Take(_) | Event::Up(_) | Event::Wrote(_, _) | Event::Down(_) => {
            false
        }
    }
}

/// Whether an event is of a destination's connection.
fn is_connection_of(dest: usize, event: &Event<'_>) -> bool
    ensures { result ≡ is_connection_of dest (run_event event.now) }
{
    match event {
        Event::Up(number) | Event::Wrote(number, _) | Event::Down(number) => *number == dest,
        Event::Piece(_, _, _) | Event::End(_) | Event::Offer(_) | Event::Take(_) => false,
    }
}

/// Whether a script has a line for the event: a piece has a byte, and no number is too large.
fn has_line(event: &Event<'_>) -> bool
    ensures { result ≡ true → IsWritable (run_event event.now) }
{
    match event {
        Event::Piece(reader, bytes, moment) => {
            is_short(*reader) && has_bytes(bytes) && moment.seconds() <= LAST_TIME
        }
        Event::End(reader) => is_short(*reader),
        Event::Offer(reader) => is_short(*reader),
        Event::Take(dest) => is_short(*dest),
        Event::Up(dest) => is_short(*dest),
        Event::Wrote(dest, count) => is_short(*dest) && is_short(*count),
        Event::Down(dest) => is_short(*dest),
    }
}

/// Whether a piece has a byte.
fn has_bytes(bytes: &[u8]) -> bool
    ensures { result ≡ true → (0 < length bytes.now) × IsBytes bytes.now }
{
    !bytes.is_empty()
}

/// Whether a number has at most sixteen digits.
fn is_short(number: usize) -> bool
    ensures { result ≡ nat_lt number (10 ^ 16) }
{
    number <= LARGEST_NUMBER
}
