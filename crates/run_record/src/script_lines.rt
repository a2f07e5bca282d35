//! The text of a script.
ghost use Rattle.std.specs.Prelude.{◌≡◌, ◌++◌, map, OnOk};
ghost use Rattle.std.specs.String.{string_bytes};
ghost use Rattle.relay_core.specs.Event.{run_event};
ghost use Rattle.run_record.specs.ScriptLines.{reader_lines, event_lines, script_text};

use crate::event_line::write_event;
use crate::reader_line::push_reader;
use reader_core::ReaderKind;
use relay_core::Event;
use std::alloc::{AllocError, Global};

/// Adds a script to a text: a line for each reader, by its kind, and a line for each event, in order.
///
/// Out of memory, the text may have some of the lines.
pub fn write_script(
    alloc: Global,
    kinds: &[ReaderKind],
    events: &[Event<'_>],
    text: &mut String,
) -> Result<(), AllocError>
    ensures { OnOk result (string_bytes text.new
        ≡ string_bytes text.old ++ script_text kinds.now (map run_event events.now)) }
{
    push_readers(kinds, text)?;
    push_events(alloc, events, text)
}

fn push_readers(kinds: &[ReaderKind], text: &mut String) -> Result<(), AllocError>
    ensures { OnOk result
        (string_bytes text.new ≡ string_bytes text.old ++ reader_lines kinds.now) }
{
    for kind in kinds {
        push_reader(*kind, text)?;
    }
    Ok(())
}

fn push_events(alloc: Global, events: &[Event<'_>], text: &mut String) -> Result<(), AllocError>
    ensures { OnOk result (string_bytes text.new
        ≡ string_bytes text.old ++ event_lines (map run_event events.now)) }
{
    for event in events {
        write_event(alloc, event, text)?;
    }
    Ok(())
}
