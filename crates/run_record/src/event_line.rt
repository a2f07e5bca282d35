//! The line of an event.
ghost use Rattle.std.specs.Prelude.{◌≡◌, ◌++◌, OnOk};
ghost use Rattle.std.specs.String.{string_bytes};
ghost use Rattle.relay_core.specs.Event.{run_event};
ghost use Rattle.run_record.specs.ScriptLines.{piece_words, event_words, event_line};

use line_text::Moment;
use relay_core::Event;
use std::alloc::{AllocError, Global};
use std::fmt::Write as _;

/// Adds the line of an event to a text. Out of memory, the text may have a part of it.
pub fn write_event(alloc: Global, event: &Event<'_>, text: &mut String) -> Result<(), AllocError>
    ensures { OnOk result (string_bytes text.new
        ≡ string_bytes text.old ++ event_line (run_event event.now)) }
{
    push_words(alloc, event, text)?;
    text.push('\n')
}

fn push_words(alloc: Global, event: &Event<'_>, text: &mut String) -> Result<(), AllocError>
    ensures { OnOk result (string_bytes text.new
        ≡ string_bytes text.old ++ event_words (run_event event.now)) }
{
    match event {
        Event::Piece(reader, bytes, moment) => push_piece(alloc, *reader, bytes, *moment, text),
        Event::End(reader) => write!(text, "end {reader}"),
        Event::Offer(reader) => write!(text, "offer {reader}"),
        Event::Take(dest) => write!(text, "take {dest}"),
        Event::Up(dest) => write!(text, "up {dest}"),
        Event::Wrote(dest, count) => write!(text, "wrote {dest} {count}"),
        Event::Down(dest) => write!(text, "down {dest}"),
    }
}

fn push_piece(
    alloc: Global,
    reader: usize,
    bytes: &[u8],
    moment: Moment,
    text: &mut String,
) -> Result<(), AllocError>
    ensures { OnOk result (string_bytes text.new
        ≡ string_bytes text.old ++ piece_words reader moment bytes.now) }
{
    let digits = hex::encode(alloc, bytes)?;
    write!(text, "piece {reader} {} ", moment.seconds())?;
    text.push_str(digits.as_str())
}
