//! The lines of a script.
ghost use Rattle.std.specs.Prelude.{◌≡◌, IfOk, option_map};
ghost use Rattle.replay.specs.ScriptEvent.{event_seen};
ghost use Rattle.replay.specs.ScriptLine.{kind_named, meaning_of_stripped, meaning_of};
ghost use Rattle.replay.specs.ReadScriptLine.{meaning_seen, cut_of, meaning_of_cut, meaning_named, event_named, write_in, piece_in, piece_seen, piece_text, piece_for};

use crate::script_event::OwnedEvent;
use crate::script_words::{hex_bytes, moment, number};
use line_text::Moment;
use reader_core::ReaderKind;
use relay_base::{NoMemory, strip};
use std::alloc::Global;

/// What a line says.
#[derive(Drop)]
pub(crate) enum Line {
    /// It is empty, or a comment.
    Skipped,
    /// It declares the next reader.
    Reader(ReaderKind),
    /// It is an event.
    Event(OwnedEvent),
    /// It is none of these.
    Bad,
}

/// Reads a line, without the byte 10 that ends it.
#[tactic(auto, unfolding(crate::specs::ScriptLine::meaning_of))]
pub(crate) fn read_line(alloc: Global, line: &str) -> Result<Line, NoMemory>
    ensures { IfOk result (λ says. meaning_seen says ≡ meaning_of line.now) }
{
    read_stripped(alloc, strip(line))
}

fn read_stripped(alloc: Global, line: &str) -> Result<Line, NoMemory>
    ensures { IfOk result (λ says. meaning_seen says ≡ meaning_of_stripped line.now) }
{
    if line.is_empty() || line.starts_with('#') {
        return Ok(Line::Skipped);
    }
    read_words(alloc, line)
}

fn read_words(alloc: Global, line: &str) -> Result<Line, NoMemory>
    ensures { IfOk result (λ says. meaning_seen says ≡ meaning_of_cut (cut_of line.now)) }
{
    match line.split_once(' ') {
        Some((word, rest)) => read_named(alloc, word, rest),
        None => Ok(Line::Bad),
    }
}

/// What the first word and what follows it say.
fn read_named(alloc: Global, word: &str, rest: &str) -> Result<Line, NoMemory>
    ensures { IfOk result (λ says. meaning_seen says ≡ meaning_named word.now rest.now) }
{
    if word == "reader" {
        return Ok(kind_named(rest).map_or(Line::Bad, Line::Reader));
    }
    Ok(event_named(alloc, word, rest)?.map_or(Line::Bad, Line::Event))
}

fn kind_named(word: &str) -> Option<ReaderKind>
    ensures { result ≡ kind_named word.now }
{
    match word {
        "line" => Some(ReaderKind::Line),
        "pickle" => Some(ReaderKind::Pickle),
        "datagram" => Some(ReaderKind::Datagram),
        _ => None,
    }
}

fn event_named(alloc: Global, word: &str, rest: &str) -> Result<Option<OwnedEvent>, NoMemory>
    ensures { IfOk result (λ event. option_map event_seen event ≡ event_named word.now rest.now) }
{
    match word {
        "piece" => piece_in(alloc, rest),
        "end" => Ok(number(rest).map(OwnedEvent::End)),
        "offer" => Ok(number(rest).map(OwnedEvent::Offer)),
        "take" => Ok(number(rest).map(OwnedEvent::Take)),
        "up" => Ok(number(rest).map(OwnedEvent::Up)),
        "wrote" => Ok(write_in(rest)),
        "down" => Ok(number(rest).map(OwnedEvent::Down)),
        _ => Ok(None),
    }
}

fn write_in(text: &str) -> Option<OwnedEvent>
    ensures { option_map event_seen result ≡ write_in text.now }
{
    let (dest, count) = text.split_once(' ')?;
    Some(OwnedEvent::Wrote(number(dest)?, number(count)?))
}

fn piece_in(alloc: Global, text: &str) -> Result<Option<OwnedEvent>, NoMemory>
    ensures { IfOk result (λ event. option_map event_seen event ≡ piece_in text.now) }
{
    let Some(piece) = piece_text(text) else {
        return Ok(None);
    };
    let bytes = hex_bytes(alloc, piece.digits)?;
    Ok(bytes.map(|bytes| OwnedEvent::Piece(piece.reader, bytes, piece.moment)))
}

/// A piece as its line writes it.
#[derive(Clone, Copy)]
struct PieceText<'a> {
    reader: usize,
    moment: Moment,
    digits: &'a str,
}

fn piece_text(text: &str) -> Option<PieceText<'_>>
    ensures { option_map piece_seen result ≡ piece_text text.now }
{
    let (word, rest) = text.split_once(' ')?;
    piece_for(number(word)?, rest)
}

/// The piece of a reader that a moment and digits write.
fn piece_for(reader: usize, text: &str) -> Option<PieceText<'_>>
    ensures { option_map piece_seen result ≡ piece_for reader text.now }
{
    let (word, digits) = text.split_once(' ')?;
    let moment = moment(word)?;
    Some(PieceText {
        reader,
        moment,
        digits,
    })
}
