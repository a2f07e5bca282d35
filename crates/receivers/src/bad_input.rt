//! Examples of bad input.

use crate::bad_pickle::Frames;
use crate::progress::Progress;
use line_text::{LineFault, Moment, Point};
use log_lines::{BadInput, BadPickle};
use reader_core::{ReaderCounts, ReaderKind};
use std::alloc::Global;

/// Whether more was bad than before.
pub(crate) fn has_more(before: ReaderCounts, now: ReaderCounts) -> bool {
    now.bad_lines != before.bad_lines
        || now.bad_pickles != before.bad_pickles
        || now.bad_rows != before.bad_rows
        || now.bad_names != before.bad_names
}

/// What was wrong with input that raised the counts from these to those, if that can be said. This is the last of it.
pub(crate) fn wrong_with(
    alloc: Global,
    before: ReaderCounts,
    now: ReaderCounts,
    last: LastInput<'_>,
) -> Option<BadInput> {
    if now.bad_lines != before.bad_lines {
        return last.first_bad_line(alloc);
    }
    if now.bad_pickles != before.bad_pickles {
        return Some(BadInput::Pickle {
            why: last.first_bad_pickle(alloc),
        });
    }
    if now.bad_rows != before.bad_rows {
        return Some(BadInput::Row);
    }
    if now.bad_names != before.bad_names {
        Some(BadInput::NewName)
    } else {
        None
    }
}

/// The last piece of a connection, or a datagram.
#[derive(Clone, Copy)]
pub(crate) enum LastInput<'t> {
    Lines(Lines<'t>),
    Frames(Frames<'t>),
}

impl<'t> LastInput<'t> {
    /// The last piece of a connection to a reader of this kind, which was there before.
    pub(crate) fn of_piece(kind: ReaderKind, piece: &'t [u8], before: Progress) -> LastInput<'t> {
        match kind {
            ReaderKind::Pickle => LastInput::Frames(Frames {
                begun: before.begun_frame(),
                text: piece,
            }),
            _ => LastInput::Lines(Lines::of_piece(piece, before.is_within())),
        }
    }

    /// What is wrong with its first line that is bad.
    fn first_bad_line(self, alloc: Global) -> Option<BadInput> {
        match self {
            LastInput::Lines(lines) => lines.first_wrong(alloc),
            LastInput::Frames(_) => None,
        }
    }

    /// Why its first pickle that cannot be read cannot.
    fn first_bad_pickle(self, alloc: Global) -> BadPickle {
        match self {
            LastInput::Lines(_) => BadPickle::Unknown,
            LastInput::Frames(frames) => frames.first_wrong(alloc),
        }
    }
}

/// Some lines.
#[derive(Clone, Copy)]
pub(crate) struct Lines<'t> {
    text: &'t [u8],
    last_break: u8,
}

impl<'t> Lines<'t> {
    /// The whole lines of a piece of a connection. If it begins within a line, that line is left out.
    fn of_piece(piece: &'t [u8], is_within: bool) -> Lines<'t> {
        let begin = if is_within { after_break(piece) } else { 0 };
        let end = piece.len().saturating_sub(after_last_break(piece));
        let text = if begin < end { &piece[begin..end] } else { &[] };
        Lines {
            text,
            last_break: b'\n',
        }
    }

    /// The lines of a datagram, which end at each byte from 10 to 13.
    pub(crate) fn of_datagram(datagram: &'t [u8]) -> Lines<'t> {
        Lines {
            text: datagram,
            last_break: b'\r',
        }
    }

    /// What is wrong with the first line that is bad, if one is and there is memory to see it.
    fn first_wrong(self, alloc: Global) -> Option<BadInput> {
        let last_break = self.last_break;
        for line in self
            .text
            .split(|byte| b'\n' <= *byte && *byte <= last_break)
        {
            if let Some(wrong) = wrong_in(alloc, line) {
                return Some(wrong);
            }
        }
        None
    }
}

/// What is wrong with a line, if it is bad and there is memory to see it.
fn wrong_in(alloc: Global, line: &[u8]) -> Option<BadInput> {
    let moment = Moment::new(0)?;
    match Point::read_line(alloc, line, moment) {
        Ok(_) => None,
        Err(LineFault::FieldCount) => Some(BadInput::Fields {
            count: fields_in(line),
        }),
        Err(LineFault::BadName) => Some(BadInput::Name),
        Err(LineFault::BadValue) => Some(BadInput::Value),
        Err(LineFault::BadTime) => Some(BadInput::Time),
        Err(LineFault::NoMemory) => None,
    }
}

/// How many fields a line has: runs of bytes that are no white space.
fn fields_in(line: &[u8]) -> u64 {
    let mut count: u64 = 0;
    for field in line.split(|byte| byte.is_ascii_whitespace() || *byte == 11) {
        if !field.is_empty() {
            count = count.saturating_add(1);
        }
    }
    count
}

/// Behind the first newline of a piece, or its length if it has none.
fn after_break(piece: &[u8]) -> usize {
    match piece.iter().position(|byte| *byte == b'\n') {
        Some(place) => place.saturating_add(1),
        None => piece.len(),
    }
}

/// How many bytes follow the last newline of a piece; all if it has none.
fn after_last_break(piece: &[u8]) -> usize {
    match piece.iter().rev().position(|byte| *byte == b'\n') {
        Some(place) => place,
        None => piece.len(),
    }
}
