//! Notes of the bad lines of an input, while it is read.

use crate::tally::Tallies;
use line_text::{LONGEST_LINE, LineFault, Moment, Number, Point};
use note_text::{EscapedBytes, Notes};
use relay_base::{is_white, strip_bytes};
use std::alloc::Global;
use std::str;

/// How many bad lines have a note in one second; the others are counted.
const MOST_IN_A_SECOND: u64 = 10;

/// The lines of an input, examined as its pieces are read.
#[derive(Drop)]
pub(crate) struct LineWatch {
    alloc: Global,
    moment: Moment,
    /// What follows the last newline.
    rest: Vec<u8>,
    /// How many lines have ended.
    lines: u64,
    /// The second of the last note, and how many bad lines it had.
    second: u64,
    in_second: u64,
    /// The bad lines by cause.
    tallies: Tallies,
    /// Whether nothing more is examined: a line was too long, there was no memory, or the input has ended.
    is_done: bool,
}

impl LineWatch {
    /// Nothing was read yet.
    pub(crate) fn new(alloc: Global, moment: Moment) -> LineWatch {
        LineWatch {
            alloc,
            moment,
            rest: Vec::new(alloc),
            lines: 0,
            second: 0,
            in_second: 0,
            tallies: Tallies::new(alloc),
            is_done: false,
        }
    }

    /// The notes of a piece of the input that was read in a second; an empty piece is the end of the input.
    pub(crate) fn look(&mut self, piece: &[u8], second: u64) -> Notes {
        let mut notes = Notes::new(self.alloc);
        if self.is_done {
            return notes;
        }
        if second != self.second || piece.is_empty() {
            self.add_count(&mut notes);
            self.second = second;
            self.in_second = 0;
        }
        if piece.is_empty() {
            self.is_done = true;
            if !self.rest.is_empty() {
                notes.add(self.why_unfinished());
            }
        }
        self.look_at_lines(&mut notes, piece);
        if self.is_done {
            self.tallies.add_notes(&mut notes);
        }
        notes
    }

    /// What the input is of which a last line has no newline.
    fn why_unfinished(&self) -> &'static str {
        match self.rest.as_slice() {
            [0x1f, 0x8b, ..] if self.lines == 0 => {
                "the input has no newline: it is compressed by gzip"
            }
            [0, ..] if self.lines == 0 => {
                "the input has no newline: it looks like frames of pickles, which --pickle takes"
            }
            rest if rest.contains(&b'\r') => {
                "the last line has no newline, but a carriage return, which ends no line"
            }
            _ => "the last line has no newline",
        }
    }

    /// Adds how many bad lines had no note.
    fn add_count(&self, notes: &mut Notes) {
        let more = self.in_second.saturating_sub(MOST_IN_A_SECOND);
        if more > 0 {
            notes.add(format_args!("{more} more bad lines in that second"));
        }
    }

    fn look_at_lines(&mut self, notes: &mut Notes, piece: &[u8]) {
        for part in piece.split_inclusive(|byte| *byte == b'\n') {
            if self.rest.extend_from_slice(part).is_err() {
                self.is_done = true;
            }
            if self.is_done {
                return;
            }
            if self.rest.len() > LONGEST_LINE.saturating_add(1) {
                return self.end_too_long(notes);
            }
            if part.ends_with(b"\n") {
                self.end_line(notes);
            }
        }
    }

    /// Adds the note of a line that is too long, and examines no more.
    fn end_too_long(&mut self, notes: &mut Notes) {
        self.is_done = true;
        notes.add(format_args!(
            "line {}: more than {LONGEST_LINE} bytes, and nothing behind it is read: {}",
            self.lines.saturating_add(1),
            EscapedBytes(self.rest.as_slice())
        ));
    }

    /// Examines the line that has ended, and adds a note if it is bad.
    fn end_line(&mut self, notes: &mut Notes) {
        self.lines = self.lines.saturating_add(1);
        let line = self.rest.as_slice();
        let line = line.strip_suffix(b"\n").unwrap_or(line);
        match Point::read_line(self.alloc, line, self.moment) {
            Ok(point) => {
                if is_far(&point) {
                    self.tallies.add(FAR, field(line, 0));
                }
                drop(point);
            }
            Err(fault) => {
                let why = why_bad(line, fault);
                self.tallies.add(why, field(line, 0));
                self.in_second = self.in_second.saturating_add(1);
                if self.in_second <= MOST_IN_A_SECOND {
                    let number = self.lines;
                    notes.add(format_args!("line {number}: {why}: {}", EscapedBytes(line)));
                }
            }
        }
        self.rest.clear();
    }
}

/// A good line whose time is likely not meant in seconds.
const FAR: &str = "time: above 100000000000, as of milliseconds, and passed as seconds";

/// The greatest time that is likely meant in seconds: as milliseconds, it is in 1973.
const FARTHEST: u64 = 100_000_000_000;

/// Whether a line has a datapoint whose time is likely not meant in seconds.
fn is_far(point: &Option<Point>) -> bool {
    match point {
        Some(point) => point.time > FARTHEST,
        None => false,
    }
}

/// Which field of a line is bad, and why.
fn why_bad(line: &[u8], fault: LineFault) -> &'static str {
    match fault {
        LineFault::FieldCount => "not three fields, name, value and time",
        LineFault::BadName => why_bad_name(field(line, 0)),
        LineFault::BadValue if Number::read(field(line, 1)).is_ok() => {
            "value: a number out of range"
        }
        LineFault::BadValue => "value: not a number",
        LineFault::BadTime if Number::read(field(line, 2)).is_ok() => {
            "time: a number out of range"
        }
        LineFault::BadTime => "time: not a number",
        LineFault::NoMemory => "no memory to read it",
    }
}

fn why_bad_name(name: &[u8]) -> &'static str {
    if str::from_utf8(name).is_err() {
        "name: not UTF-8"
    } else if has_control(name) {
        "name: a control byte"
    } else {
        "name: too long"
    }
}

/// Whether a name has a byte that no name may have.
fn has_control(name: &[u8]) -> bool {
    for byte in name {
        if *byte <= b' ' || *byte == 127 {
            return true;
        }
    }
    false
}

/// The field of a number, from 0; an empty one if the line has fewer.
fn field(line: &[u8], number: usize) -> &[u8] {
    let (mut field, mut rest) = first_field(line);
    for _step in 0..number {
        (field, rest) = first_field(rest);
    }
    field
}

/// The first field of a text, empty if there is none, and what follows it.
fn first_field(text: &[u8]) -> (&[u8], &[u8]) {
    let text = strip_bytes(text);
    for (place, byte) in text.iter().enumerate() {
        if is_white(*byte) {
            return text.split_at(place);
        }
    }
    (text, b"")
}
