//! Notes of the bad frames of an input, while it is read.

use crate::bad_frame::{BadFrame, bad_frame};
use line_text::{LineFault, Moment};
use note_text::{EscapedBytes, Notes};
use pickle_subset::{LONGEST_FRAME, PickleFault, Row, load};
use std::alloc::Global;
use std::io::{Read, Write};
use std::{io, mem};

/// How many notes an input has; the frames and rows beyond are counted.
const MOST_NOTES: u64 = 100;

/// What is read.
const FORM: &str =
    "cure: write pickle.dumps(rows, 2), where rows is [(name, (time, value)), ..] of texts and numbers";

/// How many bytes the length before a pickle has.
const LENGTH_BYTES: usize = 4;

/// A reader that passes on exactly the bytes that it reads, and writes a note of each frame among them that cannot be read, and
/// of each row that gives no datapoint.
#[derive(Drop)]
pub struct WatchedFrames<R: Read, N: Write> {
    input: R,
    notes: N,
    watch: FrameWatch,
}

impl<R: Read, N: Write> WatchedFrames<R, N> {
    /// An input before its first read; a time of -1 is this moment.
    pub fn new(alloc: Global, input: R, notes: N, moment: Moment) -> WatchedFrames<R, N> {
        WatchedFrames {
            input,
            notes,
            watch: FrameWatch::new(alloc, moment),
        }
    }
}

impl<R: Read, N: Write> Read for WatchedFrames<R, N> {
    ghost remaining = { λ w. R.remaining w.input };

    fn read(&mut self, buf: &mut [u8]) -> io::Result<usize> {
        let count = self.input.read(buf)?;
        let (piece, _) = buf.split_at(count);
        let notes = self.watch.look(piece);
        let _ = self.notes.write_all(notes.text().as_bytes());
        Ok(count)
    }
}

/// The frames of an input, examined as its pieces are read.
#[derive(Drop)]
struct FrameWatch {
    alloc: Global,
    moment: Moment,
    /// What follows the last whole frame.
    rest: Vec<u8>,
    /// The number of bytes before that.
    place: u64,
    /// The number of the frame that begins there, from 1.
    number: u64,
    /// How many frames and rows were bad.
    bad: u64,
    /// Whether a frame could not be read.
    is_unread: bool,
    /// Whether nothing more is examined: a frame was too long, there was no memory, or the input has ended.
    is_done: bool,
}

impl FrameWatch {
    /// Nothing was read yet.
    fn new(alloc: Global, moment: Moment) -> FrameWatch {
        FrameWatch {
            alloc,
            moment,
            rest: Vec::new(alloc),
            place: 0,
            number: 1,
            bad: 0,
            is_unread: false,
            is_done: false,
        }
    }

    /// The notes of a piece of the input; an empty piece is its end.
    fn look(&mut self, piece: &[u8]) -> Notes {
        let mut notes = Notes::new(self.alloc);
        if self.is_done {
            return notes;
        }
        if piece.is_empty() {
            self.end(&mut notes);
            return notes;
        }
        let mut bytes = mem::replace(&mut self.rest, Vec::new(self.alloc));
        if bytes.extend_from_slice(piece).is_err() {
            self.is_done = true;
        } else {
            self.look_at_frames(&mut notes, bytes.as_slice());
        }
        drop(bytes);
        notes
    }

    /// Adds what there is to say at the end of the input.
    fn end(&mut self, notes: &mut Notes) {
        self.is_done = true;
        if !self.rest.is_empty() {
            notes.add(format_args!(
                "frame {}, byte {}: the input ends within it",
                self.number, self.place
            ));
        }
        let more = self.bad.saturating_sub(MOST_NOTES);
        if more > 0 {
            notes.add(format_args!("{more} more bad frames and rows"));
        }
        if self.is_unread {
            notes.add(FORM);
        }
    }

    /// Examines the whole frames that these bytes begin with, and keeps what follows them.
    fn look_at_frames(&mut self, notes: &mut Notes, bytes: &[u8]) {
        let mut left = bytes;
        for _ in 0..bytes.len() {
            let Some(length) = length_of(left) else {
                break;
            };
            if length > LONGEST_FRAME {
                return self.add_too_long(notes, left, length);
            }
            let (_, behind) = left.split_at(LENGTH_BYTES.min(left.len()));
            if behind.len() < length {
                break;
            }
            let (pickle, rest) = behind.split_at(length);
            self.look_at(notes, pickle);
            let frame = LENGTH_BYTES.saturating_add(length);
            self.place = self.place.saturating_add(frame as u64);
            self.number = self.number.saturating_add(1);
            left = rest;
        }
        self.is_done = self.rest.extend_from_slice(left).is_err();
    }

    /// Adds the note of a length that is too great, with what the bytes there may be.
    fn add_too_long(&mut self, notes: &mut Notes, bytes: &[u8], length: usize) {
        self.is_done = true;
        notes.add(format_args!(
            "frame {}, byte {}: a length of {length}, above {LONGEST_FRAME}: nothing more is read",
            self.number, self.place
        ));
        match bytes {
            [0x80, ..] => notes.add("a pickle begins there, without the four bytes of its length"),
            [_, _, 0..=15, 0, ..] => {
                notes.add(
                    "the length may begin with its least significant byte, and the most significant comes first",
                )
            }
            [b' '..=b'~', b' '..=b'~', b' '..=b'~', b' '..=b'~', ..] => {
                notes.add("lines may begin there, which relayd pass reads without --pickle")
            }
            _ => {}
        }
    }

    /// Examines a pickle, and adds notes of what is bad.
    fn look_at(&mut self, notes: &mut Notes, pickle: &[u8]) {
        match load(self.alloc, pickle) {
            Ok(rows) => {
                self.look_at_rows(notes, rows.as_slice());
                drop(rows);
            }
            Err(PickleFault::NoMemory) => {}
            Err(fault) => {
                self.is_unread = true;
                self.bad = self.bad.saturating_add(1);
                if self.bad <= MOST_NOTES {
                    self.add_bad_frame(notes, bad_frame(self.alloc, pickle, fault));
                }
            }
        }
    }

    fn add_bad_frame(&self, notes: &mut Notes, bad: BadFrame) {
        let before = LENGTH_BYTES.saturating_add(bad.place);
        let place = self.place.saturating_add(before as u64);
        notes.add(format_args!("frame {}, byte {place}: {}", self.number, bad.why));
    }

    fn look_at_rows(&mut self, notes: &mut Notes, rows: &[Row<'_>]) {
        let mut number: u64 = 0;
        for row in rows {
            number = number.saturating_add(1);
            if let Some(fault) = row.point(self.alloc, self.moment).err() {
                self.add_bad_row(notes, row, number, fault);
            }
        }
    }

    fn add_bad_row(&mut self, notes: &mut Notes, row: &Row<'_>, number: u64, fault: LineFault) {
        self.bad = self.bad.saturating_add(1);
        if self.bad <= MOST_NOTES {
            notes.add(format_args!(
                "frame {}, row {number}: {fault}: {}",
                self.number,
                EscapedBytes(row.path.as_bytes())
            ));
        }
    }
}

/// The length that bytes begin with, if it is whole.
fn length_of(bytes: &[u8]) -> Option<usize> {
    match bytes {
        [first, second, third, fourth, ..] => {
            Some(u32::from_be_bytes([*first, *second, *third, *fourth]) as usize)
        }
        _ => None,
    }
}
