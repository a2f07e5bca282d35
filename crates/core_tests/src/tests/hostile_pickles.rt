//! Pickles that end too early, that only mark, and of which a byte is changed; and the frame that comes after each.

use line_text::{LineBuf, Moment, Point, print_line};
use pickle_subset::{FrameEnd, PickleFault, PickleReader, load};
use std::alloc::Global;

/// A frame of one row, as Python writes it in protocol 2.
static ONE_ROW: &[u8] =
    b"\x00\x00\x00\x1e\x80\x02]q\x00X\x03\x00\x00\x00a.bq\x01J\x00\xf1SeK*\x86q\x02\x86q\x03a.";

/// Its line.
const LINE: &[u8] = b"a.b 42 1700000000\n";

/// A frame of two rows; the second has its path from the memo.
static TWO_ROWS: &[u8] =
    b"\x00\x00\x00\x35\x80\x02]q\x00(X\x03\x00\x00\x00a.bq\x01J\x00\xf1SeG@E\x00\x00\x00\x00\x00\x00\x86q\x02\x86q\x03h\x01J\x01\xf1SeK\x07\x86q\x04\x86q\x05e.";

/// Where the pickle of a frame begins.
const HEAD: usize = 4;

// Whether a pickle ends before its rows do.
fn is_truncated(alloc: Global, pickle: &[u8]) -> bool {
    matches!(load(alloc, pickle), Err(PickleFault::Truncated))
}

// How many of the fronts of a frame's pickle, shorter than it, end too early.
fn truncated_fronts(alloc: Global, frame: &[u8]) -> usize {
    let mut count: usize = 0;
    for end in HEAD..frame.len() {
        if is_truncated(alloc, &frame[HEAD..end]) {
            count = count.saturating_add(1);
        }
    }
    count
}

#[test]
fn each_front_of_a_pickle_is_truncated(rt: HostRuntime) {
    assert!(rt; truncated_fronts(rt.alloc(), ONE_ROW) == 30);
    assert!(rt; truncated_fronts(rt.alloc(), TWO_ROWS) == 53);
}

// A pickle of the longest frame that only marks.
fn marks_of(alloc: Global) -> Option<Vec<u8>> {
    let mut marks = Vec::new(alloc);
    for _ in 0..1_048_576 {
        marks.push(b'(').ok()?;
    }
    Some(marks)
}

fn are_marks_truncated(alloc: Global) -> Option<bool> {
    Some(is_truncated(alloc, &marks_of(alloc)?))
}

#[test]
fn marks_up_to_the_longest_frame(rt: HostRuntime) {
    assert!(rt; are_marks_truncated(rt.alloc()) == Some(true));
}

/// A reader, what it found, and room for a line.
#[derive(Drop)]
struct Reading {
    reader: PickleReader,
    points: Vec<Point>,
    line: LineBuf,
    moment: Moment,
}

impl Reading {
    fn new(alloc: Global) -> Option<Reading> {
        Some(Reading {
            line: LineBuf::new(alloc).ok()?,
            moment: Moment::new(9)?,
            reader: PickleReader::new(alloc),
            points: Vec::new(alloc),
        })
    }

    // Whether the reader is fed a frame, and is open then.
    fn is_fed(&mut self, frame: &[u8]) -> bool {
        self.points.clear();
        matches!(
            self.reader.feed(frame, self.moment, &mut self.points),
            Ok(FrameEnd::Open)
        )
    }

    // Whether the reader, once it met a frame, reads the frame of one row.
    fn reads_after(&mut self, frame: &[u8]) -> bool {
        if !self.is_fed(frame) || !self.is_fed(ONE_ROW) || self.points.len() != 1 {
            return false;
        }
        match self.points.first() {
            Some(point) => {
                print_line(point, &mut self.line);
                self.line.bytes() == LINE
            }
            None => false,
        }
    }

    // After how many of the frames with another byte at this place the reader reads the frame of one row.
    fn read_after_changes(&mut self, frame: &mut Vec<u8>, at: usize) -> usize {
        let mut count: usize = 0;
        for byte in 0..=u8::MAX {
            if let Some(changed) = frame.get_mut(at) {
                *changed = byte;
            }
            if self.reads_after(frame) {
                count = count.saturating_add(1);
            }
        }
        count
    }
}

// After how many of the changes of one byte of a pickle its reader reads the frame of one row.
fn read_after_each(alloc: Global, reading: &mut Reading) -> Option<usize> {
    let mut count: usize = 0;
    for at in HEAD..ONE_ROW.len() {
        let mut frame = Vec::from_slice(alloc, ONE_ROW).ok()?;
        count = count.saturating_add(reading.read_after_changes(&mut frame, at));
    }
    Some(count)
}

fn read_after_all(alloc: Global) -> Option<usize> {
    let mut reading = Reading::new(alloc)?;
    let count = read_after_each(alloc, &mut reading);
    drop(reading);
    count
}

// Thirty bytes, each with 256 values.
#[test]
fn a_frame_is_read_after_any_other(rt: HostRuntime) {
    assert!(rt; read_after_all(rt.alloc()) == Some(7_680));
}
