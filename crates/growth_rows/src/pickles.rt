//! Rows of `pickle_subset`.

use crate::marks::{
    CALLS, begin, end, is_answered, moment, print_answer, print_point, print_points,
};
use line_text::{LineFault, Moment, Point};
use pickle_subset::{PickleFault, PickleReader, Row, load};
use std::alloc::Global;

pub(crate) const NAMES: &[&str] = &["load", "Row::point", "PickleReader::feed"];

/// Rows that are refused no growth.
pub(crate) const WORKED: &[&str] = &["lengths of frames"];

pub(crate) fn run(rt: &HostRuntime, alloc: Global, name: &str) -> Option<()> {
    match name {
        "load" => load_all(rt, alloc),
        "Row::point" => points_of_rows(rt, alloc),
        "PickleReader::feed" => feed(rt, alloc),
        "lengths of frames" => read_lengths(rt, alloc),
        _ => None,
    }
}

/// A row of which the value is none, and one that is right.
const TWO_ROWS: &[u8] = b"\x80\x02](U\x01aK\x05N\x86\x86U\x01bK\x05K\x07\x86\x86e.";

/// A pickle for each fault; three that have no rows; and one of two rows.
static PICKLES: [&[u8]; 13] = [
    b"\x80\x02]",
    b"\x80\x06].",
    b"c.",
    b"]cos\nsystem\nU\x02id\x85R.",
    b"]h\x00.",
    b"]q\x00h\x00.",
    b"]U\x01\xff.",
    b"](X\xff\xff\xff\xff",
    b"](T\xff\xff\xff\xff",
    b"\x80\x02]q\x00.",
    b"](e.",
    b"\x80\x04\x95\xff\xff\xff\xff\xff\xff\xff\xff]\x94.",
    TWO_ROWS,
];

/// The beginning of a frame of one row, as Python writes it.
const BEGIN: &[u8] = b"\x00\x00\x00\x1e\x80\x02]q\x00X\x03\x00\x00\x00a.bq\x01J";

/// The rest of that frame.
const END: &[u8] = b"\x00\xf1SeK*\x86q\x02\x86q\x03a.";

/// The piece ends a frame that was begun, has one that cannot be read, and begins a third.
const PIECE: &[u8] = b"\x00\xf1SeK*\x86q\x02\x86q\x03a.\x00\x00\x00\x02c.\
\x00\x00\x00\x1e\x80\x02]q\x00X\x03\x00\x00\x00a.bq\x01J";

fn load_all(rt: &HostRuntime, alloc: Global) -> Option<()> {
    for pickle in &PICKLES {
        load_rows(rt, alloc, pickle)?;
    }
    Some(())
}

fn load_rows(rt: &HostRuntime, alloc: Global, pickle: &[u8]) -> Option<()> {
    for _ in 0..CALLS {
        begin(rt);
        let answer = load(alloc, pickle);
        end(rt);
        let fault = match answer {
            Ok(rows) => {
                print_answer(rt, &rows.len());
                return Some(());
            }
            Err(fault) => fault,
        };
        print_answer(rt, &fault);
        if !matches!(fault, PickleFault::NoMemory) {
            return Some(());
        }
    }
    None
}

fn points_of_rows(rt: &HostRuntime, alloc: Global) -> Option<()> {
    let rows = load(alloc, TWO_ROWS).ok()?;
    let moment = moment()?;
    for row in &rows {
        point_of(rt, alloc, row, moment);
    }
    Some(())
}

// The call needs no memory, so it is made once.
fn point_of(rt: &HostRuntime, alloc: Global, row: &Row, moment: Moment) {
    begin(rt);
    let answer = row.point(alloc, moment);
    end(rt);
    print_point_of(rt, answer);
}

/// Prints the datapoint of a row, or why there is none.
fn print_point_of(rt: &HostRuntime, answer: Result<Point, LineFault>) {
    match answer {
        Ok(point) => print_point(rt, "answer", &point),
        Err(fault) => print_answer(rt, &fault),
    }
}

fn feed(rt: &HostRuntime, alloc: Global) -> Option<()> {
    let moment = moment()?;
    let mut points = Vec::new(alloc);
    let mut reader = PickleReader::new(alloc);
    let fed = feed_frames(rt, &mut reader, moment, &mut points);
    drop(reader);
    fed
}

fn feed_frames(
    rt: &HostRuntime,
    reader: &mut PickleReader,
    moment: Moment,
    points: &mut Vec<Point>,
) -> Option<()> {
    reader.feed(BEGIN, moment, points).ok()?;
    for _ in 0..CALLS {
        print_read(rt, reader, points);
        begin(rt);
        let answer = reader.feed(PIECE, moment, points);
        end(rt);
        if is_answered(rt, answer) {
            reader.feed(END, moment, points).ok()?;
            print_read(rt, reader, points);
            return Some(());
        }
    }
    None
}

/// Prints how many frames could not be read, how many rows gave no datapoint, and the datapoints.
fn print_read(rt: &HostRuntime, reader: &PickleReader, points: &[Point]) {
    let _ = println!(rt; "state {} {}", reader.bad_pickles(), reader.bad_rows());
    print_points(rt, points);
}

/// The greatest length of a frame, and one more.
static LENGTHS: [&[u8]; 2] = [b"\x00\x10\x00\x00", b"\x00\x10\x00\x01"];

fn read_lengths(rt: &HostRuntime, alloc: Global) -> Option<()> {
    let moment = moment()?;
    for length in &LENGTHS {
        read_length(rt, alloc, length, moment);
    }
    Some(())
}

/// Begins a connection with the length of a frame.
fn read_length(rt: &HostRuntime, alloc: Global, length: &[u8], moment: Moment) {
    let mut points = Vec::new(alloc);
    let mut reader = PickleReader::new(alloc);
    let answer = reader.feed(length, moment, &mut points);
    print_answer(rt, &answer);
    drop(reader);
}
