//! Rows of `line_text`.

use crate::marks::{
    CALLS, RowAnswer, begin, end, is_answered, is_made, moment, print_answer, print_point,
    print_points, print_state, print_text,
};
use line_text::{
    FeedEnd, LineBuf, LineFault, LineReader, Moment, Name, NameFault, Number, Point, datagram,
    print_line,
};
use std::alloc::Global;

pub(crate) const NAMES: &[&str] = &[
    "Point::read_line",
    "LineReader::feed",
    "datagram",
    "Name::read",
    "LineBuf::new",
];

/// Rows that are refused no growth.
pub(crate) const WORKED: &[&str] = &["numbers", "a long line cut at each place"];

pub(crate) fn run(rt: &HostRuntime, alloc: Global, name: &str) -> Option<()> {
    match name {
        "Point::read_line" => read_lines(rt, alloc),
        "LineReader::feed" => feed(rt, alloc),
        "datagram" => read_datagram(rt, alloc),
        "Name::read" => read_names(rt, alloc),
        "LineBuf::new" => line_buf(rt, alloc),
        "numbers" => read_numbers(rt),
        "a long line cut at each place" => cut_long_lines(rt, alloc),
        _ => None,
    }
}

/// A line with white space of each kind; the ends of times; lines with too few and too many fields, and without any; and
/// the ends of values.
static LINES: [&str; 14] = [
    "  a.b\t+042.000   1700000000.9\r",
    "a 1 9007199254740992",
    "a 1 9007199254740993",
    "a 1 -2",
    "a 1 -0.9",
    "a 1 -1.9",
    "a 1",
    "a 1 2 3",
    "",
    "\u{7f} 1 2",
    "m 9223372036854775807 1",
    "m -9223372036854775808 1",
    "m 9223372036854775808 1",
    "m 9223372036854775808.0000000001 1",
];

fn read_lines(rt: &HostRuntime, alloc: Global) -> Option<()> {
    let moment = moment()?;
    for line in &LINES {
        read_line(rt, alloc, line, moment)?;
    }
    Some(())
}

fn read_line(rt: &HostRuntime, alloc: Global, line: &str, moment: Moment) -> Option<()> {
    for _ in 0..CALLS {
        print_state(rt, &line);
        begin(rt);
        let answer = Point::read_line(alloc, line.as_bytes(), moment);
        end(rt);
        if is_read(rt, answer) {
            return Some(());
        }
    }
    None
}

/// Prints the datapoint of a line, or why there is none. Returns whether memory sufficed.
fn is_read(rt: &HostRuntime, answer: Result<Option<Point>, LineFault>) -> bool {
    match answer {
        Ok(Some(point)) => print_point(rt, "answer", &point),
        Ok(None) => print_answer(rt, &"blank"),
        Err(fault) => {
            print_answer(rt, &fault);
            return !matches!(fault, LineFault::NoMemory);
        }
    }
    true
}

/// A piece of a connection, and the second in which it came.
struct Piece {
    seconds: u64,
    bytes: &'static [u8],
}

/// A line in two pieces, whose time is that of its newline; a piece that ends a line, has a whole one and a bad one, and
/// begins a fourth; and the end of that.
static PIECES: [Piece; 5] = [
    Piece {
        seconds: 1_700_000_000,
        bytes: b"a.b 1 -",
    },
    Piece {
        seconds: 1_700_000_005,
        bytes: b"1\n",
    },
    Piece {
        seconds: 9,
        bytes: b"  a.b\t+042.000   1700000000.9\r\na.b ",
    },
    Piece {
        seconds: 9,
        bytes: b"42 7\nbad\na 1 2\nc.d",
    },
    Piece {
        seconds: 9,
        bytes: b" 5 6\na 1 2\n",
    },
];

/// One byte more than the longest line has.
const TOO_LONG: usize = 16_385;

fn feed(rt: &HostRuntime, alloc: Global) -> Option<()> {
    let mut points = Vec::new(alloc);
    let mut reader = LineReader::new(alloc);
    let fed = feed_pieces(rt, alloc, &mut reader, &mut points);
    drop(reader);
    fed
}

fn feed_pieces(
    rt: &HostRuntime,
    alloc: Global,
    reader: &mut LineReader,
    points: &mut Vec<Point>,
) -> Option<()> {
    for piece in &PIECES {
        feed_piece(rt, reader, piece.bytes, Moment::new(piece.seconds)?, points)?;
    }
    let long = text_of(alloc, TOO_LONG)?;
    feed_piece(rt, reader, &long, moment()?, points)?;
    feed_piece(rt, reader, b"a 1 2\n", moment()?, points)?;
    print_read(rt, reader, points);
    Some(())
}

/// This number of bytes `x`.
pub(crate) fn text_of(alloc: Global, count: usize) -> Option<Vec<u8>> {
    let mut text = Vec::new(alloc);
    for _ in 0..count {
        text.push(b'x').ok()?;
    }
    Some(text)
}

fn feed_piece(
    rt: &HostRuntime,
    reader: &mut LineReader,
    piece: &[u8],
    moment: Moment,
    points: &mut Vec<Point>,
) -> Option<()> {
    for _ in 0..CALLS {
        print_read(rt, reader, points);
        begin(rt);
        let answer = reader.feed(piece, moment, points);
        end(rt);
        if is_answered(rt, answer) {
            return Some(());
        }
    }
    None
}

/// Prints how many bad lines were read, and the datapoints.
fn print_read(rt: &HostRuntime, reader: &LineReader, points: &[Point]) {
    print_state(rt, &reader.bad_lines());
    print_points(rt, points);
}

/// How many bytes the name of the longest line has, before a value and a time of a digit each.
const LONG_NAME: usize = 16_380;

/// Prints at how many places the longest line can be cut in two and is read, and at how many a line of one byte more can
/// be cut and closes the connection, once the line before it is read.
fn cut_long_lines(rt: &HostRuntime, alloc: Global) -> Option<()> {
    let mut longest = text_of(alloc, LONG_NAME)?;
    longest.extend_from_slice(b" 1 2\n").ok()?;
    let read = count_cuts(alloc, &longest, LONG_NAME, false);
    let mut longer = Vec::from_slice(alloc, b"a 1 2\n").ok()?;
    longer.extend_from_slice(&text_of(alloc, TOO_LONG)?).ok()?;
    longer.extend_from_slice(b"\n").ok()?;
    let closed = count_cuts(alloc, &longer, 1, true);
    let _ = println!(rt; "answer {read} of {}", longest.len());
    let _ = println!(rt; "answer {closed} of {}", longer.len());
    Some(())
}

/// In how many cuts of a connection into two pieces it gives one datapoint, with a name of this length, and is then closed or
/// open.
fn count_cuts(alloc: Global, text: &[u8], length: usize, is_closed: bool) -> usize {
    let mut count: usize = 0;
    for at in 0..text.len() {
        let (front, back) = text.split_at(at);
        if gives_one(alloc, front, back, length) == Some(is_closed) {
            count = count.saturating_add(1);
        }
    }
    count
}

/// Whether a connection in two pieces is closed; `None` if it does not give one datapoint with a name of this length.
fn gives_one(alloc: Global, front: &[u8], back: &[u8], length: usize) -> Option<bool> {
    let mut points = Vec::new(alloc);
    let mut reader = LineReader::new(alloc);
    let moment = moment()?;
    reader.feed(front, moment, &mut points).ok()?;
    let end = reader.feed(back, moment, &mut points).ok()?;
    drop(reader);
    let is_one = points.len() == 1 && points.first()?.name.text().len() == length;
    is_one.then_some(matches!(end, FeedEnd::LineTooLong))
}

fn read_datagram(rt: &HostRuntime, alloc: Global) -> Option<()> {
    let moment = moment()?;
    read_lines_of_datagram(rt, alloc, moment, &mut Vec::new(alloc))
}

fn read_lines_of_datagram(
    rt: &HostRuntime,
    alloc: Global,
    moment: Moment,
    points: &mut Vec<Point>,
) -> Option<()> {
    for _ in 0..CALLS {
        print_points(rt, points);
        begin(rt);
        let answer = datagram(alloc, b"a 1 2\r\nb 3 4\x0bbad", moment, points);
        end(rt);
        if is_answered(rt, answer) {
            print_points(rt, points);
            return Some(());
        }
    }
    None
}

/// Names, and texts that are none. A short name has its bytes in itself; a long one needs memory.
static TEXTS: [&[u8]; 7] = [
    b"servers.web1.example.net.cpu.total.idle.percent.of.all.processors",
    b"collectd.web1.cpu",
    b"a.b",
    b"",
    b"a b",
    b"\x7f",
    b"\xff",
];

/// One byte more than the longest name has.
const TOO_LONG_NAME: usize = 16_385;

fn read_names(rt: &HostRuntime, alloc: Global) -> Option<()> {
    for text in &TEXTS {
        print_text(rt, "state", text);
        read_name(rt, alloc, text)?;
    }
    read_name(rt, alloc, &text_of(alloc, TOO_LONG_NAME)?)
}

fn read_name(rt: &HostRuntime, alloc: Global, text: &[u8]) -> Option<()> {
    for _ in 0..CALLS {
        begin(rt);
        let answer = Name::read(alloc, text);
        end(rt);
        match &answer {
            Ok(name) => print_answer(rt, &name.text()),
            Err(fault) => print_answer(rt, fault),
        }
        if !matches!(answer, Err(NameFault::NoMemory)) {
            return Some(());
        }
    }
    None
}

fn line_buf(rt: &HostRuntime, alloc: Global) -> Option<()> {
    for _ in 0..CALLS {
        begin(rt);
        let answer = LineBuf::new(alloc);
        end(rt);
        if is_made(rt, answer) {
            return Some(());
        }
    }
    None
}

/// Prints its bytes, and those of a line.
impl RowAnswer for LineBuf {
    fn print(&mut self, rt: &HostRuntime) {
        print_text(rt, "answer", self.bytes());
        let Some(moment) = moment() else {
            return;
        };
        if let Ok(Some(point)) = Point::read_line(rt.alloc(), b"a.b 42 1700000000", moment) {
            print_line(&point, self);
            print_text(rt, "state", self.bytes());
        }
    }
}

/// Texts of numbers, and texts that are none; the last one has 39 digits.
static NUMBERS: [&str; 12] = [
    ".5",
    ".9",
    "0e999",
    "1e999",
    "99999999999999999999999999999999999999",
    ".",
    "",
    "+",
    "1e",
    "1e1000",
    "inf",
    "100000000000000000000000000000000000000",
];

/// Prints what each text is: the units of its value and its time, or why it is no number.
fn read_numbers(rt: &HostRuntime) -> Option<()> {
    let moment = moment()?;
    for text in &NUMBERS {
        match Number::read(text.as_bytes()) {
            Ok(number) => print_number(rt, text, number, moment),
            Err(fault) => {
                let _ = println!(rt; "answer {text:?} {fault:?}");
            }
        }
    }
    Some(())
}

fn print_number(rt: &HostRuntime, text: &str, number: Number, moment: Moment) {
    let units = number.value().map(|value| value.units());
    let time = number.time(moment);
    let _ = println!(rt; "answer {text:?} {units:?} {time:?}");
}
