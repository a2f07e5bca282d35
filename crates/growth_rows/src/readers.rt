//! Rows of `reader_core`, and the plan of all rows.

use crate::lines::text_of;
use crate::marks::{CALLS, begin, end, moment, print_answer, print_point};
use crate::routing::REWRITE;
use line_text::Moment;
use reader_core::{FeedFault, Reader, ReaderKind};
use router::Plan;
use std::alloc::Global;
use worked_files::{ONE_DESTINATION, ring_plan};

pub(crate) const NAMES: &[&str] = &[
    "Reader::feed of lines",
    "Reader::feed of pickles",
    "Reader::feed of a datagram",
];

pub(crate) fn run(rt: &HostRuntime, alloc: Global, name: &str) -> Option<()> {
    match name {
        "Reader::feed of lines" => read(rt, alloc, ReaderKind::Line, &LINES),
        "Reader::feed of pickles" => read(rt, alloc, ReaderKind::Pickle, &PICKLES),
        "Reader::feed of a datagram" => read(rt, alloc, ReaderKind::Datagram, &DATAGRAMS),
        _ => None,
    }
}

/// A plan with one destination, which drops the name `x`.
pub(crate) fn plan(alloc: Global) -> Option<Plan> {
    ring_plan(alloc, ONE_DESTINATION, REWRITE)
}

/// What is done to a reader.
enum ReaderStep {
    /// It is fed a piece.
    Feed(&'static [u8]),
    /// It is fed one byte more than the longest line has, without a newline.
    FeedLong,
    /// The offers that wait are taken out.
    TakeOut,
    /// Its connection ends.
    End,
}

/// Lines in pieces, with a bad one and a name that is dropped; a piece that is refused while offers wait; a line that is
/// too long, after one that is read, and what follows it; and the next connection.
static LINES: [ReaderStep; 11] = [
    ReaderStep::Feed(b"a.b "),
    ReaderStep::Feed(b"42 7\nbad\nx 1 2\nc.d"),
    ReaderStep::Feed(b"e 1 2\n"),
    ReaderStep::TakeOut,
    ReaderStep::Feed(b" 5 6\na 1 2\n"),
    ReaderStep::TakeOut,
    ReaderStep::FeedLong,
    ReaderStep::Feed(b"a 1 2\n"),
    ReaderStep::End,
    ReaderStep::Feed(b"a 1 2\n"),
    ReaderStep::TakeOut,
];

/// The second piece ends a frame that was begun, has one that cannot be read, and begins another.
static PICKLES: [ReaderStep; 5] = [
    ReaderStep::Feed(b"\x00\x00\x00\x1e\x80\x02]q\x00X\x03\x00\x00\x00a.bq\x01J"),
    ReaderStep::Feed(
        b"\x00\xf1SeK*\x86q\x02\x86q\x03a.\x00\x00\x00\x02c.\x00\x00\x00\x1e\x80\x02]q\x00X\x03",
    ),
    ReaderStep::TakeOut,
    ReaderStep::Feed(b"\x00\x00\x00a.bq\x01J\x00\xf1SeK*\x86q\x02\x86q\x03a."),
    ReaderStep::TakeOut,
];

static DATAGRAMS: [ReaderStep; 4] = [
    ReaderStep::Feed(b"a 1 2\r\nb 3 4\x0bbad"),
    ReaderStep::TakeOut,
    ReaderStep::Feed(b"c 5 6"),
    ReaderStep::TakeOut,
];

/// One byte more than the longest line has.
const TOO_LONG: usize = 16_385;

fn read(rt: &HostRuntime, alloc: Global, kind: ReaderKind, steps: &[ReaderStep]) -> Option<()> {
    let mut plan = plan(alloc)?;
    let mut reader = Reader::new(alloc, kind);
    let is_read = take_steps(rt, alloc, &mut reader, &mut plan, steps);
    drop(reader);
    drop(plan);
    is_read
}

fn take_steps(
    rt: &HostRuntime,
    alloc: Global,
    reader: &mut Reader,
    plan: &mut Plan,
    steps: &[ReaderStep],
) -> Option<()> {
    let moment = moment()?;
    let long = text_of(alloc, TOO_LONG)?;
    for step in steps {
        match step {
            ReaderStep::Feed(piece) => feed(rt, reader, plan, piece, moment)?,
            ReaderStep::FeedLong => feed(rt, reader, plan, &long, moment)?,
            ReaderStep::TakeOut => print_offers(rt, reader),
            ReaderStep::End => reader.end(),
        }
    }
    Some(())
}

fn feed(
    rt: &HostRuntime,
    reader: &mut Reader,
    plan: &mut Plan,
    piece: &[u8],
    moment: Moment,
) -> Option<()> {
    for _ in 0..CALLS {
        print_counts(rt, reader);
        begin(rt);
        let answer = reader.feed(plan, piece, moment);
        end(rt);
        print_answer(rt, &answer);
        if !matches!(answer, Err(FeedFault::NoMemory)) {
            return Some(());
        }
    }
    None
}

/// Prints what a reader has counted, and how many offers wait.
fn print_counts(rt: &HostRuntime, reader: &Reader) {
    let _ = println!(rt; "state {:?} {}", reader.counts(), reader.waiting());
}

/// Prints what a reader has counted, and the offers that wait, which are taken out.
fn print_offers(rt: &HostRuntime, reader: &mut Reader) {
    print_counts(rt, reader);
    for _ in 0..reader.waiting() {
        if let Some((dest, point)) = reader.next_offer() {
            let _ = println!(rt; "state {dest:?}");
            print_point(rt, "state", &point);
        }
    }
}
