//! `pass` over readers and writers that cut, interrupt and fail.

use crate::tests::streams::{ALL, Pieces, Sink};
use line_text::Moment;
use pass_lines::pass;
use relay_files::{RelayFault, Status};
use std::alloc::Global;
use std::io;
use std::io::{ErrorKind, Write};

struct Case {
    input: &'static [u8],
    output: &'static [u8],
    notes: &'static [u8],
}

// The worked lines, and a rest without a newline after a bad line.
static CASES: [Case; 6] = [
    Case {
        input: b"",
        output: b"",
        notes: b"",
    },
    Case {
        input: b"a.b 42 1700000000\n",
        output: b"a.b 42 1700000000\n",
        notes: b"",
    },
    Case {
        input: b"  a.b\t+042.000   1700000000.9\r\n",
        output: b"a.b 42 1700000000\n",
        notes: b"",
    },
    Case {
        input: b"a.b 1 -1\nbad\nb 1 2",
        output: b"a.b 1 1700000005\n",
        notes: b"bad lines 1\n",
    },
    Case {
        input: b"a 0.5 7\nb 1.5e3 7\n",
        output: b"a 0.5 7\nb 1500 7\n",
        notes: b"",
    },
    Case {
        input: b"m 9223372036854775807 1\nm -9223372036854775808 1\nm 9223372036854775808 1\n",
        output: b"m 9223372036854775807 1\nm -9223372036854775808 1\nm 9223372036854775808 1\n",
        notes: b"",
    },
];

static SIZES: [usize; 3] = [1, 7, 65_536];

fn moment_of_rows() -> Moment {
    match Moment::new(1_700_000_005) {
        Some(moment) => moment,
        None => Moment::new(0).unwrap(),
    }
}

// The streams of a run. What owns them here drops them by one call.
#[derive(Drop)]
struct Streams<'a> {
    input: Pieces<'a>,
    output: Sink,
    notes: Sink,
}

impl Streams<'_> {
    fn pass(&mut self, alloc: Global) -> Result<Status, RelayFault> {
        let moment = moment_of_rows();
        pass(
            alloc,
            &mut self.input,
            &mut self.output,
            &mut self.notes,
            moment,
        )
    }

    // Whether the run ends well, with this output and these notes.
    fn pass_so(&mut self, alloc: Global, output: &[u8], notes: &[u8]) -> bool {
        matches!(self.pass(alloc), Ok(Status::Done))
            && self.output.taken.as_slice() == output
            && self.notes.taken.as_slice() == notes
    }
}

// Whether an input that is cut like this ends well, with this output and these notes.
fn is_passed(alloc: Global, case: &Case, size: usize) -> bool {
    let mut streams = Streams {
        input: Pieces::of(case.input, size, ALL),
        output: Sink::new(alloc, size, ALL),
        notes: Sink::new(alloc, 3, ALL),
    };
    let is_passed = streams.pass_so(alloc, case.output, case.notes);
    drop(streams);
    is_passed
}

#[test]
fn answers_with_ample_memory(rt: HostRuntime) {
    for case in &CASES {
        for size in &SIZES {
            assert!(rt;
                is_passed(rt.alloc(), case, *size),
                "at {:?} by {size}",
                case.input
            );
        }
    }
}

const INPUT: &[u8] = b"a.b 1 2\nbad\nc.d 3 4\n";

const OUTPUT: &[u8] = b"a.b 1 2\nc.d 3 4\n";

// How a run ends whose reads fail after this number of bytes and whose output has this much room, if it wrote a first
// part of the output, and no notes.
fn end_after_part(
    alloc: Global,
    fails_after: usize,
    room: usize,
) -> Option<Result<Status, RelayFault>> {
    let mut streams = Streams {
        input: Pieces::of(INPUT, 4, fails_after),
        output: Sink::new(alloc, 3, room),
        notes: Sink::new(alloc, 3, ALL),
    };
    let ended = streams.pass(alloc);
    let is_part = OUTPUT.starts_with(streams.output.taken.as_slice())
        && streams.notes.taken.is_empty();
    drop(streams);
    if is_part { Some(ended) } else { None }
}

#[test]
fn ends_with_the_device_that_fails(rt: HostRuntime) {
    for fails_after in 0..20 {
        let ended = end_after_part(rt.alloc(), fails_after, ALL);
        assert!(rt;
            matches!(ended, Some(Err(RelayFault::Input))),
            "after {fails_after}"
        );
    }
    for room in 0..16 {
        let ended = end_after_part(rt.alloc(), ALL, room);
        assert!(rt;
            matches!(ended, Some(Err(RelayFault::Output))),
            "with room {room}"
        );
    }
}

// Whether notes that fail are the output's fault, after this many bytes of them.
fn is_fault_of_notes(alloc: Global, room: usize) -> bool {
    let mut streams = Streams {
        input: Pieces::of(INPUT, 4, ALL),
        output: Sink::new(alloc, 3, ALL),
        notes: Sink::new(alloc, 3, room),
    };
    let ended = streams.pass(alloc);
    let is_fault = matches!(ended, Err(RelayFault::Output))
        && streams.output.taken.as_slice() == OUTPUT
        && streams.notes.taken.len() == room
        && b"bad lines 1\n".starts_with(streams.notes.taken.as_slice());
    drop(streams);
    is_fault
}

#[test]
fn notes_that_fail_are_a_fault_of_output(rt: HostRuntime) {
    for room in 0..12 {
        assert!(rt; is_fault_of_notes(rt.alloc(), room), "with room {room}");
    }
}

/// Counts the bytes that it takes. It takes nothing if it `refuses`, and its flush fails if it `fails`.
#[derive(Drop)]
struct Counter {
    bytes: usize,
    refuses: bool,
    fails: bool,
}

impl Write for Counter {
    fn write(&mut self, buf: &[u8]) -> io::Result<usize> {
        if self.refuses {
            return Ok(0);
        }
        self.bytes = self.bytes.saturating_add(buf.len());
        Ok(buf.len())
    }

    fn flush(&mut self) -> io::Result<()> {
        if self.fails {
            return Err(io::Error::from(ErrorKind::Other));
        }
        Ok(())
    }
}

// Passes a line to a counter.
fn pass_to_counter(alloc: Global, output: &mut Counter) -> Result<Status, RelayFault> {
    let mut input = Pieces::of(b"a 1 2\n", 65_536, ALL);
    let mut notes = Sink::new(alloc, 3, ALL);
    pass(alloc, &mut input, output, &mut notes, moment_of_rows())
}

const COUNTER: Counter = Counter {
    bytes: 0,
    refuses: false,
    fails: false,
};

// A write that takes nothing fails, and is not repeated.
#[test]
fn a_write_of_nothing_is_a_fault(rt: HostRuntime) {
    let mut output = Counter {
        refuses: true,
        ..COUNTER
    };
    let ended = pass_to_counter(rt.alloc(), &mut output);
    assert!(rt; matches!(ended, Err(RelayFault::Output)));
}

#[test]
fn a_flush_that_fails_is_a_fault(rt: HostRuntime) {
    let mut output = Counter {
        fails: true,
        ..COUNTER
    };
    let ended = pass_to_counter(rt.alloc(), &mut output);
    assert!(rt; matches!(ended, Err(RelayFault::Output)));
    assert_eq!(rt; output.bytes, 0);
}
