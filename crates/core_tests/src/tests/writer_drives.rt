//! A writer's drives: one that fails after three bytes, and how many writes a drive makes.
//!
//! What owns a writer here lends it, and then drops it: one call.

ghost use Rattle.std.specs.Prelude.{◌≡◌, true};

use crate::tests::writer_lines::{TEXT, writer_of};
use dest_writer::{Counting, Driven, GatherBuf, Writer};
use std::alloc::Global;
use std::io;
use std::io::{ErrorKind, Write};

// Takes at most `most` bytes a write, until it took `room` bytes. Then it returns this error once, and after that it
// takes all.
#[derive(Drop)]
struct Stream {
    taken: Vec<u8>,
    writes: usize,
    flushes: usize,
    most: usize,
    room: usize,
    full: ErrorKind,
}

impl Stream {
    fn new(alloc: Global, most: usize, room: usize, full: ErrorKind) -> Counting<Stream> {
        Counting::new(Stream {
            taken: Vec::new(alloc),
            writes: 0,
            flushes: 0,
            most,
            room,
            full,
        })
    }
}

impl Write for Stream {
    fn write(&mut self, buf: &[u8]) -> io::Result<usize> {
        self.writes = self.writes.saturating_add(1);
        let count = self.most.min(buf.len()).min(self.room);
        if count == 0 {
            self.room = usize::MAX;
            return Err(io::Error::from(self.full));
        }
        self.taken
            .extend_from_slice(&buf[..count])
            .map_err(|_| io::Error::from(ErrorKind::OutOfMemory))?;
        self.room = self.room.saturating_sub(count);
        Ok(count)
    }

    fn flush(&mut self) -> io::Result<()> {
        self.flushes = self.flushes.saturating_add(1);
        Ok(())
    }
}

// Whether a stream got the text from here on, and no more.
fn got(stream: &Counting<Stream>, from: usize) -> bool {
    match TEXT.get(from..) {
        Some(part) => stream.stream().taken.as_slice() == part,
        None => false,
    }
}

// Whether a drive over a stream that takes three bytes and then fails says so.
fn fails(writer: &mut Writer, stream: &mut Counting<Stream>) -> bool
    requires { writer.old.writer.up ≡ true }
{
    writer.drive(stream) == Driven::Failed
        && stream.failures() == 1
        && stream.stream().taken.as_slice() == b"a 1".as_slice()
}

// Whether all lines go to the next connection.
fn goes_on(writer: &mut Writer, next: &mut Counting<Stream>) -> bool {
    writer.down().is_ok()
        && writer.up().is_ok()
        && writer.drive(next) == Driven::Idle
        && got(next, 0)
}

fn fails_and_goes_on(alloc: Global) -> bool {
    let Some(mut writer) = writer_of(alloc, 3) else {
        return false;
    };
    let mut stream = Stream::new(alloc, 100, 3, ErrorKind::BrokenPipe);
    let mut next = Stream::new(alloc, 100, 100, ErrorKind::BrokenPipe);
    let fails = fails(&mut writer, &mut stream);
    let goes_on = goes_on(&mut writer, &mut next);
    drop(writer);
    fails && goes_on
}

#[test]
fn a_failure_after_three_bytes(rt: HostRuntime) {
    assert!(rt; fails_and_goes_on(rt.alloc()));
}

// Whether two drives end like this, and the stream got all lines.
fn drives_so(
    writer: &mut Writer,
    stream: &mut Counting<Stream>,
    first: Driven,
    second: Driven,
) -> bool
    requires { writer.old.writer.up ≡ true }
{
    writer.drive(stream) == first && writer.drive(stream) == second && got(stream, 0)
}

// Whether two drives over a stream that takes a byte a write, and blocks or is interrupted once it took a number of
// them, end like this.
fn is_driven_by_bytes(
    alloc: Global,
    room: usize,
    full: ErrorKind,
    first: Driven,
    second: Driven,
) -> bool {
    let Some(mut writer) = writer_of(alloc, 3) else {
        return false;
    };
    let mut stream = Stream::new(alloc, 1, room, full);
    let is_driven = drives_so(&mut writer, &mut stream, first, second);
    drop(writer);
    is_driven
}

// 18 bytes are 16 and 2; the 16th write may block, and one that is interrupted counts.
#[test]
fn sixteen_writes_a_drive(rt: HostRuntime) {
    let alloc = rt.alloc();
    let (blocks, again) = (ErrorKind::WouldBlock, ErrorKind::Interrupted);
    assert!(rt;
        is_driven_by_bytes(alloc, 100, blocks, Driven::Again, Driven::Idle)
            && is_driven_by_bytes(alloc, 15, blocks, Driven::Blocked, Driven::Idle)
            && is_driven_by_bytes(alloc, 3, again, Driven::Again, Driven::Idle)
    );
}

// Whether a drive makes 16 writes and ends like this, and a second one makes this number and is idle.
fn writes_so(writer: &mut Writer, stream: &mut Counting<Stream>, first: Driven, more: usize) -> bool
    requires { writer.old.writer.up ≡ true }
{
    let is_first = writer.drive(stream) == first && stream.stream().writes == 16;
    let is_second = writer.drive(stream) == Driven::Idle
        && stream.stream().writes == more.saturating_add(16);
    is_first && is_second
}

// Whether this number of lines is driven so, over a stream that takes all.
fn is_driven_by_lines(alloc: Global, count: usize, first: Driven, more: usize) -> bool {
    let Some(mut writer) = writer_of(alloc, count) else {
        return false;
    };
    let mut stream = Stream::new(alloc, 100, usize::MAX, ErrorKind::WouldBlock);
    let is_driven = writes_so(&mut writer, &mut stream, first, more);
    drop(writer);
    is_driven
}

#[test]
fn a_line_a_write(rt: HostRuntime) {
    assert!(rt; is_driven_by_lines(rt.alloc(), 16, Driven::Idle, 0));
    assert!(rt; is_driven_by_lines(rt.alloc(), 17, Driven::Again, 1));
}

// Whether a drive that gathers lines offers all of them at once.
fn drives_at_once(alloc: Global, writer: &mut Writer, gathered: &mut GatherBuf) -> bool
    requires { writer.old.writer.up ≡ true }
{
    let mut stream = Stream::new(alloc, 10_000, usize::MAX, ErrorKind::WouldBlock);
    let report = writer.drive_gathered(gathered, &mut stream);
    report.driven == Driven::Idle && report.wrote == 6_000 && stream.stream().writes == 1
}

fn is_driven_at_once(alloc: Global) -> bool {
    let Ok(mut gathered) = GatherBuf::new(alloc) else {
        return false;
    };
    let Some(mut writer) = writer_of(alloc, 1_000) else {
        return false;
    };
    let is_driven = drives_at_once(alloc, &mut writer, &mut gathered);
    drop(writer);
    is_driven
}

#[test]
fn many_lines_a_write(rt: HostRuntime) {
    assert!(rt; is_driven_at_once(rt.alloc()));
}

// Whether a counted stream hands a flush on.
fn is_flushed(alloc: Global) -> bool {
    let mut stream = Stream::new(alloc, 1, 1, ErrorKind::WouldBlock);
    stream.flush().is_ok() && stream.stream().flushes == 1 && stream.failures() == 0
}

#[test]
fn a_flush_reaches_the_stream(rt: HostRuntime) {
    assert!(rt; is_flushed(rt.alloc()));
}
