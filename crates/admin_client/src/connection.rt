//! A command and its answer on a connection.

ghost use Rattle.std.specs.Prelude.{◌≡◌, true, IfOk};
ghost use Rattle.admin_client.specs.AdminAnswer.{IsAnswerTo, is_whole};

use crate::admin_answer::check_answer;
use crate::admin_command::AdminCommand;
use crate::admin_fault::AdminFault;
use std::alloc::Global;
use std::io;
use std::io::{ErrorKind, Read, Write};
use std::net::{OpenStream, Shutdown};
use std::rt::Clock;
use std::time::{Duration, Instant};

/// How many milliseconds a relay has to take a command, and then to answer it.
const ANSWER_TIMEOUT_MS: u64 = 10_000;

/// How many milliseconds it has to answer `reload`: it reads its files, and makes a plan for each receiver.
const RELOAD_TIMEOUT_MS: u64 = 60_000;

/// The room for a piece of an answer, in bytes.
const ROOM: usize = 4_096;

/// The greatest number of reads for an answer, and so of pieces that it may have. A report has 64 lines at most.
const MOST_READS: usize = 1_024;

/// The greatest number of reads, each of a second, that wait for the end of a relay: those of a day.
const MOST_WAITS: usize = 86_400;

/// Sends a request for a command, and returns its answer, up to its end, which comes in time.
pub(crate) fn exchange<R: Clock, S: Read + Write + OpenStream>(
    rt: &R,
    alloc: Global,
    stream: &mut S,
    command: AdminCommand,
    request: &[u8],
) -> Result<Vec<u8>, AdminFault>
    ensures ok { IfOk result (λ answer. IsAnswerTo command answer.items) }
    ensures whole { IfOk result (λ answer. is_whole answer.items ≡ true) }
{
    if send(stream, request).is_err() {
        return Err(AdminFault::NoAnswer);
    }
    let mut answer = Vec::new(alloc);
    match read_answer(rt, stream, &mut answer, timeout_of(command)) {
        Ok(()) => {}
        Err(fault) => {
            drop(answer);
            return Err(fault);
        }
    }
    match check_answer(command, answer.as_slice()) {
        Ok(()) => Ok(answer),
        Err(fault) => {
            drop(answer);
            Err(fault)
        }
    }
}

/// How many milliseconds the answer to a command may take.
fn timeout_of(command: AdminCommand) -> u64 {
    match command {
        AdminCommand::Reload => RELOAD_TIMEOUT_MS,
        _ => ANSWER_TIMEOUT_MS,
    }
}

/// Sends a text, and closes this side.
fn send<S: Write + OpenStream>(stream: &mut S, text: &[u8]) -> io::Result<()> {
    stream.set_write_timeout(Some(Duration::from_millis(ANSWER_TIMEOUT_MS)))?;
    stream.write_all(text)?;
    stream.shutdown(Shutdown::Write)
}

/// Adds what arrives up to the end of a connection, all of it in time. A connection that fails has ended.
fn read_answer<R: Clock, S: Read + OpenStream>(
    rt: &R,
    stream: &mut S,
    answer: &mut Vec<u8>,
    millis: u64,
) -> Result<(), AdminFault> {
    let start = Instant::now(rt).ok();
    let mut room = [0u8; ROOM];
    for _ in 0..MOST_READS {
        let Some(left) = time_left(rt, start, millis) else {
            return Err(AdminFault::NotInTime);
        };
        match read_piece(stream, &mut room, left) {
            Piece::Bytes(count) => match answer.extend_from_slice(&room[..count.min(ROOM)]) {
                Ok(()) => {}
                Err(_) => return Err(AdminFault::NoMemory),
            },
            Piece::Late => return Err(AdminFault::NotInTime),
            Piece::End => return Ok(()),
        }
    }
    Err(AdminFault::NoRelay)
}

/// How much of this number of milliseconds an answer has left that was asked for then; `None` if it has none. Where the clock
/// cannot be read, all of it is left.
fn time_left<R: Clock>(rt: &R, start: Option<Instant>, millis: u64) -> Option<Duration> {
    let whole = Duration::from_millis(millis);
    let Some(start) = start else {
        return Some(whole);
    };
    match start.elapsed(rt) {
        Ok(passed) => whole.checked_sub(passed),
        Err(_) => Some(whole),
    }
}

/// What a read gave.
#[derive(Clone, Copy)]
enum Piece {
    /// This many bytes.
    Bytes(usize),
    /// None in time.
    Late,
    /// The end of the connection.
    End,
}

/// Reads a piece of an answer, within this time.
fn read_piece<S: Read + OpenStream>(stream: &mut S, room: &mut [u8], left: Duration) -> Piece {
    // The system takes no time of 0.
    let left = left.max(Duration::from_millis(1));
    if stream.set_read_timeout(Some(left)).is_err() {
        return Piece::End;
    }
    match stream.read(room) {
        Ok(0) => Piece::End,
        Ok(count) => Piece::Bytes(count),
        Err(error) => match error.kind() {
            ErrorKind::Interrupted => Piece::Bytes(0),
            kind if is_too_early(kind) => Piece::Late,
            _ => Piece::End,
        },
    }
}

/// Waits until the other side ends a connection, which sends nothing before. Refuses one that sends something: it is of no
/// relay.
pub(crate) fn wait_for_end<S: Read + OpenStream>(stream: &mut S) -> Result<(), AdminFault> {
    let mut room = [0u8; 1];
    for _ in 0..MOST_WAITS {
        match read_piece(stream, &mut room, Duration::from_secs(1)) {
            Piece::Bytes(0) | Piece::Late => {}
            Piece::Bytes(_) => return Err(AdminFault::NoRelay),
            Piece::End => return Ok(()),
        }
    }
    Err(AdminFault::StillRunning)
}

/// Whether a read ended because nothing arrived in time.
fn is_too_early(kind: ErrorKind) -> bool {
    matches!(kind, ErrorKind::WouldBlock | ErrorKind::TimedOut)
}
