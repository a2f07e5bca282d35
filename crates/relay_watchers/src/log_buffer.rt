//! Lines that wait for the output of the log. A thread of its own writes them, so that no run waits for whoever reads the log.

use relay_base::NoMemory;
use std::alloc::Global;
use std::io::{ErrorKind, Write};
use std::rt::Clock;
use std::sync::atomic::{AtomicU64, Ordering};
use std::sync::{Arc, Mutex, Wait};
use std::thread::{Builder, Threads};
use std::time::Duration;
use std::{io, mem};

/// How many bytes of lines wait at most: lines that find no room are lost.
const ROOM: usize = 262_144;

/// For how many milliseconds the thread that writes sleeps at most.
const PAUSE_MS: u64 = 1_000;

/// The milliseconds between two looks at what is written, and how many looks in a row that find nothing new end the wait for it.
const LOOK_MS: u64 = 1;

const MOST_LOOKS: usize = 1_000;

/// What the log shares with the thread that writes its lines.
#[derive(Drop)]
struct WaitingLines {
    bytes: Mutex<Vec<u8>>,
    // How many bytes came, and of how many of these the output has taken or refused the line.
    came: AtomicU64,
    done: AtomicU64,
    // How many lines found no room since the log last said so.
    lost: AtomicU64,
}

/// A log whose lines wait for its output. A write waits for nobody, and refuses lines that find no room. `flush` waits until all
/// are written; not if none is for a second.
#[derive(Drop)]
pub struct LogBuffer<R> {
    rt: R,
    waiting: Arc<WaitingLines>,
}

impl<R: Threads + Wait + Clock + Copy + Send + Drop + 'static> LogBuffer<R> {
    /// Starts the thread that writes to this output, for as long as the process lasts. Refuses if out of memory, also if the
    /// thread cannot be started.
    pub fn start<W: Write + Send + Drop + 'static>(
        rt: R,
        alloc: Global,
        output: W,
    ) -> Result<LogBuffer<R>, NoMemory> {
        let waiting = Arc::new(
            alloc,
            WaitingLines {
                bytes: Mutex::new(Vec::new(alloc)),
                came: AtomicU64::new(0),
                done: AtomicU64::new(0),
                lost: AtomicU64::new(0),
            },
        )?;
        let theirs = Arc::try_clone(&waiting)?;
        let name = String::from_str(alloc, "log output")?;
        let started = Builder::new()
            .name(name)
            .spawn(&rt, move || write_on(&rt, alloc, &theirs, output));
        match started {
            Ok(_) => Ok(LogBuffer { rt, waiting }),
            Err(_) => {
                drop(waiting);
                Err(NoMemory)
            }
        }
    }
}

/// Writes lines as they come.
fn write_on<R: Wait + Clock, W: Write>(rt: &R, alloc: Global, waiting: &WaitingLines, output: W) {
    let mut output = output;
    for _ in rt.forever() {
        let seen = waiting.came.load(Ordering::SeqCst);
        let bytes = mem::replace(&mut *waiting.bytes.lock(rt), Vec::new(alloc));
        if bytes.is_empty() {
            waiting
                .came
                .park_timeout(rt, low_half(seen), Duration::from_millis(PAUSE_MS));
            continue;
        }
        write_lines(&mut output, waiting, bytes.as_slice());
        write_loss(&mut output, alloc, waiting);
    }
    unreachable!()
}

/// The half of a counter by whose change a sleep ends.
fn low_half(count: u64) -> u32 {
    (count % 4_294_967_296) as u32
}

/// Writes each of these lines. What the output refuses is lost.
fn write_lines<W: Write>(output: &mut W, waiting: &WaitingLines, bytes: &[u8]) {
    for line in bytes.split_inclusive(|byte| *byte == b'\n') {
        let _ = output.write_all(line);
        let _before = waiting.done.fetch_add(line.len() as u64, Ordering::SeqCst);
    }
}

/// Writes how many lines found no room, if some did not.
fn write_loss<W: Write>(output: &mut W, alloc: Global, waiting: &WaitingLines) {
    let lost = waiting.lost.swap(0, Ordering::SeqCst);
    if lost == 0 {
        return;
    }
    if let Ok(line) = format!(in alloc; "log: {lost} lines lost\n") {
        let _ = output.write_all(line.as_str().as_bytes());
    }
}

/// How many lines these bytes are.
fn line_count(bytes: &[u8]) -> u64 {
    let mut count: u64 = 0;
    for byte in bytes {
        if *byte == b'\n' {
            count = count.saturating_add(1);
        }
    }
    count
}

impl WaitingLines {
    /// Adds lines, if there is room.
    fn add<R: Wait>(&self, rt: &R, lines: &[u8]) -> Result<(), NoMemory> {
        let mut bytes = self.bytes.lock(rt);
        if bytes.len().saturating_add(lines.len()) > ROOM {
            return Err(NoMemory);
        }
        bytes.extend_from_slice(lines)?;
        let _before = self.came.fetch_add(lines.len() as u64, Ordering::SeqCst);
        Ok(())
    }

    /// Waits until all lines are written. Returns whether they are: not if none is for a second.
    fn is_written<R: Clock>(&self, rt: &R) -> bool {
        let mut done = 0;
        let mut looks: usize = 0;
        for _ in 0..u64::MAX {
            let now = self.done.load(Ordering::SeqCst);
            if now >= self.came.load(Ordering::SeqCst) {
                return true;
            }
            looks = if now == done {
                looks.saturating_add(1)
            } else {
                0
            };
            if looks >= MOST_LOOKS {
                return false;
            }
            done = now;
            rt.sleep(Duration::from_millis(LOOK_MS));
        }
        false
    }
}

impl<R: Wait + Clock> Write for LogBuffer<R> {
    fn write(&mut self, bytes: &[u8]) -> io::Result<usize> {
        if self.waiting.add(&self.rt, bytes).is_err() {
            let _before = self
                .waiting
                .lost
                .fetch_add(line_count(bytes), Ordering::SeqCst);
            return Err(io::Error::from(ErrorKind::StorageFull));
        }
        self.waiting.came.wake_all();
        Ok(bytes.len())
    }

    fn flush(&mut self) -> io::Result<()> {
        if self.waiting.is_written(&self.rt) {
            Ok(())
        } else {
            Err(io::Error::from(ErrorKind::TimedOut))
        }
    }
}
