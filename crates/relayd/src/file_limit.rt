//! The system's limit for the size of a file (`ulimit -f`). A write beyond it would end the process by a signal.

use relay_base::utf8_text;
use std::io::{ErrorKind, Stdout, Write};
use std::{fs, io};

/// The file that a standard stream writes to, and where in it.
struct StreamFile {
    path: &'static str,
    place: &'static str,
}

const STANDARD_OUTPUT: StreamFile = StreamFile {
    path: "/proc/self/fd/1",
    place: "/proc/self/fdinfo/1",
};

const STANDARD_ERROR: StreamFile = StreamFile {
    path: "/proc/self/fd/2",
    place: "/proc/self/fdinfo/2",
};

/// How many bytes a file that this process writes may have; `None` if there is no limit, or the system does not tell.
pub fn file_limit(rt: &HostRuntime) -> Option<u64> {
    let bytes = fs::read(rt, "/proc/self/limits").ok()?;
    number_after(utf8_text(bytes.as_slice())?, "Max file size")
}

/// Tells what room standard error has.
///
/// It is a trait of its own, beside the kit's `Files`, since a thread's bounds may have no types in them.
pub trait ErrorRoom {
    /// Whether standard error has room for this many bytes more, with this limit for the size of a file.
    fn error_has_room(&self, limit: Option<u64>, count: usize) -> bool;
}

impl ErrorRoom for HostRuntime {
    fn error_has_room(&self, limit: Option<u64>, count: usize) -> bool {
        match room_of(self, &STANDARD_ERROR, limit) {
            Some(room) => count as u64 <= room,
            None => true,
        }
    }
}

/// Standard output. A write takes what has room in its file, and is refused once there is none.
#[derive(Drop)]
pub struct LimitedOutput<'a> {
    rt: &'a HostRuntime,
    output: Stdout,
    limit: Option<u64>,
}

/// Standard output, with the limit that the process has now.
pub fn limited_output(rt: &HostRuntime) -> LimitedOutput<'_> {
    LimitedOutput {
        rt,
        output: rt.stdout(),
        limit: file_limit(rt),
    }
}

impl Write for LimitedOutput<'_> {
    fn write(&mut self, bytes: &[u8]) -> io::Result<usize> {
        let Some(room) = room_of(self.rt, &STANDARD_OUTPUT, self.limit) else {
            return self.output.write(bytes);
        };
        let count = (bytes.len() as u64).min(room) as usize;
        if count == 0 && !bytes.is_empty() {
            return Err(io::Error::from(ErrorKind::FileTooLarge));
        }
        self.output.write(&bytes[..count.min(bytes.len())])
    }

    fn flush(&mut self) -> io::Result<()> {
        self.output.flush()
    }
}

/// How many bytes a stream may still write to its file with this limit; `None` if the limit is none of its own.
fn room_of(rt: &HostRuntime, stream: &StreamFile, limit: Option<u64>) -> Option<u64> {
    let limit = limit?;
    let length = match fs::metadata(rt, stream.path) {
        Ok(file) if file.is_file() => file.len(),
        _ => return None,
    };
    // Where a stream that does not append writes next may be beyond the end of its file.
    let place = place_of(rt, stream).unwrap_or(length);
    Some(limit.saturating_sub(place.max(length)))
}

/// Where the next write of a stream begins, if it does not append.
fn place_of(rt: &HostRuntime, stream: &StreamFile) -> Option<u64> {
    let bytes = fs::read(rt, stream.place).ok()?;
    number_after(utf8_text(bytes.as_slice())?, "pos:")
}

/// The number behind a word at the beginning of a line of a text, if the line has one.
fn number_after(text: &str, word: &str) -> Option<u64> {
    for line in text.lines() {
        if let Some(rest) = line.strip_prefix(word) {
            return first_word(rest).parse().ok();
        }
    }
    None
}

/// The first word of a line.
fn first_word(line: &str) -> &str {
    line.split_whitespace().next().unwrap_or("")
}
