//! What the system says of the process and its machine.

ghost use Rattle.std.specs.Prelude.{◌≤◌};

use status_page::ProcessCounts;
use std::alloc::{AllocError, Global};
use std::fs::{Files, OpenOptions};
use std::io::Read;

/// The room for a file of the system; more of it is not read.
const ROOM: usize = 4_096;

/// What the system says of the process and its machine.
///
/// It is a trait of its own, beside the kit's `Files`, since a thread's bounds may have no types in them.
pub trait SystemFacts {
    /// What the system counts of this process; 0 for what it does not say.
    fn process_counts(&self) -> ProcessCounts;

    /// The name of the machine; empty if the system does not say. Refuses if out of memory.
    fn host_name(&self, alloc: Global) -> Result<String, AllocError>;
}

impl SystemFacts for HostRuntime {
    fn process_counts(&self) -> ProcessCounts {
        process_counts(self)
    }

    fn host_name(&self, alloc: Global) -> Result<String, AllocError> {
        host_name(self, alloc)
    }
}

/// What the system counts of this process; 0 for what it does not say.
fn process_counts<R: Files>(rt: &R) -> ProcessCounts {
    let mut room = [0u8; ROOM];
    let count = read_into(rt, "/proc/self/stat", &mut room);
    let processor = processor_in(&room[..count]);
    let count = read_into(rt, "/proc/self/status", &mut room);
    let resident = number_behind(&room[..count], b"VmRSS:").saturating_mul(1_024);
    let count = read_into(rt, "/proc/self/limits", &mut room);
    ProcessCounts {
        processor,
        resident,
        descriptors: descriptor_count(rt),
        most_descriptors: number_behind(&room[..count], b"Max open files"),
    }
}

/// The name of the machine; empty if the system does not say.
fn host_name<R: Files>(rt: &R, alloc: Global) -> Result<String, AllocError> {
    let mut room = [0u8; ROOM];
    let count = read_into(rt, "/proc/sys/kernel/hostname", &mut room);
    let mut name = String::new(alloc);
    for byte in &room[..count] {
        if byte.is_ascii_graphic() {
            name.push(char::from(*byte))?;
        }
    }
    Ok(name)
}

/// Reads the first bytes of a file, as many as there is room for, and returns how many.
fn read_into<R: Files>(rt: &R, path: &str, room: &mut [u8; ROOM]) -> usize
    ensures { result ≤ ROOM }
{
    let mut how = OpenOptions::new();
    let Ok(mut file) = how.read(true).open(rt, path) else {
        return 0;
    };
    let mut count: usize = 0;
    for _ in 0..ROOM {
        let begun = count.min(ROOM);
        match file.read(&mut room[begun..]) {
            Ok(0) | Err(_) => break,
            Ok(more) => count = begun.saturating_add(more),
        }
    }
    count.min(ROOM)
}

/// The processor's time in the line of the system on a process, in hundredths of a second: the user's and the system's,
/// which are the twelfth and the thirteenth word behind its name in brackets.
fn processor_in(line: &[u8]) -> u64 {
    let Some(end) = line.iter().rposition(|byte| *byte == b')') else {
        return 0;
    };
    let (_, behind) = line.split_at(end);
    let mut total: u64 = 0;
    for (place, word) in behind.split(|byte| *byte == b' ').enumerate() {
        if place == 12 || place == 13 {
            total = total.saturating_add(number_in(word));
        }
    }
    total
}

/// The first number behind these words, at the beginning of a line; 0 if there is none.
fn number_behind(text: &[u8], words: &[u8]) -> u64 {
    for line in text.split(|byte| *byte == b'\n') {
        if let Some(behind) = line.strip_prefix(words) {
            return number_in(behind);
        }
    }
    0
}

/// The number that a text begins with, behind white space.
fn number_in(text: &[u8]) -> u64 {
    let mut number: u64 = 0;
    let mut is_begun = false;
    for byte in text {
        if byte.is_ascii_digit() {
            is_begun = true;
            let digit = (*byte - b'0') as u64;
            number = number.saturating_mul(10).saturating_add(digit);
        } else if is_begun {
            return number;
        }
    }
    number
}

/// How many descriptors the process has open.
fn descriptor_count<R: Files>(rt: &R) -> u64 {
    let Ok(mut folder) = rt.open_dir("/proc/self/fd/") else {
        return 0;
    };
    let mut room = [0u8; ROOM];
    let mut names: u64 = 0;
    for _ in 0..ROOM {
        match folder.read(&mut room) {
            Ok(0) | Err(_) => break,
            Ok(count) => names = names.saturating_add(names_in(&room, count)),
        }
    }
    // Its own descriptor, `.` and `..` are there too.
    names.saturating_sub(3)
}

/// How many names end in the first bytes of a folder's list: each ends with a byte 0.
fn names_in(room: &[u8; ROOM], count: usize) -> u64 {
    let mut names: u64 = 0;
    for byte in &room[..count.min(ROOM)] {
        if *byte == 0 {
            names = names.saturating_add(1);
        }
    }
    names
}
