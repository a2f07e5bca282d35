//! `check` and `route` over files in memory that cannot be read, and outputs that fail.

use crate::tests::streams::{ALL, Pieces, Sink};
use relay_commands::{check, route};
use relay_files::{RelayFault, Role, Source, Sources, Status};
use std::alloc::Global;
use std::io;
use std::io::ErrorKind;
use worked_files::{BY_RULES, REWRITE, RULES};

/// What reading a file gives.
#[derive(Clone, Copy)]
pub enum FileContents {
    Unreadable,
    /// Reads fail after this number of bytes.
    Broken(&'static str, usize),
    Text(&'static str),
}

/// A file in memory.
#[derive(Drop)]
pub struct MemoryFile {
    pub contents: FileContents,
}

impl Source for MemoryFile {
    type Reader = Pieces<'static>;

    ghost use Rattle.std.specs.Prelude.{None};

    ghost bytes = { λ _. None };

    fn open(&mut self) -> io::Result<Pieces<'static>> {
        match self.contents {
            FileContents::Unreadable => Err(io::Error::from(ErrorKind::NotFound)),
            FileContents::Broken(text, fails_after) => Ok(Pieces::of(
                text.as_bytes(),
                7,
                fails_after,
            )),
            FileContents::Text(text) => Ok(Pieces::of(text.as_bytes(), 7, ALL)),
        }
    }
}

pub fn file(contents: FileContents) -> MemoryFile {
    MemoryFile { contents }
}

/// The files of a configuration.
pub struct Files {
    config: FileContents,
    rules: FileContents,
    rewrite: FileContents,
}

pub fn sources(files: &Files) -> Sources<MemoryFile> {
    Sources {
        config: file(files.config),
        rules: Some(file(files.rules)),
        rewrite: Some(file(files.rewrite)),
    }
}

pub static GOOD: Files = Files {
    config: FileContents::Text(BY_RULES),
    rules: FileContents::Text(RULES),
    rewrite: FileContents::Text(REWRITE),
};

/// Files of which one cannot be opened, or fails after some bytes.
struct Unread {
    files: Files,
    role: Role,
}

static UNREAD: [Unread; 4] = [
    Unread {
        files: Files {
            config: FileContents::Broken(BY_RULES, 20),
            rules: FileContents::Text(RULES),
            rewrite: FileContents::Text(REWRITE),
        },
        role: Role::Config,
    },
    Unread {
        files: Files {
            config: FileContents::Text(BY_RULES),
            rules: FileContents::Broken(RULES, 0),
            rewrite: FileContents::Text(REWRITE),
        },
        role: Role::Rules,
    },
    Unread {
        files: Files {
            config: FileContents::Text(BY_RULES),
            rules: FileContents::Text(RULES),
            rewrite: FileContents::Unreadable,
        },
        role: Role::Rewrite,
    },
    Unread {
        files: Files {
            config: FileContents::Text(BY_RULES),
            rules: FileContents::Text(RULES),
            rewrite: FileContents::Broken(REWRITE, 9),
        },
        role: Role::Rewrite,
    },
];

// Checks files. What owns them here lends them, and then drops them: one call.
fn check_files(alloc: Global, files: &Files, output: &mut Sink) -> Result<Status, RelayFault> {
    let mut sources = sources(files);
    let ended = check(alloc, &mut sources, output);
    drop(sources);
    ended
}

// Whether `check` writes nothing and ends with the fault of the file that cannot be read.
fn ends_with_its_fault(alloc: Global, unread: &Unread) -> bool {
    let mut output = Sink::new(alloc, 5, ALL);
    let ended = check_files(alloc, &unread.files, &mut output);
    let is_empty = output.taken.is_empty();
    drop(output);
    match ended {
        Err(RelayFault::CannotRead { role }) => is_empty && role == unread.role,
        _ => false,
    }
}

#[test]
fn a_file_that_cannot_be_read_is_its_fault(rt: HostRuntime) {
    for unread in &UNREAD {
        assert!(rt; ends_with_its_fault(rt.alloc(), unread));
    }
}

// Routes a name by the good files.
fn route_name(alloc: Global, name: &str, output: &mut Sink) -> Result<Status, RelayFault> {
    let mut sources = sources(&GOOD);
    let ended = route(alloc, &mut sources, name, output);
    drop(sources);
    ended
}

// Whether `check` ends with `Output` if the output has this much room.
fn is_full_of_check(alloc: Global, room: usize) -> bool {
    let mut output = Sink::new(alloc, 5, room);
    let ended = check_files(alloc, &GOOD, &mut output);
    let is_full = matches!(ended, Err(RelayFault::Output))
        && output.taken.len() == room
        && b"ok 3 destinations\n".starts_with(output.taken.as_slice());
    drop(output);
    is_full
}

// Whether `route` does.
fn is_full_of_route(alloc: Global, room: usize) -> bool {
    let mut output = Sink::new(alloc, 5, room);
    let ended = route_name(alloc, "a.cpu", &mut output);
    let is_full = matches!(ended, Err(RelayFault::Output))
        && b"a.cpu h:3002 h:3001\n".starts_with(output.taken.as_slice());
    drop(output);
    is_full
}

#[test]
fn an_output_that_fails_is_its_fault(rt: HostRuntime) {
    for room in 0..18 {
        let is_full = is_full_of_check(rt.alloc(), room) && is_full_of_route(rt.alloc(), room);
        assert!(rt; is_full, "with room {room}");
    }
}
