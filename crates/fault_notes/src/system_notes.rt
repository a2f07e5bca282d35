//! Notes of what the system did not open, and of a bad line of a script.

use crate::cause::{Cause, add_cure};
use crate::cure::Cure;
use crate::not_text::add_not_text;
use line_text::{Moment, Point};
use note_text::{EscapedText, Notes, Source, SourceText, line_numbered};
use relay_base::NoMemory;
use std::alloc::Global;
use std::net::SocketAddr;
use std::str;

/// Notes of a file that cannot be read: its path, and the system's reason; none if it can.
pub fn notes_of_unreadable(alloc: Global, source: Source<'_>) -> Result<Notes, NoMemory> {
    let mut notes = Notes::new(alloc);
    if let SourceText::Unreadable { reason } = source.text {
        add_unreadable(&mut notes, source.path, reason);
    }
    notes.finish()
}

/// Adds the reason why the system did not read a file, and the cure.
pub(crate) fn add_unreadable(notes: &mut Notes, path: &str, reason: &str) {
    notes.add(format_args!("{}: {reason}", EscapedText(path)));
    notes.add(Cure::READABLE_PATH);
}

/// Notes of the line of a number, from 1, that is refused in a script, and what may be there; of no line, if it
/// is 0. Of a script that is no text they say where.
pub fn notes_of_script(alloc: Global, source: Source<'_>, line: usize) -> Result<Notes, NoMemory> {
    let mut notes = Notes::new(alloc);
    if let SourceText::Bytes(bytes) = source.text {
        match str::from_utf8(bytes) {
            Ok(text) => add_script_line(alloc, &mut notes, source.path, text, line),
            Err(error) => add_not_text(&mut notes, source.path, bytes, error.valid_up_to()),
        }
    }
    notes.finish()
}

/// Adds the line of a number, from 1, of a script, or none if it is 0, and the cure.
fn add_script_line(alloc: Global, notes: &mut Notes, path: &str, text: &str, line: usize) {
    let mut cause = None;
    if line > 0 {
        let line = line_numbered(text, line);
        notes.add_line(path, line);
        cause = cause_of_script_line(alloc, line.text);
    }
    add_cure(notes, cause, Cure::SCRIPT_LINE);
}

/// What a line of a script is that is a datapoint.
fn cause_of_script_line(alloc: Global, line: &str) -> Option<Cause> {
    let read = Point::read_line(alloc, line.as_bytes(), Moment::new(0)?);
    matches!(read, Ok(Some(_))).then_some(Cause::LINES_AS_SCRIPT)
}

/// Notes of the addresses at which the system refuses to listen, and of too few file descriptors.
#[derive(Drop)]
pub struct SystemNotes {
    notes: Notes,
}

impl SystemNotes {
    /// No notes.
    pub fn new(alloc: Global) -> SystemNotes {
        SystemNotes {
            notes: Notes::new(alloc),
        }
    }

    /// Adds the note of an address, with the system's reason.
    pub fn add_address(&mut self, address: SocketAddr, reason: &str) {
        self.notes
            .add(format_args!("cannot listen on {address}: {reason}"));
        self.notes.add(Cure::FREE_PORT);
    }

    /// Whether there is no note yet.
    pub fn is_empty(&self) -> bool {
        self.notes.is_empty()
    }

    /// Adds the note of an address that the relay is told to use twice.
    pub fn add_own_address(&mut self, address: SocketAddr) {
        self.notes
            .add(format_args!("the relay is to listen twice on {address}"));
        self.notes.add(Cure::TWO_PORTS);
    }

    /// Adds the note that no address is refused now, and how many files this process may open.
    pub fn add_none_refused(&mut self, most_files: Option<u64>) {
        self.notes.add(
            "all of the relay's ports are free now: another program has just released one, or there were too few file descriptors",
        );
        if let Some(most) = most_files {
            self.notes.add(format_args!(
                "this process may open {most} files; `ulimit -n` sets the limit"
            ));
        }
    }

    /// Adds the note of a relay that needs this many file descriptors beside its ports, where this many are free.
    pub fn add_descriptors(&mut self, needed: usize, free: usize) {
        self.notes.add(format_args!(
            "the relay needs {needed} file descriptors besides its ports, and {free} are free"
        ));
        self.notes.add(Cure::MORE_DESCRIPTORS);
    }

    /// The notes, or `NoMemory` if memory ran out.
    pub fn finish(self) -> Result<Notes, NoMemory> {
        self.notes.finish()
    }
}
