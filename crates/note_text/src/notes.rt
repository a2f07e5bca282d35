//! Notes, as they are written.

use crate::escaped::{Carets, EscapedText, Spaces};
use crate::excerpt::Excerpt;
use crate::file_line::{FileLine, white_before};
use relay_base::{NoMemory, strip};
use std::alloc::Global;
use std::fmt;
use std::fmt::Write as _;

/// Notes for people, each a line that begins with `relayd: note: `.
///
/// If memory runs out, it adds no more notes, and `finish` says so at the end.
#[derive(Drop)]
pub struct Notes {
    text: String,
    is_cut: bool,
}

impl Notes {
    /// No notes. It takes no memory.
    pub fn new(alloc: Global) -> Notes {
        Notes {
            text: String::new(alloc),
            is_cut: false,
        }
    }

    /// These notes, or `NoMemory` if memory ran out.
    pub fn finish(self) -> Result<Notes, NoMemory> {
        if self.is_cut {
            return Err(NoMemory);
        }
        Ok(self)
    }

    /// Whether there is no note.
    pub fn is_empty(&self) -> bool {
        self.text.is_empty()
    }

    /// The lines, each with its newline.
    pub fn text(&self) -> &str {
        self.text.as_str()
    }

    /// Adds a note.
    pub fn add(&mut self, note: impl fmt::Display + Drop) {
        if !self.is_cut && write!(self.text, "relayd: note: {note}\n").is_err() {
            self.is_cut = true;
        }
    }

    /// Adds no more notes: memory ran out.
    pub fn cut(&mut self) {
        self.is_cut = true;
    }

    /// The result of a call, or `None` if memory ran out.
    pub fn answer<T, E: Drop>(&mut self, answer: Result<T, E>) -> Option<T> {
        self.is_cut = self.is_cut || answer.is_err();
        answer.ok()
    }

    /// Adds what was found, and what may be there.
    pub fn add_found(&mut self, found: &str, expected: &'static str) {
        self.add(format_args!("found `{}`; expected: {expected}", EscapedText(found)));
    }

    /// Adds that a line has a key, and what there is to say of it.
    pub fn add_key(&mut self, line: FileLine<'_>, key: &str, what: impl fmt::Display + Drop) {
        self.add(format_args!("line {} has `{}`{what}", line.number, EscapedText(key)));
    }

    /// Adds the line before that has the same.
    pub fn add_same_before(&mut self, line: FileLine<'_>) {
        self.add(format_args!("line {} already has it", line.number));
    }

    /// Adds a line of a file, with carets under the item that has these ends, in bytes.
    pub fn add_place(&mut self, path: &str, line: FileLine<'_>, start: usize, end: usize) {
        self.add(format_args!("{} line {}:", EscapedText(path), line.number));
        let Excerpt {
            before,
            item,
            after,
        } = Excerpt::new(line.text, start, end);
        self.add(format_args!(
            "  {}{}{}",
            EscapedText(before),
            EscapedText(item),
            EscapedText(after)
        ));
        self.add(format_args!("  {}{}", Spaces(before), Carets(item)));
    }

    /// Adds a line of a file, with carets under all of it.
    pub fn add_line(&mut self, path: &str, line: FileLine<'_>) {
        let start = white_before(line.text);
        self.add_place(
            path,
            line,
            start,
            start.saturating_add(strip(line.text).len()),
        );
    }
}
