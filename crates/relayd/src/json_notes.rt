//! `relayd check --explain --json`: notes as objects of JSON.

use crate::reread_files::shown_path;
use command_line::Paths;
use log_format::{push_key, push_string};
use note_text::EscapedText;
use relay_base::whole_number_up_to;
use relay_files::Role;
use std::alloc::{AllocError, Global};
use std::fmt::Write as _;

/// What each line of a note begins with.
const HEAD: &str = "relayd: note: ";

/// What the lines begin with that show a line of a file.
const EXCERPT: &str = "  ";

/// A place in the files.
#[derive(Clone, Copy)]
struct Place<'a> {
    file: &'a str,
    /// The number of the line, from 1, if it is known.
    line: Option<u64>,
}

/// A note: where it is, and what it says, which is empty if the notes after it are about this place.
#[derive(Clone, Copy)]
struct PlacedText<'a> {
    place: Option<Place<'a>>,
    text: &'a str,
}

/// The names of the files of a configuration, as notes show them.
#[derive(Drop)]
pub struct NotedFiles {
    names: Vec<String>,
}

impl NotedFiles {
    /// The files at these paths.
    pub fn new(alloc: Global, paths: &Paths) -> Result<NotedFiles, AllocError> {
        let mut names = Vec::new(alloc);
        for role in [Role::Config, Role::Rules, Role::Rewrite] {
            if let Some(path) = paths.path_of(role) {
                names.push(format!(in alloc; "{}", EscapedText(shown_path(path)))?)?;
            }
        }
        Ok(NotedFiles { names })
    }

    /// Adds notes, each an object with `file`, `line` and `text`. With the notes of a fault, one that names no place is about the
    /// place of the one before; what shows the line itself is left out.
    pub fn push_objects(
        &self,
        text: &mut String,
        notes: &str,
        is_fault: bool,
    ) -> Result<(), AllocError> {
        let mut last = None;
        for line in notes.lines() {
            let note = self.note_in(line.strip_prefix(HEAD).unwrap_or(line));
            let place = note.place.or(last);
            if !note.text.is_empty() && !note.text.starts_with(EXCERPT) {
                push_object(text, place, note.text)?;
            }
            last = if is_fault { place } else { None };
        }
        Ok(())
    }

    /// The note that is this text.
    fn note_in<'a>(&'a self, text: &'a str) -> PlacedText<'a> {
        for name in &self.names {
            if let Some(note) = note_of(name.as_str(), text) {
                return note;
            }
        }
        PlacedText { place: None, text }
    }
}

/// The note that begins with the name of this file, if it does.
fn note_of<'a>(file: &'a str, text: &'a str) -> Option<PlacedText<'a>> {
    let rest = text.strip_prefix(file)?;
    if let Some(text) = rest.strip_prefix(": ") {
        let place = Some(Place { file, line: None });
        return Some(PlacedText { place, text });
    }
    if rest.starts_with(" [") {
        let place = Some(Place { file, line: None });
        return Some(PlacedText {
            place,
            text: rest.trim_start_matches(' '),
        });
    }
    let rest = rest.strip_prefix(" line ")?;
    let end = rest.find([':', ',']).unwrap_or(rest.len());
    let (digits, text) = rest.split_at_checked(end)?;
    let line = Some(whole_number_up_to(digits, u64::MAX)?);
    Some(PlacedText {
        place: Some(Place { file, line }),
        text: text.trim_start_matches([':', ',']).trim_start_matches(' '),
    })
}

/// Adds the object of a note, and a newline.
fn push_object(text: &mut String, place: Option<Place<'_>>, note: &str) -> Result<(), AllocError> {
    text.push('{')?;
    push_file(text, place)?;
    push_key(text, "text")?;
    push_string(text, note)?;
    text.push_str("}\n")
}

/// Adds the file and the line of a note, each `null` if it has none.
fn push_file(text: &mut String, place: Option<Place<'_>>) -> Result<(), AllocError> {
    push_key(text, "file")?;
    match place {
        Some(place) => push_string(text, place.file)?,
        None => text.push_str("null")?,
    }
    push_key(text, "line")?;
    match place.and_then(|place| place.line) {
        Some(line) => write!(text, "{line}"),
        None => text.push_str("null"),
    }
}
