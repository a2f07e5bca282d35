//! Notes of a word that is no name, and of a file of names.

use crate::cause::{Cause, add_cause, add_cure};
use crate::cure::Cure;
use crate::not_text::is_utf16;
use line_text::{Name, NameFault};
use note_text::{FileLine, Notes, Source, SourceText};
use relay_base::{NoMemory, is_white, strip};
use std::alloc::Global;
use std::str;

/// Notes of a word that was given as the name of a metric; none if it is one.
pub fn notes_of_name(alloc: Global, name: &str) -> Result<Notes, NoMemory> {
    let mut notes = Notes::new(alloc);
    match Name::read(alloc, name.as_bytes()).err() {
        None => {}
        Some(NameFault::NoMemory) => notes.cut(),
        Some(NameFault::BadName) => {
            notes.add_found(
                name,
                "1 to 16384 bytes, none of them white space or a control byte",
            );
            notes.add(Cure::NAME_ALONE);
        }
    }
    notes.finish()
}

/// Notes of a file of names that is UTF-16, so that it has no name, and otherwise of its first line that has more than a name.
pub fn notes_of_names(alloc: Global, source: Source<'_>) -> Result<Notes, NoMemory> {
    let mut notes = Notes::new(alloc);
    if let SourceText::Bytes(bytes) = source.text {
        if is_utf16(bytes) {
            add_cure(&mut notes, Some(Cause::UTF16), Cure::FROM_UTF16);
        } else if let Ok(text) = str::from_utf8(bytes) {
            add_line_of_more(&mut notes, source.path, text);
        }
    }
    notes.finish()
}

/// Adds the first line of a text that has more than a name, if there is one, and the cure.
fn add_line_of_more(notes: &mut Notes, path: &str, text: &str) {
    let mut number: usize = 0;
    for line in text.split('\n') {
        number = number.saturating_add(1);
        if has_white(strip(line).as_bytes()) {
            notes.add_line(path, FileLine { number, text: line });
            return add_cause(notes, Some(Cause::MORE_THAN_A_NAME));
        }
    }
}

/// Whether bytes have white space between them.
fn has_white(bytes: &[u8]) -> bool {
    for byte in bytes {
        if is_white(*byte) {
            return true;
        }
    }
    false
}
