//! Notes of a file that is no text.

use crate::cause::{Cause, add_cure};
use crate::cure::Cure;
use note_text::{EscapedText, Notes};
use relay_base::is_white;

/// Notes of a file that is not UTF-8 from a byte on.
pub(crate) fn add_not_text(notes: &mut Notes, path: &str, bytes: &[u8], valid: usize) {
    let (line, column) = line_and_column(bytes, valid);
    let byte = bytes.get(valid).copied().unwrap_or(0);
    notes.add(format_args!(
        "{} line {line}: byte {byte} at column {column} is not UTF-8",
        EscapedText(path)
    ));
    add_cure(notes, cause_of_bytes(bytes), Cure::FROM_LATIN1)
}

/// What a file is that is no text, by its first bytes.
fn cause_of_bytes(bytes: &[u8]) -> Option<Cause> {
    match bytes {
        [0x1f, 0x8b, ..] => Some(Cause::GZIP),
        _ if is_utf16(bytes) => Some(Cause::UTF16),
        _ => has_control(bytes).then_some(Cause::BINARY),
    }
}

/// Whether bytes have one that no text has: a control byte that is no white space.
fn has_control(bytes: &[u8]) -> bool {
    for byte in bytes {
        if *byte < b' ' && !is_white(*byte) && *byte != b'\n' {
            return true;
        }
    }
    false
}

/// Whether a file begins like one that is UTF-16.
pub(crate) fn is_utf16(bytes: &[u8]) -> bool {
    matches!(bytes, [0xff, 0xfe, ..] | [0xfe, 0xff, ..])
}

/// The line and the column of a byte, both from 1.
fn line_and_column(bytes: &[u8], place: usize) -> (usize, usize) {
    let mut line: usize = 1;
    let mut column: usize = 1;
    for byte in bytes.iter().take(place) {
        if *byte == b'\n' {
            line = line.saturating_add(1);
            column = 1;
        } else {
            column = column.saturating_add(1);
        }
    }
    (line, column)
}
