//! Notes of faults in the lines of a file of sections.

use crate::cause::{Cause, add_cure};
use crate::cure::Cure;
use crate::other_files::cause_of_other_file;
use conf_text::IniFault;
use note_text::{
    FileLine, Notes, TextFile, first_like, is_header, is_indented, key_value, line_numbered,
};
use relay_base::strip;

/// Notes of a fault in a line: the line, what is wrong in it, and the cure; `header` is the cure of a key
/// before the first header.
pub(crate) fn add_line_fault(notes: &mut Notes, file: TextFile<'_>, fault: IniFault, header: Cure) {
    let (number, cure) = match fault {
        IniFault::NoSection { line } => (line, header),
        IniFault::DuplicateSection { line } => (line, Cure::ONE_SECTION),
        IniFault::DuplicateKey { line } => (line, cure_of_second(line_numbered(file.text, line))),
        IniFault::BadLine { line } => (line, Cure::KEY_AND_VALUE),
        IniFault::NoMemory => return notes.cut(),
    };
    let line = line_numbered(file.text, number);
    notes.add_line(file.path, line);
    if let IniFault::DuplicateSection { .. } | IniFault::DuplicateKey { .. } = fault {
        if let Some(first) = first_like(file.text, line) {
            notes.add_same_before(first);
        }
    }
    add_cure(notes, cause_of_line(file.text, line, fault), cure)
}

fn cause_of_line(text: &str, line: FileLine<'_>, fault: IniFault) -> Option<Cause> {
    let is_bad = matches!(fault, IniFault::BadLine { .. });
    if let Some(cause) = cause_of_signs(text, line) {
        Some(cause)
    } else if is_foreign_comment(line.text) {
        Some(Cause::COMMENT_SIGN)
    } else if let Some(cause) = cause_of_other_file(text) {
        Some(cause)
    } else if is_header(line.text) {
        is_bad.then_some(Cause::COMMENT_AFTER_HEADER)
    } else if is_indented(line.text) && !matches!(fault, IniFault::NoSection { .. }) {
        Some(Cause::CONTINUED_LINE)
    } else {
        None
    }
}

/// The bytes of a line that are not seen: a byte order mark, the zero bytes of UTF-16, a no-break space, or a carriage
/// return in the place of a newline.
pub(crate) fn cause_of_signs(text: &str, line: FileLine<'_>) -> Option<Cause> {
    if line.number == 1 && text.starts_with('\u{feff}') {
        Some(Cause::BYTE_ORDER_MARK)
    } else if line.text.contains('\0') {
        Some(Cause::UTF16)
    } else if line.text.contains('\u{a0}') {
        Some(Cause::NO_BREAK_SPACE)
    } else if strip(line.text).contains('\r') {
        Some(Cause::LINES_OF_CARRIAGE_RETURNS)
    } else {
        None
    }
}

/// Whether a line begins as a comment does in other languages.
pub(crate) fn is_foreign_comment(line: &str) -> bool {
    let line = strip(line);
    line.starts_with("//") || line.starts_with("/*") || line.starts_with("--")
}

/// The cure of a key that its section has already.
fn cure_of_second(line: FileLine<'_>) -> Cure {
    match key_value(line.text) {
        Some(pair) if pair.key.eq_ignore_ascii_case("destinations") => Cure::JOIN_LISTS,
        Some(pair) if matches!(pair.key, "pattern" | "continue" | "default") => Cure::HEADER_ABOVE,
        _ => Cure::ONE_KEY,
    }
}
