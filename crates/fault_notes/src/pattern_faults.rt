//! Notes of patterns that `regex` refuses.

use crate::cause::{Cause, add_cause, add_cure};
use crate::cure::Cure;
use note_text::{FileLine, KeyLine, Notes};
use regex::RegexBuilder;
use regex_syntax::ErrorKind;
use std::alloc::Global;

/// A pattern, and how many bytes of its line precede it.
#[derive(Clone, Copy)]
pub(crate) struct PatternText<'a> {
    pub(crate) text: &'a str,
    pub(crate) start: usize,
    pub(crate) ignores_case: bool,
    pub(crate) cause: Option<Cause>,
}

impl<'a> PatternText<'a> {
    /// The pattern of a section of relay rules.
    pub(crate) fn of_value(pair: KeyLine<'a>) -> PatternText<'a> {
        PatternText {
            text: pair.value,
            start: pair.start,
            ignores_case: true,
            cause: None,
        }
    }
}

/// Notes of a pattern that `regex` refuses: the line with carets under the part, why, and the cure.
pub(crate) fn add_bad_pattern(
    alloc: Global,
    notes: &mut Notes,
    path: &str,
    line: FileLine<'_>,
    pattern: PatternText<'_>,
) {
    let builder = RegexBuilder::new(pattern.text).case_insensitive(pattern.ignores_case);
    if let Some(error) = builder.build(alloc).err() {
        add_pattern_error(notes, path, line, pattern, &error);
        drop(error);
    }
}

/// Notes of why `regex` refuses a pattern.
fn add_pattern_error(
    notes: &mut Notes,
    path: &str,
    line: FileLine<'_>,
    pattern: PatternText<'_>,
    error: &regex::Error,
) {
    let (start, end) = match error {
        regex::Error::Syntax(error) => (error.span.start, error.span.end),
        _ => (0, pattern.text.len()),
    };
    notes.add_place(
        path,
        line,
        pattern.start.saturating_add(start),
        pattern.start.saturating_add(end),
    );
    notes.add(error);
    match cure_of_pattern(error, pattern) {
        Some(cure) => add_cure(notes, pattern.cause, cure),
        None => add_cause(notes, pattern.cause),
    }
}

/// The cure of what `regex` refuses; `None` where its own message says all that there is to say.
fn cure_of_pattern(error: &regex::Error, pattern: PatternText<'_>) -> Option<Cure> {
    let regex::Error::Syntax(error) = error else {
        return Some(Cure::SMALLER_PATTERN);
    };
    let part = pattern.text.get(error.span.start..).unwrap_or("");
    match error.kind {
        ErrorKind::EscapeUnrecognized => cure_of_escape(pattern.text, part),
        ErrorKind::ClassEscapeInvalid => Some(Cure::ESCAPE),
        // Relay rules ignore case, and rewrite rules do not.
        ErrorKind::UnsupportedLookAround if pattern.ignores_case => {
            let sign = pattern.text.get(error.span.start..error.span.end);
            Some(cure_of_look_around(sign.unwrap_or("")))
        }
        ErrorKind::UnsupportedLookAround => Some(Cure::LOOK_AROUND_IN_REWRITING),
        ErrorKind::UnsupportedBackreference => Some(cure_of_reference(pattern.text, part)),
        ErrorKind::RepetitionMissing if !part.starts_with('{') => Some(Cure::REPEAT_SOMETHING),
        ErrorKind::RepetitionMissing
        | ErrorKind::RepetitionCountDecimalEmpty
        | ErrorKind::DecimalInvalid
        | ErrorKind::RepetitionCountUnclosed => Some(cure_of_brace(pattern.text)),
        ErrorKind::GroupUnclosed | ErrorKind::ClassUnclosed => Some(Cure::CLOSE_GROUP),
        ErrorKind::GroupUnopened => Some(Cure::BRACKET_ITSELF),
        ErrorKind::FlagUnrecognized | ErrorKind::FlagUnexpectedEof => {
            Some(cure_of_flag(pattern.text))
        }
        ErrorKind::NestLimitExceeded | ErrorKind::CaptureLimitExceeded => {
            Some(Cure::SMALLER_PATTERN)
        }
        _ => None,
    }
}

/// The cure of an escape that `regex` does not have, of a pattern of which `part` is the rest from there on.
fn cure_of_escape(pattern: &str, part: &str) -> Option<Cure> {
    if part.starts_with("\\N") {
        None
    } else if part.starts_with("\\k") {
        Some(Cure::BACK_REFERENCE)
    } else if pattern.contains("\\Z") {
        Some(Cure::END_OF_TEXT)
    } else {
        Some(Cure::ESCAPE)
    }
}

/// The cure of a backslash with a digit.
fn cure_of_reference(pattern: &str, part: &str) -> Cure {
    if is_octal(part) {
        Cure::BYTE_AS_HEX
    } else if pattern.contains("\\0") {
        Cure::ZERO_BYTE
    } else {
        Cure::BACK_REFERENCE
    }
}

/// The cure of a brace that begins no count.
fn cure_of_brace(pattern: &str) -> Cure {
    if has_list(pattern) {
        Cure::ALTERNATIVES
    } else {
        Cure::BRACE
    }
}

/// Whether the first braces of a text have words with commas between, as a list of a shell.
fn has_list(text: &str) -> bool {
    let Some((_, rest)) = text.split_once('{') else {
        return false;
    };
    match rest.split_once('}') {
        Some((list, _)) => list.contains(',') && has_letter(list),
        None => false,
    }
}

fn has_letter(text: &str) -> bool {
    for byte in text.as_bytes() {
        if byte.is_ascii_alphabetic() {
            return true;
        }
    }
    false
}

/// Whether a text begins with a backslash and three octal digits.
fn is_octal(text: &str) -> bool {
    matches!(
        text.as_bytes(),
        [b'\\', b'0'..=b'7', b'0'..=b'7', b'0'..=b'7', ..]
    )
}

/// The cure of a look-around in relay rules that begins with a sign, such as `(?=`.
fn cure_of_look_around(sign: &str) -> Cure {
    if sign.ends_with('=') {
        Cure::TEXT_IN_PLACE
    } else {
        Cure::LOOK_AROUND
    }
}

/// The cure of a pattern with a group that begins with `(?` and a sign that is no flag here.
fn cure_of_flag(pattern: &str) -> Cure {
    if pattern.contains("(?#") {
        Cure::PATTERN_COMMENT
    } else if pattern.contains("(?>") {
        Cure::ATOMIC_GROUP
    } else if pattern.contains("(?P=") || pattern.contains("(?(") {
        Cure::BACK_REFERENCE
    } else {
        Cure::CLASS_FOR_FLAG
    }
}
