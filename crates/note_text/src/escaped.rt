//! Text of files and of input, escaped for a terminal.

use std::fmt;

/// A text on one line: control characters, and white space that does not look like a space, are escaped.
#[derive(Clone, Copy)]
pub struct EscapedText<'a>(pub &'a str);

impl fmt::Display for EscapedText<'_> {
    fn fmt<W: fmt::Write>(&self, f: &mut fmt::Formatter<W>) -> fmt::Result {
        for c in self.0.chars() {
            show(f, c)?;
        }
        Ok(())
    }
}

/// How many bytes of a line are shown.
const MOST_BYTES: usize = 120;

/// The first 120 bytes of a line, with what is not UTF-8 escaped too.
#[derive(Clone, Copy)]
pub struct EscapedBytes<'a>(pub &'a [u8]);

impl fmt::Display for EscapedBytes<'_> {
    fn fmt<W: fmt::Write>(&self, f: &mut fmt::Formatter<W>) -> fmt::Result {
        let shown = self.0.get(..MOST_BYTES).unwrap_or(self.0);
        for chunk in shown.utf8_chunks() {
            EscapedText(chunk.valid()).fmt(f)?;
            show_bytes(f, chunk.invalid())?;
        }
        Ok(())
    }
}

fn show_bytes<W: fmt::Write>(f: &mut fmt::Formatter<W>, bytes: &[u8]) -> fmt::Result {
    for byte in bytes {
        write!(f, "\\x{byte:02x}")?;
    }
    Ok(())
}

/// As many spaces as a text takes when it is shown.
#[derive(Clone, Copy)]
pub(crate) struct Spaces<'a>(pub(crate) &'a str);

impl fmt::Display for Spaces<'_> {
    fn fmt<W: fmt::Write>(&self, f: &mut fmt::Formatter<W>) -> fmt::Result {
        write_blanks(f, self.0, "        ")
    }
}

/// As many carets as a text takes when it is shown, and at least one.
#[derive(Clone, Copy)]
pub(crate) struct Carets<'a>(pub(crate) &'a str);

impl fmt::Display for Carets<'_> {
    fn fmt<W: fmt::Write>(&self, f: &mut fmt::Formatter<W>) -> fmt::Result {
        if self.0.is_empty() {
            return f.write_str("^");
        }
        write_blanks(f, self.0, "^^^^^^^^")
    }
}

/// Writes as many of eight equal signs as each character takes when it is shown.
fn write_blanks<W: fmt::Write>(
    f: &mut fmt::Formatter<W>,
    text: &str,
    eight: &'static str,
) -> fmt::Result {
    for c in text.chars() {
        f.write_str(blank(c, eight))?;
    }
    Ok(())
}

fn show<W: fmt::Write>(f: &mut fmt::Formatter<W>, c: char) -> fmt::Result {
    if !is_escaped(c) {
        f.write_char(c)
    } else if c.is_ascii() {
        write!(f, "\\x{:02x}", c as u32)
    } else {
        write!(f, "\\u{{{:04x}}}", c as u32)
    }
}

/// The width of a character when it is shown, at most 8.
fn blank(c: char, eight: &'static str) -> &'static str {
    let width = if !is_escaped(c) {
        1
    } else if c.is_ascii() {
        4
    } else {
        8
    };
    eight.get(..width).unwrap_or(eight)
}

/// Whether a character would not be seen: a control character, a byte order mark, a space that is not
/// byte 32, or an end of line that is not byte 10.
fn is_escaped(c: char) -> bool {
    matches!(c, '\0'..='\x1f' | '\x7f'..='\u{a0}' | '\u{2000}'..='\u{200f}' | '\u{2028}'..='\u{202f}' | '\u{feff}')
}
