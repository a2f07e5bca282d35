//! White space, and texts and bytes without it at their ends.

ghost use Rattle.std.specs.Prelude.{◌≡◌, reverse, position};
ghost use Rattle.relay_base.specs.White.{is_white, is_not_white, without_leading, without_trailing, strip};

/// Whether a byte is white space in a line: a tab, a vertical tab, a form feed, a carriage return or a space. A
/// newline ends a line, so no line contains one.
pub fn is_white(byte: u8) -> bool
    ensures { result ≡ is_white byte }
{
    matches!(byte, b'\t' | b'\x0b' | b'\x0c' | b'\r' | b' ')
}

fn is_not_white(byte: u8) -> bool
    ensures { result ≡ is_not_white byte }
{
    !is_white(byte)
}

fn first_not_white(bytes: &[u8]) -> Option<usize>
    ensures { result ≡ position is_not_white bytes.now }
{
    bytes.iter().position(|byte| is_not_white(*byte))
}

// Counted from the end.
fn last_not_white(bytes: &[u8]) -> Option<usize>
    ensures { result ≡ position is_not_white (reverse bytes.now) }
{
    bytes.iter().rev().position(|byte| is_not_white(*byte))
}

fn strip_start(text: &str) -> &str
    ensures { result.now ≡ without_leading text.now }
{
    match first_not_white(text.as_bytes()) {
        Some(start) => &text[start..],
        None => "",
    }
}

fn strip_end(text: &str) -> &str
    ensures { result.now ≡ without_trailing text.now }
{
    match last_not_white(text.as_bytes()) {
        Some(white) => &text[..text.len() - white],
        None => "",
    }
}

/// The text without the white space at its ends.
pub fn strip(text: &str) -> &str
    ensures { result.now ≡ strip text.now }
{
    strip_end(strip_start(text))
}

fn strip_bytes_start(bytes: &[u8]) -> &[u8]
    ensures { result.now ≡ without_leading bytes.now }
{
    match first_not_white(bytes) {
        Some(start) => &bytes[start..],
        None => &[],
    }
}

fn strip_bytes_end(bytes: &[u8]) -> &[u8]
    ensures { result.now ≡ without_trailing bytes.now }
{
    match last_not_white(bytes) {
        Some(white) => &bytes[..bytes.len() - white],
        None => &[],
    }
}

/// The bytes without the white space at their ends, as [`strip`] for a text. They need not be UTF-8.
pub fn strip_bytes(bytes: &[u8]) -> &[u8]
    ensures { result.now ≡ strip bytes.now }
{
    strip_bytes_end(strip_bytes_start(bytes))
}
