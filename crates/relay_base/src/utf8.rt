//! Bytes that are UTF-8.

ghost use Rattle.std.specs.Prelude.{◌≡◌, true, false, MatchOption};
ghost use Rattle.std.specs.Str.{is_utf8};

use std::str;

/// The text that bytes are, or `None` if they are not UTF-8.
pub fn utf8_text(bytes: &[u8]) -> Option<&str>
    ensures { MatchOption result (is_utf8 bytes.now ≡ false)
        (λ text. (text.now ≡ bytes.now) × (is_utf8 bytes.now ≡ true)) }
{
    match str::from_utf8(bytes) {
        Ok(text) => Some(text),
        Err(_) => None,
    }
}
