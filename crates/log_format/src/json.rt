//! Texts as JSON writes them.

use std::alloc::AllocError;

/// The digits of base sixteen.
static DIGITS: [&str; 16] = [
    "0", "1", "2", "3", "4", "5", "6", "7", "8", "9", "a", "b", "c", "d", "e", "f",
];

/// Adds a text in quotes, with what JSON does not let stand in them escaped. Fails when out of memory.
pub fn push_string(text: &mut String, value: &str) -> Result<(), AllocError> {
    text.push('"')?;
    for sign in value.chars() {
        match sign {
            '"' => text.push_str("\\\"")?,
            '\\' => text.push_str("\\\\")?,
            '\0'..='\x1f' => push_control(text, sign as u32)?,
            _ => text.push(sign)?,
        }
    }
    text.push('"')
}

/// Adds a control character below 32, as `\u000a`.
fn push_control(text: &mut String, code: u32) -> Result<(), AllocError> {
    text.push_str(if code < 16 { "\\u000" } else { "\\u001" })?;
    let low = (code % 16) as usize;
    text.push_str(DIGITS.get(low).copied().unwrap_or("0"))
}

/// Adds a member whose value is a text, and a comma before it unless it is the first.
pub fn push_member(text: &mut String, key: &str, value: &str) -> Result<(), AllocError> {
    push_key(text, key)?;
    push_string(text, value)
}

/// Adds the key of a member, and a comma before it unless it is the first of its object.
pub fn push_key(text: &mut String, key: &str) -> Result<(), AllocError> {
    if !text.ends_with('{') {
        text.push(',')?;
    }
    push_string(text, key)?;
    text.push(':')
}
