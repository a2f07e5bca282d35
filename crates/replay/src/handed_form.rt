//! How a replay shows what a connection got.

/// How a replay shows what a connection got.
#[derive(Clone, Copy)]
pub enum HandedForm {
    /// A line with the bytes in hexadecimal digits.
    Digits,
    /// That line, and after it the bytes as they are, each line of them after the words `text D K`.
    DigitsAndText,
}
