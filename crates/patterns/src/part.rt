//! Replacements.

/// A part of a replacement: what is written in the place of a match is what its parts write, one after the other.
#[derive(Clone, Copy)]
pub enum Part {
    /// A character, written as it is.
    Character(char),
    /// What the match gave the group with this number, or nothing if that took no part. Group 0 is the match.
    Group(usize),
}
