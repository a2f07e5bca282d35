//! The fields of a line: what is between runs of white space.
ghost use Rattle.std.specs.Prelude.{◌≡◌, ◌<◌, ◌≤◌, ◌+◌, [], ◌∷◌, length, drop, MatchOption};
ghost use Rattle.std.specs.List.{prefix_len, position_or_len};
ghost use Rattle.line_text.specs.Field.{fields, AreFields, is_visible};
ghost use Rattle.relay_base.specs.White.{is_white};

use crate::block::{BLOCK, visible_in_last};
use crate::plain_line::plain_fields;
use relay_base::is_white;

/// The fields of a line, as far as it matters how many there are.
pub enum Fields<'a> {
    None,
    Three {
        name: &'a [u8],
        value: &'a [u8],
        time: &'a [u8],
    },
    Other,
}

/// The fields of a line.
pub fn fields_of(line: &[u8]) -> Fields<'_>
    ensures { AreFields (fields line.now) result }
{
    match plain_fields(line) {
        Some(plain) => Fields::Three {
            name: plain.name,
            value: plain.value,
            time: plain.time,
        },
        None => any_fields(line),
    }
}

/// The fields of any line.
fn any_fields(line: &[u8]) -> Fields<'_>
    ensures { AreFields (fields line.now) result }
{
    let Some(name) = first_field(line) else {
        return Fields::None;
    };
    let Some(value) = first_field(name.rest) else {
        return Fields::Other;
    };
    let Some(time) = first_field(value.rest) else {
        return Fields::Other;
    };
    match first_field(time.rest) {
        None => Fields::Three {
            name: name.text,
            value: value.text,
            time: time.text,
        },
        Some(_) => Fields::Other,
    }
}

/// A field, and what follows it in its line.
#[derive(Clone, Copy)]
struct Field<'a> {
    /// The field.
    text: &'a [u8],
    /// What follows it.
    rest: &'a [u8],
}

/// The first field of a text, or `None` if the text is white space alone.
fn first_field(text: &[u8]) -> Option<Field<'_>>
    ensures { MatchOption result (fields text.now ≡ []) (λ field. fields text.now
        ≡ field.text.now ∷ fields field.rest.now) }
{
    let (_, text) = text.split_at(white_len(text));
    let (field, rest) = text.split_at(field_len(text));
    if field.is_empty() {
        return None;
    }
    Some(Field { text: field, rest })
}

/// How many white bytes a text begins with.
fn white_len(text: &[u8]) -> usize
    ensures len { result ≡ prefix_len is_white text.now }
    ensures within { result ≤ length text.now }
{
    for (i, b) in text.iter().enumerate() {
        if !is_white(*b) {
            return i;
        }
    }
    text.len()
}

/// How many bytes a text has before its first white byte.
fn field_len(text: &[u8]) -> usize
    ensures len { result ≡ position_or_len is_white text.now }
    ensures within { result ≤ length text.now }
{
    let seen = visible_len(text);
    seen + place_of_white(&text[seen..])
}

/// How many bytes above a space a text begins with, or fewer, if less than a block is left after them.
fn visible_len(text: &[u8]) -> usize
    ensures len { position_or_len is_white text.now
        ≡ result + position_or_len is_white (drop result text.now) }
    ensures within { result ≤ length text.now }
{
    let mut seen = 0;
    while BLOCK <= text.len() - seen {
        let visible = visible_in_last(&text[seen..seen + BLOCK], BLOCK);
        seen += visible;
        if visible < BLOCK {
            return seen;
        }
    }
    seen
}

/// The position of the first white byte of a text, or the text's length.
fn place_of_white(text: &[u8]) -> usize
    ensures len { result ≡ position_or_len is_white text.now }
    ensures within { result ≤ length text.now }
{
    for (i, b) in text.iter().enumerate() {
        if is_white(*b) {
            return i;
        }
    }
    text.len()
}
