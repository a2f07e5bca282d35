//! Lines as producers write them: three fields with a space between two of them, and nothing else.
ghost use Rattle.std.specs.Prelude.{◌≡◌, ◌+◌, ◌-◌, ◌<◌, ◌≤◌, ◌∷◌, [], length, take, drop, IfSome};
ghost use Rattle.std.specs.List.{prefix_len};
ghost use Rattle.line_text.specs.Field.{fields, is_visible};

use crate::block::{BLOCK, visible_in_last};

/// The fields of a plain line.
#[derive(Clone, Copy)]
pub(crate) struct PlainFields<'a> {
    pub(crate) name: &'a [u8],
    pub(crate) value: &'a [u8],
    pub(crate) time: &'a [u8],
}

/// The fields of a line of at least [`BLOCK`] bytes whose bytes are all above a space, except two spaces; `None`
/// for other lines.
pub(crate) fn plain_fields(line: &[u8]) -> Option<PlainFields<'_>>
    ensures { IfSome result (λ plain. fields line.now
        ≡ plain.name.now ∷ plain.value.now ∷ plain.time.now ∷ []) }
{
    if line.len() < BLOCK {
        return None;
    }
    let name = word_at(line, 0)?;
    let value = word_at(line, name + 1)?;
    let time = visible_end(line, value + 1);
    if time < line.len() || time == value + 1 {
        return None;
    }
    Some(PlainFields {
        name: &line[..name],
        value: &line[name + 1..value],
        time: &line[value + 1..],
    })
}

/// Where the bytes above a space that begin at a place end, if there are some and a space follows them.
fn word_at(line: &[u8], at: usize) -> Option<usize>
    requires long { BLOCK ≤ length line.now }
    requires within { at ≤ length line.now }
    ensures after { IfSome result (λ end. at < end) }
    ensures within { IfSome result (λ end. end < length line.now) }
    ensures field { IfSome result (λ end. fields (drop at line.now)
        ≡ take (end - at) (drop at line.now) ∷ fields (drop (end + 1) line.now)) }
{
    let end = visible_end(line, at);
    if at < end && end < line.len() && line[end] == b' ' {
        Some(end)
    } else {
        None
    }
}

/// Where the bytes above a space that begin at a place end.
#[inline(always)]
fn visible_end(line: &[u8], at: usize) -> usize
    requires long { BLOCK ≤ length line.now }
    requires within { at ≤ length line.now }
    ensures end { result ≡ at + prefix_len is_visible (drop at line.now) }
    ensures within { result ≤ length line.now }
{
    let mut seen = at;
    while BLOCK <= line.len() - seen {
        let visible = visible_in_last(&line[seen..seen + BLOCK], BLOCK);
        seen += visible;
        if visible < BLOCK {
            return seen;
        }
    }
    seen + visible_in_last(&line[line.len() - BLOCK..], line.len() - seen)
}
