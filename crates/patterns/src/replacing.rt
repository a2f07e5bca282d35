//! Writing a replacement in the place of each match.

ghost use Rattle.std.specs.Prelude.{◌≡◌, ◌+◌, ◌-◌, ◌<◌, ◌≤◌, ◌++◌, true, slice_range, IfOk, IfSome, IfNone, OnOk, is_some, string_bytes, IsCharBoundary};
ghost use Rattle.regex.specs.Patterns.{find_str, find_all_str};
ghost use Rattle.regex.specs.Replace.{group_bytes, replaced_by};
ghost use Rattle.regex.specs.Search.{next_match};
ghost use Rattle.regex.specs.Strings.{matcher_pattern, captures_haystack};
ghost use Rattle.patterns.specs.Replacement.{part_bytes, replacement_text, text_or};
ghost use Rattle.patterns.specs.Left.{group_text, start_of, end_of, with_left};

use crate::part::Part;
use regex::{Captures, Matcher};
use std::alloc::{AllocError, Global};

/// The text with the parts in the place of each match, or `None` if there is no match.
pub(crate) fn replace_all(
    alloc: Global,
    matcher: &mut Matcher<'_>,
    text: &str,
    parts: &[Part],
) -> Result<Option<String>, AllocError>
    ensures text { IfOk result (λ new. text_or text.now new
        ≡ replaced_by (λ m. replacement_text parts.now (group_bytes text.now m)) text.now 0
        (find_all_str (matcher_pattern matcher.old) text.now)) }
    ensures some { IfOk result (λ new. is_some new
        ≡ is_some (find_str (matcher_pattern matcher.old) text.now 0)) }
    ensures same { matcher_pattern matcher.new ≡ matcher_pattern matcher.old }
{
    let mut out = String::new(alloc);
    let Some(first) = append_next(matcher, text, parts, 0, &mut out)? else {
        return Ok(None);
    };
    let mut after = first;
    while let Some(next) = append_next(matcher, text, parts, after, &mut out)? {
        after = next;
    }
    out.push_str(&text[after - 1..])?;
    Ok(Some(out))
}

/// Appends the text up to the next match, and what the parts write in its place. Returns its end plus one.
///
/// `after` is the end of the last match plus one, or 0 before the first. An empty match right there is skipped.
fn append_next(
    matcher: &mut Matcher<'_>,
    text: &str,
    parts: &[Part],
    after: usize,
    out: &mut String,
) -> Result<Option<usize>, AllocError>
    requires { IsCharBoundary text.now (after - 1) }
    ensures found { IfOk result (λ next. is_some next
        ≡ is_some (next_match true (matcher_pattern matcher.old) text.now after)) }
    ensures none { IfOk result (λ next. IfNone next (string_bytes out.new ≡ string_bytes out.old)) }
    ensures some { IfOk result (λ next. IfSome next (λ next.
        with_left (matcher_pattern matcher.old) parts.now text.now (string_bytes out.new) next
        ≡ with_left (matcher_pattern matcher.old) parts.now text.now (string_bytes out.old)
        after)) }
    ensures place { IfOk result (λ next. IfSome next (λ next.
        (after < next) × IsCharBoundary text.now (next - 1))) }
    ensures same { matcher_pattern matcher.new ≡ matcher_pattern matcher.old }
{
    let last = after.saturating_sub(1);
    let Some(captures) = matcher.captures_at(text, last) else {
        return Ok(None);
    };
    let next = after_match(&captures);
    if next > after {
        append_match(out, text, last, &captures, parts)?;
        return Ok(Some(next));
    }
    let Some(captures) = matcher.captures_at(text, after) else {
        return Ok(None);
    };
    append_match(out, text, last, &captures, parts)?;
    Ok(Some(after_match(&captures)))
}

/// The end of a match plus one.
fn after_match(captures: &Captures<'_, '_>) -> usize
    ensures value { result ≡ end_of captures.now + 1 }
    ensures cut { IsCharBoundary (captures_haystack captures.now) (result - 1) }
{
    captures.get_match().end() + 1
}

/// Appends the text from a place up to a match, and what the parts write in its place.
fn append_match(
    out: &mut String,
    text: &str,
    from: usize,
    captures: &Captures<'_, '_>,
    parts: &[Part],
) -> Result<(), AllocError>
    requires from { IsCharBoundary text.now from }
    requires within { captures_haystack captures.now ≡ text.now }
    requires ordered { from ≤ start_of captures.now }
    ensures { OnOk result (string_bytes out.new ≡ string_bytes out.old
        ++ (slice_range text.now from (start_of captures.now)
        ++ replacement_text parts.now (group_text captures.now))) }
{
    out.push_str(&text[from..captures.get_match().start()])?;
    append_parts(out, captures, parts)
}

/// Appends what the parts write in the place of a match.
fn append_parts(
    out: &mut String,
    captures: &Captures<'_, '_>,
    parts: &[Part],
) -> Result<(), AllocError>
    ensures { OnOk result (string_bytes out.new
        ≡ string_bytes out.old ++ replacement_text parts.now (group_text captures.now)) }
{
    for part in parts {
        append_part(out, captures, *part)?;
    }
    Ok(())
}

fn append_part(out: &mut String, captures: &Captures<'_, '_>, part: Part) -> Result<(), AllocError>
    ensures { OnOk result (string_bytes out.new
        ≡ string_bytes out.old ++ part_bytes (group_text captures.now) part) }
{
    match part {
        Part::Character(c) => out.push(c),
        Part::Group(number) => match captures.get(number) {
            Some(group) => out.push_str(group.as_str()),
            None => Ok(()),
        },
    }
}
