//! Replacements.
ghost use Rattle.std.specs.Prelude.{◌≡◌, ◌==◌, ◌-◌, ◌<◌, ◌∷◌, [], Some, None, length, option_map, IfOk, IfSome, MatchOption, if◌then◌else◌, chars};
ghost use Rattle.relay_base.specs.Ascii.{backslash, digit_zero};
ghost use Rattle.rewrite_rules.specs.Replacement.{is_plain, begins_with_digit, names_group, part_before, parts_of, replacement_of};

use patterns::Part;
use std::alloc::{AllocError, Global};

/// The parts of a replacement, or `None` if it is refused. The pattern has this number of groups, including
/// group 0.
#[tactic(auto, unfolding(crate::specs::Replacement::replacement_of))]
pub(crate) fn replacement_of(
    alloc: Global,
    groups: usize,
    text: &str,
) -> Result<Option<Vec<Part>>, AllocError>
    ensures { IfOk result (λ parts.
        option_map (λ v. v.items) parts ≡ replacement_of groups text.now) }
{
    let characters = characters_of(alloc, text)?;
    parts_of(alloc, groups, &characters)
}

fn characters_of(alloc: Global, text: &str) -> Result<Vec<char>, AllocError>
    ensures { IfOk result (λ v. v.items ≡ chars text.now) }
{
    text.chars().collect(alloc)
}

fn parts_of(alloc: Global, groups: usize, text: &[char]) -> Result<Option<Vec<Part>>, AllocError>
    ensures { IfOk result (λ parts. option_map (λ v. v.items) parts ≡ parts_of groups text.now) }
{
    let mut parts = Vec::new(alloc);
    let mut rest = text;
    while let Some(first) = first_part(groups, rest) {
        parts.push(first.part)?;
        rest = first.rest;
    }
    if !rest.is_empty() {
        return Ok(None);
    }
    Ok(Some(parts))
}

/// The first part of a replacement, and what follows it.
#[derive(Clone, Copy)]
struct FirstPart<'a> {
    part: Part,
    rest: &'a [char],
}

fn first_part(groups: usize, text: &[char]) -> Option<FirstPart<'_>>
    ensures parts { MatchOption result
        (parts_of groups text.now ≡ (if length text.now == 0 then Some [] else None))
        (λ first.
        parts_of groups text.now ≡ part_before first.part (parts_of groups first.rest.now)) }
    ensures shorter { IfSome result (λ first. length first.rest.now < length text.now) }
{
    let (c, rest) = text.split_first()?;
    if *c == '\\' {
        return escaped_part(groups, rest);
    }
    if !is_plain(*c) {
        return None;
    }
    Some(FirstPart {
        part: Part::Character(*c),
        rest,
    })
}

/// The part that a backslash before this text begins.
fn escaped_part(groups: usize, text: &[char]) -> Option<FirstPart<'_>>
    ensures parts { MatchOption result (parts_of groups (backslash ∷ text.now) ≡ None)
        (λ first. parts_of groups (backslash ∷ text.now)
        ≡ part_before first.part (parts_of groups first.rest.now)) }
    ensures shorter { IfSome result (λ first. length first.rest.now < length text.now) }
{
    let (c, rest) = text.split_first()?;
    let part = if *c == '\\' {
        Part::Character('\\')
    } else {
        Part::Group(group_named(groups, *c, rest)?)
    };
    Some(FirstPart { part, rest })
}

/// The group that a character after a backslash names, if no digit follows it.
fn group_named(groups: usize, c: char, rest: &[char]) -> Option<usize>
    ensures { result ≡ (if names_group groups c rest.now then Some (c - digit_zero) else None) }
{
    if !matches!(c, '1'..='9') || begins_with_digit(rest) {
        return None;
    }
    let group = c as usize - '0' as usize;
    if group < groups { Some(group) } else { None }
}

fn begins_with_digit(text: &[char]) -> bool
    ensures { result ≡ begins_with_digit text.now }
{
    match text {
        [c, ..] => c.is_ascii_digit(),
        [] => false,
    }
}

fn is_plain(c: char) -> bool
    ensures { result ≡ is_plain c }
{
    c > ' ' && c != '\x7f'
}
