//! The lines of a rewrite file.
ghost use Rattle.std.specs.Prelude.{◌≡◌, ◌≤◌, ◌-◌, length, option_map, slice_index, slice_range};
ghost use Rattle.relay_base.specs.Ascii.{left_bracket, right_bracket};
ghost use Rattle.rewrite_rules.specs.Line.{section_named, rule_text, meaning_of_stripped, meaning_of};
ghost use Rattle.rewrite_rules.specs.ReadLine.{rule_seen, meaning_seen};

use relay_base::strip;

/// The two lists of rules of a rewrite file.
#[derive(Clone, Copy)]
pub(crate) enum Section {
    Pre,
    Post,
}

/// A rule as it is in its line.
#[derive(Clone, Copy)]
pub(crate) struct TextOfRule<'a> {
    pub(crate) pattern: &'a str,
    pub(crate) replacement: &'a str,
}

/// What a line says.
#[derive(Clone, Copy)]
pub(crate) enum Line<'a> {
    /// It is empty, or a comment.
    Skipped,
    /// It begins a section, if that is one of the two.
    Header(Option<Section>),
    /// It is a rule, if it has a `=`.
    Rule(Option<TextOfRule<'a>>),
}

/// Reads a line, without the byte 10 that ends it.
#[tactic(auto, unfolding(crate::specs::Line::meaning_of))]
pub(crate) fn read_line(line: &str) -> Line<'_>
    ensures { meaning_seen result ≡ meaning_of line.now }
{
    read_stripped(strip(line))
}

fn read_stripped(line: &str) -> Line<'_>
    ensures { meaning_seen result ≡ meaning_of_stripped line.now }
{
    match line.as_bytes() {
        [] | [b'#', ..] => Line::Skipped,
        [b'[', .., b']'] => Line::Header(section_in(line)),
        [_, ..] => Line::Rule(rule_text(line)),
    }
}

/// The section named between a bracket at the start and one at the end.
fn section_in(line: &str) -> Option<Section>
    requires first { slice_index line.now 0 ≡ left_bracket }
    requires last { slice_index line.now (length line.now - 1) ≡ right_bracket }
    requires len { 2 ≤ length line.now }
    ensures { result ≡ section_named (slice_range line.now 1 (length line.now - 1)) }
{
    section_named(&line[1..line.len() - 1])
}

fn section_named(name: &str) -> Option<Section>
    ensures { result ≡ section_named name.now }
{
    if name.eq_ignore_ascii_case("pre") {
        Some(Section::Pre)
    } else if name.eq_ignore_ascii_case("post") {
        Some(Section::Post)
    } else {
        None
    }
}

fn rule_text(line: &str) -> Option<TextOfRule<'_>>
    ensures { option_map rule_seen result ≡ rule_text line.now }
{
    let (pattern, replacement) = line.split_once('=')?;
    Some(TextOfRule {
        pattern: strip(pattern),
        replacement: strip(replacement),
    })
}
