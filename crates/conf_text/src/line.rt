//! The lines of a configuration file.

ghost use Rattle.std.specs.Prelude.{◌≡◌, ◌<◌, length, option_map, option_copied, position, slice_index};
ghost use Rattle.relay_base.specs.Ascii.{left_bracket};
ghost use Rattle.conf_text.specs.Lines.{is_cut, header_name, setting_of, meaning_of_content, meaning_of};
ghost use Rattle.conf_text.specs.ReadLine.{pair_view, meaning_view};

use relay_base::strip;

/// A key and its value, as they are in a line.
#[derive(Clone, Copy)]
pub(crate) struct KeyValueText<'a> {
    pub(crate) key: &'a str,
    pub(crate) value: &'a str,
}

/// What a line says.
#[derive(Clone, Copy)]
pub(crate) enum Line<'a> {
    /// It is empty, or a comment.
    Skipped,
    /// It begins a section, and has a name if it is well formed.
    Header(Option<&'a str>),
    /// It sets a key, if it is well formed.
    Setting(Option<KeyValueText<'a>>),
}

/// Reads a line, without the newline that ends it.
#[tactic(auto, unfolding(crate::specs::Lines::meaning_of))]
pub(crate) fn read_line(line: &str) -> Line<'_>
    ensures { meaning_view result ≡ meaning_of line.now }
{
    read_content(strip(line))
}

fn read_content(line: &str) -> Line<'_>
    ensures { meaning_view result ≡ meaning_of_content line.now }
{
    match line.as_bytes() {
        [] | [b'#' | b';', ..] => Line::Skipped,
        [b'[', ..] => Line::Header(header_name(line)),
        [_, ..] => Line::Setting(setting_of(line)),
    }
}

fn header_name(line: &str) -> Option<&str>
    requires { slice_index line.now 0 ≡ left_bracket }
    ensures { option_copied result ≡ header_name line.now }
{
    if line.len() >= 3 && line.ends_with(']') {
        Some(&line[1..line.len() - 1])
    } else {
        None
    }
}

fn setting_of(line: &str) -> Option<KeyValueText<'_>>
    ensures { option_map pair_view result ≡ setting_of line.now }
{
    let cut = first_cut(line.as_bytes())?;
    let key = strip(&line[..cut]);
    let value = strip(&line[cut + 1..]);
    if key.is_empty() {
        return None;
    }
    Some(KeyValueText { key, value })
}

fn first_cut(line: &[u8]) -> Option<usize>
    ensures { result ≡ position is_cut line.now }
{
    line.iter().position(|byte| is_cut(*byte))
}

fn is_cut(byte: u8) -> bool
    ensures { result ≡ is_cut byte }
{
    byte == b'=' || byte == b':'
}
