//! The files that a relay reads at a reload.

ghost use Rattle.std.specs.Prelude.{◌≡◌, ◌++◌, None, Some, option_map, IfOk, OnOk, MatchOption};
ghost use Rattle.std.specs.String.{string_bytes};
ghost use Rattle.admin_client.specs.FilesAnswer.{value_in, text_in, files_in, answer_of, value_line, can_be_named};
ghost use Rattle.admin_client.specs.ReloadNames.{names_of};

use crate::reload_answer::behind;
use relay_base::{NoMemory, utf8_text};
use std::alloc::Global;

/// The words before each value of an answer, a line each.
const CONFIG: &str = "config ";

const RULES: &str = "rules ";

const REWRITE: &str = "rewrite ";

const LONGEST_NAME: &str = "longest-name ";

/// The files that a relay reads at a reload, by paths from the root on, and the limit on names that comes with them.
#[derive(Clone, Copy)]
pub struct ReloadFiles<'a> {
    /// The configuration file.
    pub config: &'a str,
    /// The file of relay rules, if there is one.
    pub rules: Option<&'a str>,
    /// The rewrite file, if there is one.
    pub rewrite: Option<&'a str>,
    /// The length above which names are dropped, in decimal digits, if there is one.
    pub longest_name: Option<&'a str>,
}

/// The files that an answer to `files` names; `None` if it names no configuration file. A value that is not UTF-8 is none.
pub fn reload_files_in(sent: &[u8]) -> Option<ReloadFiles<'_>>
    ensures { option_map names_of result ≡ files_in sent.now }
{
    Some(ReloadFiles {
        config: text_in(CONFIG, sent)?,
        rules: text_in(RULES, sent),
        rewrite: text_in(REWRITE, sent),
        longest_name: text_in(LONGEST_NAME, sent),
    })
}

/// The text that an answer has under these words.
fn text_in<'a>(words: &str, sent: &'a [u8]) -> Option<&'a str>
    ensures { option_map (λ text. text.now) result ≡ text_in words.now sent.now }
{
    utf8_text(value_in(words.as_bytes(), sent)?)
}

/// What an answer has behind these words, in the first line that begins with them.
fn value_in<'a>(words: &[u8], sent: &'a [u8]) -> Option<&'a [u8]>
    ensures { MatchOption result (value_in words.now sent.now ≡ None)
        (λ value. value_in words.now sent.now ≡ Some value.now) }
{
    for line in sent.split(|byte| *byte == b'\n') {
        if let Some(value) = behind(words, line) {
            return Some(value);
        }
    }
    None
}

/// The answer to `files` that names these. Refuses if out of memory. The values have no byte 10 ([`can_be_named`]).
pub fn files_answer(alloc: Global, files: ReloadFiles<'_>) -> Result<String, NoMemory>
    ensures { IfOk result (λ text. string_bytes text ≡ answer_of (names_of files.entry)) }
{
    let mut text = String::new(alloc);
    push_value(&mut text, CONFIG, Some(files.config))?;
    push_value(&mut text, RULES, files.rules)?;
    push_value(&mut text, REWRITE, files.rewrite)?;
    push_value(&mut text, LONGEST_NAME, files.longest_name)?;
    Ok(text)
}

/// Adds the line of a value, if there is one.
fn push_value(text: &mut String, words: &str, value: Option<&str>) -> Result<(), NoMemory>
    ensures { OnOk result (string_bytes text.new
        ≡ string_bytes text.old ++ value_line words.now (option_map (λ text. text.now) value.entry)) }
{
    let Some(value) = value else {
        return Ok(());
    };
    text.push_str(words)?;
    text.push_str(value)?;
    Ok(text.push_str("\n")?)
}

/// Whether a path can be named to another process: it is from the root on, and has no byte 10 and at most 4,096 bytes.
pub fn can_be_named(path: &str) -> bool
    ensures { result ≡ can_be_named path.now }
{
    let bytes = path.as_bytes();
    bytes.starts_with(b"/") && bytes.len() <= LONGEST_PATH && !bytes.contains(&b'\n')
}

/// How many bytes a path has at most, by the system.
const LONGEST_PATH: usize = 4_096;
