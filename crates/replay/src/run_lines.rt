//! The lines that a replay writes.
ghost use Rattle.std.specs.Prelude.{◌≡◌, ◌++◌, ◌∷◌, [], true, OnOk};
ghost use Rattle.std.specs.String.{string_bytes};
ghost use Rattle.replay.specs.RunText.{not_now_line, digits_line, head_if, newline_unless, text_lines, handed_line, count_words, input_words, datapoint_words, fault_words, reader_line};

use crate::handed_form::HandedForm;
use reader_core::ReaderCounts;
use std::alloc::{AllocError, Global};
use std::fmt::Write as _;

/// Adds that the event of a line was no part of the run.
pub(crate) fn push_not_now(text: &mut String, line: usize) -> Result<(), AllocError>
    ensures { OnOk result (string_bytes text.new ≡ string_bytes text.old ++ not_now_line line) }
{
    write!(text, "not now {line}")?;
    text.push('\n')
}

/// Adds what a connection of a destination got: as digits, and if the form has text, then as it is, with words before each
/// line.
pub(crate) fn push_handed(
    alloc: Global,
    text: &mut Vec<u8>,
    dest: usize,
    connection: usize,
    bytes: &[u8],
    form: HandedForm,
) -> Result<(), AllocError>
    ensures { OnOk result
        (text.new.items ≡ text.old.items ++ handed_line form dest connection bytes.now) }
{
    push_digits(alloc, text, dest, connection, bytes)?;
    match form {
        HandedForm::Digits => Ok(()),
        HandedForm::DigitsAndText => {
            let head = format!(in alloc; "text {dest} {connection} ")?;
            push_with_head(text, head.as_str().as_bytes(), bytes)
        }
    }
}

/// Adds bytes that a connection got, as digits.
fn push_digits(
    alloc: Global,
    text: &mut Vec<u8>,
    dest: usize,
    connection: usize,
    bytes: &[u8],
) -> Result<(), AllocError>
    ensures { OnOk result
        (text.new.items ≡ text.old.items ++ digits_line dest connection bytes.now) }
{
    let digits = hex::encode(alloc, bytes)?;
    let line = format!(in alloc; "handed {dest} {connection} {digits}\n")?;
    text.extend_from_slice(line.as_str().as_bytes())
}

/// Adds bytes, with a head before each line. A last line without its newline gets one.
fn push_with_head(text: &mut Vec<u8>, head: &[u8], bytes: &[u8]) -> Result<(), AllocError>
    ensures { OnOk result
        (text.new.items ≡ text.old.items ++ text_lines head.now true bytes.now) }
{
    let mut starts = true;
    for place in 0..bytes.len() {
        let byte = bytes[place];
        push_byte(text, head, starts, byte)?;
        starts = byte == b'\n';
    }
    end_line(text, starts)?;
    Ok(())
}

/// Adds a byte, and a head before it if it begins a line.
fn push_byte(text: &mut Vec<u8>, head: &[u8], starts: bool, byte: u8) -> Result<(), AllocError>
    ensures { OnOk result
        (text.new.items ≡ text.old.items ++ head_if starts head.now ++ byte ∷ []) }
{
    if starts {
        text.extend_from_slice(head)?;
    }
    text.push(byte)?;
    Ok(())
}

/// Adds a newline, unless a line begins here.
fn end_line(text: &mut Vec<u8>, starts: bool) -> Result<(), AllocError>
    ensures { OnOk result (text.new.items ≡ text.old.items ++ newline_unless starts) }
{
    if !starts {
        text.push(b'\n')?;
    }
    Ok(())
}

/// Adds how many offers of a reader wait, and what was wrong with its input.
pub(crate) fn push_reader(
    text: &mut String,
    reader: usize,
    waiting: usize,
    counts: ReaderCounts,
) -> Result<(), AllocError>
    ensures { OnOk result (string_bytes text.new
        ≡ string_bytes text.old ++ reader_line reader waiting counts) }
{
    write!(text, "reader {reader} waiting {waiting}")?;
    push_faults(text, &counts)?;
    text.push('\n')
}

/// Adds what was wrong with a reader's input.
fn push_faults(text: &mut String, counts: &ReaderCounts) -> Result<(), AllocError>
    ensures { OnOk result
        (string_bytes text.new ≡ string_bytes text.old ++ fault_words counts.now) }
{
    push_input_faults(text, counts)?;
    push_datapoint_faults(text, counts)
}

fn push_input_faults(text: &mut String, counts: &ReaderCounts) -> Result<(), AllocError>
    ensures { OnOk result
        (string_bytes text.new ≡ string_bytes text.old ++ input_words counts.now) }
{
    push_count(text, " bad lines ", counts.bad_lines)?;
    push_count(text, " bad pickles ", counts.bad_pickles)
}

fn push_datapoint_faults(text: &mut String, counts: &ReaderCounts) -> Result<(), AllocError>
    ensures { OnOk result
        (string_bytes text.new ≡ string_bytes text.old ++ datapoint_words counts.now) }
{
    push_count(text, " bad rows ", counts.bad_rows)?;
    push_count(text, " bad names ", counts.bad_names)
}

/// Adds words and a number.
fn push_count(text: &mut String, words: &str, count: u64) -> Result<(), AllocError>
    ensures { OnOk result
        (string_bytes text.new ≡ string_bytes text.old ++ count_words words.now count) }
{
    write!(text, "{words}{count}")
}
