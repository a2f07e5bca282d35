//! `relayd route --names FILE`: where a configuration sends each of many metrics.

ghost use Rattle.std.specs.Prelude.{◌≡◌, ◌++◌, true, false, ◌<◌, ◌∷◌, option_copied, IfSome, length, position, IfOk, IfErr, OnOk, MatchOption};
ghost use Rattle.std.specs.String.{string_bytes};
ghost use Rattle.std.specs.Io.KnownBytes.{Appends};
ghost use Rattle.line_text.specs.Name.{is_name};
ghost use Rattle.relay_files.specs.Files.{ReadAs, AllReadAs};
ghost use Rattle.relay_files.specs.Output.{Writes, GrowsByPart};
ghost use Rattle.relay_commands.specs.Names.{name_before, line_after_name, named_line, name_text, name_note, bad_name_line, is_newline, lines_in, lines_left, names_text, names_notes, names_answer, names_notes_answer, IsWriteFault, FailsNames};

use crate::route_command::{Routed, push_sent, routed_by};
use conf_text::Dest;
use relay_base::{NoMemory, strip_bytes};
use relay_files::{
    Configuration, RelayFault, Role, Source, Sources, Status, flush, read_source, write_all,
};
use router::{Plan, Sent};
use std::alloc::{AllocError, Global};
use std::io::Write;

/// Reads a configuration from its files, then a file of names, one a line, and writes what becomes of a
/// datapoint with each name, in order: the line that `route` writes for it, after the name and a space if
/// rewriting changed it.
///
/// The text of names is cut at byte 10, and each line is stripped of bytes 9, 11, 12, 13 and 32. It skips an
/// empty line. If a line is not a metric name, `notes` gets the line `relayd: name: line N: BadName`, N from 1,
/// and the run goes on.
///
/// It ends with the first fault of the files, and then opened no file after the one at fault; if they have
/// none, with `CannotRead` if the file of names cannot be read. It wrote nothing then. It ends with `Output` if
/// a write or a flush failed, also of the notes, and with `NoMemory` if a growth was refused; it then wrote a
/// first part of the lines and of the notes.
pub fn route_names<S: Source, T: Source, W: Write, N: Write>(
    alloc: Global,
    sources: &mut Sources<S>,
    names: &mut T,
    output: &mut W,
    notes: &mut N,
) -> Result<Status, RelayFault>
    ensures status { IfOk result (λ status. status ≡ Status.Done) }

    // If the bytes of the ends are known: at the end the writers have gained exactly the lines and the notes.
    ensures output { OnOk result (AllReadAs S.bytes sources.old (λ files. ReadAs (T.bytes names.old)
        (λ file. Writes (W.contents output.old) (W.contents output.new)
        (names_answer files file)))) }
    ensures notes { OnOk result (AllReadAs S.bytes sources.old (λ files. ReadAs (T.bytes names.old)
        (λ file. Writes (N.contents notes.old) (N.contents notes.new)
        (names_notes_answer files file)))) }

    // At a fault of the files they have gained nothing, and after that a first part of both.
    ensures fault { IfErr result
        (λ fault. AllReadAs S.bytes sources.old (λ files. ReadAs (T.bytes names.old)
        (FailsNames sources.old sources.new names.old names.new (W.contents output.old)
        (W.contents output.new)
        (N.contents notes.old) (N.contents notes.new) fault files))) }
{
    let Configuration {
        settings,
        mut plan,
        ..
    } = Configuration::read(alloc, sources)?;
    let text = match read_source(alloc, Role::Names, names) {
        Ok(text) => text,
        Err(fault) => {
            drop((settings, plan));
            return Err(fault);
        }
    };
    let routed = route_lines(
        alloc,
        &mut plan,
        settings.destinations(),
        &text,
        output,
        notes,
    );
    drop((settings, plan, text));
    routed?;
    flush(output)?;
    Ok(Status::Done)
}

/// A line of the file of names.
#[derive(Clone, Copy)]
struct NamesLine<'t> {
    /// Its number, from 1.
    number: usize,
    /// What it says, stripped.
    name: &'t [u8],
}

/// Writes what becomes of the name of each line of a text, and notes the lines that have a bad one.
fn route_lines<W: Write, N: Write>(
    alloc: Global,
    plan: &mut Plan,
    dests: &[Dest],
    text: &[u8],
    output: &mut W,
    notes: &mut N,
) -> Result<(), RelayFault>
    ensures output { OnOk result (Appends (W.contents output.old) (W.contents output.new)
        (names_text plan.old dests.now (lines_in text.now))) }
    ensures notes { OnOk result (Appends (N.contents notes.old) (N.contents notes.new)
        (names_notes 1 (lines_in text.now))) }
    ensures part { GrowsByPart (W.contents output.old) (W.contents output.new)
        (names_text plan.old dests.now (lines_in text.now)) }
    ensures notes_part { GrowsByPart (N.contents notes.old) (N.contents notes.new)
        (names_notes 1 (lines_in text.now)) }
    ensures fault { IfErr result IsWriteFault }
{
    let mut left = Some(text);
    let mut number = 0;
    while let Some(lines) = left {
        let (first, others) = cut_line(lines);
        number += 1;
        let line = NamesLine {
            number,
            name: strip_bytes(first),
        };
        route_one(alloc, plan, dests, line, output, notes)?;
        left = others;
    }
    Ok(())
}

/// The first line of a text, and the text after its newline, or `None` if it is the last.
fn cut_line(text: &[u8]) -> (&[u8], Option<&[u8]>)
    ensures lines { lines_in text.now ≡ result.0.now ∷ lines_left (option_copied result.1) }
    ensures shorter { IfSome (option_copied result.1) (λ others. length others < length text.now) }
{
    match first_newline(text) {
        Some(end) => (&text[..end], Some(&text[end + 1..])),
        None => (text, None),
    }
}

fn first_newline(text: &[u8]) -> Option<usize>
    ensures { result ≡ position is_newline text.now }
{
    text.iter().position(|byte| *byte == b'\n')
}

/// Writes what becomes of the name that a line has, or notes that it has a bad one.
fn route_one<W: Write, N: Write>(
    alloc: Global,
    plan: &mut Plan,
    dests: &[Dest],
    line: NamesLine<'_>,
    output: &mut W,
    notes: &mut N,
) -> Result<(), RelayFault>
    ensures output { OnOk result (Appends (W.contents output.old) (W.contents output.new)
        (name_text plan.old dests.now line.entry.name.now)) }
    ensures notes { OnOk result (Appends (N.contents notes.old) (N.contents notes.new)
        (name_note line.entry.number line.entry.name.now)) }
    ensures part { GrowsByPart (W.contents output.old) (W.contents output.new)
        (name_text plan.old dests.now line.entry.name.now) }
    ensures notes_part { GrowsByPart (N.contents notes.old) (N.contents notes.new)
        (name_note line.entry.number line.entry.name.now) }
    ensures same { plan.new ≡ plan.old }
    ensures fault { IfErr result IsWriteFault }
{
    if line.name.is_empty() {
        return Ok(());
    }
    match line_of_name(alloc, plan, dests, line.name)? {
        Some(answer) => write_all(output, answer.as_str().as_bytes())?,
        None => note_bad_name(alloc, line.number, notes)?,
    }
    Ok(())
}

/// The line of a name, or `None` if the text is not a name.
fn line_of_name(
    alloc: Global,
    plan: &mut Plan,
    dests: &[Dest],
    name: &[u8],
) -> Result<Option<String>, NoMemory>
    ensures line { IfOk result (λ line. MatchOption line (is_name name.now ≡ false)
        (λ line. (string_bytes line ≡ named_line plan.old dests.now name.now)
        × (is_name name.now ≡ true))) }
    ensures same { plan.new ≡ plan.old }
{
    match routed_by(alloc, plan, name)? {
        Some(Routed { point, sent }) => {
            let line = line_after_name(alloc, dests, point.name.text(), &sent)?;
            Ok(Some(line))
        }
        None => Ok(None),
    }
}

/// The line of what is sent, after the name if rewriting changed it.
fn line_after_name(
    alloc: Global,
    dests: &[Dest],
    name: &str,
    sent: &Sent,
) -> Result<String, AllocError>
    ensures { IfOk result
        (λ line. string_bytes line ≡ line_after_name name.now dests.now sent.now) }
{
    let mut line = String::new(alloc);
    push_name(&mut line, name, sent)?;
    push_sent(&mut line, dests, sent)?;
    Ok(line)
}

/// Adds a name and a space, if what is sent has another name or is nothing.
fn push_name(line: &mut String, name: &str, sent: &Sent) -> Result<(), AllocError>
    ensures { OnOk result
        (string_bytes line.new ≡ string_bytes line.old ++ name_before name.now sent.now.point) }
{
    match &sent.point {
        Some(point) if point.name.text() == name => Ok(()),
        _ => {
            line.push_str(name)?;
            line.push(' ')
        }
    }
}

/// Notes that the line with this number has a bad name.
fn note_bad_name<N: Write>(alloc: Global, number: usize, notes: &mut N) -> Result<(), RelayFault>
    ensures notes { OnOk result (Appends (N.contents notes.old) (N.contents notes.new)
        (bad_name_line number)) }
    ensures part { GrowsByPart (N.contents notes.old) (N.contents notes.new)
        (bad_name_line number) }
    ensures fault { IfErr result IsWriteFault }
{
    let note = note_of_bad_name(alloc, number)?;
    write_all(notes, note.as_str().as_bytes())?;
    Ok(())
}

/// The note that a line has a bad name.
fn note_of_bad_name(alloc: Global, number: usize) -> Result<String, NoMemory>
    ensures { IfOk result (λ line. string_bytes line ≡ bad_name_line number) }
{
    Ok(format!(in alloc; "relayd: name: line {number}: BadName\n")?)
}
