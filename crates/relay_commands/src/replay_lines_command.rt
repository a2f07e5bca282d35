//! `relayd replay --lines FILE`: what a configuration does with lines.

ghost use Rattle.std.specs.Prelude.{◌≡◌, Ok, IfOk, IfErr, OnOk};
ghost use Rattle.relay_files.specs.Files.{ReadAs, AllReadAs};
ghost use Rattle.relay_files.specs.Output.{Writes};
ghost use Rattle.relay_commands.specs.Replay.{lines_in, replay_lines_answer, EndsAtScript, FailsReplay};

use relay_files::{
    Configuration, RelayFault, Role, Source, Sources, Status, read_source, write_out,
};
use replay::{HandedForm, replay_lines as run_lines};
use std::alloc::Global;
use std::io::Write;

/// Reads a configuration from its files, then a file of lines in place of a script, and runs the lines in one thread:
/// one reader gets them, and every destination has a connection and takes and writes each datapoint at once
/// (`docs/REPLAY.md`). It writes what `replay` writes.
///
/// It ends with the first fault of the files, and then opened no file after the one at fault; if they have none, with
/// `CannotRead` if the lines cannot be read. It wrote nothing then. It ends with `Output` if a write failed, and with
/// `NoMemory` if a growth was refused.
pub fn replay_lines<S: Source, T: Source, W: Write>(
    alloc: Global,
    sources: &mut Sources<S>,
    lines: &mut T,
    form: HandedForm,
    output: &mut W,
) -> Result<Status, RelayFault>
    ensures status { IfOk result (λ status. status ≡ Status.Done) }

    // If the bytes of the ends are known: at the end the writer has gained exactly the text.
    ensures output { OnOk result (AllReadAs S.bytes sources.old
        (λ files. ReadAs (T.bytes lines.old) (λ file. Writes (W.contents output.old)
        (W.contents output.new) (replay_lines_answer form files file)))) }

    // At a fault of the files or the lines, or out of memory, it has gained nothing; at its own, a first part.
    ensures fault { IfErr result (λ fault. AllReadAs S.bytes sources.old
        (λ files. ReadAs (T.bytes lines.old) (λ file. FailsReplay sources.old sources.new
        lines.old lines.new (W.contents output.old) (W.contents output.new) fault files
        (lines_in file) (replay_lines_answer form files file)))) }
{
    let text = text_of_lines(alloc, sources, lines, form)?;
    write_out(output, &text)?;
    Ok(Status::Done)
}

/// What a configuration does with the lines of a file.
fn text_of_lines<S: Source, T: Source>(
    alloc: Global,
    sources: &mut Sources<S>,
    lines: &mut T,
    form: HandedForm,
) -> Result<Vec<u8>, RelayFault>
    ensures ok { IfOk result (λ text. AllReadAs S.bytes sources.old
        (λ files. ReadAs (T.bytes lines.old)
        (λ file. replay_lines_answer form files file ≡ Ok text.items))) }
    ensures err { IfErr result (λ fault. AllReadAs S.bytes sources.old
        (λ files. ReadAs (T.bytes lines.old) (λ file. EndsAtScript sources.old sources.new
        lines.old lines.new fault files (lines_in file)))) }
{
    let Configuration { settings, plan, .. } = Configuration::read(alloc, sources)?;
    let bytes = match read_source(alloc, Role::Script, lines) {
        Ok(bytes) => bytes,
        Err(fault) => {
            drop((settings, plan));
            return Err(fault);
        }
    };
    let text = run_lines(
        alloc,
        plan,
        settings.max_queue_size(),
        settings.max_datapoints_per_message(),
        settings.destinations(),
        bytes,
        form,
    );
    drop(settings);
    Ok(text?)
}
