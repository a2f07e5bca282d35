//! `relayd replay SCRIPT`: what a configuration does with the events of a script.

ghost use Rattle.std.specs.Prelude.{◌≡◌, ◌≤◌, Ok, length, IfOk, IfErr, OnOk};
ghost use Rattle.relay_files.specs.Files.{Bytes, ReadAs, AllReadAs};
ghost use Rattle.relay_files.specs.Faults.{Fails};
ghost use Rattle.relay_files.specs.Output.{Writes};
ghost use Rattle.relay_commands.specs.Replay.{script_fault, script_in, replay_answer, EndsAtScript, FailsReplay};

use relay_files::{
    Configuration, RelayFault, Role, Source, Sources, Status, read_source, text_in, write_out,
};
use replay::{HandedForm, Script, ScriptFault, replay_text};
use std::alloc::Global;
use std::io::Write;

/// Reads a configuration from its files, then a script, runs the script in one thread, and writes what happened:
/// a line for each event that was not part of the run, what each connection of each destination got, the report,
/// and a line for each reader (`docs/REPLAY.md`). It writes nothing before the last event.
///
/// It ends with the first fault of the files, and then opened no file after the one at fault; if they have none,
/// with that of the script. It wrote nothing then. It ends with `Output` if a write failed, and with `NoMemory`
/// if a growth was refused.
pub fn replay<S: Source, T: Source, W: Write>(
    alloc: Global,
    sources: &mut Sources<S>,
    script: &mut T,
    form: HandedForm,
    output: &mut W,
) -> Result<Status, RelayFault>
    ensures status { IfOk result (λ status. status ≡ Status.Done) }

    // If the bytes of the ends are known: at the end the writer has gained exactly the text.
    ensures output { OnOk result (AllReadAs S.bytes sources.old
        (λ files. ReadAs (T.bytes script.old) (λ file. Writes (W.contents output.old)
        (W.contents output.new) (replay_answer form files file)))) }

    // At a fault of the files or the script, or out of memory, it has gained nothing; at its own, a first part.
    ensures fault { IfErr result (λ fault. AllReadAs S.bytes sources.old
        (λ files. ReadAs (T.bytes script.old) (λ file. FailsReplay sources.old sources.new
        script.old script.new (W.contents output.old) (W.contents output.new) fault files
        (script_in file) (replay_answer form files file)))) }
{
    let text = text_of_replay(alloc, sources, script, form)?;
    write_out(output, &text)?;
    Ok(Status::Done)
}

/// What a configuration does with the events of a script.
fn text_of_replay<S: Source, T: Source>(
    alloc: Global,
    sources: &mut Sources<S>,
    script: &mut T,
    form: HandedForm,
) -> Result<Vec<u8>, RelayFault>
    ensures ok { IfOk result (λ text. AllReadAs S.bytes sources.old
        (λ files. ReadAs (T.bytes script.old) (λ file. replay_answer form files file ≡ Ok text.items))) }
    ensures err { IfErr result (λ fault. AllReadAs S.bytes sources.old
        (λ files. ReadAs (T.bytes script.old) (λ file. EndsAtScript sources.old sources.new
        script.old script.new fault files (script_in file)))) }
{
    let Configuration { settings, plan, .. } = Configuration::read(alloc, sources)?;
    let script = match script_from(alloc, script) {
        Ok(script) => script,
        Err(fault) => {
            drop((settings, plan));
            return Err(fault);
        }
    };
    let text = replay_text(
        alloc,
        plan,
        settings.max_queue_size(),
        settings.max_datapoints_per_message(),
        settings.destinations(),
        &script,
        form,
    );
    drop((settings, script));
    Ok(text?)
}

/// Reads the script from its file.
fn script_from<T: Source>(alloc: Global, source: &mut T) -> Result<Script, RelayFault>
    ensures ok { IfOk result
        (λ script. ReadAs (T.bytes source.old) (λ file. script_in file ≡ Ok script)) }
    ensures readers { IfOk result (λ script. 1 ≤ length script.kinds) }
    ensures err { IfErr result
        (λ fault. ReadAs (T.bytes source.old) (λ file. Fails (script_in file) fault)) }
{
    let bytes = read_source(alloc, Role::Script, source)?;
    Ok(script_in(alloc, &bytes)?)
}

fn script_in(alloc: Global, bytes: &[u8]) -> Result<Script, RelayFault>
    ensures ok { IfOk result (λ script. script_in (Bytes bytes.now) ≡ Ok script) }
    ensures readers { IfOk result (λ script. 1 ≤ length script.kinds) }
    ensures err { IfErr result (Fails (script_in (Bytes bytes.now))) }
{
    let text = text_in(Role::Script, bytes)?;
    match Script::read(alloc, text) {
        Ok(script) => Ok(script),
        Err(fault) => Err(fault_of_script(fault)),
    }
}

/// The fault of a command for a fault of its script.
fn fault_of_script(fault: ScriptFault) -> RelayFault
    ensures { result ≡ script_fault fault }
{
    match fault {
        ScriptFault::BadLine { line } => RelayFault::Script { line },
        ScriptFault::NoMemory => RelayFault::NoMemory,
    }
}
