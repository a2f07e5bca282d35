//! `relayd check`: whether a configuration is good.

ghost use Rattle.std.specs.Prelude.{◌≡◌, Ok, IfOk, IfErr, OnOk};
ghost use Rattle.std.specs.String.{string_bytes};
ghost use Rattle.relay_files.specs.Files.{AllReadAs};
ghost use Rattle.relay_files.specs.Faults.{EndsAt};
ghost use Rattle.relay_commands.specs.Faults.{FailsCheck};
ghost use Rattle.relay_files.specs.Output.{Writes};
ghost use Rattle.relay_commands.specs.Route.{ok_line, check_answer};

use relay_base::NoMemory;
use relay_files::{Configuration, RelayFault, Source, Sources, Status, write_out};
use std::alloc::Global;
use std::io::Write;

/// Reads a configuration from its files and makes its plan, and writes `ok n destinations` and byte 10; n is
/// the number of destinations of DESTINATIONS.
///
/// It ends with the first fault of the files, and then opened no file after the one at fault and wrote
/// nothing. It ends with `Output` if a write failed, and with `NoMemory` if a growth was refused.
pub fn check<S: Source, W: Write>(
    alloc: Global,
    sources: &mut Sources<S>,
    output: &mut W,
) -> Result<Status, RelayFault>
    ensures status { IfOk result (λ status. status ≡ Status.Done) }

    // If the bytes of the ends are known: at the end the writer has gained exactly the text.
    ensures output { OnOk result (AllReadAs S.bytes sources.old
        (λ files. Writes (W.contents output.old) (W.contents output.new) (check_answer files))) }

    // At a fault of the files, or out of memory, it has gained nothing; at its own, a first part of the text.
    ensures fault { IfErr result (λ fault. AllReadAs S.bytes sources.old
        (FailsCheck sources.old sources.new (W.contents output.old)
        (W.contents output.new) fault)) }
{
    let line = check_line(alloc, sources)?;
    write_out(output, line.as_str().as_bytes())?;
    Ok(Status::Done)
}

/// The line of the configuration of files.
fn check_line<S: Source>(alloc: Global, sources: &mut Sources<S>) -> Result<String, RelayFault>
    ensures ok { IfOk result (λ line. AllReadAs S.bytes sources.old
        (λ files. check_answer files ≡ Ok (string_bytes line))) }
    ensures err { IfErr result (λ fault. AllReadAs S.bytes sources.old
        (λ files. EndsAt sources.old sources.new files fault)) }
{
    let configuration = Configuration::read(alloc, sources)?;
    let count = configuration.settings.destinations().len();
    drop(configuration);
    let line = line_of(alloc, count)?;
    Ok(line)
}

/// The line of a configuration with `count` destinations.
fn line_of(alloc: Global, count: usize) -> Result<String, NoMemory>
    ensures { IfOk result (λ line. string_bytes line ≡ ok_line count) }
{
    Ok(format!(in alloc; "ok {count} destinations\n")?)
}
