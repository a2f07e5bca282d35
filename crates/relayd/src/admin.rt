//! The commands for a running relay: `report`, `stop`, `restart` and `reload`.

use crate::admin_key::{key_at, slice_of};
use crate::checking::run_check;
use crate::explain::{notes_of_reload, write, write_start_notes};
use crate::file_limit::limited_output;
use crate::json_report::json_report;
use crate::open_files::Files;
use crate::started_paths::paths_in;
use admin_client::{
    AdminCommand, AdminFault, Refusal, RelayAt, ReloadAnswer, answer_to, ask, reload_answer_in,
    stop_and_wait,
};
use command_line::{AdminAt, Explain, OutputForm, Paths};
use note_text::Notes;
use relay_base::NoMemory;
use relay_files::{RelayFault, Status, write_out};
use std::alloc::Global;
use std::io::{IsTerminal, Write};

/// The words before a reason why files were not read.
const UNREAD: [&[u8]; 4] = [
    b"files: ",
    b"config: cannot read",
    b"rules: cannot read",
    b"rewrite: cannot read",
];

/// The hint after a fault of the admin port, at a terminal.
const HINT: &str =
    "relayd: note: ps -o args -C relayd shows the --admin and --admin-key of a running relay\n";

/// Prints what the relay with this admin port has counted, in this form.
pub fn report(rt: &HostRuntime, alloc: Global, admin: &AdminAt, form: OutputForm) -> Status {
    let key = match key_at(rt, alloc, &admin.key) {
        Ok(key) => key,
        Err(status) => return status,
    };
    let relay = relay_at(admin, &key);
    let mut output = limited_output(rt);
    let asked = match form {
        OutputForm::Text => ask(rt, alloc, relay, AdminCommand::Report, &mut output),
        OutputForm::Json => report_as_json(rt, alloc, relay, &mut output),
    };
    status_of(rt, admin.port, asked)
}

/// Writes what a relay has counted to the output, as objects of JSON.
fn report_as_json<W: Write>(
    rt: &HostRuntime,
    alloc: Global,
    relay: RelayAt<'_>,
    output: &mut W,
) -> Result<(), AdminFault> {
    let answer = answer_to(rt, alloc, relay, AdminCommand::Report)?;
    let report = json_report(alloc, answer.as_slice());
    drop(answer);
    let Ok(report) = report else {
        return Err(AdminFault::NoMemory);
    };
    let Some(report) = report else {
        return Err(AdminFault::NoRelay);
    };
    let written = write_out(output, report.as_str().as_bytes());
    drop(report);
    match written {
        Ok(()) => Ok(()),
        Err(_) => Err(AdminFault::Output),
    }
}

/// Stops the relay with this admin port, and waits for its end if asked to.
pub fn stop(rt: &HostRuntime, alloc: Global, admin: &AdminAt, waits: bool) -> Status {
    let key = match key_at(rt, alloc, &admin.key) {
        Ok(key) => key,
        Err(status) => return status,
    };
    let relay = relay_at(admin, &key);
    let mut output = limited_output(rt);
    let ended = if waits {
        stop_and_wait(rt, alloc, relay, &mut output)
    } else {
        ask(rt, alloc, relay, AdminCommand::Stop, &mut output)
    };
    status_of(rt, admin.port, ended)
}

/// Stops the relay with this admin port, and waits for its end, if the files at these paths are a configuration.
pub fn restart<'a>(
    files: &'a Files<'a>,
    alloc: Global,
    paths: &'a Paths,
    admin: &AdminAt,
    explain: Explain,
) -> Result<Status, RelayFault> {
    run_check(files, alloc, paths, OutputForm::Text)?;
    if explain != Explain::Nothing {
        write_start_notes(files, alloc, paths);
    }
    Ok(stop(files.runtime(), alloc, admin, true))
}

/// Has the relay with this admin port read its files again, and prints what it answers: `reloaded` and what changed, or on
/// standard error why it goes on as it was. If notes are asked for, it reads the same files then, unless they did not answer
/// the relay.
pub fn reload(rt: &HostRuntime, alloc: Global, admin: &AdminAt, explain: Explain) -> Status {
    let key = match key_at(rt, alloc, &admin.key) {
        Ok(key) => key,
        Err(status) => return status,
    };
    let relay = relay_at(admin, &key);
    let answer = match answer_to(rt, alloc, relay, AdminCommand::Reload) {
        Ok(answer) => answer,
        Err(fault) => return status_of(rt, admin.port, Err(fault)),
    };
    let status = say_answer(rt, answer.as_slice());
    let are_read = !are_unread(answer.as_slice());
    drop(answer);
    if are_read && explain != Explain::Nothing {
        write_notes(rt, alloc, relay);
    }
    status
}

/// The relay with this admin port and key.
pub fn relay_at<'k>(admin: &AdminAt, key: &'k Option<Vec<u8>>) -> RelayAt<'k> {
    RelayAt {
        port: admin.port,
        key: slice_of(key),
    }
}

/// Says what a relay answers to `reload`. Returns the status of that.
fn say_answer(rt: &HostRuntime, answer: &[u8]) -> Status {
    if let Some(ReloadAnswer::Refused { refusal, text }) = reload_answer_in(answer) {
        say_refusal(rt, text);
        return status_of_refusal(refusal);
    }
    match limited_output(rt).write_all(answer) {
        Ok(()) => Status::Done,
        Err(_) => {
            let _ = eprintln!(rt; "relayd: {}", AdminFault::Output);
            Status::DeviceFault
        }
    }
}

/// Whether a relay answers that a file was not read, and why: it may never be.
fn are_unread(answer: &[u8]) -> bool {
    let Some(ReloadAnswer::Refused { text, .. }) = reload_answer_in(answer) else {
        return false;
    };
    for words in UNREAD {
        if text.starts_with(words) {
            return true;
        }
    }
    false
}

/// Writes the notes of the files that a relay reads at a reload, if it names them and there is memory.
fn write_notes(rt: &HostRuntime, alloc: Global, relay: RelayAt<'_>) {
    if let Ok(Some(notes)) = notes_of_relay(rt, alloc, relay) {
        let _ = write(rt, Ok(notes));
    }
}

/// Notes of the files that a relay reads at a reload; `None` if it does not name them.
fn notes_of_relay(
    rt: &HostRuntime,
    alloc: Global,
    relay: RelayAt<'_>,
) -> Result<Option<Notes>, NoMemory> {
    let Ok(answer) = answer_to(rt, alloc, relay, AdminCommand::Files) else {
        return Ok(None);
    };
    let paths = paths_in(alloc, answer.as_slice());
    drop(answer);
    let Some(paths) = paths? else {
        return Ok(None);
    };
    let notes = notes_of_reload(rt, alloc, &paths);
    drop(paths);
    Ok(Some(notes?))
}

/// Writes on standard error why a relay goes on as it was: the first line of this text.
fn say_refusal(rt: &HostRuntime, text: &[u8]) {
    let mut output = rt.stderr();
    if let Some(line) = text.split_inclusive(|byte| *byte == b'\n').next() {
        let _ = output.write_all(b"relayd: ");
        let _ = output.write_all(line);
    }
}

/// The status of a reload that was refused.
fn status_of_refusal(refusal: Refusal) -> Status {
    match refusal {
        Refusal::Configuration => Status::ConfigurationFault,
        Refusal::Device => Status::DeviceFault,
        Refusal::NoMemory => Status::NoMemory,
    }
}

/// The status of a command for the relay with this admin port, with its fault on standard error.
pub fn status_of(rt: &HostRuntime, port: u16, ended: Result<(), AdminFault>) -> Status {
    match ended {
        Ok(()) => Status::Done,
        Err(AdminFault::NoMemory) => {
            let _ = eprintln!(rt; "relayd: {}", AdminFault::NoMemory);
            Status::NoMemory
        }
        Err(AdminFault::Output) => {
            let _ = eprintln!(rt; "relayd: {}", AdminFault::Output);
            Status::DeviceFault
        }
        Err(AdminFault::LongName) => {
            let _ = eprintln!(rt; "relayd: name: {}", AdminFault::LongName);
            Status::ConfigurationFault
        }
        Err(fault) => {
            let _ = eprintln!(rt; "relayd: admin: 127.0.0.1:{port}: {fault}");
            if rt.stderr().is_terminal() {
                let _ = rt.stderr().write_all(HINT.as_bytes());
            }
            Status::DeviceFault
        }
    }
}
