//! `relayd run`.

use crate::admin_key::key_at;
use crate::checking::run_check;
use crate::explain::write_start_notes;
use crate::file_limit::{ErrorRoom, limited_output};
use crate::files::sources_at;
use crate::log_output::log_output;
use crate::open_files::Files;
use crate::read_files::ReadsFiles;
use crate::record_file::recorder_of;
use crate::reload_files::RelayFiles;
use crate::spool_folder::{end_with_fault, own_folder};
use command_line::{Explain, OutputForm, RunCommand};
use relay_files::{RelayFault, Status};
use relay_run::{RelayRuntime, RunObservers, RunSetup, run};
use std::alloc::Global;

/// Runs a relay until it is stopped; `threads` starts its threads.
pub fn run_relay<'a, R: RelayRuntime + ErrorRoom + ReadsFiles>(
    files: &'a Files<'a>,
    threads: &R,
    alloc: Global,
    command: &'a RunCommand,
) -> Result<Status, RelayFault> {
    let rt = files.runtime();
    let own = match own_folder(rt, alloc, &command.spool) {
        Ok(own) => own,
        Err(status) => return Ok(status),
    };
    let folder = match &own {
        Some(own) => Some(own.folder(command.options.spool_size)),
        None => None,
    };
    let key = match key_at(rt, alloc, &command.admin_key) {
        Ok(key) => key,
        Err(status) => return Ok(status),
    };
    let started = RelayFiles::start(rt, alloc, *threads, &command.paths, key)?;
    let setup = RunSetup {
        options: command.options,
        folder,
        files: &started,
    };
    let mut recorded = Status::Done;
    let ended = run_with(files, threads, alloc, command, setup, &mut recorded);
    match end_with_fault(rt, &own, ended)? {
        Status::Done => Ok(recorded),
        other => Ok(other),
    }
}

/// Runs a relay by this setup, with the log and the record that are asked for. Sets the status of the record.
fn run_with<'a, R: RelayRuntime + ErrorRoom + ReadsFiles>(
    files: &'a Files<'a>,
    threads: &R,
    alloc: Global,
    command: &'a RunCommand,
    setup: RunSetup<'_, RelayFiles<R>>,
    recorded: &mut Status,
) -> Result<Status, RelayFault> {
    let rt = files.runtime();
    let recorder = match recorder_of(rt, alloc, &command.record, recorded) {
        Ok(recorder) => recorder,
        Err(status) => return Ok(status),
    };
    if command.explain != Explain::Nothing {
        run_check(files, alloc, &command.paths, OutputForm::Json)?;
        write_start_notes(files, alloc, &command.paths);
    }
    let observers = RunObservers {
        log: log_output(rt, alloc, *threads, command.log)?,
        recorder,
    };
    let mut sources = sources_at(files, alloc, &command.paths)?;
    let mut output = limited_output(rt);
    run(threads, alloc, &mut sources, setup, &mut output, observers)
}
