//! `relayd replay`, of a script and of lines.

use crate::file_limit::limited_output;
use crate::files::{file_at, sources_at};
use crate::open_files::Files;
use crate::strict::{StrictFiles, input_at};
use command_line::{ReplayCommand, ReplayInput};
use relay_commands::{HandedForm, replay, replay_lines};
use relay_files::{RelayFault, Role, Status};
use std::alloc::Global;
use std::io::Write;

/// Replays a script or lines to standard output.
pub fn run_replay<'a>(
    files: &'a Files<'a>,
    alloc: Global,
    command: &'a ReplayCommand,
) -> Result<Status, RelayFault> {
    let mut output = limited_output(files.runtime());
    if command.is_strict {
        return replay_strictly(files, alloc, command, &mut output);
    }
    let form = handed_form(command);
    let mut sources = sources_at(files, alloc, &command.paths)?;
    let mut input = file_at(files, command.input.path());
    match command.input {
        ReplayInput::Script(_) => replay(alloc, &mut sources, &mut input, form, &mut output),
        ReplayInput::Lines(_) => replay_lines(alloc, &mut sources, &mut input, form, &mut output),
    }
}

/// Replays them, and ends with a fault if a datapoint gets nowhere.
fn replay_strictly<'a, W: Write>(
    files: &'a Files<'a>,
    alloc: Global,
    command: &'a ReplayCommand,
    output: &mut W,
) -> Result<Status, RelayFault> {
    let form = handed_form(command);
    let mut read = StrictFiles::read(files, alloc, &command.paths)?;
    let input = input_at(files, alloc, Role::Script, command.input.path())?;
    match command.input {
        ReplayInput::Script(_) => read.replay(alloc, &input, form, output),
        ReplayInput::Lines(_) => read.replay_lines(alloc, &input, form, output),
    }
}

/// How a replay shows what a connection got.
fn handed_form(command: &ReplayCommand) -> HandedForm {
    if command.shows_text {
        HandedForm::DigitsAndText
    } else {
        HandedForm::Digits
    }
}
