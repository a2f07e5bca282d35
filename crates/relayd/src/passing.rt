//! `relayd pass`, of lines and of pickles.

use crate::buffered_output;
use crate::explain::watched_input;
use crate::frame_notes::WatchedFrames;
use crate::pickle_pass::pass_pickles;
use crate::watched_output::WatchedOutput;
use command_line::{Explain, PassCommand, PassInput};
use pass_lines::pass;
use relay_files::{RelayFault, Status};
use std::alloc::Global;
use std::io::Write;

/// Passes standard input to standard output, and notes to standard error.
pub fn run_pass(
    rt: &HostRuntime,
    alloc: Global,
    command: &PassCommand,
) -> Result<Status, RelayFault> {
    // The notes at the end are of what is bad or too long, and nothing else.
    let mut notes = WatchedOutput::new(rt.stderr());
    let status = pass_input(rt, alloc, command, &mut notes)?;
    if command.is_strict && notes.has_written() {
        return Ok(Status::ConfigurationFault);
    }
    Ok(status)
}

/// Passes lines, or the datapoints of pickles. What is explained is watched as it is read.
fn pass_input<N: Write>(
    rt: &HostRuntime,
    alloc: Global,
    command: &PassCommand,
    notes: &mut N,
) -> Result<Status, RelayFault> {
    let moment = command.moment;
    let mut output = buffered_output(rt, alloc)?;
    match (command.input, command.explain) {
        (PassInput::Lines, Explain::Nothing) => {
            pass(alloc, &mut rt.stdin(), &mut output, notes, moment)
        }
        (PassInput::Lines, _) => {
            let mut input = watched_input(rt, alloc, moment);
            pass(alloc, &mut input, &mut output, notes, moment)
        }
        (PassInput::Pickles, Explain::Nothing) => {
            pass_pickles(alloc, &mut rt.stdin(), &mut output, notes, moment)
        }
        (PassInput::Pickles, _) => {
            let mut input = WatchedFrames::new(alloc, rt.stdin(), rt.stderr(), moment);
            pass_pickles(alloc, &mut input, &mut output, notes, moment)
        }
    }
}
