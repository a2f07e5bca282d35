//! `relayd check`, also before a relay begins or is restarted.

use crate::file_limit::limited_output;
use crate::files::sources_at;
use crate::open_files::Files;
use crate::watched_output::NoOutput;
use command_line::{OutputForm, Paths};
use relay_commands::check;
use relay_files::{RelayFault, Status};
use std::alloc::Global;

/// Checks the files at these paths. With notes as JSON, and for a run, standard output has nothing else.
pub fn run_check<'a>(
    files: &'a Files<'a>,
    alloc: Global,
    paths: &'a Paths,
    form: OutputForm,
) -> Result<Status, RelayFault> {
    let mut sources = sources_at(files, alloc, paths)?;
    match form {
        OutputForm::Text => { check(alloc, &mut sources, &mut limited_output(files.runtime())) }
        OutputForm::Json => check(alloc, &mut sources, &mut NoOutput),
    }
}
