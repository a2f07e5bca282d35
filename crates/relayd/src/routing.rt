//! `relayd route`, in each form of its output.

use crate::buffered_output;
use crate::file_limit::limited_output;
use crate::files::{file_at, sources_at};
use crate::json_route::JsonRoutes;
use crate::names_lines::{WritesNames, write_names};
use crate::open_files::Files;
use crate::strict::{StrictFiles, input_at};
use command_line::{AskedNames, OutputForm, RouteCommand};
use relay_commands::{route, route_names};
use relay_files::{RelayFault, Role, Status, flush};
use std::alloc::Global;

/// Routes a name, or the names of a file, to standard output.
pub fn run_route<'a>(
    files: &'a Files<'a>,
    alloc: Global,
    command: &'a RouteCommand,
) -> Result<Status, RelayFault> {
    match &command.asked {
        AskedNames::Name(name) => run_route_name(files, alloc, command, name),
        AskedNames::File(names) => run_route_names(files, alloc, command, names),
    }
}

/// Routes a name to standard output.
fn run_route_name<'a>(
    files: &'a Files<'a>,
    alloc: Global,
    command: &'a RouteCommand,
    name: &String,
) -> Result<Status, RelayFault> {
    let (paths, wanted) = (&command.paths, command.output);
    let mut output = limited_output(files.runtime());
    match wanted.form {
        OutputForm::Json => {
            let mut routes = JsonRoutes::read(files, alloc, paths)?;
            routes.write_name(name.as_bytes(), &mut output)?;
            flush(&mut output)?;
            Ok(routes.status(wanted.is_strict))
        }
        OutputForm::Text if wanted.is_strict => {
            StrictFiles::read(files, alloc, paths)?.route(alloc, name, &mut output)
        }
        OutputForm::Text => {
            route(
                alloc,
                &mut sources_at(files, alloc, paths)?,
                name,
                &mut output,
            )
        }
    }
}

/// Routes the names of a file to standard output, and reports the bad ones on standard error.
fn run_route_names<'a>(
    files: &'a Files<'a>,
    alloc: Global,
    command: &'a RouteCommand,
    names: &'a String,
) -> Result<Status, RelayFault> {
    let (paths, wanted) = (&command.paths, command.output);
    let rt = files.runtime();
    let mut output = buffered_output(rt, alloc)?;
    let mut notes = rt.stderr();
    match wanted.form {
        OutputForm::Json => {
            let mut routes = JsonRoutes::read(files, alloc, paths)?;
            let names = input_at(files, alloc, Role::Names, names)?;
            write_names(alloc, &mut routes, &names, &mut output, &mut notes)?;
            Ok(routes.status(wanted.is_strict))
        }
        OutputForm::Text if wanted.is_strict => {
            let mut read = StrictFiles::read(files, alloc, paths)?;
            let names = input_at(files, alloc, Role::Names, names)?;
            read.route_names(alloc, &names, &mut output, &mut notes)
        }
        OutputForm::Text => {
            route_names(
                alloc,
                &mut sources_at(files, alloc, paths)?,
                &mut file_at(files, names),
                &mut output,
                &mut notes,
            )
        }
    }
}
