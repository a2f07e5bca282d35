//! The form of an output.

use clap::ArgMatches;

/// How a command writes its output.
#[derive(Clone, Copy)]
pub enum OutputForm {
    /// As lines of words.
    Text,
    /// As objects of JSON, one a line.
    Json,
}

/// The form that the options of a command ask for, which takes `--json`.
pub(crate) fn form_option(options: &ArgMatches<'_>) -> OutputForm {
    if options.get_flag("json") {
        OutputForm::Json
    } else {
        OutputForm::Text
    }
}

/// What `route` writes, and how it ends.
#[derive(Clone, Copy)]
pub struct RouteOutput {
    /// The form of the output.
    pub form: OutputForm,
    /// Whether a name that is bad, is dropped or goes nowhere is a fault.
    pub is_strict: bool,
}

/// What the options of `route` ask for.
pub(crate) fn route_output(options: &ArgMatches<'_>) -> RouteOutput {
    RouteOutput {
        form: form_option(options),
        is_strict: options.get_flag("strict"),
    }
}
