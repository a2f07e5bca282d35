//! Standard input in place of a file.

use crate::options::check_paths;
use crate::words::CommandWords;
use clap::error::ErrorKind;
use clap::{ArgMatches, Error};
use std::alloc::Global;

/// The word that names standard input in place of a file.
pub const STANDARD_INPUT: &str = "-";

/// A word of a command that names a file: its name, and how its fault writes it.
#[derive(Clone, Copy)]
pub(crate) struct FileWord {
    name: &'static str,
    shown: &'static str,
}

const CONFIG: FileWord = FileWord {
    name: "config",
    shown: "--config <FILE>",
};

const RULES: FileWord = FileWord {
    name: "rules",
    shown: "--rules <FILE>",
};

const REWRITE: FileWord = FileWord {
    name: "rewrite",
    shown: "--rewrite <FILE>",
};

const NAMES: FileWord = FileWord {
    name: "names",
    shown: "--names <FILE>",
};

const LINES: FileWord = FileWord {
    name: "lines",
    shown: "--lines <FILE>",
};

const SCRIPT: FileWord = FileWord {
    name: "script",
    shown: "<SCRIPT>",
};

/// The files of a configuration.
pub(crate) const CONFIGURATION_FILES: &[FileWord] = &[CONFIG, RULES, REWRITE];

/// The files of `route`.
pub(crate) const ROUTE_FILES: &[FileWord] = &[CONFIG, RULES, REWRITE, NAMES];

/// The files of `replay`.
pub(crate) const REPLAY_FILES: &[FileWord] = &[CONFIG, RULES, REWRITE, LINES, SCRIPT];

/// Refuses options of a command that name an empty path, or standard input for two of these files.
pub(crate) fn check_inputs(
    alloc: Global,
    options: &ArgMatches<'_>,
    command: &CommandWords,
    files: &[FileWord],
) -> Result<(), Error> {
    check_paths(alloc, options, command)?;
    let mut first: Option<FileWord> = None;
    for file in files {
        if !is_standard_input(options, file.name) {
            continue;
        }
        match first {
            None => first = Some(*file),
            Some(first) => return refuse(alloc, command, first.shown, file.shown),
        }
    }
    Ok(())
}

/// Whether an option names standard input.
fn is_standard_input(options: &ArgMatches<'_>, name: &str) -> bool {
    match options.get_str(name) {
        Some(path) => path == STANDARD_INPUT,
        None => false,
    }
}

/// The error of two files that are standard input.
fn refuse(alloc: Global, command: &CommandWords, first: &str, second: &str) -> Result<(), Error> {
    let message = format!(in alloc;
        "'{first}' and '{second}' are both '-', and standard input can be read only once"
    )?;
    Err(command.error(alloc, ErrorKind::ArgumentConflict, message.as_str())?)
}
