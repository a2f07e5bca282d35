//! The words of the commands for a running relay: `report`, `watch`, `stop`, `restart` and `reload`; and of the relay that `route` asks.

use crate::commands::{EXPLAIN, FILES, JSON};
use crate::long_help::{RELOAD_HELP, REPORT_HELP, RESTART_HELP, STOP_HELP, WATCH_HELP};
use crate::number_option::ADMIN_PORT;
use crate::options::{check_paths, path_option};
use crate::words::{CommandWords, Form, Word};
use clap::{ArgMatches, Error};
use std::alloc::Global;

/// The words that `relayd report` takes.
pub(crate) static REPORT: CommandWords = CommandWords {
    name: "report",
    full_name: "relayd report",
    about: "Prints the counts of a running relay, one line for each destination",
    long_help: REPORT_HELP,
    files: &[],
    words: &[ADMIN, ADMIN_KEY, JSON],
    choices: &[],
};

/// The words that `relayd watch` takes.
pub(crate) static WATCH: CommandWords = CommandWords {
    name: "watch",
    full_name: "relayd watch",
    about: "Shows datapoints as they pass through a running relay, or counts them by their names",
    long_help: WATCH_HELP,
    files: &[],
    words: &[
        ADMIN,
        ADMIN_KEY,
        Word {
            name: "dest",
            form: Form::ValueWithout("DESTINATION", "names"),
            help: "Shows only what goes to this destination, written as in DESTINATIONS",
        },
        Word {
            name: "names",
            form: Form::ValueWithout("N", "pattern"),
            help: "Counts datapoints by the first N parts of their names, 1 to 64, and shows the greatest",
        },
        Word {
            name: "lines",
            form: Form::Value("N"),
            help: "Ends after N datapoints, or shows the N greatest (by default 20), 1 to 1000000",
        },
        Word {
            name: "seconds",
            form: Form::ValueOr("SECONDS", "60"),
            help: "Ends after SECONDS, 1 to 3600",
        },
        JSON,
        Word {
            name: "pattern",
            form: Form::Bare("PATTERN"),
            help: "A regular expression to find in the name of a datapoint, before or after rewriting",
        },
    ],
    choices: &[],
};

/// The words that `relayd stop` takes.
pub(crate) static STOP: CommandWords = CommandWords {
    name: "stop",
    full_name: "relayd stop",
    about: "Stops a running relay",
    long_help: STOP_HELP,
    files: &[],
    words: &[
        ADMIN,
        ADMIN_KEY,
        Word {
            name: "wait",
            form: Form::Flag,
            help: "Waits until the relay has ended",
        },
    ],
    choices: &[],
};

/// The words that `relayd restart` takes.
pub(crate) static RESTART: CommandWords = CommandWords {
    name: "restart",
    full_name: "relayd restart",
    about: "Checks the files of a running relay, and stops it if they have no fault",
    long_help: RESTART_HELP,
    files: FILES,
    words: &[EXPLAIN, ADMIN, ADMIN_KEY],
    choices: &[],
};

/// The words that `relayd reload` takes. The relay reads the files again that it began with.
pub(crate) static RELOAD: CommandWords = CommandWords {
    name: "reload",
    full_name: "relayd reload",
    about: "Has a running relay read its files again, over the same connections",
    long_help: RELOAD_HELP,
    files: &[],
    words: &[EXPLAIN, ADMIN, ADMIN_KEY],
    choices: &[],
};

const ADMIN: Word = Word {
    name: "admin",
    form: Form::NeededValue("PORT"),
    help: "The admin port of the relay, 1 to 65535",
};

/// The option of all of these commands and of `run` that names the file of a key.
pub(crate) const ADMIN_KEY: Word = Word {
    name: "admin-key",
    form: Form::Value("FILE"),
    help: "A file of mode 600 or 640 whose first line is the key of the admin port",
};

/// The admin port of a running relay, and the file of its key, if one is named.
#[derive(Drop)]
pub struct AdminAt {
    pub port: u16,
    pub key: Option<String>,
}

/// The admin port among the words of one of these commands.
pub(crate) fn admin_at(
    alloc: Global,
    options: &ArgMatches<'_>,
    command: &CommandWords,
) -> Result<AdminAt, Error> {
    check_paths(alloc, options, command)?;
    Ok(AdminAt {
        port: ADMIN_PORT.port(alloc, options, command)?,
        key: path_option(alloc, options, "admin-key")?,
    })
}

/// The admin port among the words of one of these commands, if it is given.
pub(crate) fn admin_option(
    alloc: Global,
    options: &ArgMatches<'_>,
    command: &CommandWords,
) -> Result<Option<AdminAt>, Error> {
    match options.get_str("admin") {
        Some(_) => Ok(Some(admin_at(alloc, options, command)?)),
        None => Ok(None),
    }
}
