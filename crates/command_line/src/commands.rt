//! The words that `relayd` and each of its commands take, with their help.

use crate::client_words::{RELOAD, REPORT, RESTART, STOP, WATCH};
use crate::long_help::{CHECK_HELP, PASS_HELP, RELAYD_HELP, REPLAY_HELP, ROUTE_HELP};
use crate::run_options::RUN;
use crate::words::{Choice, CommandWords, Form, Word};
use clap::Command;
use std::alloc::{AllocError, Global};

/// The version of the program, as `--version` prints it: that of a release, or, with `-dev`, what may become that one.
pub(crate) const VERSION: &str = "0.4.0-dev";

/// The words that `relayd` takes.
pub fn relayd_command<'a>(alloc: Global) -> Result<Command<'a>, AllocError> {
    let subcommands = subcommands(alloc)?;
    Command::new(alloc, "relayd")
        .version(VERSION)
        .about("A relay for Graphite metrics")
        .after_long_help(RELAYD_HELP)
        .subcommand_required(true)
        .arg_required_else_help(true)
        .subcommands(subcommands)
}

fn subcommands<'a>(alloc: Global) -> Result<Vec<Command<'a>>, AllocError> {
    let mut commands = Vec::new(alloc);
    for words in [
        &PASS, &CHECK, &ROUTE, &REPLAY, &RUN, &REPORT, &WATCH, &STOP, &RESTART, &RELOAD,
    ] {
        commands.push(words.command(alloc)?)?;
    }
    Ok(commands)
}

/// The words that `relayd pass` takes. It takes the names of files, as all commands do, and reads none; its help does not
/// show them.
pub(crate) static PASS: CommandWords = CommandWords {
    name: "pass",
    full_name: "relayd pass",
    about: "Copies the datapoints among the lines of standard input to standard output",
    long_help: PASS_HELP,
    files: &[
        Word {
            name: "config",
            form: Form::HiddenValue("FILE"),
            help: "",
        },
        Word {
            name: "rules",
            form: Form::HiddenValue("FILE"),
            help: "",
        },
        Word {
            name: "rewrite",
            form: Form::HiddenValue("FILE"),
            help: "",
        },
    ],
    words: &[
        Word {
            name: "explain",
            form: Form::Flag,
            help: "Writes a note about each bad line, pickle or row to standard error as it comes",
        },
        Word {
            name: "strict",
            form: Form::Flag,
            help: "Exits with status 1 if a line, a pickle or a row is bad, or too long",
        },
        Word {
            name: "pickle",
            form: Form::Flag,
            help: "Reads frames of pickles, as the pickle port gets them, instead of lines",
        },
        Word {
            name: "moment",
            form: Form::ValueOr("N", "0"),
            help: "The time, in seconds, for datapoints whose time is -1, 0 to 9007199254740992",
        },
    ],
    choices: &[],
};

/// The words that `relayd check` takes.
pub(crate) static CHECK: CommandWords = CommandWords {
    name: "check",
    full_name: "relayd check",
    about: "Checks the files of a configuration, and reports the first fault",
    long_help: CHECK_HELP,
    files: FILES,
    words: &[
        Word {
            name: "spool",
            form: Form::ValueWith("DIR", "explain"),
            help: "With --explain: the directory of run, whose files are looked at too",
        },
        EXPLAIN,
        Word {
            name: "strict",
            form: Form::FlagWith("explain"),
            help: "With --explain: exits with status 1 if there is a note",
        },
        Word {
            name: "json",
            form: Form::FlagWith("explain"),
            help: "With --explain: prints the notes, an object of JSON a line",
        },
    ],
    choices: &[],
};

/// The words that `relayd route` takes.
pub(crate) static ROUTE: CommandWords = CommandWords {
    name: "route",
    full_name: "relayd route",
    about: "Shows which destinations metrics go to, and under which names",
    long_help: ROUTE_HELP,
    files: &[
        Word {
            name: "config",
            form: Form::Value("FILE"),
            help: "The configuration file, with the section [relay]",
        },
        Word {
            name: "rules",
            form: Form::ValueWithout("FILE", "admin"),
            help: "The relay rules; RELAY_METHOD = rules needs them",
        },
        Word {
            name: "rewrite",
            form: Form::ValueWithout("FILE", "admin"),
            help: "The rewrite rules; without them no name changes",
        },
        Word {
            name: "longest-name",
            form: Form::ValueWithout("N", "admin"),
            help: "Drops datapoints whose names have more than N characters, 1 to 4000",
        },
    ],
    words: &[
        Word {
            name: "admin",
            form: Form::Value("PORT"),
            help: "Asks the running relay with this admin port instead, 1 to 65535",
        },
        Word {
            name: "admin-key",
            form: Form::ValueWithout("FILE", "config"),
            help: "A file of mode 600 or 640 whose first line is the key of the admin port",
        },
        Word {
            name: "names",
            form: Form::Value("FILE"),
            help: "A file of names, one per line, instead of NAME",
        },
        EXPLAIN,
        STRICT,
        JSON,
        Word {
            name: "name",
            form: Form::Bare("NAME"),
            help: "The name of a metric as a producer sends it",
        },
    ],
    choices: &[
        Choice {
            name: "where",
            words: ["config", "admin"],
        },
        Choice {
            name: "which",
            words: ["names", "name"],
        },
    ],
};

/// The words that `relayd replay` takes.
pub(crate) static REPLAY: CommandWords = CommandWords {
    name: "replay",
    full_name: "relayd replay",
    about: "Runs a configuration on a script of events, and shows what each destination got",
    long_help: REPLAY_HELP,
    files: FILES,
    words: &[
        Word {
            name: "lines",
            form: Form::Value("FILE"),
            help: "A file of datapoints, one per line, instead of SCRIPT",
        },
        Word {
            name: "text",
            form: Form::Flag,
            help: "Also shows as text what each destination got",
        },
        EXPLAIN,
        STRICT,
        Word {
            name: "script",
            form: Form::Bare("SCRIPT"),
            help: "A script of events, one per line",
        },
    ],
    choices: &[Choice {
        name: "what",
        words: ["lines", "script"],
    }],
};

/// The files of a configuration, for a command that reads them, and the limit of the names that rewriting leaves.
pub(crate) const FILES: &[Word] = &[
    Word {
        name: "config",
        form: Form::NeededValue("FILE"),
        help: "The configuration file, with the section [relay]",
    },
    Word {
        name: "rules",
        form: Form::Value("FILE"),
        help: "The relay rules; RELAY_METHOD = rules needs them",
    },
    Word {
        name: "rewrite",
        form: Form::Value("FILE"),
        help: "The rewrite rules; without them no name changes",
    },
    Word {
        name: "longest-name",
        form: Form::Value("N"),
        help: "Drops datapoints whose names have more than N characters, 1 to 4000",
    },
];

/// The option of a command that sends names or datapoints, which makes a fault of what gets nowhere.
const STRICT: Word = Word {
    name: "strict",
    form: Form::Flag,
    help: "Exits with status 1 if a line or a name is bad, or a name is dropped or goes nowhere",
};

/// The option that asks a command for objects of JSON.
pub(crate) const JSON: Word = Word {
    name: "json",
    form: Form::Flag,
    help: "Prints an object of JSON a line",
};

/// The option that asks such a command for notes.
pub(crate) const EXPLAIN: Word = Word {
    name: "explain",
    form: Form::Flag,
    help: "Writes notes to standard error: where a fault is and how to cure it, or what may be a mistake",
};
