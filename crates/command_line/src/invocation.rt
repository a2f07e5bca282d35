//! What the words of a command line ask for.

use crate::client_words::{AdminAt, RELOAD, REPORT, RESTART, STOP, WATCH, admin_at, admin_option};
use crate::commands::{CHECK, REPLAY, ROUTE, relayd_command};
use crate::explain::Explain;
use crate::log_form::LogForm;
use crate::options::{explain_option, moment_option, path_option, path_options, text_option};
use crate::output_form::{OutputForm, RouteOutput, form_option, route_output};
use crate::pass_input::{PassInput, pass_input};
use crate::paths::Paths;
use crate::run_options::{RUN, log_option, run_options};
use crate::standard_input::{CONFIGURATION_FILES, REPLAY_FILES, ROUTE_FILES, check_inputs};
use crate::tips::with_tip;
use crate::watch_options::{Watching, watching_of};
use clap::error::ErrorKind;
use clap::{ArgMatches, Error};
use line_text::Moment;
use relay_options::RunOptions;
use std::alloc::Global;

/// What the words ask for.
#[derive(Drop)]
pub enum Invocation {
    /// `pass`.
    Pass(PassCommand),
    /// `check`.
    Check(CheckCommand),
    /// `route`, by files.
    Route(RouteCommand),
    /// `route --admin`.
    LiveRoute(LiveRouteCommand),
    /// `replay`.
    Replay(ReplayCommand),
    /// `run`.
    Run(RunCommand),
    /// `report`: what the relay with this admin port has counted.
    Report {
        admin: AdminAt,
        form: OutputForm,
    },
    /// `watch`: datapoints that pass through the relay with this admin port, or the first parts of their names.
    Watch {
        admin: AdminAt,
        watching: Watching,
    },
    /// `stop`: the end of the relay with this admin port, and whether to wait for it.
    Stop {
        admin: AdminAt,
        waits: bool,
    },
    /// `restart`: the end of the relay with this admin port, if the files are a configuration.
    Restart {
        paths: Paths,
        admin: AdminAt,
        explain: Explain,
    },
    /// `reload`: another look of the relay with this admin port at the files that it began with.
    Reload {
        admin: AdminAt,
        explain: Explain,
    },
}

/// What `pass` is to do with the datapoints of standard input: it writes them to standard output as lines.
#[derive(Drop)]
pub struct PassCommand {
    /// The moment of the whole input.
    pub moment: Moment,
    pub input: PassInput,
    pub explain: Explain,
    /// Whether bad input is a fault.
    pub is_strict: bool,
    /// Whether files were named, which it does not read.
    pub ignores_files: bool,
}

/// What `check` is to look at: whether the files are a configuration.
#[derive(Drop)]
pub struct CheckCommand {
    pub paths: Paths,
    /// The directory of a spool, if one is named: there are notes of it too.
    pub spool: Option<String>,
    pub explain: Explain,
    pub form: OutputForm,
}

/// What `route` is to say: where the files send these metrics.
#[derive(Drop)]
pub struct RouteCommand {
    pub paths: Paths,
    pub asked: AskedNames,
    pub output: RouteOutput,
    pub explain: Explain,
}

/// What `route --admin` is to say: where the relay with this admin port sends these metrics.
#[derive(Drop)]
pub struct LiveRouteCommand {
    pub admin: AdminAt,
    pub asked: AskedNames,
    pub output: RouteOutput,
    pub explain: Explain,
}

/// The metrics of which `route` asks where they go.
#[derive(Drop)]
pub enum AskedNames {
    /// That of this name.
    Name(String),
    /// Those of the names in this file.
    File(String),
}

impl AskedNames {
    /// The path of the file of names, if there is one.
    pub fn path(&self) -> Option<&String> {
        match self {
            AskedNames::Name(_) => None,
            AskedNames::File(path) => Some(path),
        }
    }
}

/// What `replay` is to show: what the files do with this input.
#[derive(Drop)]
pub struct ReplayCommand {
    pub paths: Paths,
    pub input: ReplayInput,
    /// Whether it shows what a connection got as text too.
    pub shows_text: bool,
    /// Whether what gets nowhere is a fault.
    pub is_strict: bool,
    pub explain: Explain,
}

/// What `replay` reads.
#[derive(Drop)]
pub enum ReplayInput {
    /// The events of the script at this path.
    Script(String),
    /// The lines of the file at this path.
    Lines(String),
}

impl ReplayInput {
    /// The path of the input.
    pub fn path(&self) -> &String {
        match self {
            ReplayInput::Script(path) | ReplayInput::Lines(path) => path,
        }
    }
}

/// How a relay of these files is to run.
#[derive(Drop)]
pub struct RunCommand {
    pub paths: Paths,
    pub options: RunOptions,
    /// The form of its log, if it has one.
    pub log: Option<LogForm>,
    /// The file of its admin port's key, if it has one.
    pub admin_key: Option<String>,
    /// The path of its record, if there is to be one.
    pub record: Option<String>,
    /// The directory of its spool, if it has one.
    pub spool: Option<String>,
    pub explain: Explain,
}

/// What these words ask for.
pub fn parse_words(alloc: Global, words: &[String]) -> Result<Invocation, Error> {
    match relayd_command(alloc)?.try_get_matches_from(words) {
        Ok(matches) => {
            let invocation = invocation_of(alloc, &matches);
            drop(matches);
            invocation
        }
        Err(error) => Err(with_tip(alloc, words, error)?),
    }
}

/// What a command and its options ask for.
fn invocation_of(alloc: Global, matches: &ArgMatches<'_>) -> Result<Invocation, Error> {
    match matches.subcommand() {
        Some(("pass", options)) => pass_invocation(alloc, options),
        Some(("check", options)) => check_invocation(alloc, options),
        Some(("route", options)) => route_invocation(alloc, options),
        Some(("replay", options)) => replay_invocation(alloc, options),
        Some(("run", options)) => run_invocation(alloc, options),
        Some(("report", options)) => report_invocation(alloc, options),
        Some(("watch", options)) => watch_invocation(alloc, options),
        Some(("stop", options)) => stop_invocation(alloc, options),
        Some(("restart", options)) => restart_invocation(alloc, options),
        Some(("reload", options)) => reload_invocation(alloc, options),
        _ => no_command(alloc),
    }
}

fn pass_invocation(alloc: Global, options: &ArgMatches<'_>) -> Result<Invocation, Error> {
    Ok(Invocation::Pass(PassCommand {
        moment: moment_option(alloc, options)?,
        input: pass_input(options),
        explain: explain_option(options, false),
        is_strict: options.get_flag("strict"),
        ignores_files: names_files(options),
    }))
}

fn names_files(options: &ArgMatches<'_>) -> bool {
    for option in ["config", "rules", "rewrite"] {
        if options.get_str(option).is_some() {
            return true;
        }
    }
    false
}

fn check_invocation(alloc: Global, options: &ArgMatches<'_>) -> Result<Invocation, Error> {
    check_inputs(alloc, options, &CHECK, CONFIGURATION_FILES)?;
    Ok(Invocation::Check(CheckCommand {
        paths: path_options(alloc, options, &CHECK)?,
        spool: path_option(alloc, options, "spool")?,
        explain: explain_option(options, options.get_flag("strict")),
        form: form_option(options),
    }))
}

fn run_invocation(alloc: Global, options: &ArgMatches<'_>) -> Result<Invocation, Error> {
    check_inputs(alloc, options, &RUN, CONFIGURATION_FILES)?;
    Ok(Invocation::Run(RunCommand {
        options: run_options(alloc, options)?,
        log: log_option(alloc, options)?,
        admin_key: path_option(alloc, options, "admin-key")?,
        record: path_option(alloc, options, "record")?,
        spool: path_option(alloc, options, "spool")?,
        paths: path_options(alloc, options, &RUN)?,
        explain: explain_option(options, false),
    }))
}

fn report_invocation(alloc: Global, options: &ArgMatches<'_>) -> Result<Invocation, Error> {
    Ok(Invocation::Report {
        admin: admin_at(alloc, options, &REPORT)?,
        form: form_option(options),
    })
}

fn watch_invocation(alloc: Global, options: &ArgMatches<'_>) -> Result<Invocation, Error> {
    Ok(Invocation::Watch {
        admin: admin_at(alloc, options, &WATCH)?,
        watching: watching_of(alloc, options)?,
    })
}

fn stop_invocation(alloc: Global, options: &ArgMatches<'_>) -> Result<Invocation, Error> {
    Ok(Invocation::Stop {
        admin: admin_at(alloc, options, &STOP)?,
        waits: options.get_flag("wait"),
    })
}

fn restart_invocation(alloc: Global, options: &ArgMatches<'_>) -> Result<Invocation, Error> {
    check_inputs(alloc, options, &RESTART, CONFIGURATION_FILES)?;
    Ok(Invocation::Restart {
        admin: admin_at(alloc, options, &RESTART)?,
        paths: path_options(alloc, options, &RESTART)?,
        explain: explain_option(options, false),
    })
}

fn reload_invocation(alloc: Global, options: &ArgMatches<'_>) -> Result<Invocation, Error> {
    Ok(Invocation::Reload {
        admin: admin_at(alloc, options, &RELOAD)?,
        explain: explain_option(options, false),
    })
}

/// The error of words that name no command.
fn no_command(alloc: Global) -> Result<Invocation, Error> {
    let mut command = relayd_command(alloc)?;
    let error = command.error(ErrorKind::MissingSubcommand, "a command is required");
    drop(command);
    Err(error?)
}

fn route_invocation(alloc: Global, options: &ArgMatches<'_>) -> Result<Invocation, Error> {
    check_inputs(alloc, options, &ROUTE, ROUTE_FILES)?;
    match admin_option(alloc, options, &ROUTE)? {
        Some(admin) => Ok(Invocation::LiveRoute(LiveRouteCommand {
            admin,
            asked: asked_names(alloc, options)?,
            output: route_output(options),
            explain: explain_option(options, false),
        })),
        None => Ok(Invocation::Route(RouteCommand {
            asked: asked_names(alloc, options)?,
            paths: path_options(alloc, options, &ROUTE)?,
            output: route_output(options),
            explain: explain_option(options, false),
        })),
    }
}

fn asked_names(alloc: Global, options: &ArgMatches<'_>) -> Result<AskedNames, Error> {
    match path_option(alloc, options, "names")? {
        Some(names) => Ok(AskedNames::File(names)),
        None => Ok(AskedNames::Name(text_option(alloc, options, "name")?)),
    }
}

fn replay_invocation(alloc: Global, options: &ArgMatches<'_>) -> Result<Invocation, Error> {
    check_inputs(alloc, options, &REPLAY, REPLAY_FILES)?;
    Ok(Invocation::Replay(ReplayCommand {
        input: replay_input(alloc, options)?,
        paths: path_options(alloc, options, &REPLAY)?,
        shows_text: options.get_flag("text"),
        is_strict: options.get_flag("strict"),
        explain: explain_option(options, false),
    }))
}

fn replay_input(alloc: Global, options: &ArgMatches<'_>) -> Result<ReplayInput, Error> {
    match path_option(alloc, options, "lines")? {
        Some(lines) => Ok(ReplayInput::Lines(lines)),
        None => Ok(ReplayInput::Script(text_option(alloc, options, "script")?)),
    }
}
