//! The options of `run`: its words, and what they ask for.

use crate::client_words::ADMIN_KEY;
use crate::commands::{EXPLAIN, FILES, VERSION};
use crate::log_form::{LogForm, log_form_in};
use crate::long_help::RUN_HELP;
use crate::number_option::{ADMIN_PORT, NumberOption};
use crate::words::{CommandWords, Form, Word};
use clap::error::ErrorKind;
use clap::{ArgMatches, Error};
use queue_records::MOST_SENDERS;
use relay_base::MOST_LINE_RECEIVERS;
use relay_options::{RunOptions, StatusOptions, line_receivers_in, senders_in};
use std::alloc::Global;
use std::net::{IpAddr, SocketAddr};

/// The words that `relayd run` takes.
pub(crate) static RUN: CommandWords = CommandWords {
    name: "run",
    full_name: "relayd run",
    about: "Runs the relay: receives datapoints and sends them to the destinations",
    long_help: RUN_HELP,
    files: FILES,
    words: &[
        Word {
            name: "admin",
            form: Form::NeededValue("PORT"),
            help: "The port on 127.0.0.1 for route, report, watch, stop, restart and reload, 1 to 65535",
        },
        ADMIN_KEY,
        Word {
            name: "senders",
            form: Form::ValueOr("N", "1"),
            help: "The number of threads that send, 1 to 8",
        },
        Word {
            name: "line-receivers",
            form: Form::ValueOr("N", "1"),
            help: "The number of threads that receive lines, 1 to 6",
        },
        Word {
            name: "idle",
            form: Form::ValueOr("SECONDS", "0"),
            help: "Closes a connection that sends no datapoint for SECONDS, 0 to 86400; 0 closes none",
        },
        Word {
            name: "drain",
            form: Form::ValueOr("SECONDS", "0"),
            help: "After stop, keeps sending queued datapoints for at most SECONDS, 0 to 3600",
        },
        Word {
            name: "spool",
            form: Form::Value("DIR"),
            help: "After stop, keeps what was not sent in files in DIR, and sends them at the next start",
        },
        Word {
            name: "spool-size",
            form: Form::ValueWith("BYTES", "spool"),
            help: "Keeps what queues cannot hold in DIR while it runs, in at most BYTES, 1048576 or more",
        },
        Word {
            name: "status",
            form: Form::Value("PORT"),
            help: "Serves a status page, JSON and metrics over HTTP on this port, 1 to 65535",
        },
        Word {
            name: "status-interface",
            form: Form::ValueWith("ADDRESS", "status"),
            help: "The IP address that --status listens on; by default 127.0.0.1",
        },
        Word {
            name: "log",
            form: Form::Flag,
            help: "Writes events to standard error: connections made and lost, drops, bad input",
        },
        Word {
            name: "log-format",
            form: Form::Value("FORM"),
            help: "Writes them as text, timed (with time and level), or json",
        },
        Word {
            name: "record",
            form: Form::Value("FILE"),
            help: "After stop, writes the run to FILE as a script for replay",
        },
        EXPLAIN,
    ],
    choices: &[],
};

const SENDERS: NumberOption = NumberOption {
    name: "senders",
    value: "N",
    least: 1,
    most: MOST_SENDERS as u64,
};

const LINE_RECEIVERS: NumberOption = NumberOption {
    name: "line-receivers",
    value: "N",
    least: 1,
    most: MOST_LINE_RECEIVERS as u64,
};

const IDLE: NumberOption = NumberOption {
    name: "idle",
    value: "SECONDS",
    least: 0,
    most: 86_400,
};

const DRAIN: NumberOption = NumberOption {
    name: "drain",
    value: "SECONDS",
    least: 0,
    most: 3_600,
};

const SPOOL_SIZE: NumberOption = NumberOption {
    name: "spool-size",
    value: "BYTES",
    least: 1_048_576,
    most: 1_152_921_504_606_846_976,
};

const STATUS: NumberOption = NumberOption {
    name: "status",
    value: "PORT",
    least: 1,
    most: 65_535,
};

/// How the options ask for a relay to run.
pub fn run_options(alloc: Global, options: &ArgMatches<'_>) -> Result<RunOptions, Error> {
    let senders = senders_in(SENDERS.text(options));
    let line_receivers = line_receivers_in(LINE_RECEIVERS.text(options));
    Ok(RunOptions {
        admin: ADMIN_PORT.port(alloc, options, &RUN)?,
        senders: SENDERS.checked(alloc, options, &RUN, senders)?,
        line_receivers: LINE_RECEIVERS.checked(alloc, options, &RUN, line_receivers)?,
        drain: DRAIN.number(alloc, options, &RUN)?,
        idle: IDLE.number(alloc, options, &RUN)?,
        spool_size: SPOOL_SIZE.number_if_given(alloc, options, &RUN)?,
        status: status_options(alloc, options)?,
    })
}

/// What the options of the status server ask for, if there is to be one.
fn status_options(alloc: Global, options: &ArgMatches<'_>) -> Result<Option<StatusOptions>, Error> {
    let address = interface_option(alloc, options)?;
    if options.get_str(STATUS.name).is_none() {
        return Ok(None);
    }
    let port = STATUS.port(alloc, options, &RUN)?;
    Ok(Some(StatusOptions {
        address: SocketAddr::new(address, port),
        version: VERSION,
        has_key: options.get_str(ADMIN_KEY.name).is_some(),
    }))
}

/// The address of `--status-interface`.
fn interface_option(alloc: Global, options: &ArgMatches<'_>) -> Result<IpAddr, Error> {
    let text = options.get_str("status-interface").unwrap_or("127.0.0.1");
    match IpAddr::parse_ascii(text.as_bytes()) {
        Ok(address) => Ok(address),
        Err(_) => {
            let message = format!(in alloc;
                "invalid value '{text}' for '--status-interface <ADDRESS>': not an IP address"
            )?;
            Err(RUN.error(alloc, ErrorKind::InvalidValue, message.as_str())?)
        }
    }
}

/// The form of `--log-format`, which asks for a log too; the lines as they are with `--log` alone.
pub fn log_option(alloc: Global, options: &ArgMatches<'_>) -> Result<Option<LogForm>, Error> {
    let Some(text) = options.get_str("log-format") else {
        return Ok(options.get_flag("log").then_some(LogForm::Text));
    };
    match log_form_in(text) {
        Some(form) => Ok(Some(form)),
        None => refuse_form(alloc, text),
    }
}

/// The error of a form of the log that has another name.
fn refuse_form(alloc: Global, text: &str) -> Result<Option<LogForm>, Error> {
    let message = format!(in alloc;
        "invalid value '{text}' for '--log-format <FORM>': not text, timed or json"
    )?;
    Err(RUN.error(alloc, ErrorKind::InvalidValue, message.as_str())?)
}
