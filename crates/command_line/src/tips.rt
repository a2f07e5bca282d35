//! Tips for words that other programs take: what `relayd` has in place of them.

use crate::client_words::{RELOAD, REPORT};
use crate::commands::{CHECK, PASS};
use crate::run_options::RUN;
use crate::words::CommandWords;
use clap::Error;
use clap::error::ErrorKind;
use std::alloc::{AllocError, Global};

const STAYS: &str =
    "'relayd run' stays in the foreground; a supervisor such as systemd keeps it in the background";

const STARTS: &str = "'relayd run' starts the relay, and stays in the foreground";

const REPORTS: &str =
    "'relayd report' prints the counts of a running relay; 'relayd run --status PORT' serves a page";

const TAKES_OPTIONS: &str =
    "each file has its option, such as --config FILE; --log takes none, and writes to standard error";

const NAMES_COMMAND: &str = "options come after a command: relayd check --config FILE";

const READS: &str = "'relayd pass' reads standard input: relayd pass < ";

const READS_AGAIN: &str =
    "the relay reads the files again that it began with; replace these, or restart it with others";

/// A tip, which may end with the name of a file, and the command of which its error shows the usage.
#[derive(Drop)]
struct Tip<'a> {
    command: &'static CommandWords,
    text: &'static str,
    file: &'a str,
}

impl Tip<'_> {
    /// A tip whose error shows the usage of this command.
    fn of(command: &'static CommandWords, text: &'static str) -> Tip<'static> {
        Tip {
            command,
            text,
            file: "",
        }
    }
}

/// An error, with a tip if it names a word that other programs take.
pub fn with_tip(alloc: Global, words: &[String], error: Error) -> Result<Error, AllocError> {
    match tipped_error(alloc, words, &error).transpose() {
        Some(tipped) => {
            drop(error);
            tipped
        }
        None => Ok(error),
    }
}

/// The error with its tip, if there is one.
fn tipped_error(
    alloc: Global,
    words: &[String],
    error: &Error,
) -> Result<Option<Error>, AllocError> {
    let text = error.to_string(alloc)?;
    match reason_in(text.as_str()) {
        Some(reason) => error_of(alloc, command_in(words), reason, error.kind()),
        None => Ok(None),
    }
}

/// The error of a command for this reason with its tip, if there is one.
fn error_of(
    alloc: Global,
    command: &str,
    reason: &str,
    kind: ErrorKind,
) -> Result<Option<Error>, AllocError> {
    let Some(tip) = tip_of(command, reason) else {
        return Ok(None);
    };
    let message = format!(in alloc; "{reason}\n\n  tip: {}{}", tip.text, tip.file)?;
    tip.command.error(alloc, kind, message.as_str()).map(Some)
}

/// The tip for a command that was refused for a reason.
fn tip_of<'a>(command: &str, reason: &'a str) -> Option<Tip<'a>> {
    match command {
        "pass" => tip_of_pass(reason),
        "reload" => tip_of_reload(reason),
        "run" => tip_of_run(reason),
        "start" => tip_at(reason, "unrecognized subcommand 'start'", &RUN, STARTS),
        "status" => tip_at(reason, "unrecognized subcommand 'status'", &REPORT, REPORTS),
        "" => tip_of_option(reason),
        _ => None,
    }
}

/// The tip for a file that `relayd pass` is given, which reads standard input.
fn tip_of_pass(reason: &str) -> Option<Tip<'_>> {
    let file = file_in(reason)?;
    Some(Tip {
        command: &PASS,
        text: READS,
        file,
    })
}

/// The tip for an option that `relayd reload` does not take.
fn tip_of_reload(reason: &str) -> Option<Tip<'static>> {
    tip_at(reason, "unexpected argument '--", &RELOAD, READS_AGAIN)
}

/// The tip for an option that `relayd run` does not take, or for a file without its option.
fn tip_of_run(reason: &str) -> Option<Tip<'static>> {
    if is_daemon(reason) {
        return Some(Tip::of(&RUN, STAYS));
    }
    if file_in(reason).is_none() {
        return None;
    }
    Some(Tip::of(&RUN, TAKES_OPTIONS))
}

/// The tip for an option before the command.
fn tip_of_option(reason: &str) -> Option<Tip<'static>> {
    if is_daemon(reason) {
        return Some(Tip::of(&RUN, STAYS));
    }
    tip_at(reason, "unexpected argument '-", &CHECK, NAMES_COMMAND)
}

/// Whether a relay that goes into the background was asked for.
fn is_daemon(reason: &str) -> bool {
    reason == "unexpected argument '--daemon' found" || reason == "unexpected argument '-d' found"
}

/// The tip of a command, for a reason that begins so.
fn tip_at(
    reason: &str,
    start: &str,
    command: &'static CommandWords,
    text: &'static str,
) -> Option<Tip<'static>> {
    if !reason.starts_with(start) {
        return None;
    }
    Some(Tip::of(command, text))
}

/// The first line of the text of an error, without `error: `.
fn reason_in(text: &str) -> Option<&str> {
    let (line, _) = text.split_once('\n')?;
    line.strip_prefix("error: ")
}

/// The command that words name; nothing if an option is there.
fn command_in(words: &[String]) -> &str {
    match words.get(1) {
        Some(word) if !word.as_str().starts_with('-') => word.as_str(),
        _ => "",
    }
}

/// The word that was not expected, if it can be a file.
fn file_in(reason: &str) -> Option<&str> {
    let word = reason
        .strip_prefix("unexpected argument '")?
        .strip_suffix("' found")?;
    if word.starts_with('-') {
        None
    } else {
        Some(word)
    }
}
