//! What a relay answers to a command.

ghost use Rattle.std.specs.Prelude.{◌≡◌, true, OnOk};
ghost use Rattle.admin_client.specs.AdminAnswer.{IsAnswerTo, is_stopping, is_whole};

use crate::admin_command::{AdminCommand, STOPPING, UNKNOWN_COMMAND};
use crate::admin_fault::AdminFault;
use crate::admin_key::WRONG_KEY;
use crate::reload_answer::{RELOADED, reload_answer_in};
use crate::reload_files::reload_files_in;
use crate::route_answer::{DROPPED, ROUTED, route_answer_in};
use crate::watch_answer::{WATCH_OVER, WATCH_REFUSED, WATCHED, WATCHING, watch_answer_in};

/// What each line of a report begins with.
const DESTINATION: &[u8] = b"destination ";

/// Refuses all that arrived on a connection, up to its end, if it is not what a relay answers to a command: `stopping` to
/// `stop`, lines of destinations, one or more, to `report`, `reloaded` or a refusal with its reason to `reload`, the name of
/// a configuration file, with others, to `files`, where a metric goes to `route`, and what a watch says to `watch`.
pub(crate) fn check_answer(command: AdminCommand, answer: &[u8]) -> Result<(), AdminFault>
    ensures ok { OnOk result (IsAnswerTo command answer.now) }
    ensures whole { OnOk result (is_whole answer.now ≡ true) }
{
    if answer.is_empty() {
        return Err(AdminFault::NoAnswer);
    }
    if answer == UNKNOWN_COMMAND {
        return Err(AdminFault::UnknownCommand);
    }
    if answer == WRONG_KEY {
        return Err(AdminFault::WrongKey);
    }
    match command {
        AdminCommand::Stop => check_stopping(answer),
        AdminCommand::Report => check_report(answer),
        AdminCommand::Reload => check_reload(answer),
        AdminCommand::Files => check_files(answer),
        AdminCommand::Route => check_route(answer),
        AdminCommand::Watch => check_watch(answer),
    }
}

/// Refuses what is not the answer to `stop`.
fn check_stopping(answer: &[u8]) -> Result<(), AdminFault>
    ensures ok { OnOk result (is_stopping answer.now ≡ true) }
    ensures whole { OnOk result (is_whole answer.now ≡ true) }
{
    if answer == STOPPING {
        Ok(())
    } else if STOPPING.starts_with(answer) {
        Err(AdminFault::CutOff)
    } else {
        Err(AdminFault::NoRelay)
    }
}

/// Refuses what is not the answer to `reload`, and one whose last line has no end.
fn check_reload(answer: &[u8]) -> Result<(), AdminFault>
    ensures ok { OnOk result (IsAnswerTo AdminCommand.Reload answer.now) }
    ensures whole { OnOk result (is_whole answer.now ≡ true) }
{
    match reload_answer_in(answer) {
        Some(_) if answer.ends_with(b"\n") => Ok(()),
        Some(_) => Err(AdminFault::CutOff),
        None if RELOADED.starts_with(answer) => Err(AdminFault::CutOff),
        None => Err(AdminFault::NoRelay),
    }
}

/// Refuses what names no configuration file, and an answer whose last line has no end.
fn check_files(answer: &[u8]) -> Result<(), AdminFault>
    ensures ok { OnOk result (IsAnswerTo AdminCommand.Files answer.now) }
    ensures whole { OnOk result (is_whole answer.now ≡ true) }
{
    match reload_files_in(answer) {
        Some(_) if answer.ends_with(b"\n") => Ok(()),
        Some(_) => Err(AdminFault::CutOff),
        None => Err(AdminFault::NoRelay),
    }
}

/// Refuses what does not say where a metric goes, and an answer whose last line has no end.
fn check_route(answer: &[u8]) -> Result<(), AdminFault>
    ensures ok { OnOk result (IsAnswerTo AdminCommand.Route answer.now) }
    ensures whole { OnOk result (is_whole answer.now ≡ true) }
{
    match route_answer_in(answer) {
        Some(_) if answer.ends_with(b"\n") => Ok(()),
        Some(_) => Err(AdminFault::CutOff),
        None if ROUTED.starts_with(answer) || DROPPED.starts_with(answer) => {
            Err(AdminFault::CutOff)
        }
        None => Err(AdminFault::NoRelay),
    }
}

/// Refuses what no watch answers, and an answer whose last line has no end.
fn check_watch(answer: &[u8]) -> Result<(), AdminFault>
    ensures ok { OnOk result (IsAnswerTo AdminCommand.Watch answer.now) }
    ensures whole { OnOk result (is_whole answer.now ≡ true) }
{
    match watch_answer_in(answer) {
        Some(_) if answer.ends_with(b"\n") => Ok(()),
        Some(_) => Err(AdminFault::CutOff),
        None if begins_watch(answer) => Err(AdminFault::CutOff),
        None => Err(AdminFault::NoRelay),
    }
}

/// Whether the first words of an answer to `watch` begin so.
fn begins_watch(answer: &[u8]) -> bool {
    WATCHING.starts_with(answer)
        || WATCHED.starts_with(answer)
        || WATCH_REFUSED.starts_with(answer)
        || WATCH_OVER.starts_with(answer)
}

/// Refuses what has a line that is not of a destination, and one without its end.
fn check_report(answer: &[u8]) -> Result<(), AdminFault>
    ensures whole { OnOk result (is_whole answer.now ≡ true) }
{
    for line in answer.split_inclusive(is_newline) {
        if !line.starts_with(DESTINATION) && !DESTINATION.starts_with(line) {
            return Err(AdminFault::NoRelay);
        }
    }
    if answer.ends_with(b"\n") {
        Ok(())
    } else {
        Err(AdminFault::CutOff)
    }
}

fn is_newline(byte: &u8) -> bool {
    *byte == b'\n'
}
