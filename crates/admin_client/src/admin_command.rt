//! The commands of the admin port, and the answers that are always the same.

ghost use Rattle.std.specs.Prelude.{◌≡◌, ◌<◌, ◌≤◌, None, Some, length, MatchOption};
ghost use Rattle.std.specs.List.{position};
ghost use Rattle.std.specs.Io.BufRead.{strip_last};
ghost use Rattle.relay_base.specs.Ascii.{carriage_return};
ghost use Rattle.admin_client.specs.AdminCommand.{is_newline, first_line, command_text, command_of, command_in, routed_by, routed_name, watched_by, asked_of_watch};
ghost use Rattle.admin_client.specs.AdminKey.{words_of};

use crate::reload_answer::behind;

/// How many bytes the text of a command has at most; a longer one is none.
pub const LONGEST_COMMAND: usize = LONGEST_ROUTED + 6;

/// How many bytes a name has at most that is asked for, and what is asked of a watch.
pub const LONGEST_ROUTED: usize = 4_096;

/// The words before a name that is asked for.
const ROUTE: &[u8] = b"route ";

/// The words before what is asked of a watch.
const WATCH: &[u8] = b"watch ";

/// The answer to `stop`.
pub const STOPPING: &[u8] = b"stopping\n";

/// The answer to what is no command.
pub const UNKNOWN_COMMAND: &[u8] = b"unknown command\n";

/// A command of the admin port.
#[derive(Clone, Copy)]
pub enum AdminCommand {
    /// What each destination's queue has counted.
    Report,
    /// The end of the run.
    Stop,
    /// Another look at the files of the configuration.
    Reload,
    /// Which files those are.
    Files,
    /// Where the relay sends a metric of the name behind the word.
    Route,
    /// The datapoints that pass: a watch is opened, asked or ended, as the text behind the word says.
    Watch,
}

impl AdminCommand {
    /// The words that ask for it; behind those of `Route` comes a name, and behind those of `Watch` what is asked.
    pub(crate) fn words(self) -> &'static [u8]
        ensures { result.now ≡ words_of self }
    {
        match self {
            AdminCommand::Report => b"report".as_slice(),
            AdminCommand::Stop => b"stop".as_slice(),
            AdminCommand::Reload => b"reload".as_slice(),
            AdminCommand::Files => b"files".as_slice(),
            AdminCommand::Route => ROUTE,
            AdminCommand::Watch => WATCH,
        }
    }
}

/// The command that was sent, if it is one: the bytes up to the first byte 10, or all if there is none, without one byte
/// 13 at their end.
pub fn command_in(sent: &[u8]) -> Option<AdminCommand>
    ensures { result ≡ command_in sent.now }
{
    command_of(first_line_of(sent))
}

/// The bytes up to the first byte 10, or all if there is none, without one byte 13 at their end.
pub(crate) fn first_line_of(sent: &[u8]) -> &[u8]
    ensures { result.now ≡ command_text sent.now }
{
    without_return(first_line(sent))
}

/// The command of a text, if it is one.
fn command_of(text: &[u8]) -> Option<AdminCommand>
    ensures { result ≡ command_of text.now }
{
    if text == b"report".as_slice() {
        Some(AdminCommand::Report)
    } else if text == b"stop".as_slice() {
        Some(AdminCommand::Stop)
    } else if text == b"reload".as_slice() {
        Some(AdminCommand::Reload)
    } else if text == b"files".as_slice() {
        Some(AdminCommand::Files)
    } else if routed_by(text).is_some() {
        Some(AdminCommand::Route)
    } else if watched_by(text).is_some() {
        Some(AdminCommand::Watch)
    } else {
        None
    }
}

/// The name in a text that asks where it goes, if it does and the name is not too long. Whether it is a metric name is not
/// looked at.
fn routed_by(text: &[u8]) -> Option<&[u8]>
    ensures { MatchOption result (routed_by text.now ≡ None)
        (λ name. routed_by text.now ≡ Some name.now) }
{
    let name = behind(ROUTE, text)?;
    if name.len() > LONGEST_ROUTED {
        return None;
    }
    Some(name)
}

/// What a text asks of a watch, if it does and that is not too long.
fn watched_by(text: &[u8]) -> Option<&[u8]>
    ensures { MatchOption result (watched_by text.now ≡ None)
        (λ asked. watched_by text.now ≡ Some asked.now) }
{
    let asked = behind(WATCH, text)?;
    if asked.len() > LONGEST_ROUTED {
        return None;
    }
    Some(asked)
}

/// The name of which was asked where it goes, if that was sent.
pub fn routed_name(sent: &[u8]) -> Option<&[u8]>
    ensures { MatchOption result (routed_name sent.now ≡ None)
        (λ name. routed_name sent.now ≡ Some name.now) }
{
    routed_by(first_line_of(sent))
}

/// What was asked of a watch, if that was sent.
pub fn asked_of_watch(sent: &[u8]) -> Option<&[u8]>
    ensures { MatchOption result (asked_of_watch sent.now ≡ None)
        (λ asked. asked_of_watch sent.now ≡ Some asked.now) }
{
    watched_by(first_line_of(sent))
}

/// The bytes up to the first byte 10, or all.
fn first_line(sent: &[u8]) -> &[u8]
    ensures { result.now ≡ first_line sent.now }
{
    match first_newline(sent) {
        Some(place) => &sent[..place],
        None => sent,
    }
}

/// The place of the first byte 10, if there is one.
pub(crate) fn first_newline(sent: &[u8]) -> Option<usize>
    ensures { result ≡ position is_newline sent.now }
{
    sent.iter().position(|byte| *byte == b'\n')
}

/// A line without one byte 13 at its end.
fn without_return(line: &[u8]) -> &[u8]
    ensures { result.now ≡ strip_last carriage_return line.now }
{
    let count = line.len();
    if count > 0 && line[count - 1] == b'\r' {
        &line[..count - 1]
    } else {
        line
    }
}
