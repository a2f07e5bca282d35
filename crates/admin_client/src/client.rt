//! Commands for a running relay.

ghost use Rattle.std.specs.Prelude.{◌≡◌, ◌⊎◌, true, IfOk, IfErr};
ghost use Rattle.admin_client.specs.AdminAnswer.{IsAnswerTo, is_whole};

use crate::admin_command::AdminCommand;
use crate::admin_fault::AdminFault;
use crate::admin_key::request_of;
use crate::connection::{exchange, wait_for_end};
use std::alloc::Global;
use std::io::{Read, Write};
use std::net::{Ipv4Addr, Net, OpenStream, SocketAddr};
use std::rt::Clock;
use std::time::Duration;

/// How many milliseconds the system has to connect.
const CONNECT_TIMEOUT_MS: u64 = 5_000;

/// A relay, by its admin port on this machine, and the key of that, if it has one.
#[derive(Clone, Copy)]
pub struct RelayAt<'k> {
    /// The port.
    pub port: u16,
    /// The key.
    pub key: Option<&'k [u8]>,
}

impl RelayAt<'_> {
    /// The same relay, as one without a key.
    fn without_key(self) -> RelayAt<'static> {
        RelayAt {
            port: self.port,
            key: None,
        }
    }
}

/// A command for a relay, and what it asks about.
#[derive(Clone, Copy)]
struct Question<'a> {
    command: AdminCommand,
    asked: &'a [u8],
}

/// Sends a command to a relay, and copies its answer to the output.
///
/// Refuses a port at which nothing listens, and all that is not the whole answer of a relay, within some seconds; then it
/// has written nothing.
pub fn ask<R: Net + Clock, W: Write>(
    rt: &R,
    alloc: Global,
    relay: RelayAt<'_>,
    command: AdminCommand,
    output: &mut W,
) -> Result<(), AdminFault>
    ensures refused { IfErr result (λ fault. (fault ≡ AdminFault.Output) ⊎ (output.new ≡ output.old)) }
{
    let answer = answer_to(rt, alloc, relay, command)?;
    let written = write_answer(answer.as_slice(), output);
    drop(answer);
    written
}

/// Sends a command to a relay, and returns its answer. That to `reload` may take about a minute, and `reload_answer_in` reads
/// it; `reload_files_in` reads that to `files`.
///
/// Refuses a port at which nothing listens, and all that is not the whole answer of a relay. A relay without a key does not
/// know a command behind one, and is asked again.
pub fn answer_to<R: Net + Clock>(
    rt: &R,
    alloc: Global,
    relay: RelayAt<'_>,
    command: AdminCommand,
) -> Result<Vec<u8>, AdminFault>
    ensures ok { IfOk result (λ answer. IsAnswerTo command answer.items) }
    ensures whole { IfOk result (λ answer. is_whole answer.items ≡ true) }
{
    answer_about(rt, alloc, relay, command, &[])
}

/// Sends a command to a relay with what it asks about, and returns its answer: `route` asks about a metric name, and
/// `route_answer_in` reads where the relay sends that; `watch` asks what [`push_watch`](crate::push_watch) writes, and
/// `watch_answer_in` reads its answer. Other commands ask about nothing.
///
/// Refuses what [`answer_to`] refuses, and a name that is none, or that has more than
/// [`LONGEST_ROUTED`](crate::LONGEST_ROUTED) bytes (`UnknownCommand`).
pub fn answer_about<R: Net + Clock>(
    rt: &R,
    alloc: Global,
    relay: RelayAt<'_>,
    command: AdminCommand,
    asked: &[u8],
) -> Result<Vec<u8>, AdminFault>
    ensures ok { IfOk result (λ answer. IsAnswerTo command answer.items) }
    ensures whole { IfOk result (λ answer. is_whole answer.items ≡ true) }
{
    let question = Question { command, asked };
    match answer_once(rt, alloc, relay, question) {
        Err(AdminFault::UnknownCommand) if relay.key.is_some() => {
            answer_once(rt, alloc, relay.without_key(), question)
        }
        answer => answer,
    }
}

/// Sends a command to a relay once, with what it asks about, and returns its answer.
fn answer_once<R: Net + Clock>(
    rt: &R,
    alloc: Global,
    relay: RelayAt<'_>,
    question: Question<'_>,
) -> Result<Vec<u8>, AdminFault>
    ensures ok { IfOk result (λ answer. IsAnswerTo question.entry.command answer.items) }
    ensures whole { IfOk result (λ answer. is_whole answer.items ≡ true) }
{
    let command = question.command;
    let request = request_of(alloc, relay.key, command, question.asked)?;
    let answer = match connect(rt, relay.port) {
        Ok(mut stream) => {
            let answer = exchange(rt, alloc, &mut stream, command, request.as_slice());
            drop(stream);
            answer
        }
        Err(fault) => Err(fault),
    };
    drop(request);
    answer
}

/// Stops a relay, copies its answer to the output, and returns when it has ended.
///
/// Refuses what [`ask`] refuses, and a relay that has not ended within a day. If the output fails, it waits all the same,
/// and refuses then.
pub fn stop_and_wait<R: Net + Clock, W: Write>(
    rt: &R,
    alloc: Global,
    relay: RelayAt<'_>,
    output: &mut W,
) -> Result<(), AdminFault> {
    match stop_once(rt, alloc, relay, output) {
        Err(AdminFault::UnknownCommand) if relay.key.is_some() => {
            stop_once(rt, alloc, relay.without_key(), output)
        }
        ended => ended,
    }
}

/// Stops a relay by one request, and returns when it has ended.
fn stop_once<R: Net + Clock, W: Write>(
    rt: &R,
    alloc: Global,
    relay: RelayAt<'_>,
    output: &mut W,
) -> Result<(), AdminFault> {
    let request = request_of(alloc, relay.key, AdminCommand::Stop, &[])?;
    let ended = send_stop(rt, alloc, relay.port, request.as_slice(), output);
    drop(request);
    ended
}

/// Sends a request to stop, and returns when the relay has ended.
fn send_stop<R: Net + Clock, W: Write>(
    rt: &R,
    alloc: Global,
    port: u16,
    request: &[u8],
    output: &mut W,
) -> Result<(), AdminFault> {
    let mut stream = connect(rt, port)?;
    // A relay that was told to stop leaves alone who is silent then, and closes its admin port as its last act. Another
    // relay that listens there afterwards has nothing to do with this connection.
    let connected = connect(rt, port);
    let mut waiting = match connected {
        Ok(waiting) => waiting,
        Err(fault) => {
            drop(stream);
            return Err(fault);
        }
    };
    let asked = exchange(rt, alloc, &mut stream, AdminCommand::Stop, request);
    drop(stream);
    let ended = match asked {
        Ok(answer) => write_and_wait(answer, &mut waiting, output),
        Err(fault) => Err(fault),
    };
    drop(waiting);
    ended
}

/// Writes the answer to `stop`, and waits until the relay ends this connection.
fn write_and_wait<S: Read + OpenStream, W: Write>(
    answer: Vec<u8>,
    waiting: &mut S,
    output: &mut W,
) -> Result<(), AdminFault> {
    let written = write_answer(answer.as_slice(), output);
    drop(answer);
    wait_for_end(waiting)?;
    written
}

/// Writes an answer to the output.
fn write_answer<W: Write>(answer: &[u8], output: &mut W) -> Result<(), AdminFault>
    ensures refused { IfErr result (λ fault. fault ≡ AdminFault.Output) }
{
    if output.write_all(answer).is_err() || output.flush().is_err() {
        return Err(AdminFault::Output);
    }
    Ok(())
}

/// A connection to a port of this machine.
fn connect<R: Net>(rt: &R, port: u16) -> Result<R::Stream, AdminFault> {
    let address = SocketAddr::from((Ipv4Addr::LOCALHOST, port));
    match rt.connect_timeout(address, Duration::from_millis(CONNECT_TIMEOUT_MS)) {
        Ok(stream) => Ok(stream),
        Err(error) => Err(AdminFault::CannotConnect {
            reason: error.kind(),
        }),
    }
}
