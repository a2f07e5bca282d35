//! `relayd route NAME`: where a configuration sends a metric.

ghost use Rattle.std.specs.Prelude.{◌≡◌, ◌++◌, ◌⊎◌, true, false, Ok, IfOk, IfErr, OnOk, MatchOption, option_copied, slice_get};
ghost use Rattle.std.specs.String.{string_bytes};
ghost use Rattle.line_text.specs.Name.{is_name};
ghost use Rattle.relay_files.specs.Files.{AllReadAs};
ghost use Rattle.relay_commands.specs.Faults.{EndsAtName, FailsRoute};
ghost use Rattle.relay_files.specs.Output.{Writes};
ghost use Rattle.router.specs.Plan.{sent_by};
ghost use Rattle.relay_commands.specs.Route.{destination_word, destination_words, sent_line, point_named, route_answer};

use conf_text::Dest;
use line_text::{Name, NameFault, Point, Value};
use relay_base::{DestId, NoMemory};
use relay_files::{Configuration, RelayFault, Source, Sources, Status, write_out};
use router::{Plan, Sent};
use std::alloc::{AllocError, Global};
use std::fmt::Write as _;
use std::io::Write;
use std::sync::Arc;

/// Reads a configuration from its files, and writes what becomes of a datapoint with this name: its rewritten
/// name and its destinations, separated by one space, or `dropped`; and byte 10.
///
/// It ends with the first fault of the files, and then opened no file after the one at fault; if they have
/// none, with `BadName` if the text is not a metric name. It wrote nothing then. It ends with `Output` if a
/// write failed, and with `NoMemory` if a growth was refused.
pub fn route<S: Source, W: Write>(
    alloc: Global,
    sources: &mut Sources<S>,
    name: &str,
    output: &mut W,
) -> Result<Status, RelayFault>
    ensures status { IfOk result (λ status. status ≡ Status.Done) }

    // If the bytes of the ends are known: at the end the writer has gained exactly the text.
    ensures output { OnOk result (AllReadAs S.bytes sources.old
        (λ files. Writes (W.contents output.old) (W.contents output.new)
        (route_answer files name.now))) }

    // At a fault of the files or the name, or out of memory, it has gained nothing; at its own, a first part.
    ensures fault { IfErr result (λ fault. AllReadAs S.bytes sources.old
        (FailsRoute sources.old sources.new (W.contents output.old)
        (W.contents output.new) name.now fault)) }
{
    let line = route_line(alloc, sources, name)?;
    write_out(output, line.as_str().as_bytes())?;
    Ok(Status::Done)
}

/// The line of a name under the configuration of files.
fn route_line<S: Source>(
    alloc: Global,
    sources: &mut Sources<S>,
    name: &str,
) -> Result<String, RelayFault>
    ensures ok { IfOk result (λ line. AllReadAs S.bytes sources.old
        (λ files. route_answer files name.now ≡ Ok (string_bytes line))) }
    ensures err { IfErr result (λ fault. AllReadAs S.bytes sources.old
        (EndsAtName sources.old sources.new name.now fault)) }
{
    let mut configuration = Configuration::read(alloc, sources)?;
    let line = line_under(alloc, &mut configuration, name);
    drop(configuration);
    line
}

/// The line of a name under a configuration.
fn line_under(
    alloc: Global,
    configuration: &mut Configuration,
    name: &str,
) -> Result<String, RelayFault>
    ensures ok { IfOk result (λ line. (string_bytes line
        ≡ sent_line configuration.old.settings.routing.destinations
        (sent_by configuration.old.plan (point_named name.now))) × (is_name name.now ≡ true)) }
    ensures err { IfErr result (λ fault. (fault ≡ RelayFault.NoMemory)
        ⊎ ((fault ≡ RelayFault.BadName) × (is_name name.now ≡ false))) }
{
    let point = point_named(alloc, name.as_bytes())?;
    let sent = configuration.plan.send(&point)?;
    let line = line_of(alloc, configuration.settings.destinations(), &sent)?;
    Ok(line)
}

/// A datapoint with a name. What becomes of it does not depend on the rest.
fn point_named(alloc: Global, name: &[u8]) -> Result<Point, NameFault>
    ensures ok { IfOk result (λ point. (point ≡ point_named name.now) × (is_name name.now ≡ true)) }
    ensures err { IfErr result (λ fault. (fault ≡ NameFault.NoMemory)
        ⊎ ((fault ≡ NameFault.BadName) × (is_name name.now ≡ false))) }
{
    let name = Name::read(alloc, name)?;
    let name = Arc::new(alloc, name).map_err(|_| NameFault::NoMemory)?;
    Ok(Point {
        name,
        value: Value::of_whole(0),
        time: 0,
    })
}

/// A datapoint with the name of a text, and what a plan sends of it.
#[derive(Drop)]
pub(crate) struct Routed {
    pub(crate) point: Point,
    pub(crate) sent: Sent,
}

/// What a plan does with a name, or `None` if the text is not a name.
pub(crate) fn routed_by(
    alloc: Global,
    plan: &mut Plan,
    name: &[u8],
) -> Result<Option<Routed>, NoMemory>
    ensures routed { IfOk result (λ routed. MatchOption routed (is_name name.now ≡ false)
        (λ routed. (routed.point ≡ point_named name.now)
        × (routed.sent ≡ sent_by plan.old (point_named name.now))
        × (is_name name.now ≡ true))) }
    ensures same { plan.new ≡ plan.old }
{
    let point = match point_named(alloc, name) {
        Ok(point) => point,
        Err(NameFault::BadName) => return Ok(None),
        Err(NameFault::NoMemory) => return Err(NoMemory),
    };
    let sent = plan.send(&point)?;
    Ok(Some(Routed { point, sent }))
}

/// The line of what is sent.
fn line_of(alloc: Global, dests: &[Dest], sent: &Sent) -> Result<String, NoMemory>
    ensures { IfOk result (λ line. string_bytes line ≡ sent_line dests.now sent.now) }
{
    let mut line = String::new(alloc);
    push_sent(&mut line, dests, sent)?;
    Ok(line)
}

/// Adds the line of what is sent.
pub(crate) fn push_sent(line: &mut String, dests: &[Dest], sent: &Sent) -> Result<(), AllocError>
    ensures { OnOk result
        (string_bytes line.new ≡ string_bytes line.old ++ sent_line dests.now sent.now) }
{
    match &sent.point {
        Some(point) => {
            line.push_str(point.name.text())?;
            push_destinations(line, dests, &sent.dests)?;
        }
        None => line.push_str("dropped")?,
    }
    line.push('\n')
}

/// Adds the destinations, each after a space.
fn push_destinations(line: &mut String, dests: &[Dest], ids: &[DestId]) -> Result<(), AllocError>
    ensures { OnOk result
        (string_bytes line.new ≡ string_bytes line.old ++ destination_words dests.now ids.now) }
{
    for id in ids {
        push_destination(line, dest_at(dests, *id))?;
    }
    Ok(())
}

/// Adds a destination after a space.
fn push_destination(line: &mut String, dest: Option<&Dest>) -> Result<(), AllocError>
    ensures { OnOk result (string_bytes line.new ≡ string_bytes line.old
        ++ destination_word (option_copied dest.entry)) }
{
    match dest {
        Some(dest) => write!(line, " {dest}"),
        None => Ok(()),
    }
}

/// The destination at an index of DESTINATIONS.
fn dest_at(dests: &[Dest], id: DestId) -> Option<&Dest>
    ensures { option_copied result ≡ slice_get dests.now id.0 }
{
    dests.get(id.0)
}
