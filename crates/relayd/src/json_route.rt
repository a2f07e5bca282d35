//! `relayd route --json`: where a configuration sends metrics, as objects of JSON.

use crate::files::sources_at;
use crate::names_lines::WritesNames;
use crate::open_files::Files;
use command_line::Paths;
use conf_text::{Dest, Settings};
use line_text::{Name, NameFault, Point, Value};
use log_format::{push_key, push_member, push_string};
use relay_base::DestId;
use relay_files::{Configuration, RelayFault, Status, write_all};
use router::{Plan, Sent};
use std::alloc::{AllocError, Global};
use std::fmt::Write as _;
use std::io::Write;
use std::sync::Arc;

/// The routes of a configuration, and whether a name was bad, was dropped or went nowhere.
#[derive(Drop)]
pub struct JsonRoutes {
    alloc: Global,
    settings: Settings,
    plan: Plan,
    has_fault: bool,
}

impl JsonRoutes {
    /// Reads the files at these paths. It ends with their first fault, as `route` does.
    pub fn read<'a>(
        files: &'a Files<'a>,
        alloc: Global,
        paths: &'a Paths,
    ) -> Result<JsonRoutes, RelayFault> {
        let mut sources = sources_at(files, alloc, paths)?;
        let read = Configuration::read(alloc, &mut sources);
        drop(sources);
        let Configuration { settings, plan, .. } = read?;
        Ok(JsonRoutes {
            alloc,
            settings,
            plan,
            has_fault: false,
        })
    }

    /// The status of a command without a fault: 1 if it is strict, and a name was bad, was dropped or went nowhere.
    pub fn status(&self, is_strict: bool) -> Status {
        if is_strict && self.has_fault {
            Status::ConfigurationFault
        } else {
            Status::Done
        }
    }

    /// The object of a name, with a newline.
    fn object_of(&mut self, name: &[u8]) -> Result<String, RelayFault> {
        let point = point_named(self.alloc, name)?;
        let sent = self.plan.send(&point)?;
        self.has_fault = self.has_fault || sent.dests.is_empty();
        let mut text = String::new(self.alloc);
        let dests = self.settings.destinations();
        let pushed = push_route(&mut text, point.name.text(), &sent, dests);
        drop((point, sent));
        match pushed {
            Ok(()) => Ok(text),
            Err(_) => {
                drop(text);
                Err(RelayFault::NoMemory)
            }
        }
    }
}

impl WritesNames for JsonRoutes {
    /// Writes the object of a name, and a newline. It ends with `BadName` if the text is not a metric name.
    fn write_name<W: Write>(&mut self, name: &[u8], output: &mut W) -> Result<(), RelayFault> {
        let object = self.object_of(name)?;
        write_all(output, object.as_str().as_bytes())?;
        Ok(())
    }

    fn note_bad(&mut self) {
        self.has_fault = true;
    }
}

/// A datapoint with a name. What becomes of it does not depend on the rest.
fn point_named(alloc: Global, name: &[u8]) -> Result<Point, NameFault> {
    let name = Name::read(alloc, name)?;
    let name = Arc::new(alloc, name).map_err(|_| NameFault::NoMemory)?;
    Ok(Point {
        name,
        value: Value::of_whole(0),
        time: 0,
    })
}

/// Adds the object of a name of which this is sent.
fn push_route(
    text: &mut String,
    name: &str,
    sent: &Sent,
    dests: &[Dest],
) -> Result<(), AllocError> {
    text.push('{')?;
    push_member(text, "name", name)?;
    push_key(text, "rewritten")?;
    match &sent.point {
        Some(point) => push_string(text, point.name.text())?,
        None => text.push_str("null")?,
    }
    push_key(text, "destinations")?;
    push_destinations(text, dests, &sent.dests)?;
    push_key(text, "dropped")?;
    text.push_str(if sent.point.is_none() {
        "true"
    } else {
        "false"
    })?;
    text.push_str("}\n")
}

/// Adds the list of these destinations.
fn push_destinations(text: &mut String, dests: &[Dest], ids: &[DestId]) -> Result<(), AllocError> {
    text.push('[')?;
    for id in ids {
        if let Some(dest) = dests.get(id.0) {
            push_destination(text, dest)?;
        }
    }
    text.push(']')
}

/// Adds a destination of a list, and a comma before it unless it is the first.
fn push_destination(text: &mut String, dest: &Dest) -> Result<(), AllocError> {
    if !text.ends_with('[') {
        text.push(',')?;
    }
    write!(text, "\"{dest}\"")
}
