//! `relayd route --admin`: where a running relay sends metrics.

use crate::admin::{relay_at, status_of};
use crate::admin_key::key_at;
use crate::buffered_output;
use crate::names_lines::{WritesNames, write_names};
use crate::open_files::Files;
use crate::strict::input_at;
use admin_client::{
    AdminCommand, AdminFault, LONGEST_ROUTED, RelayAt, RouteAnswer, answer_about, route_answer_in,
};
use command_line::{AskedNames, LiveRouteCommand, OutputForm};
use line_text::Name;
use log_format::{push_key, push_member, push_string};
use relay_base::{NoMemory, utf8_text};
use relay_files::{RelayFault, Role, Status, flush, write_all};
use std::alloc::Global;
use std::io::Write;

/// The routes of a running relay, as they are written.
#[derive(Drop)]
struct LiveRoutes<'r> {
    rt: &'r HostRuntime,
    alloc: Global,
    relay: RelayAt<'r>,
    form: OutputForm,
    // Whether the line of a name begins with it if the relay sends on another one, or none.
    shows_name: bool,
    // Whether a name was bad, was dropped or went nowhere.
    has_fault: bool,
    // Why the relay has not answered, if it has not.
    refused: Option<AdminFault>,
}

/// Writes where a running relay sends the metrics of these names, and reports bad ones on standard error.
pub fn run_live_route<'a>(
    files: &'a Files<'a>,
    alloc: Global,
    command: &'a LiveRouteCommand,
) -> Result<Status, RelayFault> {
    let rt = files.runtime();
    let (admin, asked, wanted) = (&command.admin, &command.asked, command.output);
    let key = match key_at(rt, alloc, &admin.key) {
        Ok(key) => key,
        Err(status) => return Ok(status),
    };
    let relay = relay_at(admin, &key);
    let shows_name = matches!(asked, AskedNames::File(_));
    let mut routes = LiveRoutes::new(rt, alloc, relay, wanted.form, shows_name);
    let written = routes.write_asked(files, asked);
    if let Some(fault) = routes.refused {
        return Ok(status_of(rt, admin.port, Err(fault)));
    }
    written?;
    Ok(if wanted.is_strict && routes.has_fault {
        Status::ConfigurationFault
    } else {
        Status::Done
    })
}

impl<'r> LiveRoutes<'r> {
    /// The routes of a relay, of which none was asked for yet.
    fn new(
        rt: &'r HostRuntime,
        alloc: Global,
        relay: RelayAt<'r>,
        form: OutputForm,
        shows_name: bool,
    ) -> LiveRoutes<'r> {
        LiveRoutes {
            rt,
            alloc,
            relay,
            form,
            shows_name,
            has_fault: false,
            refused: None,
        }
    }

    /// Writes where these go.
    fn write_asked<'a>(
        &mut self,
        files: &'a Files<'a>,
        asked: &'a AskedNames,
    ) -> Result<(), RelayFault> {
        let mut output = buffered_output(self.rt, self.alloc)?;
        match asked {
            AskedNames::Name(name) => {
                self.write_name(name.as_bytes(), &mut output)?;
                flush(&mut output)?;
                Ok(())
            }
            AskedNames::File(path) => {
                let names = input_at(files, self.alloc, Role::Names, path)?;
                let mut notes = self.rt.stderr();
                write_names(self.alloc, self, &names, &mut output, &mut notes)
            }
        }
    }

    /// What the relay answers about a name. If it does not, that is kept, and the run ends with a fault of the input.
    fn answer(&mut self, name: &[u8]) -> Result<Vec<u8>, RelayFault> {
        let asked = if name.len() > LONGEST_ROUTED {
            Err(AdminFault::LongName)
        } else {
            answer_about(self.rt, self.alloc, self.relay, AdminCommand::Route, name)
        };
        match asked {
            Ok(answer) => Ok(answer),
            Err(fault) => {
                self.refused = Some(fault);
                Err(RelayFault::Input)
            }
        }
    }

    /// The line or the object of a name of which the relay answers this.
    fn text_of(&mut self, name: &str, answer: RouteAnswer<'_>) -> Result<String, RelayFault> {
        let words = words_of(answer);
        self.has_fault = self.has_fault || !goes_somewhere(words);
        let mut text = String::new(self.alloc);
        match self.form {
            OutputForm::Json => push_object(&mut text, name, words)?,
            OutputForm::Text => push_line(&mut text, name, words, self.shows_name)?,
        }
        Ok(text)
    }
}

impl WritesNames for LiveRoutes<'_> {
    fn write_name<W: Write>(&mut self, name: &[u8], output: &mut W) -> Result<(), RelayFault> {
        let name = Name::read(self.alloc, name)?;
        let answer = self.answer(name.text().as_bytes())?;
        let Some(said) = route_answer_in(answer.as_slice()) else {
            // The client has read this answer, and found that it is one.
            return Err(RelayFault::Input);
        };
        let text = self.text_of(name.text(), said)?;
        write_all(output, text.as_str().as_bytes())?;
        Ok(())
    }

    fn note_bad(&mut self) {
        self.has_fault = true;
    }
}

/// The new name of a metric and its destinations, separated by one space; `None` if it is dropped.
fn words_of(answer: RouteAnswer<'_>) -> Option<&str> {
    match answer {
        RouteAnswer::Sent(line) => {
            Some(utf8_text(line.strip_suffix(b"\n").unwrap_or(line)).unwrap_or(""))
        }
        RouteAnswer::Dropped => None,
    }
}

/// Whether a metric with these words has a destination.
fn goes_somewhere(words: Option<&str>) -> bool {
    match words {
        Some(words) => words.contains(' '),
        None => false,
    }
}

/// Adds the line of a name with these words, after the name if the relay sends on another one, or none, and that is wanted.
fn push_line(
    text: &mut String,
    name: &str,
    words: Option<&str>,
    shows_name: bool,
) -> Result<(), NoMemory> {
    let is_other = match words {
        Some(words) => words.split(' ').next() != Some(name),
        None => true,
    };
    if shows_name && is_other {
        text.push_str(name)?;
        text.push(' ')?;
    }
    text.push_str(words.unwrap_or("dropped"))?;
    Ok(text.push('\n')?)
}

/// Adds the object of a name with these words.
fn push_object(text: &mut String, name: &str, words: Option<&str>) -> Result<(), NoMemory> {
    text.push('{')?;
    push_member(text, "name", name)?;
    push_key(text, "rewritten")?;
    let Some(words) = words else {
        return Ok(text.push_str("null,\"destinations\":[],\"dropped\":true}\n")?);
    };
    let mut words = words.split(' ');
    push_string(text, words.next().unwrap_or(""))?;
    push_key(text, "destinations")?;
    text.push('[')?;
    for dest in words {
        if !text.ends_with('[') {
            text.push(',')?;
        }
        push_string(text, dest)?;
    }
    Ok(text.push_str("],\"dropped\":false}\n")?)
}
