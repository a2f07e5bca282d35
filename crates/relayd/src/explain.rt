//! `--explain`: notes for people on standard error, beside the output of a command.

use crate::files::read_regular;
use crate::memory_there::memory_there;
use crate::note_output::NoteOutput;
use crate::open_files::Files;
use crate::reread_files::{RereadFile, RereadFiles};
use crate::spool_folder::notes_of_folder;
use crate::system_faults::{settings_of, write_fault_notes, write_hint};
use command_line::{AskedNames, Explain, Invocation, Paths};
use config_notes::{NotesWanted, RunLimits, notes_of_files};
use fault_notes::{Seconds, WatchedInput, notes_of_fault, notes_of_name, notes_of_names};
use line_text::Moment;
use note_text::{EscapedText, Notes};
use relay_base::NoMemory;
use relay_files::{RelayFault, Role, Status};
use std::alloc::Global;
use std::io::{Stderr, Stdin, Write};
use std::time::Instant;

/// How a command ended: its status, and its fault, if it had one.
#[derive(Clone, Copy)]
pub struct CommandEnd {
    pub status: Status,
    pub fault: Option<RelayFault>,
}

/// Writes the notes that a command was asked for, and returns how it ends. If there is no memory for them, there are none. One that
/// was not asked for notes, and has a fault, has a hint at a terminal.
pub fn end_with_notes(
    files: &Files<'_>,
    alloc: Global,
    invocation: &Invocation,
    end: CommandEnd,
) -> Status {
    let (paths, explain) = match invocation {
        // A reload has written its notes, of the files that the relay has named.
        Invocation::Report { .. }
        | Invocation::Watch { .. }
        | Invocation::Stop { .. }
        | Invocation::Reload { .. } => return end.status,
        Invocation::Pass(command) => {
            if command.ignores_files && command.explain != Explain::Nothing {
                let _ = files.runtime().stderr().write_all(FILES_OF_PASS.as_bytes());
            }
            return end.status;
        }
        Invocation::LiveRoute(command) => {
            if command.explain != Explain::Nothing && end.status != Status::NoMemory {
                write_asked_notes(files, alloc, &command.asked);
            }
            return end.status;
        }
        Invocation::Check(command) => (&command.paths, command.explain),
        Invocation::Route(command) => (&command.paths, command.explain),
        Invocation::Replay(command) => (&command.paths, command.explain),
        Invocation::Run(command) => (&command.paths, command.explain),
        Invocation::Restart { paths, explain, .. } => (paths, *explain),
    };
    if end.status == Status::NoMemory || has_had_notes(invocation, end) {
        return end.status;
    }
    match (explain, end.fault) {
        (Explain::Nothing, None) => {}
        (Explain::Nothing, Some(fault)) => write_hint(files, alloc, invocation, paths, fault),
        _ => return end_explained(files, alloc, invocation, paths, explain, end),
    }
    end.status
}

/// Whether a command has had its notes at its start: a relay that was stopped, and one that is restarted.
fn has_had_notes(invocation: &Invocation, end: CommandEnd) -> bool {
    matches!(invocation, Invocation::Run(_) | Invocation::Restart { .. }) && end.fault.is_none()
}

/// Writes the notes of a command over the files at these paths, and returns how it ends.
fn end_explained(
    files: &Files<'_>,
    alloc: Global,
    invocation: &Invocation,
    paths: &Paths,
    explain: Explain,
    end: CommandEnd,
) -> Status {
    let rt = files.runtime();
    let is_strict = explain == Explain::StrictNotes;
    let wanted = if is_strict {
        NotesWanted::Mistakes
    } else {
        NotesWanted::All
    };
    let mut output = NoteOutput::new(rt, alloc, invocation, paths, end.fault.is_some());
    output.write(notes_of(files, alloc, invocation, paths, wanted));
    if let Invocation::Check(command) = invocation {
        if let Some(folder) = &command.spool {
            output.write(notes_of_spool(files, alloc, paths, folder));
        }
    }
    let (has_notes, failure) = (output.has_notes(), output.failure());
    drop(output);
    if let Some(failure) = failure {
        let _ = eprintln!(rt; "relayd: {failure}");
        return failure.status();
    }
    if let Some(fault) = end.fault {
        write_fault_notes(files, alloc, invocation, fault);
    }
    if let Invocation::Route(command) = invocation {
        write_asked_notes(files, alloc, &command.asked);
    }
    if is_strict && has_notes && end.status == Status::Done {
        return Status::ConfigurationFault;
    }
    end.status
}

/// Writes the notes of the files at these paths, which were checked and have no fault, as `check` writes them. If there is no
/// memory for them, there are none.
pub fn write_start_notes(files: &Files<'_>, alloc: Global, paths: &Paths) {
    let _ = write(
        files.runtime(),
        notes_at(files, alloc, paths, true, NotesWanted::All),
    );
}

/// Whether a command reads files again for notes.
pub fn wants_notes(invocation: &Invocation) -> bool {
    match invocation {
        Invocation::Check(command) => command.explain != Explain::Nothing,
        Invocation::Route(command) => command.explain != Explain::Nothing,
        Invocation::LiveRoute(command) => command.explain != Explain::Nothing,
        Invocation::Replay(command) => command.explain != Explain::Nothing,
        Invocation::Run(command) => command.explain != Explain::Nothing,
        Invocation::Restart { explain, .. } => *explain != Explain::Nothing,
        _ => false,
    }
}

/// The note of `pass` with options that it takes and does not use.
const FILES_OF_PASS: &str =
    "relayd: note: pass reads no files: --config, --rules and --rewrite have no effect\n";

/// Notes of the files of a spool, if the configuration can be read.
fn notes_of_spool(
    files: &Files<'_>,
    alloc: Global,
    paths: &Paths,
    folder: &String,
) -> Result<Notes, NoMemory> {
    let config = RereadFile::new(files, alloc, &paths.config)?;
    let settings = settings_of(alloc, &config);
    drop(config);
    let Some(settings) = settings else {
        return Ok(Notes::new(alloc));
    };
    let dests = settings.destinations();
    let notes = notes_of_folder(files.runtime(), alloc, folder.as_str(), dests);
    drop(settings);
    notes
}

/// Writes the notes of the names of which `route` was asked.
fn write_asked_notes(files: &Files<'_>, alloc: Global, asked: &AskedNames) {
    let notes = match asked {
        AskedNames::Name(name) => notes_of_name(alloc, name),
        AskedNames::File(path) => notes_of_names_at(files, alloc, path),
    };
    let _ = write(files.runtime(), notes);
}

/// Notes of a file of names.
fn notes_of_names_at(files: &Files<'_>, alloc: Global, path: &String) -> Result<Notes, NoMemory> {
    let file = RereadFile::new(files, alloc, path)?;
    notes_of_names(alloc, file.source())
}

/// Writes notes, and returns whether there are any.
pub fn write(rt: &HostRuntime, notes: Result<Notes, NoMemory>) -> bool {
    match notes {
        Ok(notes) => {
            let _ = rt.stderr().write_all(notes.text().as_bytes());
            !notes.is_empty()
        }
        Err(NoMemory) => false,
    }
}

/// The notes of the files at these paths, which are read again: of their first fault, or, if they have none, of what they
/// may not intend; a run and a restart have had those.
fn notes_of(
    files: &Files<'_>,
    alloc: Global,
    invocation: &Invocation,
    paths: &Paths,
    wanted: NotesWanted,
) -> Result<Notes, NoMemory> {
    match invocation {
        Invocation::Run(_) | Invocation::Restart { .. } => fault_notes_at(files, alloc, paths),
        _ => {
            let is_check = matches!(invocation, Invocation::Check(_));
            notes_at(files, alloc, paths, is_check, wanted)
        }
    }
}

/// The notes of the first fault of the files at these paths, if they have one.
fn fault_notes_at(files: &Files<'_>, alloc: Global, paths: &Paths) -> Result<Notes, NoMemory> {
    let read = RereadFiles::new(files, alloc, paths)?;
    let sources = read.sources();
    match notes_of_fault(alloc, &sources)? {
        Some(notes) => Ok(notes),
        None => Ok(Notes::new(alloc)),
    }
}

/// The notes of the files of a running relay, as `check` writes them, if this user may read them.
pub fn notes_of_reload(rt: &HostRuntime, alloc: Global, paths: &Paths) -> Result<Notes, NoMemory> {
    for role in [Role::Config, Role::Rules, Role::Rewrite] {
        let Some(path) = paths.path_of(role) else {
            continue;
        };
        if let Err(error) = read_regular(rt, alloc, path) {
            let reason = error.to_string(alloc);
            drop(error);
            return notes_of_unread(alloc, path, reason?.as_str());
        }
    }
    notes_at(&Files::new(rt, false), alloc, paths, true, NotesWanted::All)
}

/// The note of a file of a running relay that this user may not read.
fn notes_of_unread(alloc: Global, path: &str, reason: &str) -> Result<Notes, NoMemory> {
    let mut notes = Notes::new(alloc);
    notes.add(format_args!("{}: {reason}", EscapedText(path)));
    notes.add(
        "there are notes only on files that this user may read; the relay reads them with its own rights",
    );
    notes.finish()
}

/// The notes of the files at these paths.
fn notes_at(
    files: &Files<'_>,
    alloc: Global,
    paths: &Paths,
    is_check: bool,
    wanted: NotesWanted,
) -> Result<Notes, NoMemory> {
    let read = RereadFiles::new(files, alloc, paths)?;
    let sources = read.sources();
    let limits = RunLimits {
        memory: memory_there(files.runtime(), alloc),
        lacks_longest_name: is_check && paths.longest_name.is_none(),
    };
    match notes_of_fault(alloc, &sources)? {
        Some(notes) => Ok(notes),
        None => notes_of_files(alloc, &sources, limits, wanted),
    }
}

/// The seconds of a run.
#[derive(Drop)]
pub struct RunClock<'r> {
    rt: &'r HostRuntime,
    start: Option<Instant>,
}

impl Seconds for RunClock<'_> {
    fn seconds(&self) -> u64 {
        match self.start {
            Some(start) => start.elapsed(self.rt).map_or(0, |passed| passed.as_secs()),
            None => 0,
        }
    }
}

/// Standard input; notes of its bad lines go to standard error as they are read.
pub fn watched_input(
    rt: &HostRuntime,
    alloc: Global,
    moment: Moment,
) -> WatchedInput<Stdin, Stderr, RunClock<'_>> {
    let clock = RunClock {
        rt,
        start: Instant::now(rt).ok(),
    };
    WatchedInput::new(alloc, rt.stdin(), rt.stderr(), clock, moment)
}
