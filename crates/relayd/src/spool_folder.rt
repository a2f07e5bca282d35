//! The folder of `--spool`.

use crate::file_limit::{ErrorRoom, file_limit};
use conf_text::Dest;
use note_text::Notes;
use relay_base::NoMemory;
use relay_files::{RelayFault, Status};
use relay_run::{SpoolFault, SpoolFolder};
use spool::{LOCK, SpoolDisk, TRIAL, fits_name, is_of_no_destination};
use std::alloc::Global;
use std::fs::{File, TryLockError};
use std::io::{ErrorKind, Write};
use std::os::unix::fs::MetadataExt;
use std::time::Duration;
use std::{fs, io, thread};

/// How often a folder that is in use is tried again, and after how many milliseconds each time: a relay that ends has its
/// folder for a moment after `stop --wait`.
const TRIES: usize = 100;

const PAUSE_MS: u64 = 10;

/// How many bytes a line on standard error has at most.
const LONGEST_LINE: usize = 4_200;

/// A folder that this relay alone uses, for as long as it has this value.
#[derive(Drop)]
pub struct OwnFolder {
    path: String,
    owner: Option<u32>,
    limit: Option<u64>,
    fault: SpoolFault,
    _lock: File,
}

impl OwnFolder {
    /// The folder, for a run that keeps so many bytes in its files while it goes on, if it does.
    pub fn folder(&self, size: Option<u64>) -> SpoolFolder<'_> {
        SpoolFolder {
            path: self.path.as_str(),
            owner: self.owner,
            limit: self.limit,
            size,
            fault: &self.fault,
        }
    }
}

/// How a run ends that ended so, and had this folder, if it had one: what is to be said of it, and what failed there, is said on
/// standard error, and the status is that of a device if something failed.
pub fn end_with_fault(
    rt: &HostRuntime,
    own: &Option<OwnFolder>,
    ended: Result<Status, RelayFault>,
) -> Result<Status, RelayFault> {
    let Some(own) = own else {
        return ended;
    };
    if let Some(news) = own.fault.news() {
        for line in news.lines() {
            say(rt, line);
        }
    }
    let Some(text) = own.fault.text() else {
        return ended;
    };
    say_fault(rt, text);
    match ended {
        Ok(Status::Done) | Err(RelayFault::Output) => Ok(Status::DeviceFault),
        ended => ended,
    }
}

/// Why a folder cannot be used.
#[derive(Drop)]
enum FolderFault {
    CannotWrite(io::Error),
    InUse,
    NoFile,
}

/// The folder at a path, if one is given. Refuses, with a line on standard error, one that another relay uses or that takes no
/// files: it makes one, writes to it, waits until that is on the disk, and removes it. A disk without room is no reason, since the
/// relay can do its work: it says so.
pub fn own_folder(
    rt: &HostRuntime,
    alloc: Global,
    path: &Option<String>,
) -> Result<Option<OwnFolder>, Status> {
    let Some(path) = path else {
        return Ok(None);
    };
    let (Ok(own_path), Ok(lock), Ok(trial)) = (
        String::from_str(alloc, path.as_str()),
        format!(in alloc; "{path}/{LOCK}"),
        format!(in alloc; "{path}/{TRIAL}"),
    ) else {
        return Err(Status::NoMemory);
    };
    let path = path.as_str();
    match locked(rt, lock.as_str()) {
        Ok(file) => {
            let owner = try_to_write(rt, path, trial.as_str())?;
            Ok(Some(OwnFolder {
                path: own_path,
                owner,
                limit: file_limit(rt),
                fault: SpoolFault::none(),
                _lock: file,
            }))
        }
        Err(FolderFault::InUse) => {
            say_of(rt, path, "another relay uses it");
            Err(Status::DeviceFault)
        }
        Err(FolderFault::CannotWrite(error)) => {
            say_failed(rt, path, &error);
            Err(Status::DeviceFault)
        }
        Err(FolderFault::NoFile) => {
            say_of(rt, lock.as_str(), "no regular file");
            Err(Status::DeviceFault)
        }
    }
}

/// Opens and locks a file. Tries for a second if another relay has it. Refuses what is no regular file.
fn locked(rt: &HostRuntime, path: &str) -> Result<File, FolderFault> {
    match rt.look_at(path) {
        Ok(there) if !there.is_file() => return Err(FolderFault::NoFile),
        _ => {}
    }
    let file = match rt.open_records(path) {
        Ok(file) => file,
        Err(error) => return Err(FolderFault::CannotWrite(error)),
    };
    for _ in 0..TRIES {
        match file.try_lock() {
            Ok(()) => return Ok(file),
            Err(TryLockError::WouldBlock) => thread::sleep(rt, Duration::from_millis(PAUSE_MS)),
            Err(TryLockError::Error(error)) => return Err(FolderFault::CannotWrite(error)),
        }
    }
    Err(FolderFault::InUse)
}

/// Writes a file, and removes it again. Returns whose files those of this relay are, if the system says it. Refuses, with a line on
/// standard error, if it cannot; but not if only room is lacking.
fn try_to_write(rt: &HostRuntime, path: &str, trial: &str) -> Result<Option<u32>, Status> {
    let mut owner = None;
    let _ = fs::remove_file(rt, trial);
    let written = write_trial(rt, trial, &mut owner);
    let removed = fs::remove_file(rt, trial);
    match written.and(removed) {
        Ok(()) => Ok(owner),
        Err(error) if is_lack_of_room(&error) => {
            say_of(rt, path, "no room");
            Ok(owner)
        }
        Err(error) => {
            say_failed(rt, path, &error);
            Err(Status::DeviceFault)
        }
    }
}

fn write_trial(rt: &HostRuntime, trial: &str, owner: &mut Option<u32>) -> io::Result<()> {
    let mut file = rt.make_new(trial)?;
    *owner = Some(file.metadata()?.uid());
    file.write_all(b"\n")?;
    file.sync_all()
}

fn is_lack_of_room(error: &io::Error) -> bool {
    matches!(
        error.kind(),
        ErrorKind::StorageFull | ErrorKind::QuotaExceeded
    )
}

/// Writes a line about a path on standard error, if it has room there.
fn say_of(rt: &HostRuntime, path: &str, text: &str) {
    if rt.error_has_room(file_limit(rt), LONGEST_LINE) {
        let _ = eprintln!(rt; "relayd: spool: {path}: {text}");
    }
}

/// Writes a line about a path that cannot be written, and why, on standard error, if it has room there.
fn say_failed(rt: &HostRuntime, path: &str, error: &io::Error) {
    if rt.error_has_room(file_limit(rt), LONGEST_LINE) {
        let _ = eprintln!(rt; "relayd: spool: {path}: cannot write: {error}");
    }
}

/// Writes a line about what failed on standard error, if it has room there.
fn say_fault(rt: &HostRuntime, text: &str) {
    if rt.error_has_room(file_limit(rt), LONGEST_LINE) {
        let _ = eprintln!(rt; "relayd: spool: {text}");
    }
}

/// Writes a line on standard error, if it has room there.
fn say(rt: &HostRuntime, line: &str) {
    if rt.error_has_room(file_limit(rt), LONGEST_LINE) {
        let _ = eprintln!(rt; "relayd: {line}");
    }
}

/// A note for each file of a folder that is of none of these destinations, and for each of these whose name is too long for a
/// file.
pub fn notes_of_folder(
    rt: &HostRuntime,
    alloc: Global,
    folder: &str,
    dests: &[Dest],
) -> Result<Notes, NoMemory> {
    let mut notes = Notes::new(alloc);
    match add_folder_notes(rt, alloc, folder, dests, &mut notes) {
        Ok(()) => notes.finish(),
        Err(fault) => {
            drop(notes);
            Err(fault)
        }
    }
}

fn add_folder_notes(
    rt: &HostRuntime,
    alloc: Global,
    folder: &str,
    dests: &[Dest],
    notes: &mut Notes,
) -> Result<(), NoMemory> {
    let Ok(names) = rt.names_in(alloc, folder) else {
        notes.add(format_args!("spool: {folder}: cannot read this folder"));
        return Ok(());
    };
    for name in &names {
        let name = name.as_str();
        if is_of_no_destination(alloc, name, dests)? {
            notes.add(format_args!(
                "spool: {folder}/{name}: of no destination in DESTINATIONS, so no relay sends it"
            ));
        }
    }
    drop(names);
    for dest in dests {
        if !fits_name(alloc, dest)? {
            notes.add(format_args!(
                "spool: {dest}: too long a name for a file, so nothing of it is kept"
            ));
        }
    }
    Ok(())
}
