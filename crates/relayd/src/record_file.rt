//! The file of `--record`.

use crate::file_limit::{ErrorRoom, file_limit};
use finished_run::{FinishedRun, Recorder, RunPlace};
use relay_files::Status;
use run_record::{RecordFault, record_run};
use std::alloc::Global;
use std::fs::{File, OpenOptions};
use std::io::Write;
use std::os::unix::fs::OpenOptionsExt;
use std::{fs, io};

/// The permissions of the file: its owner reads and writes it. It has what producers sent.
const OWNER_ALONE: u32 = 0o600;

/// How many bytes a line on standard error has at most.
const LONGEST_LINE: usize = 4_300;

/// The file that takes the record of a run.
#[derive(Drop)]
pub struct RecordFile<'a> {
    rt: &'a HostRuntime,
    path: &'a str,
    // The file beside it that the record is written to before it takes this name.
    part: String,
    // The status of a run that is otherwise done.
    status: &'a mut Status,
}

/// The recorder that writes to the file at a path, if one is given. It sets the status if there is no record. Refuses, with
/// a line on standard error, a file that cannot be written: what is there is no regular file, or its folder takes none.
pub fn recorder_of<'a>(
    rt: &'a HostRuntime,
    alloc: Global,
    path: &'a Option<String>,
    status: &'a mut Status,
) -> Result<Option<RecordFile<'a>>, Status> {
    let Some(path) = path else {
        return Ok(None);
    };
    let Ok(part) = format!(in alloc; "{path}.part") else {
        return Err(Status::NoMemory);
    };
    if is_no_file(rt, path.as_str()) {
        say_no_file(rt, path.as_str());
        drop(part);
        return Err(Status::DeviceFault);
    }
    if let Err(error) = try_to_write(rt, part.as_str()) {
        say_failed(rt, path.as_str(), &error);
        drop(part);
        return Err(Status::DeviceFault);
    }
    Ok(Some(RecordFile {
        rt,
        path: path.as_str(),
        part,
        status,
    }))
}

impl Recorder for RecordFile<'_> {
    /// Writes the record of the last run to the file, and that of run `n` before it to the file with `.n` behind its name.
    fn take(&mut self, alloc: Global, place: RunPlace, run: &FinishedRun<'_>) {
        let rt = self.rt;
        match record_run(alloc, run) {
            Ok(script) => {
                if let Err(error) = self.write(alloc, place, script.as_str()) {
                    say_failed(rt, self.path, &error);
                    *self.status = Status::DeviceFault;
                }
            }
            Err(fault) => {
                if rt.error_has_room(file_limit(rt), LONGEST_LINE) {
                    let _ = eprintln!(rt; "relayd: record: {fault}");
                }
                *self.status = status_of(fault);
            }
        }
    }
}

impl RecordFile<'_> {
    /// Writes a record to the file of a run.
    fn write(&self, alloc: Global, place: RunPlace, text: &str) -> io::Result<()> {
        let part = self.part.as_str();
        match place {
            RunPlace::Last => write_record(self.rt, self.path, part, text),
            RunPlace::Followed { number } => {
                let Ok(path) = format!(in alloc; "{}.{number}", self.path) else {
                    return Err(io::Error::from(io::ErrorKind::OutOfMemory));
                };
                write_record(self.rt, path.as_str(), part, text)
            }
        }
    }
}

/// Whether there is something at a path that a record cannot take the place of: no regular file, and no link.
fn is_no_file(rt: &HostRuntime, path: &str) -> bool {
    match fs::symlink_metadata(rt, path) {
        Ok(there) => !there.is_file() && !there.is_symlink(),
        Err(_) => false,
    }
}

/// Makes a file anew, and removes it again.
fn try_to_write(rt: &HostRuntime, part: &str) -> io::Result<()> {
    let made = make_part(rt, part)?;
    drop(made);
    fs::remove_file(rt, part)
}

/// Writes a record to the file beside its path, and gives it its name. If it cannot, an older record stays as it is.
fn write_record(rt: &HostRuntime, path: &str, part: &str, text: &str) -> io::Result<()> {
    let written = match write_part(rt, part, text) {
        Ok(()) => fs::rename(rt, part, path),
        Err(error) => Err(error),
    };
    if written.is_err() {
        let _ = fs::remove_file(rt, part);
    }
    written
}

/// Writes a text to a file that it makes anew.
fn write_part(rt: &HostRuntime, part: &str, text: &str) -> io::Result<()> {
    if let Some(limit) = file_limit(rt) {
        if text.len() as u64 > limit {
            return Err(io::Error::from(io::ErrorKind::FileTooLarge));
        }
    }
    let mut file = make_part(rt, part)?;
    file.write_all(text.as_bytes())?;
    file.sync_all()
}

/// Makes a file anew, which only its owner may read. One that an earlier run left there goes.
fn make_part(rt: &HostRuntime, part: &str) -> io::Result<File> {
    let _ = fs::remove_file(rt, part);
    OpenOptions::new()
        .write(true)
        .create_new(true)
        .mode(OWNER_ALONE)
        .open(rt, part)
}

/// Writes a line about a path where no regular file is on standard error, if it has room there.
fn say_no_file(rt: &HostRuntime, path: &str) {
    if rt.error_has_room(file_limit(rt), LONGEST_LINE) {
        let _ = eprintln!(rt; "relayd: record: {path}: no regular file");
    }
}

/// Writes a line about a path that cannot be written, and why, on standard error, if it has room there.
fn say_failed(rt: &HostRuntime, path: &str, error: &io::Error) {
    if rt.error_has_room(file_limit(rt), LONGEST_LINE) {
        let _ = eprintln!(rt; "relayd: record: {path}: cannot write: {error}");
    }
}

/// The status of a run without its record.
fn status_of(fault: RecordFault) -> Status {
    match fault {
        RecordFault::NoMemory => Status::NoMemory,
        _ => Status::DeviceFault,
    }
}
