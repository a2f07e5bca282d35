//! What is there under the name of a destination's file.

use crate::held_text::end_of_lines;
use crate::spool_disk::SpoolDisk;
use std::fs::{File, Metadata};
use std::io::ErrorKind;
use std::os::unix::fs::MetadataExt;
use std::{fmt, io};

/// What is there under the name of a destination's file.
#[derive(Drop)]
pub(crate) enum FoundFile {
    /// Nothing.
    Nothing,
    /// A file of this length, whose whole lines end there.
    Lines { file: File, end: u64, length: u64 },
    /// A file of this length without a whole line.
    NoLines { length: u64 },
}

/// Why what is there is not used.
#[derive(Drop)]
pub(crate) enum FileFault {
    /// It is a link.
    Link,
    /// It is no regular file.
    NotRegular,
    /// It is another user's.
    OtherUser,
    /// The system does not let the relay use it now.
    System(io::Error),
}

impl fmt::Display for FileFault {
    fn fmt<W: fmt::Write>(&self, f: &mut fmt::Formatter<W>) -> fmt::Result {
        match self {
            FileFault::Link => write!(f, "a link"),
            FileFault::NotRegular => write!(f, "no regular file"),
            FileFault::OtherUser => write!(f, "another user's file"),
            FileFault::System(error) => write!(f, "{error}"),
        }
    }
}

/// What is there at a path. Refuses all but regular files of this user, if it is known, and what the system does not let the
/// relay read now.
pub(crate) fn found_at<D: SpoolDisk>(
    disk: &D,
    path: &str,
    owner: Option<u32>,
    piece: &mut [u8],
) -> Result<FoundFile, FileFault> {
    let named = match disk.look_at(path) {
        Ok(named) => named,
        Err(error) => return nothing_if_missing(error),
    };
    if let Some(fault) = fault_of(&named, owner) {
        return Err(fault);
    }
    match opened_lines(disk, path, &named, piece) {
        Ok(found) => Ok(found),
        Err(error) => Err(FileFault::System(error)),
    }
}

/// Nothing is there, or the fault of looking.
fn nothing_if_missing(error: io::Error) -> Result<FoundFile, FileFault> {
    match error.kind() {
        ErrorKind::NotFound | ErrorKind::InvalidFilename => {
            drop(error);
            Ok(FoundFile::Nothing)
        }
        _ => Err(FileFault::System(error)),
    }
}

/// Why a file with these properties is not opened, if it is not.
fn fault_of(named: &Metadata, owner: Option<u32>) -> Option<FileFault> {
    if named.is_symlink() {
        return Some(FileFault::Link);
    }
    if !named.is_file() {
        return Some(FileFault::NotRegular);
    }
    match owner {
        Some(owner) if owner != named.uid() => Some(FileFault::OtherUser),
        _ => None,
    }
}

/// Opens the file that has these properties, and looks where its whole lines end.
fn opened_lines<D: SpoolDisk>(
    disk: &D,
    path: &str,
    named: &Metadata,
    piece: &mut [u8],
) -> io::Result<FoundFile> {
    let file = disk.open_held(path)?;
    let opened = file.metadata()?;
    if !is_same(named, &opened) {
        return Err(io::Error::from(ErrorKind::ResourceBusy));
    }
    let length = opened.len();
    let end = end_of_lines(&file, length, piece)?;
    if end == 0 {
        drop(file);
        return Ok(FoundFile::NoLines { length });
    }
    Ok(FoundFile::Lines { file, end, length })
}

/// Whether both are properties of one file.
fn is_same(one: &Metadata, other: &Metadata) -> bool {
    one.dev() == other.dev() && one.ino() == other.ino()
}

/// Whether a file that is open is still there at a path: nobody has removed it, or put another one there.
pub(crate) fn is_there<D: SpoolDisk>(disk: &D, path: &str, file: &File) -> bool {
    match (disk.look_at(path), file.metadata()) {
        (Ok(named), Ok(opened)) => is_same(&named, &opened),
        (Err(error), _) => error.kind() != ErrorKind::NotFound,
        _ => true,
    }
}
