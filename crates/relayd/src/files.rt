//! The files that the words name.

ghost use Rattle.std.specs.Prelude.{None};

use crate::admin_key::KeyFile;
use crate::open_files::{Files, OpenFile, read_once, read_open};
use command_line::{Paths, STANDARD_INPUT};
use relay_base::NoMemory;
use relay_files::{ExtendedSource, LongestName, Source, Sources};
use std::alloc::Global;
use std::fs::File;
use std::io::ErrorKind;
use std::os::unix::fs::MetadataExt;
use std::{fs, io};

/// How many bytes a file of a configuration has at most.
pub const MOST_BYTES: u64 = 64_000_000;

/// How many bytes a script, a file of lines and one of names have at most.
pub const MOST_INPUT_BYTES: u64 = 1_000_000_000;

/// A file that can be opened, by its path, and how many bytes are read of it at most.
#[derive(Drop)]
pub struct FileAt<'a> {
    files: &'a Files<'a>,
    path: &'a str,
    most: u64,
}

impl<'a> Source for FileAt<'a> {
    type Reader = OpenFile<'a>;

    // Nothing is known of what a file of the system has.
    ghost bytes = { λ _. None };

    fn open(&mut self) -> io::Result<OpenFile<'a>> {
        let files: &'a Files<'a> = self.files;
        files.open(self.path, self.most)
    }
}

/// The bytes of the file of a configuration at a path: a regular file, or a link to one. It waits for no writer of a FIFO.
pub fn read_regular(rt: &HostRuntime, alloc: Global, path: &str) -> io::Result<Vec<u8>> {
    if path == STANDARD_INPUT {
        return Err(read_once());
    }
    if !fs::metadata(rt, path)?.is_file() {
        return Err(not_regular());
    }
    let file = File::open(rt, path)?;
    // Meanwhile another one may have its name.
    if !file.metadata()?.is_file() {
        return Err(not_regular());
    }
    read_open(alloc, file)
}

/// The bytes and the permissions of the file of a key at a path, which is a regular file.
pub fn read_key(rt: &HostRuntime, alloc: Global, path: &str) -> io::Result<KeyFile> {
    if !fs::metadata(rt, path)?.is_file() {
        return Err(not_regular());
    }
    let file = File::open(rt, path)?;
    let metadata = file.metadata()?;
    Ok(KeyFile {
        bytes: read_open(alloc, file)?,
        mode: metadata.mode() & 0o777,
    })
}

/// The reason why a directory or a device is not read.
fn not_regular() -> io::Error {
    io::Error::new(ErrorKind::InvalidInput, "not a regular file")
}

/// The files at these paths, none of them open yet. A limit on names is a rule behind those of the rewrite file.
pub fn sources_at<'a>(
    files: &'a Files<'a>,
    alloc: Global,
    paths: &'a Paths,
) -> Result<Sources<ExtendedSource<FileAt<'a>>>, NoMemory> {
    Ok(Sources {
        rewrite: rewrite_at(files, alloc, &paths.rewrite, paths.longest_name)?,
        config: as_it_is(alloc, configuration_at(files, &paths.config)),
        rules: match &paths.rules {
            Some(path) => Some(as_it_is(alloc, configuration_at(files, path))),
            None => None,
        },
    })
}

/// The rewrite file at a path, if one is given, and the rule of a limit on names, if there is one.
fn rewrite_at<'a>(
    files: &'a Files<'a>,
    alloc: Global,
    path: &'a Option<String>,
    longest_name: Option<LongestName>,
) -> Result<Option<ExtendedSource<FileAt<'a>>>, NoMemory> {
    let more = match longest_name {
        Some(longest) => longest.rewrite_line(alloc)?,
        None => String::new(alloc),
    };
    let file = match path {
        Some(path) => Some(configuration_at(files, path)),
        None => None,
    };
    if file.is_none() && more.is_empty() {
        return Ok(None);
    }
    Ok(Some(ExtendedSource { file, more }))
}

/// A file, and nothing after it.
fn as_it_is(alloc: Global, file: FileAt<'_>) -> ExtendedSource<FileAt<'_>> {
    ExtendedSource {
        file: Some(file),
        more: String::new(alloc),
    }
}

/// The file of a configuration at a path, not open yet.
fn configuration_at<'a>(files: &'a Files<'a>, path: &'a String) -> FileAt<'a> {
    FileAt {
        files,
        path: path.as_str(),
        most: MOST_BYTES,
    }
}

/// The file of a script, of lines or of names at a path, not open yet.
pub fn file_at<'a>(files: &'a Files<'a>, path: &'a String) -> FileAt<'a> {
    FileAt {
        files,
        path: path.as_str(),
        most: MOST_INPUT_BYTES,
    }
}
