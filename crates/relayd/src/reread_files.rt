//! Files that are read again, for notes on them.

use crate::open_files::Files;
use command_line::{Paths, STANDARD_INPUT};
use note_text::{Source, SourceText, Sources};
use relay_base::NoMemory;
use std::alloc::Global;
use std::io::ErrorKind;
use std::str;

/// What reading a file again gave: its bytes, or why it cannot be read.
#[derive(Drop)]
pub struct RereadFile<'p> {
    path: &'p str,
    bytes: Vec<u8>,
    reason: Option<String>,
}

impl<'p> RereadFile<'p> {
    /// Reads the file at a path.
    pub fn new(
        files: &Files<'_>,
        alloc: Global,
        path: &'p String,
    ) -> Result<RereadFile<'p>, NoMemory> {
        match files.read_again(alloc, path.as_str()) {
            Ok(bytes) => Ok(RereadFile {
                path: shown_path(path.as_str()),
                bytes,
                reason: None,
            }),
            Err(error) if error.kind() == ErrorKind::OutOfMemory => Err(NoMemory),
            Err(error) => Ok(RereadFile {
                path: shown_path(path.as_str()),
                bytes: Vec::new(alloc),
                reason: Some(error.to_string(alloc)?),
            }),
        }
    }

    /// Reads the file at a path, if one is given.
    fn of_given(
        files: &Files<'_>,
        alloc: Global,
        path: &'p Option<String>,
    ) -> Result<Option<RereadFile<'p>>, NoMemory> {
        match path {
            Some(path) => Ok(Some(RereadFile::new(files, alloc, path)?)),
            None => Ok(None),
        }
    }

    /// The text, if it could be read and is UTF-8.
    pub fn text(&self) -> Option<&str> {
        str::from_utf8(self.bytes.as_slice()).ok()
    }

    /// The file, for notes.
    pub fn source(&self) -> Source<'_> {
        let text = match &self.reason {
            Some(reason) => SourceText::Unreadable {
                reason: reason.as_str(),
            },
            None => SourceText::Bytes(self.bytes.as_slice()),
        };
        Source {
            path: self.path,
            text,
        }
    }
}

/// The path of a file, as notes show it.
pub fn shown_path(path: &str) -> &str {
    if path == STANDARD_INPUT {
        "standard input"
    } else {
        path
    }
}

/// The files of a configuration, read again.
#[derive(Drop)]
pub struct RereadFiles<'p> {
    config: RereadFile<'p>,
    rules: Option<RereadFile<'p>>,
    rewrite: Option<RereadFile<'p>>,
}

impl<'p> RereadFiles<'p> {
    /// Reads the files at these paths.
    pub fn new(
        files: &Files<'_>,
        alloc: Global,
        paths: &'p Paths,
    ) -> Result<RereadFiles<'p>, NoMemory> {
        Ok(RereadFiles {
            config: RereadFile::new(files, alloc, &paths.config)?,
            rules: RereadFile::of_given(files, alloc, &paths.rules)?,
            rewrite: RereadFile::of_given(files, alloc, &paths.rewrite)?,
        })
    }

    /// The files, for notes.
    pub fn sources(&self) -> Sources<'_> {
        Sources {
            config: self.config.source(),
            rules: self.rules.as_ref().map(RereadFile::source),
            rewrite: self.rewrite.as_ref().map(RereadFile::source),
        }
    }
}
