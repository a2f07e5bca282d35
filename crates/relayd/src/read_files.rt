//! Files of a configuration that were read whole.

ghost use Rattle.std.specs.Prelude.{None};

use crate::files::read_regular;
use command_line::Paths;
use relay_base::NoMemory;
use relay_files::{
    ExtendedSource, LongestName, RelayFault, Role, RunConfiguration, Source, Sources,
};
use std::alloc::Global;
use std::io;
use std::io::{Cursor, ErrorKind, Read};

/// Reads regular files.
///
/// It is a trait of its own, beside the kit's `Files`, since a thread's bounds may have no types in them.
pub trait ReadsFiles {
    /// The bytes of the regular file at a path. A call may take as long as it likes.
    fn read_file(&self, alloc: Global, path: &str) -> io::Result<Vec<u8>>;
}

impl ReadsFiles for HostRuntime {
    fn read_file(&self, alloc: Global, path: &str) -> io::Result<Vec<u8>> {
        read_regular(self, alloc, path)
    }
}

/// What reading a file gave: its bytes, until they are taken, or why it cannot be read; neither if out of memory.
#[derive(Drop)]
pub struct ReadFile {
    bytes: Option<Vec<u8>>,
    reason: Option<String>,
}

impl ReadFile {
    /// Reads the file at a path.
    fn new<R: ReadsFiles>(rt: &R, alloc: Global, path: &str) -> ReadFile {
        match rt.read_file(alloc, path) {
            Ok(bytes) => ReadFile {
                bytes: Some(bytes),
                reason: None,
            },
            Err(error) if error.kind() == ErrorKind::OutOfMemory => ReadFile::none(),
            Err(error) => match error.to_string(alloc) {
                Ok(reason) => ReadFile {
                    bytes: None,
                    reason: Some(reason),
                },
                Err(_) => ReadFile::none(),
            },
        }
    }

    /// Reads the file at a path, if one is given.
    fn of_given<R: ReadsFiles>(rt: &R, alloc: Global, path: &Option<String>) -> Option<ReadFile> {
        match path {
            Some(path) => Some(ReadFile::new(rt, alloc, path.as_str())),
            None => None,
        }
    }

    /// Neither bytes nor a reason.
    fn none() -> ReadFile {
        ReadFile {
            bytes: None,
            reason: None,
        }
    }
}

impl Source for ReadFile {
    type Reader = ReadBytes;

    // Nothing is known of what a file of the system has.
    ghost bytes = { λ _. None };

    fn open(&mut self) -> io::Result<ReadBytes> {
        match self.bytes.take() {
            Some(bytes) => Ok(ReadBytes {
                cursor: Cursor::new(bytes),
            }),
            None if self.reason.is_some() => Err(io::Error::from(ErrorKind::Other)),
            None => Err(io::Error::from(ErrorKind::OutOfMemory)),
        }
    }
}

/// The bytes of a file that was read.
#[derive(Drop)]
pub struct ReadBytes {
    cursor: Cursor<Vec<u8>>,
}

impl Read for ReadBytes {
    fn read(&mut self, buf: &mut [u8]) -> io::Result<usize> {
        self.cursor.read(buf)
    }
}

/// The files of a configuration that were read.
#[derive(Drop)]
pub struct ReadFiles {
    config: ReadFile,
    rules: Option<ReadFile>,
    rewrite: Option<ReadFile>,
}

/// Reads the files at these paths.
pub fn read_files<R: ReadsFiles>(rt: &R, alloc: Global, paths: &Paths) -> ReadFiles {
    ReadFiles {
        config: ReadFile::new(rt, alloc, paths.config.as_str()),
        rules: ReadFile::of_given(rt, alloc, &paths.rules),
        rewrite: ReadFile::of_given(rt, alloc, &paths.rewrite),
    }
}

/// Files of a configuration that were read, as its sources.
#[derive(Drop)]
pub struct FileSources {
    sources: Sources<ExtendedSource<ReadFile>>,
}

impl ReadFiles {
    /// The files as sources. A limit on names is a rule behind those of the rewrite file. Refuses if out of memory.
    pub fn into_sources(
        self,
        alloc: Global,
        longest_name: Option<LongestName>,
    ) -> Result<FileSources, NoMemory> {
        let ReadFiles {
            config,
            rules,
            rewrite,
        } = self;
        let more = match longest_name {
            Some(longest) => longest.rewrite_line(alloc),
            None => Ok(String::new(alloc)),
        };
        let more = match more {
            Ok(more) => more,
            Err(fault) => {
                drop((config, rules, rewrite));
                return Err(fault);
            }
        };
        Ok(FileSources {
            sources: Sources {
                config: as_it_is(alloc, config),
                rules: match rules {
                    Some(rules) => Some(as_it_is(alloc, rules)),
                    None => None,
                },
                rewrite: if rewrite.is_none() && more.is_empty() {
                    None
                } else {
                    Some(ExtendedSource {
                        file: rewrite,
                        more,
                    })
                },
            },
        })
    }
}

/// A file, and nothing after it.
fn as_it_is(alloc: Global, file: ReadFile) -> ExtendedSource<ReadFile> {
    ExtendedSource {
        file: Some(file),
        more: String::new(alloc),
    }
}

impl FileSources {
    /// The configuration of the files, which are taken.
    pub fn configuration(&mut self, alloc: Global) -> Result<RunConfiguration, RelayFault> {
        RunConfiguration::read(alloc, &mut self.sources)
    }

    /// Why the file with a role cannot be read, if it cannot.
    pub fn reason_of(&self, role: Role) -> Option<&str> {
        match role {
            Role::Config => reason_in(&self.sources.config),
            Role::Rules => reason_in(self.sources.rules.as_ref()?),
            Role::Rewrite => reason_in(self.sources.rewrite.as_ref()?),
            Role::Names | Role::Script => None,
        }
    }
}

/// Why the file of a source cannot be read, if it cannot.
fn reason_in(source: &ExtendedSource<ReadFile>) -> Option<&str> {
    match source.file.as_ref()?.reason.as_ref() {
        Some(reason) => Some(reason.as_str()),
        None => None,
    }
}
