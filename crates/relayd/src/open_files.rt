//! Files that are opened, and standard input in place of one of them.

use crate::files::{MOST_BYTES, MOST_INPUT_BYTES};
use command_line::STANDARD_INPUT;
use relay_files::PIECE;
use std::alloc::Global;
use std::cell::OnceCell;
use std::fs::File;
use std::io;
use std::io::{Cursor, ErrorKind, Read, Stdin};

/// The files of a command. One of them may be standard input, which is read once.
#[derive(Drop)]
pub struct Files<'r> {
    rt: &'r HostRuntime,
    // Whether what is read of standard input is kept for who reads the file again.
    keeps_input: bool,
    input: OnceCell<KeptInput>,
}

/// What reading standard input gave.
#[derive(Drop)]
enum KeptInput {
    /// Its bytes.
    Bytes(Vec<u8>),
    /// It cannot be read.
    Failed(ErrorKind),
}

impl<'r> Files<'r> {
    /// The files of a command. Who wants notes of them reads them again, so `keeps_input` says whether standard input is kept.
    pub fn new(rt: &'r HostRuntime, keeps_input: bool) -> Files<'r> {
        Files {
            rt,
            keeps_input,
            input: OnceCell::new(),
        }
    }

    /// The runtime.
    pub fn runtime(&self) -> &'r HostRuntime {
        self.rt
    }

    /// Opens the file at a path, of which at most this many bytes are read.
    pub fn open(&self, path: &str, most: u64) -> io::Result<OpenFile<'_>> {
        let input = if path != STANDARD_INPUT {
            Input::File(File::open(self.rt, path)?)
        } else if self.keeps_input {
            Input::Kept(Cursor::new(self.kept_input(most)?))
        } else {
            Input::Stream(self.rt.stdin())
        };
        Ok(OpenFile { input, left: most })
    }

    /// The bytes of the file of a configuration, of a script or of names at a path, read again. Standard input has only what was
    /// kept of it.
    pub fn read_again(&self, alloc: Global, path: &str) -> io::Result<Vec<u8>> {
        if path != STANDARD_INPUT {
            return read_open(alloc, File::open(self.rt, path)?);
        }
        match self.input.get() {
            Some(kept) => Ok(Vec::from_slice(alloc, kept.bytes()?)?),
            None => Err(read_once()),
        }
    }

    /// What standard input has, read once.
    fn kept_input(&self, most: u64) -> io::Result<&[u8]> {
        if self.input.get().is_none() {
            let _ = self.input.set(KeptInput::read(self.rt, most));
        }
        match self.input.get() {
            Some(kept) => kept.bytes(),
            None => Err(io::Error::from(ErrorKind::OutOfMemory)),
        }
    }
}

impl KeptInput {
    /// Reads standard input, if it has no more than this many bytes.
    fn read(rt: &HostRuntime, most: u64) -> KeptInput {
        let mut open = OpenFile {
            input: Input::Stream(rt.stdin()),
            left: most,
        };
        let read = read_whole(rt.alloc(), &mut open);
        drop(open);
        match read {
            Ok(bytes) => KeptInput::Bytes(bytes),
            Err(error) => KeptInput::Failed(error.kind()),
        }
    }

    /// The bytes.
    fn bytes(&self) -> io::Result<&[u8]> {
        match self {
            KeptInput::Bytes(bytes) => Ok(bytes.as_slice()),
            KeptInput::Failed(kind) => Err(io::Error::from(*kind)),
        }
    }
}

/// A file that was opened, and how many more bytes are read of it at most: it fails where it has more.
#[derive(Drop)]
pub struct OpenFile<'a> {
    input: Input<'a>,
    left: u64,
}

/// Where the bytes of a file come from.
#[derive(Drop)]
enum Input<'a> {
    /// A file of the system.
    File(File),
    /// Standard input.
    Stream(Stdin),
    /// What was kept of standard input.
    Kept(Cursor<&'a [u8]>),
}

impl Read for OpenFile<'_> {
    fn read(&mut self, buf: &mut [u8]) -> io::Result<usize> {
        let count = match &mut self.input {
            Input::File(file) => file.read(buf)?,
            Input::Stream(stream) => stream.read(buf)?,
            Input::Kept(bytes) => bytes.read(buf)?,
        };
        match self.left.checked_sub(count as u64) {
            Some(left) => {
                self.left = left;
                Ok(count)
            }
            None => Err(io::Error::from(ErrorKind::FileTooLarge)),
        }
    }
}

/// The bytes of a file of a configuration that was opened.
pub fn read_open(alloc: Global, file: File) -> io::Result<Vec<u8>> {
    let mut open = OpenFile {
        input: Input::File(file),
        left: MOST_BYTES,
    };
    let read = read_whole(alloc, &mut open);
    drop(open);
    read
}

/// The reason why standard input is not read again.
pub fn read_once() -> io::Error {
    io::Error::new(
        ErrorKind::InvalidInput,
        "standard input can be read only once",
    )
}

/// Reads an input to its end. Reads that are interrupted or would block are made again.
fn read_whole<R: Read>(alloc: Global, input: &mut R) -> io::Result<Vec<u8>> {
    let mut piece = vec![in alloc; 0u8; PIECE]?;
    let mut bytes = Vec::new(alloc);
    let ended = read_pieces(input, &mut piece, &mut bytes);
    drop(piece);
    match ended {
        Ok(()) => Ok(bytes),
        Err(error) => {
            drop(bytes);
            Err(error)
        }
    }
}

/// Adds what an input has to bytes, by this buffer.
fn read_pieces<R: Read>(input: &mut R, piece: &mut [u8], bytes: &mut Vec<u8>) -> io::Result<()> {
    for _ in 0..u64::MAX {
        match input.read(piece) {
            Ok(0) => return Ok(()),
            Ok(count) => {
                let (given, _) = piece.split_at(count);
                bytes.extend_from_slice(given)?;
            }
            Err(error) if may_be_made_again(error.kind()) => {}
            Err(error) => return Err(error),
        }
    }
    Err(io::Error::from(ErrorKind::FileTooLarge))
}

/// Whether a read that failed so is made again.
fn may_be_made_again(kind: ErrorKind) -> bool {
    kind == ErrorKind::Interrupted || kind == ErrorKind::WouldBlock
}
