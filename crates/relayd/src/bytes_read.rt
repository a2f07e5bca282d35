//! Files that were read, as sources of a command.

ghost use Rattle.std.specs.Prelude.{None};

use relay_files::{Source, Sources};
use std::io;
use std::io::{Cursor, Read};

/// The bytes of a file that was read.
#[derive(Drop)]
pub struct BytesRead<'a> {
    bytes: &'a [u8],
}

impl<'a> BytesRead<'a> {
    /// A file that has these bytes.
    pub fn new(bytes: &'a [u8]) -> BytesRead<'a> {
        BytesRead { bytes }
    }
}

impl<'a> Source for BytesRead<'a> {
    type Reader = BytesReader<'a>;

    // Nothing is known of what a file of the system has.
    ghost bytes = { λ _. None };

    fn open(&mut self) -> io::Result<BytesReader<'a>> {
        Ok(BytesReader {
            cursor: Cursor::new(self.bytes),
        })
    }
}

/// Reads such bytes.
#[derive(Drop)]
pub struct BytesReader<'a> {
    cursor: Cursor<&'a [u8]>,
}

impl Read for BytesReader<'_> {
    fn read(&mut self, buf: &mut [u8]) -> io::Result<usize> {
        self.cursor.read(buf)
    }
}

/// The files of a configuration that have these bytes.
pub fn sources_of<'a>(
    config: &'a Vec<u8>,
    rules: &'a Option<Vec<u8>>,
    rewrite: &'a Option<Vec<u8>>,
) -> Sources<BytesRead<'a>> {
    Sources {
        config: BytesRead::new(config.as_slice()),
        rules: given(rules),
        rewrite: given(rewrite),
    }
}

/// A file, if it was given.
fn given(bytes: &Option<Vec<u8>>) -> Option<BytesRead<'_>> {
    match bytes {
        Some(bytes) => Some(BytesRead::new(bytes.as_slice())),
        None => None,
    }
}
