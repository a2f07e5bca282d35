//! A file that is read with more text after it.

ghost use Rattle.std.specs.Prelude.{◌≡◌, Some, IfOk};
ghost use Rattle.std.specs.Fmt.{option_append};
ghost use Rattle.std.specs.String.{string_bytes};
ghost use Rattle.relay_files.specs.Extended.{known_of};

use crate::source::Source;
use std::io;
use std::io::{Chain, Cursor, Read};

/// A file and a text after it: whoever reads the source reads both as one file. Without a file the text is all.
#[derive(Drop)]
pub struct ExtendedSource<S> {
    /// The file, if there is one.
    pub file: Option<S>,
    /// What follows it.
    pub more: String,
}

impl<S: Source> Source for ExtendedSource<S> {
    type Reader = Chain<OptionalReader<S::Reader>, Cursor<String>>;

    ghost bytes = { λ s. option_append (known_of S.bytes s.file) (Some (string_bytes s.more)) };

    fn open(&mut self) -> io::Result<Self::Reader> {
        let more = self.more.clone()?;
        let file = OptionalReader {
            reader: open_given(&mut self.file)?,
        };
        Ok(file.chain(Cursor::new(more)))
    }
}

/// Opens a file, if there is one.
fn open_given<S: Source>(file: &mut Option<S>) -> io::Result<Option<S::Reader>>
    ensures { IfOk result
        (λ reader. known_of S.Reader.remaining reader ≡ known_of S.bytes file.old) }
{
    match file {
        Some(file) => Ok(Some(file.open()?)),
        None => Ok(None),
    }
}

/// What reads a file; it reads nothing if there is none.
#[derive(Drop)]
pub struct OptionalReader<R> {
    reader: Option<R>,
}

impl<R: Read> Read for OptionalReader<R> {
    ghost remaining = { λ r. known_of R.remaining r.reader };

    fn read(&mut self, buf: &mut [u8]) -> io::Result<usize> {
        match &mut self.reader {
            Some(reader) => reader.read(buf),
            None => Ok(0),
        }
    }
}
