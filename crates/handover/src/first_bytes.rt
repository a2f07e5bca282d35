//! A stream that gives some bytes first.

ghost use Rattle.std.specs.Prelude.{◌≡◌, ◌<◌, ◌≤◌, ◌↔◌, [], Some, length, IsTrue};
ghost use Rattle.std.specs.Fmt.{option_append};
ghost use Rattle.std.specs.Io.{ReadsAtMost};
ghost use Rattle.std.specs.Io.KnownBytes.{ReadConsumes};

use std::alloc::Global;
use std::io;
use std::io::Read;
use std::marker::Model;

/// A stream that gives some bytes first, and then what another stream gives. Once the first bytes were read, their memory is
/// freed.
///
/// Clauses see it as the bytes before the other stream that were not read yet, and that stream.
#[derive(Drop)]
pub struct FirstBytes<S> {
    alloc: Global,
    bytes: Vec<u8>,
    // How many of them were read.
    place: usize,
    stream: S,
    ghost within: { place ≤ length bytes.items },
}

impl<S> Model for FirstBytes<S> {
    ghost use Rattle.std.specs.Prelude.{drop};
    ghost use Rattle.handover.specs.FirstBytes.{BytesBefore};

    ghost Value = { BytesBefore S };

    ghost view = { λ s. record { bytes = drop s.place s.bytes.items; stream = s.stream } };
}

impl<S> FirstBytes<S> {
    /// A stream that gives these bytes first. It takes no memory.
    pub fn new(alloc: Global, bytes: Vec<u8>, stream: S) -> FirstBytes<S>
        ensures bytes { result.bytes ≡ bytes.items }
        ensures stream { result.stream ≡ stream }
    {
        FirstBytes {
            alloc,
            bytes,
            place: 0,
            stream,
        }
    }

    /// A stream that gives nothing first.
    pub fn none(alloc: Global, stream: S) -> FirstBytes<S>
        ensures bytes { result.bytes ≡ [] }
        ensures stream { result.stream ≡ stream }
    {
        FirstBytes::new(alloc, Vec::new(alloc), stream)
    }

    /// Whether bytes are left that come first: they can be read at once, whatever the system says of the stream.
    pub fn has_bytes(&self) -> bool
        ensures { IsTrue result ↔ (0 < length self.now.bytes) }
    {
        self.place < self.bytes.len()
    }

    /// The stream behind the bytes.
    pub fn stream(&self) -> &S
        ensures { result.now ≡ self.now.stream }
    {
        &self.stream
    }

    /// The bytes that come first and were not read yet, and the stream behind them.
    pub fn into_parts(self) -> (Vec<u8>, S)
        ensures bytes { result.0.items ≡ self.bytes }
        ensures stream { result.1 ≡ self.stream }
    {
        let FirstBytes {
            alloc: _,
            mut bytes,
            place,
            stream,
        } = self;
        bytes.rotate_left(place);
        bytes.truncate(bytes.len() - place);
        (bytes, stream)
    }

    /// Reads some of the bytes that come first. Once none is left they are freed.
    fn read_first(&mut self, buf: &mut [u8]) -> io::Result<usize>
        ensures bound { ReadsAtMost result buf.new }
        ensures bytes { ReadConsumes (Some self.old.bytes) (Some self.new.bytes)
            result buf.new }
        ensures stream { self.new.stream ≡ self.old.stream }
    {
        let mut left = &self.bytes[self.place..];
        let count = left.read(buf)?;
        self.place += count;
        if self.place >= self.bytes.len() {
            self.bytes = Vec::new(self.alloc);
            self.place = 0;
        }
        Ok(count)
    }
}

impl<S: Read> Read for FirstBytes<S> {
    ghost remaining = { λ s. option_append (Some s.bytes) (S.remaining s.stream) };

    fn read(&mut self, buf: &mut [u8]) -> io::Result<usize> {
        if self.has_bytes() {
            self.read_first(buf)
        } else {
            self.stream.read(buf)
        }
    }
}
