//! A file that is written.

ghost use Rattle.std.specs.Prelude.{◌≡◌, ◌+◌, ◌-◌, ◌^◌, ◌<◌, ◌↔◌, [], length, min, take, IfOk, IsTrue, MatchResult};
ghost use Rattle.std.specs.Io.{WritesAtMost};
ghost use Rattle.std.specs.Io.KnownBytes.{WriteAppends};
ghost use Rattle.backlog.specs.Place.{place_after};
ghost use Rattle.spool.specs.Held.{HasRoom, MovesPast};

use backlog::Cursor;
use std::io;
use std::io::{ErrorKind, Write};

/// A file that is written from a place on, behind whole lines. It refuses what would make it larger than the system's limit for
/// the size of a file, where the system would end the process for it, and knows where the last whole line ends.
#[derive(Drop)]
pub struct LimitedFile<W> {
    file: W,
    // How many bytes it had.
    base: u64,
    limit: Option<u64>,
    // Where the last line ends that was written whole, and where all that was written ends, from the base on.
    written: Cursor,
}

impl<W: Write> LimitedFile<W> {
    /// A file that has so many bytes of whole lines, with this limit, if there is one.
    pub fn new(file: W, base: u64, limit: Option<u64>) -> LimitedFile<W>
        ensures file { result.file ≡ file }
        ensures base { result.base ≡ base }
        ensures limit { result.limit ≡ limit }
        ensures written { result.written ≡ place_after [] [] }
    {
        LimitedFile {
            file,
            base,
            limit,
            written: Cursor::new(),
        }
    }

    /// Where the last whole line ends.
    pub fn end(&self) -> u64
        ensures { self.now.base + self.now.written.start < 2 ^ 64
            → result ≡ self.now.base + self.now.written.start }
    {
        self.base.saturating_add(self.written.start())
    }

    /// Whether what was written ends with a whole line, or is nothing.
    pub fn is_whole(&self) -> bool
        ensures { IsTrue result ↔ self.now.written.start ≡ self.now.written.next }
    {
        self.written.start() == self.written.next()
    }

    /// The file.
    pub fn file(&self) -> &W
        ensures { result.now ≡ self.now.file }
    {
        &self.file
    }

    /// The file alone.
    pub fn into_file(self) -> W
        ensures { result ≡ self.file }
    {
        let LimitedFile {
            file,
            base: _,
            limit: _,
            written: _,
        } = self;
        file
    }
}

impl<W: Write> Write for LimitedFile<W> {
    ghost contents = { λ f. W.contents f.file };

    fn write(&mut self, buf: &[u8]) -> io::Result<usize>
        ensures bound { WritesAtMost result buf.now }
        ensures bytes { WriteAppends (W.contents self.old.file) (W.contents self.new.file) result
            buf.now }
        ensures written { MatchResult result
            (λ count. MovesPast self.old.written self.new.written (take count buf.now))
            (λ _. self.new.written ≡ self.old.written) }
        ensures room { IfOk result (λ _.
            HasRoom self.old.limit (min (self.old.base + self.old.written.next) (2 ^ 64 - 1))
            (length buf.now)) }
        ensures limit { (self.new.limit ≡ self.old.limit) × (self.new.base ≡ self.old.base) }
    {
        let size = self.base.saturating_add(self.written.next());
        if !has_room(self.limit, size, buf.len()) {
            return Err(io::Error::from(ErrorKind::FileTooLarge));
        }
        let count = self.file.write(buf)?;
        let (taken, _) = buf.split_at(count);
        self.written.take(taken);
        Ok(count)
    }

    fn flush(&mut self) -> io::Result<()> {
        self.file.flush()
    }
}

/// Whether a file of this size may have as many bytes more.
fn has_room(limit: Option<u64>, size: u64, count: usize) -> bool
    ensures { IsTrue result ↔ HasRoom limit size count }
{
    match limit {
        Some(limit) => size.saturating_add(count as u64) <= limit,
        None => true,
    }
}
