//! Which line is the last of its connection.
ghost use Rattle.std.specs.Prelude.{◌≡◌, ◌≤◌, length, take};

use line_text::LONGEST_LINE;
use memchr::{memchr, memrchr};

/// The lines of a connection, as far as it took them.
///
/// Relays and stores read lines of at most [`LONGEST_LINE`] bytes without their byte 10. They close a connection that
/// brings a longer one, and what comes behind it is lost. So such a line is the last of its connection.
#[derive(Clone, Copy)]
pub(crate) struct ConnectionLines {
    // How many bytes of a begun line the connection has taken.
    begun: usize,
}

impl ConnectionLines {
    /// The connection has taken nothing.
    pub(crate) fn new() -> ConnectionLines
        ensures { result.begun ≡ 0 }
    {
        ConnectionLines { begun: 0 }
    }

    /// The connection has taken this many bytes of a line that goes on.
    pub(crate) fn within(begun: usize) -> ConnectionLines
        ensures { result.begun ≡ begun }
    {
        ConnectionLines { begun }
    }

    /// How many bytes of a begun line the connection has taken.
    pub(crate) fn begun(&self) -> usize
        ensures { result ≡ self.now.begun }
    {
        self.begun
    }

    /// Those of the next bytes that may be written: all, or those up to the end of the first line that is longer.
    pub(crate) fn writable<'b>(&self, bytes: &'b [u8]) -> &'b [u8]
        ensures few { length result.now ≤ length bytes.now }
        // They are the first ones.
        ensures first { result.now ≡ take (length result.now) bytes.now }
    {
        match self.long_line_end(bytes) {
            Some(end) => first(bytes, end),
            None => bytes,
        }
    }

    /// The connection took these bytes, which were writable. Returns whether they end its last line.
    pub(crate) fn take(&mut self, bytes: &[u8]) -> bool {
        let is_over = self.long_line_end(bytes).is_some();
        self.begun = match memrchr(b'\n', bytes) {
            Some(place) => bytes.len().saturating_sub(place).saturating_sub(1),
            None => self.begun.saturating_add(bytes.len()),
        };
        is_over
    }

    /// Behind how many of the next bytes the first line ends that is longer, if it ends among them.
    fn long_line_end(&self, bytes: &[u8]) -> Option<usize> {
        let start = self.long_line_start(bytes)?;
        let (_, rest) = bytes.split_at(start.min(bytes.len()));
        let place = memchr(b'\n', rest)?;
        Some(start.saturating_add(place).saturating_add(1))
    }

    /// Where among the next bytes the first line that is longer begins, or goes on. It looks for the last byte 10 in as
    /// many bytes as a line may have, and so at few bytes where lines are short.
    fn long_line_start(&self, bytes: &[u8]) -> Option<usize> {
        let mut begun = self.begun;
        let mut start = 0;
        for _ in 0..bytes.len() {
            if begun > LONGEST_LINE {
                return Some(start);
            }
            let (_, rest) = bytes.split_at(bytes.len().min(start));
            let most = LONGEST_LINE - begun;
            if rest.len() <= most {
                return None;
            }
            let Some(place) = memrchr(b'\n', first(rest, most + 1)) else {
                return Some(start);
            };
            start = start.saturating_add(place).saturating_add(1);
            begun = 0;
        }
        None
    }
}

/// The first `count` bytes, or all if there are fewer.
fn first(bytes: &[u8], count: usize) -> &[u8]
    ensures few { length result.now ≤ length bytes.now }
    ensures first { result.now ≡ take (length result.now) bytes.now }
{
    let (first, _) = bytes.split_at(bytes.len().min(count));
    first
}
