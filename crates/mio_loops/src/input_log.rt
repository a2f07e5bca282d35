//! A log of what readers were fed.
ghost use Rattle.std.specs.Prelude.{◌≡◌, ◌+◌, ◌≤◌, ◌&&◌, nat_lt, nat_le, [], length, true, false, IfOk};
ghost use Rattle.reader_core.specs.Entries.{Piece, End};
ghost use Rattle.mio_loops.specs.InputLog.{log_after, bytes_of, most_entries, most_bytes};
ghost use Rattle.mio_loops.specs.StoredLog.{entry_of};

use crate::log_entry::{LogEntries, LogRow};
use line_text::Moment;
use relay_base::NoMemory;
use std::alloc::Global;
use std::marker::Model;

/// How many entries a log keeps.
pub const MOST_LOG_ENTRIES: usize = 65_536;

/// How many bytes the pieces of a log have together.
pub const MOST_LOG_BYTES: usize = 1_048_576;

/// A log of what readers were fed: pieces with their moments, and ends of connections, in order.
///
/// An entry that does not fit seals the log: from then on it keeps no more, and what it has stays.
///
/// Clauses see its entries, how many bytes they have, and whether it is sealed.
#[derive(Debug, Drop)]
pub struct InputLog {
    pub(crate) rows: Vec<LogRow>,
    pub(crate) bytes: Vec<u8>,
    pub(crate) sealed: bool,
}

impl Model for InputLog {
    ghost use Rattle.std.specs.Prelude.{length};
    ghost use Rattle.std.specs.Vec.{vec_capacity};
    ghost use Rattle.mio_loops.specs.InputLog.{LogState};

    ghost Value = { LogState };

    ghost use Rattle.mio_loops.specs.StoredLog.{entries_in, IsSoundLog};

    ghost view = { λ l. record {
      entries = entries_in l.rows.items l.bytes.items;
      byte_count = length l.bytes.items;
      sealed = l.sealed;
    } };

    ghost invariant = { λ l. IsSoundLog
        l.rows.items (vec_capacity l.rows) l.bytes.items (vec_capacity l.bytes) l.sealed };
}

impl InputLog {
    /// An empty log, with the room for all that it keeps, or out of memory (`NoMemory`).
    pub fn new(alloc: Global) -> Result<InputLog, NoMemory>
        ensures { IfOk result
            (λ log. log ≡ record { entries = []; byte_count = 0; sealed = false }) }
    {
        let rows = Vec::with_capacity(alloc, MOST_LOG_ENTRIES)?;
        let bytes = Vec::with_capacity(alloc, MOST_LOG_BYTES)?;
        Ok(InputLog {
            rows,
            bytes,
            sealed: false,
        })
    }

    /// A log that keeps nothing: it is sealed from the start. It takes no memory.
    pub fn none(alloc: Global) -> InputLog
        ensures { result ≡ record { entries = []; byte_count = 0; sealed = true } }
    {
        InputLog {
            rows: Vec::new(alloc),
            bytes: Vec::new(alloc),
            sealed: true,
        }
    }

    /// Adds a piece that a reader was fed, with its moment. It takes no memory.
    pub fn piece(&mut self, reader: usize, bytes: &[u8], moment: Moment)
        ensures { self.new
            ≡ log_after (record { reader = reader; entry = Piece bytes.now moment }) self.old }
    {
        self.add(reader, Some(moment), bytes);
    }

    /// A reader's connection ended. It takes no memory.
    pub fn end(&mut self, reader: usize)
        ensures { self.new ≡ log_after (record { reader = reader; entry = End }) self.old }
    {
        self.add(reader, None, &[]);
    }

    /// Adds an entry with its bytes, or seals the log if there is no room for it.
    fn add(&mut self, reader: usize, moment: Option<Moment>, bytes: &[u8])
        requires bytes { length (bytes_of (entry_of moment bytes.now)) ≡ length bytes.now }
        ensures { self.new
            ≡ log_after (record { reader = reader; entry = entry_of moment bytes.now }) self.old }
    {
        if self.sealed {
            return;
        }
        if !has_room(self.rows.len(), self.bytes.len(), bytes.len()) {
            self.sealed = true;
            return;
        }
        let length = bytes.len();
        self.rows.push_reserved(LogRow {
            reader,
            moment,
            length,
        });
        let Ok(()) = self.bytes.extend_from_slice(bytes) else {
            unreachable!();
        };
    }

    /// The entries that were kept, in order.
    pub fn entries(&self) -> LogEntries<'_>
        ensures { result ≡ self.now.entries }
    {
        LogEntries {
            rows: &self.rows,
            bytes: &self.bytes,
        }
    }

    /// Whether an entry did not fit.
    pub fn sealed(&self) -> bool
        ensures { result ≡ self.now.sealed }
    {
        self.sealed
    }
}

/// Whether a log with this number of entries and bytes has room for an entry of `more` bytes.
fn has_room(entries: usize, bytes: usize, more: usize) -> bool
    requires { bytes ≤ most_bytes }
    ensures { result ≡ (nat_lt entries most_entries && nat_le (bytes + more) most_bytes) }
{
    entries < MOST_LOG_ENTRIES && more <= MOST_LOG_BYTES - bytes
}
