//! Entries of a log of what readers were fed.
ghost use Rattle.std.specs.Prelude.{◌≡◌, ◌∷◌, [], MatchOption};
ghost use Rattle.mio_loops.specs.StoredLog.{logged_of};

use line_text::Moment;
use std::marker::Model;

/// An entry without its bytes: how many there are, and the moment of a piece. The end of a
/// connection has no moment.
#[derive(Clone, Copy, Debug)]
pub(crate) struct LogRow {
    pub(crate) reader: usize,
    pub(crate) moment: Option<Moment>,
    pub(crate) length: usize,
}

/// An entry of a log, borrowed.
#[derive(Clone, Copy)]
pub struct LogEntry<'a> {
    /// The reader that was fed.
    pub reader: usize,
    /// What it was fed.
    pub input: LogInput<'a>,
}

/// What a reader was fed, borrowed.
#[derive(Clone, Copy)]
pub enum LogInput<'a> {
    /// A piece of a connection, with its moment.
    Piece(&'a [u8], Moment),
    /// The connection's end.
    End,
}

/// The entries of a log, in order.
///
/// Clauses see those that are left.
#[derive(Drop)]
pub struct LogEntries<'a> {
    pub(crate) rows: &'a [LogRow],
    pub(crate) bytes: &'a [u8],
}

impl<'a> Model for LogEntries<'a> {
    ghost use Rattle.std.specs.Prelude.{List, ◌≡◌, length};
    ghost use Rattle.reader_core.specs.Entries.{LoggedEntry};

    ghost Value = { List LoggedEntry };

    ghost use Rattle.mio_loops.specs.StoredLog.{entries_in, bytes_in};

    ghost view = { λ l. entries_in l.rows.now l.bytes.now };

    ghost invariant = { λ l. bytes_in l.rows.now ≡ length l.bytes.now };
}

impl<'a> LogEntries<'a> {
    /// The next entry, or `None` where none is left.
    pub fn next_entry(&mut self) -> Option<LogEntry<'a>>
        ensures { MatchOption result (self.old ≡ [])
            (λ entry. self.old ≡ logged_of entry ∷ self.new) }
    {
        let (row, rows) = self.rows.split_first()?;
        self.rows = rows;
        let (piece, bytes) = self.bytes.split_at(row.length);
        self.bytes = bytes;
        let input = match row.moment {
            Some(moment) => LogInput::Piece(piece, moment),
            None => LogInput::End,
        };
        Some(LogEntry {
            reader: row.reader,
            input,
        })
    }
}
