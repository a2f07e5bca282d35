//! The log of a writer.
ghost use Rattle.std.specs.Prelude.{◌≡◌, ◌↔◌, [], map, true, IfOk};
ghost use Rattle.mio_loops.specs.WriteLog.{entry_of};
ghost use Rattle.mio_loops.specs.WriterLog.{empty_log, log_after};

use crate::input_log::MOST_LOG_ENTRIES;
use relay_base::NoMemory;
use std::alloc::Global;
use std::marker::Model;

/// A step of a writer, as its log keeps it.
#[derive(Clone, Copy, Debug)]
pub enum WriterEntry {
    /// A connection was attached.
    Up,
    /// A batch was taken in hand.
    Take {
        /// The limit of the batch.
        limit: u16,
        /// How many datapoints it has: at least one.
        taken: u16,
    },
    /// The connection took bytes of the hand's text.
    Wrote {
        /// How many bytes: at least one.
        count: usize,
    },
    /// The connection was lost.
    Down,
}

/// The steps of one writer, the first [`MOST_LOG_ENTRIES`] of them. The first that does not fit seals the
/// log: from then on it lacks some of the writer's steps.
///
/// Clauses see it as its entries and whether it is sealed.
#[derive(Debug, Drop)]
pub struct WriteLog {
    entries: Vec<WriterEntry>,
    sealed: bool,
}

impl Model for WriteLog {
    ghost use Rattle.mio_loops.specs.WriterLog.{WriterLog};

    ghost Value = { WriterLog };

    ghost use Rattle.mio_loops.specs.WriteLog.{writer_log_of, IsSoundLog};

    ghost view = { writer_log_of };

    ghost invariant = { IsSoundLog };
}

impl WriteLog {
    /// An empty log, with the room for all entries, or out of memory.
    pub fn new(alloc: Global) -> Result<WriteLog, NoMemory>
        ensures { IfOk result (λ log. log ≡ empty_log) }
    {
        Ok(WriteLog {
            entries: Vec::with_capacity(alloc, MOST_LOG_ENTRIES)?,
            sealed: false,
        })
    }

    /// An empty, sealed log, which stays as it is: for a writer whose log memory did not suffice for. It takes
    /// no memory.
    pub fn none(alloc: Global) -> WriteLog
        ensures { result ≡ record { entries = []; sealed = true } }
    {
        WriteLog {
            entries: Vec::new(alloc),
            sealed: true,
        }
    }

    /// The steps, the first one first.
    pub fn entries(&self) -> &[WriterEntry]
        ensures { map entry_of result.now ≡ self.now.entries }
    {
        self.entries.as_slice()
    }

    /// Whether a step was left out.
    pub fn sealed(&self) -> bool
        ensures { result ≡ self.now.sealed }
    {
        self.sealed
    }

    /// Adds a step, unless the log is sealed; the first that does not fit seals it. Takes no memory.
    pub(crate) fn add(&mut self, entry: WriterEntry)
        ensures { self.new ≡ log_after (entry_of entry) self.old }
    {
        if self.sealed {
            return;
        }
        if self.entries.len() < MOST_LOG_ENTRIES {
            self.entries.push_reserved(entry);
        } else {
            self.sealed = true;
        }
    }
}
