//! The last connection of a destination: its file.

ghost use Rattle.std.specs.Prelude.{◌≡◌, take, MatchResult};
ghost use Rattle.std.specs.Io.{WritesAtMost};
ghost use Rattle.std.specs.Io.KnownBytes.{WriteAppends};
ghost use Rattle.spool.specs.Held.{MovesPast};

use crate::dest_spool::DestSpool;
use crate::limited_file::LimitedFile;
use crate::line_count::lines_in;
use crate::spool_disk::SpoolDisk;
use crate::spool_notes::SpoolNotes;
use std::fs::File;
use std::io;
use std::io::{ErrorKind, Write};

/// The last connection of a destination: what it takes goes into its file, behind the lines that the file of an earlier run
/// holds, or into a new one. Nothing is opened or made if nothing is written.
pub struct FileSink<'n, D: SpoolDisk + Drop> {
    disk: D,
    spool: DestSpool,
    limit: Option<u64>,
    notes: Option<&'n SpoolNotes>,
    stage: Stage,
}

/// How far the file is.
#[derive(Drop)]
enum Stage {
    /// It is not begun.
    Idle,
    /// It is written.
    Open(LimitedFile<File>),
    /// It could not be begun.
    Failed,
}

impl<'n, D: SpoolDisk + Drop> FileSink<'n, D> {
    /// The last connection of a destination, with the system's limit for the size of a file. It notes what it takes.
    pub fn new(
        disk: D,
        spool: DestSpool,
        limit: Option<u64>,
        notes: Option<&'n SpoolNotes>,
    ) -> FileSink<'n, D> {
        if let Some(notes) = notes {
            notes.note_spooling();
        }
        FileSink {
            disk,
            spool,
            limit,
            notes,
            stage: Stage::Idle,
        }
    }
}

/// Begins with the file, unless it is begun.
fn begin<D: SpoolDisk>(
    stage: &mut Stage,
    disk: &D,
    spool: &mut DestSpool,
    limit: Option<u64>,
    notes: Option<&SpoolNotes>,
) {
    if !matches!(stage, Stage::Idle) {
        return;
    }
    *stage = match spool.begin_new(disk, limit) {
        Ok(new) => Stage::Open(new),
        Err(error) => {
            if let Some(notes) = notes {
                notes.note_failed(&error);
            }
            drop(error);
            Stage::Failed
        }
    };
}

impl<D: SpoolDisk + Drop> Write for FileSink<'_, D> {
    fn write(&mut self, buf: &[u8]) -> io::Result<usize> {
        begin(
            &mut self.stage,
            &self.disk,
            &mut self.spool,
            self.limit,
            self.notes,
        );
        let Stage::Open(new) = &mut self.stage else {
            return Err(io::Error::from(ErrorKind::NotConnected));
        };
        write_noted(new, self.notes, buf)
    }

    fn flush(&mut self) -> io::Result<()> {
        Ok(())
    }
}

impl<D: SpoolDisk + Drop> FileSink<'_, D> {
    /// Ends the connection, as its drop does, and gives the files back: the one that was written is the earlier one now.
    pub fn end(self) -> DestSpool {
        let FileSink {
            disk,
            spool,
            limit: _limit,
            notes,
            stage,
        } = self;
        ended(disk, spool, notes, stage)
    }
}

impl<D: SpoolDisk + Drop> Drop for FileSink<'_, D> {
    fn drop(self) {
        drop(self.end());
    }
}

/// Ends the file, if it is begun, and gives the files back.
fn ended<D: SpoolDisk + Drop>(
    disk: D,
    spool: DestSpool,
    notes: Option<&SpoolNotes>,
    stage: Stage,
) -> DestSpool {
    let mut spool = spool;
    if let Stage::Open(new) = stage {
        end_file(&disk, &mut spool, notes, new);
    }
    drop(disk);
    spool
}

/// Writes to a file, and notes what it took.
fn write_noted<W: Write>(
    new: &mut LimitedFile<W>,
    notes: Option<&SpoolNotes>,
    buf: &[u8],
) -> io::Result<usize>
    ensures bound { WritesAtMost result buf.now }
    ensures bytes { WriteAppends (W.contents new.old.file) (W.contents new.new.file) result buf.now }
    ensures written { MatchResult result
        (λ count. MovesPast new.old.written new.new.written (take count buf.now))
        (λ _. new.new.written ≡ new.old.written) }
{
    let result = new.write(buf);
    if let Some(notes) = notes {
        note_write(notes, &result, buf);
    }
    result
}

/// Notes what became of a write of these bytes.
fn note_write(notes: &SpoolNotes, answer: &io::Result<usize>, bytes: &[u8]) {
    match answer {
        Ok(count) => {
            let (taken, _) = bytes.split_at((*count).min(bytes.len()));
            notes.note_taken(taken.len() as u64, lines_in(taken));
        }
        Err(error) => {
            if error.kind() != ErrorKind::Interrupted {
                notes.note_failed(error);
            }
        }
    }
}

/// Ends the file. If it cannot be on the disk, what it took is not kept.
fn end_file<D: SpoolDisk>(
    disk: &D,
    spool: &mut DestSpool,
    notes: Option<&SpoolNotes>,
    new: LimitedFile<File>,
) {
    let ended = spool.end_new(disk, new);
    if let Err(error) = ended {
        if let Some(notes) = notes {
            notes.note_lost(&error);
        }
        drop(error);
    }
}
