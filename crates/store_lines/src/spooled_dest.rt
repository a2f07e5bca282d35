//! The files of a destination, and the connections that they go out on.

use crate::file_end::{FileEnd, PartEnd};
use senders::{HalfClose, StoreEnd};
use spool::{DestSpool, FileConnection, SpoolDisk, SpoolNotes, Turn};
use std::io::Write;

/// How many it may take in a run that diverts destinations, where nothing waits for it but the file.
pub(crate) const KEEPER_END_S: u64 = 60;

/// A destination: its files, until these are its last connection, the connection that its earlier file goes out on, and the one
/// that took a part of that, until its store has ended it.
#[derive(Drop)]
pub(crate) struct SpooledDest<W> {
    pub(crate) spool: Option<DestSpool>,
    pub(crate) connection: FileConnection<W>,
    pub(crate) end: Option<FileEnd<W>>,
}

impl<W: Drop> SpooledDest<W> {
    /// No files, and no connection.
    pub(crate) fn none() -> SpooledDest<W> {
        SpooledDest {
            spool: None,
            connection: FileConnection::new(),
            end: None,
        }
    }
}

impl<W: Write + HalfClose + Drop> SpooledDest<W> {
    /// What is known at these milliseconds of lines that no file takes, and a connection took, if one did.
    pub(crate) fn kept_end(&mut self, millis: u64) -> Option<PartEnd> {
        let mut end = self.end.take()?;
        let part_end = end.look(millis, KEEPER_END_S.saturating_mul(1_000));
        if let PartEnd::Open = part_end {
            self.end = Some(end);
        } else {
            drop(end);
        }
        Some(part_end)
    }

    /// Whether the earlier file is not sent yet.
    pub(crate) fn is_behind(&self) -> bool {
        match &self.spool {
            Some(spool) => spool.is_behind(),
            None => false,
        }
    }

    /// The connection of the earlier file has closed, if there is one. One that has closed itself behind a line took a part.
    pub(crate) fn note_closed<D: SpoolDisk>(&mut self, disk: &D, notes: Option<&SpoolNotes>) {
        let Some(spool) = &mut self.spool else {
            return;
        };
        let Some(sink) = self.connection.take() else {
            return;
        };
        match sink.store_end() {
            StoreEnd::Lost => {
                drop(sink);
                spool.send_again(notes);
            }
            StoreEnd::NotYet | StoreEnd::Orderly if spool.awaits_ends() => {
                self.end = Some(FileEnd::begin(sink));
            }
            StoreEnd::NotYet | StoreEnd::Orderly => {
                drop(sink);
                spool.end_part(disk, notes);
            }
        }
    }

    /// Whether a connection that took a part of the earlier file is not ended by its store yet, which may take so many seconds, at
    /// these milliseconds. Once it is, the file goes on, or goes.
    pub(crate) fn awaits_end<D: SpoolDisk>(
        &mut self,
        disk: &D,
        millis: u64,
        seconds: u64,
        notes: Option<&SpoolNotes>,
    ) -> bool {
        let Some(mut end) = self.end.take() else {
            return false;
        };
        let part_end = end.look(millis, seconds.saturating_mul(1_000));
        if let PartEnd::Open = part_end {
            self.end = Some(end);
            return true;
        }
        drop(end);
        if let Some(spool) = &mut self.spool {
            match part_end {
                PartEnd::Taken => spool.end_part(disk, notes),
                PartEnd::NoEnd => spool.note_no_end(disk, seconds, notes),
                PartEnd::Lost | PartEnd::Open => spool.send_again(notes),
            }
        }
        false
    }

    /// Sends some of the earlier file to the connection, which is returned once no more is sent, with whether all was.
    pub(crate) fn send<D: SpoolDisk>(
        &mut self,
        disk: &D,
        piece: &mut [u8],
        notes: Option<&SpoolNotes>,
    ) -> Option<(W, bool)> {
        let Some(spool) = &mut self.spool else {
            return None;
        };
        match spool.send(disk, &mut self.connection, piece, notes) {
            Turn::Over(sink) if spool.awaits_ends() => {
                self.end = Some(FileEnd::begin(sink));
                None
            }
            Turn::Over(sink) => {
                spool.end_part(disk, notes);
                if !spool.is_behind() {
                    return Some((sink, true));
                }
                self.connection.keep(sink);
                None
            }
            Turn::GivenUp { sink, .. } => Some((sink, false)),
            Turn::Broken { .. } | Turn::Lost | Turn::Kept => None,
        }
    }
}
