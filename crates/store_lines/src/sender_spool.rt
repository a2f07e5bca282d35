//! What a sender has for its destinations' files.

use crate::file_end::{FileEnd, PartEnd};
use crate::spooled_dest::{KEEPER_END_S, SpooledDest};
use relay_base::{DestId, NoMemory, add};
use senders::HalfClose;
use spool::{DestSpool, KeptLines, SpoolDisk, SpoolNotes, Turn};
use std::alloc::Global;
use std::io::Write;

/// How many bytes of a file are sent at once.
const PIECE: usize = 65_536;

/// How many seconds a store may take to end a connection that took a part of a file: so long the destination's queue waits.
const LONGEST_END_S: u64 = 5;

/// What a sender has for its destinations' files: none if there is no spool.
#[derive(Drop)]
pub(crate) struct SenderSpool<'n, W> {
    // By destination.
    dests: Vec<SpooledDest<W>>,
    piece: Vec<u8>,
    limit: Option<u64>,
    pub(crate) notes: &'n [SpoolNotes],
    // Whether it is their keeper's, which writes more behind them.
    is_kept: bool,
}

impl<'n, W: Drop> SenderSpool<'n, W> {
    /// What a sender has for the files of so many destinations, 0 if there is no spool, where it notes what happens to them: no
    /// files yet. Refuses if out of memory.
    pub(crate) fn new(
        alloc: Global,
        count: usize,
        limit: Option<u64>,
        notes: &'n [SpoolNotes],
    ) -> Result<SenderSpool<'n, W>, NoMemory> {
        let mut dests = Vec::new(alloc);
        let size = if count == 0 { 0 } else { PIECE };
        for _ in 0..count {
            add(&mut dests, SpooledDest::none())?;
        }
        Ok(SenderSpool {
            dests,
            piece: vec![in alloc; 0; size]?,
            limit,
            notes,
            is_kept: false,
        })
    }

    /// It is the keeper's, which writes more behind the files: it notes itself that all is sent.
    pub(crate) fn of_keeper(self) -> SenderSpool<'n, W> {
        let mut spool = self;
        spool.is_kept = true;
        spool
    }

    /// The system's limit for the size of a file, in bytes, if there is one.
    pub(crate) fn limit(&self) -> Option<u64> {
        self.limit
    }

    /// So many datapoints of a destination were to go to a file, and did not.
    pub(crate) fn note_left_out(&self, place: usize, datapoints: u64) {
        if let Some(notes) = self.notes.get(place) {
            notes.note_left_out(datapoints);
        }
    }

    /// From now on these are the files of a destination. The connection that the earlier one went out on goes on, if it is
    /// there.
    pub(crate) fn begin(&mut self, place: usize, files: Option<DestSpool>, sink: Option<W>) {
        let mut files = files;
        let notes = self.notes.get(place);
        note_behind(notes, &mut files, &mut self.piece);
        let Some(state) = self.dests.get_mut(place) else {
            drop((files, sink));
            return;
        };
        match sink {
            Some(sink) => state.connection.keep(sink),
            None => reconnect(&mut files, notes),
        }
        state.spool = files;
    }

    /// Takes the files of a destination, and the connection that the earlier one goes out on, if there is one.
    pub(crate) fn take(&mut self, place: usize) -> Option<(DestSpool, Option<W>)> {
        let state = self.dests.get_mut(place)?;
        let files = state.spool.take()?;
        let sink = match state.end.take() {
            Some(end) => Some(end.into_sink()),
            None => state.connection.take(),
        };
        Some((files, sink))
    }
}

impl<'n, W> SenderSpool<'n, W> {
    /// How many destinations have places for files: none if there is no spool.
    pub(crate) fn dests(&self) -> usize {
        self.dests.len()
    }

    /// Whether there is no spool.
    pub(crate) fn is_none(&self) -> bool {
        self.dests.is_empty()
    }
}

impl<'n, W: Write + HalfClose + Drop> SenderSpool<'n, W> {
    /// The connection of the earlier file of a destination is not needed, if there is one: nothing is left of that.
    pub(crate) fn leave_connection(&mut self, place: usize) {
        let Some(state) = self.dests.get_mut(place) else {
            return;
        };
        if let Some(sink) = state.connection.take() {
            half_close(sink);
        }
    }

    /// The files of a destination.
    pub(crate) fn files_mut(&mut self, place: usize) -> Option<&mut DestSpool> {
        self.dests.get_mut(place)?.spool.as_mut()
    }

    /// Whether a connection takes more of the earlier file of a destination at once, or has taken a part.
    pub(crate) fn takes_more(&self, place: usize) -> bool {
        match self.dests.get(place) {
            Some(state) => state.connection.goes_on() || state.end.is_some(),
            None => false,
        }
    }

    /// Whether a connection takes the earlier file of a destination, or has taken a part, which its store has not ended yet.
    pub(crate) fn is_sending(&self, place: usize) -> bool {
        match self.dests.get(place) {
            Some(state) => state.connection.is_open() || state.end.is_some(),
            None => false,
        }
    }

    /// Whether a file goes on at once.
    pub(crate) fn goes_on(&self) -> bool {
        for dest in &self.dests {
            if dest.connection.goes_on() {
                return true;
            }
        }
        false
    }

    /// These destinations' connections are ready.
    pub(crate) fn note_ready(&mut self, ready: &[DestId]) {
        for dest in ready {
            if let Some(state) = self.dests.get_mut(dest.0) {
                state.connection.note_ready();
            }
        }
    }

    /// The connection of a destination has closed.
    pub(crate) fn note_closed<D: SpoolDisk>(&mut self, disk: &D, place: usize) {
        if let Some(state) = self.dests.get_mut(place) {
            state.note_closed(disk, self.notes.get(place));
        }
    }

    /// Whether a connection that took a part of the earlier file of a destination is not ended by its store yet, at these
    /// milliseconds.
    pub(crate) fn awaits_end<D: SpoolDisk>(&mut self, disk: &D, place: usize, millis: u64) -> bool {
        let Some(state) = self.dests.get_mut(place) else {
            return false;
        };
        let notes = self.notes.get(place);
        let was_behind = state.is_behind() && !self.is_kept;
        let seconds = if self.is_kept {
            KEEPER_END_S
        } else {
            LONGEST_END_S
        };
        let awaits = state.awaits_end(disk, millis, seconds, notes);
        if let (Some(notes), true, false) = (notes, was_behind, state.is_behind()) {
            notes.note_sent(true);
        }
        awaits
    }

    /// Whether an earlier file of a destination is not sent yet.
    pub(crate) fn is_behind(&self, place: usize) -> bool {
        match self.dests.get(place) {
            Some(state) => state.is_behind(),
            None => false,
        }
    }

    /// Whether the earlier file of a destination has a connection.
    pub(crate) fn has_sink(&self, place: usize) -> bool {
        match self.dests.get(place) {
            Some(state) => state.connection.is_open(),
            None => false,
        }
    }

    /// Whether the next connection of a destination is its new file.
    pub(crate) fn has_file(&self, place: usize) -> bool {
        match self.dests.get(place) {
            Some(state) => state.spool.is_some(),
            None => false,
        }
    }

    /// The earlier file of a destination has this connection.
    pub(crate) fn keep(&mut self, place: usize, sink: W) {
        if let Some(state) = self.dests.get_mut(place) {
            state.connection.keep(sink);
        }
    }

    /// Sends some of the earlier file of a destination to its connection, which is returned once others may have it.
    pub(crate) fn send<D: SpoolDisk>(&mut self, disk: &D, place: usize) -> Option<W> {
        let state = self.dests.get_mut(place)?;
        let notes = self.notes.get(place);
        let given = state.send(disk, &mut self.piece, notes);
        if let (Some(notes), false) = (notes, state.is_behind() || self.is_kept) {
            notes.note_sent(matches!(given, Some((_, true))));
        }
        match given {
            Some((sink, _)) => Some(sink),
            None => None,
        }
    }

    /// What is known at these milliseconds of lines that no file takes, and a connection of a destination took, if one did.
    pub(crate) fn kept_end(&mut self, place: usize, millis: u64) -> Option<PartEnd> {
        self.dests.get_mut(place)?.kept_end(millis)
    }

    /// Gives up the connection of a destination that took all lines which no file takes, if there is one. Returns whether it is
    /// lost.
    pub(crate) fn has_lost_kept(&mut self, place: usize) -> bool {
        let Some(state) = self.dests.get_mut(place) else {
            return false;
        };
        let Some(end) = state.end.take() else {
            return false;
        };
        let is_lost = end.is_lost();
        drop(end);
        is_lost
    }

    /// Sends some of the lines that no file takes to the connection of a destination. Returns whether that has some of them.
    pub(crate) fn send_kept(&mut self, place: usize, lines: &mut KeptLines) -> bool {
        let Some(state) = self.dests.get_mut(place) else {
            return false;
        };
        match lines.send(&mut state.connection, &mut self.piece) {
            Turn::Over(sink) => {
                state.end = Some(FileEnd::begin(sink));
                true
            }
            Turn::Kept => true,
            Turn::GivenUp { sink, .. } => {
                half_close(sink);
                false
            }
            Turn::Broken { .. } | Turn::Lost => {
                drop(state.connection.take());
                false
            }
        }
    }

    /// The files of a destination, once: they are its last connection. The connection that its file went to is given up.
    pub(crate) fn take_files<D: SpoolDisk>(&mut self, disk: &D, place: usize) -> Option<DestSpool> {
        let _awaits = self.awaits_end(disk, place, 0);
        let (mut files, sink) = self.take(place)?;
        if let Some(sink) = sink {
            drop(sink);
            files.reconnect(self.notes.get(place));
        }
        Some(files)
    }
}

/// Half-closes a connection that is no longer needed, which is no loss.
pub(crate) fn half_close<W: HalfClose + Drop>(sink: W) {
    let mut sink = sink;
    sink.half_close();
    drop(sink);
}

/// The connection that the earlier file of a destination went out on is closed.
fn reconnect(files: &mut Option<DestSpool>, notes: Option<&SpoolNotes>) {
    if let Some(files) = files {
        files.reconnect(notes);
    }
}

/// Notes whether an earlier file of a destination is to be sent, and what waits in it.
fn note_behind(notes: Option<&SpoolNotes>, spool: &mut Option<DestSpool>, piece: &mut [u8]) {
    if let (Some(notes), Some(spool)) = (notes, spool) {
        spool.note_waiting(piece, notes);
        if spool.is_behind() {
            notes.note_behind();
        }
    }
}
