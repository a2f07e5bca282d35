//! Who keeps the files of a run that diverts destinations.

use crate::diversions::Diversions;
use crate::spool_connector::SpoolConnector;
use crate::spooled_dest::KEEPER_END_S;
use relay_base::DestId;
use run_state::Signals;
use senders::{Connect, HalfClose, WakeGate};
use spool::{Intake, KeptLines, SegmentLimits, SpoolBound, SpoolDisk, SpoolNotes, SpoolStall};
use std::io::ErrorKind;
use std::sync::Wait;
use std::sync::atomic::{AtomicU64, Ordering};
use std::{io, mem};

/// After how many milliseconds lines that could not be written are tried again.
const RETRY_MS: u64 = 1_000;

/// A destination is about to return once its files and its intake have no more bytes than this.
const CLOSE: u64 = 1_048_576;

/// After how many milliseconds a destination is asked again that could not return.
const CLOSE_AGAIN_MS: u64 = 500;

/// How many milliseconds pass between two notes of what the files have.
const NOTE_MS: u64 = 1_000;

/// For how many milliseconds a wait lasts at most while something waits for a destination, and otherwise.
const BEHIND_WAIT_MS: u64 = 10;

const LIVE_WAIT_MS: u64 = 100;

/// What the files may have, and how much they have.
#[derive(Clone, Copy)]
pub(crate) struct KeeperRoom<'n> {
    pub(crate) bound: SpoolBound,
    pub(crate) limits: SegmentLimits,
    pub(crate) used: &'n AtomicU64,
}

/// What the keeper has of a destination beside its files: lines that are not in a file yet, whether some were written since the
/// intake was opened, from when on they are tried, from when on the sender is asked to give the intake up, and since when the store
/// may still read the connection that the sender had.
#[derive(Drop)]
pub(crate) struct KeptDest {
    pub(crate) lines: KeptLines,
    has_written: bool,
    // Whether the last try to write failed, and whether a connection has some of the lines.
    is_stalled: bool,
    is_sending: bool,
    // Whether the lines could not be written while files were to be sent: once these have gone there may be room.
    is_behind_files: bool,
    retry_at: u64,
    close_at: u64,
    busy_since: Option<u64>,
}

impl KeptDest {
    /// A destination of which these lines are left.
    pub(crate) fn new(lines: KeptLines) -> KeptDest {
        KeptDest {
            lines,
            has_written: false,
            is_stalled: false,
            is_sending: false,
            is_behind_files: false,
            retry_at: 0,
            close_at: 0,
            busy_since: None,
        }
    }

    /// Whether the store may still read the connection that the sender had, at these milliseconds. After [`KEEPER_END_S`] it is one
    /// that does not end connections.
    fn awaits_store(&mut self, intake: &Intake, millis: u64) -> bool {
        if !intake.is_store_busy() {
            self.busy_since = None;
            return false;
        }
        let since = self.busy_since.unwrap_or(millis);
        self.busy_since = Some(since);
        millis.saturating_sub(since) < KEEPER_END_S.saturating_mul(1_000)
    }
}

/// Who keeps the files of a run: what connects to the destinations and sends their files, and what it has of each beside these.
#[derive(Drop)]
pub(crate) struct Keeper<'n, 's, N: Connect, D> {
    pub(crate) connector: SpoolConnector<'n, 's, N, D>,
    pub(crate) disk: D,
    pub(crate) diversions: &'n Diversions,
    pub(crate) notes: &'n [SpoolNotes],
    pub(crate) room: KeeperRoom<'n>,
    // What wakes the senders.
    pub(crate) gate: &'n WakeGate,
    pub(crate) signals: &'s Signals,
    // By destination.
    pub(crate) dests: Vec<KeptDest>,
    pub(crate) used: Vec<u64>,
    // At which milliseconds it is noted next what the files have.
    pub(crate) note_at: u64,
}

impl<'n, 's, N: Connect, D: SpoolDisk + Wait + Copy + Drop> Keeper<'n, 's, N, D>
where
    N::Sink: HalfClose,
{
    /// A turn, at these milliseconds: takes what waits in intakes, writes it, sends files, and once a second notes what these have.
    /// Returns for how many milliseconds to wait then.
    pub(crate) fn take_turn(&mut self, millis: u64) -> u64 {
        if millis >= self.note_at {
            self.note_at = millis.saturating_add(NOTE_MS);
            self.note_used();
        }
        let mut has_moved = false;
        let mut are_behind = false;
        for place in 0..self.dests.len() {
            has_moved = self.keep(place, millis) || has_moved;
            self.send(place, millis);
            are_behind = self.end(place, millis) || are_behind;
        }
        if has_moved {
            self.gate.wake_all();
            0
        } else if are_behind {
            BEHIND_WAIT_MS
        } else {
            LIVE_WAIT_MS
        }
    }

    /// Takes the lines that wait in the intake of a destination, and writes what it has of them. Returns whether it took some.
    fn keep(&mut self, place: usize, millis: u64) -> bool {
        let (Some(intake), Some(dest)) = (self.diversions.intake(place), self.dests.get_mut(place))
        else {
            return false;
        };
        let has_taken = dest.lines.fill(&self.disk, intake);
        if !dest.lines.are_none() && millis >= dest.retry_at && !dest.is_sending {
            self.write(place, millis, self.is_last(place));
        }
        has_taken
    }

    /// Whether the lines of a destination are its last ones: the relay is about to end.
    fn is_last(&self, place: usize) -> bool {
        match self.notes.get(place) {
            Some(notes) => notes.is_spooling(),
            None => false,
        }
    }

    /// Writes the lines that it has of a destination to files, within the bound unless these are the last ones.
    fn write(&mut self, place: usize, millis: u64, are_last: bool) {
        let room = if are_last {
            u64::MAX
        } else {
            self.note_used();
            self.room.bound.room(self.used.as_slice(), place)
        };
        let (Some(dest), Some(files)) = (self.dests.get_mut(place), self.connector.files_mut(place))
        else {
            return;
        };
        let lines = dest.lines.within(room);
        let written = if lines.is_empty() {
            Err(io::Error::from(ErrorKind::StorageFull))
        } else {
            files.append(&self.disk, self.room.limits, lines)
        };
        let waiting = files.waiting();
        if let Some(notes) = self.notes.get(place) {
            notes.note_waiting(waiting);
        }
        match written {
            Ok(count) if count > 0 => self.note_written(place, count),
            // The disk has room for a part of a line alone.
            Ok(_) => self.note_stall(place, millis, SpoolStall::Full),
            Err(error) => {
                self.note_error(place, &error, are_last);
                self.note_stall(place, millis, stall_of(&error));
                drop(error);
            }
        }
    }

    /// So many bytes of what it has of a destination are in a file.
    fn note_written(&mut self, place: usize, count: usize) {
        let (Some(dest), Some(notes)) = (self.dests.get_mut(place), self.notes.get(place)) else {
            return;
        };
        dest.retry_at = 0;
        dest.has_written = true;
        dest.is_stalled = false;
        notes.note_stall(None);
        if notes.is_spooling() {
            let before = dest.lines.datapoints();
            dest.lines.pass(count);
            let datapoints = before.saturating_sub(dest.lines.datapoints());
            notes.note_taken(count as u64, datapoints);
        } else {
            dest.lines.pass(count);
        }
    }

    /// The lines of a destination cannot be written now, for this reason: they are tried again later.
    fn note_stall(&mut self, place: usize, millis: u64, stall: SpoolStall) {
        if let Some(dest) = self.dests.get_mut(place) {
            dest.retry_at = millis.saturating_add(RETRY_MS);
            dest.is_stalled = true;
        }
        if let Some(notes) = self.notes.get(place) {
            notes.note_stall(Some(stall));
        }
    }

    /// The last lines of a destination cannot be written, by this error.
    fn note_error(&self, place: usize, error: &io::Error, are_last: bool) {
        if let (Some(notes), true) = (self.notes.get(place), are_last) {
            notes.note_failed(error);
        }
    }

    /// Notes how many bytes the files of each destination have and may have, and how many those of all have together.
    pub(crate) fn note_used(&mut self) {
        let mut all: u64 = 0;
        for place in 0..self.used.len() {
            let bytes = match self.connector.files_mut(place) {
                Some(files) => files.bytes(),
                None => 0,
            };
            if let Some(used) = self.used.get_mut(place) {
                *used = bytes;
            }
            all = all.saturating_add(bytes);
        }
        self.room.used.store(all, Ordering::SeqCst);
        for (place, notes) in self.notes.iter().enumerate() {
            notes.note_room(self.room.bound.room(self.used.as_slice(), place));
        }
    }

    /// Sends some of the files of a destination, once its store has ended the connection that the sender had; or, once none is left
    /// and the disk takes no more all the same, of the lines that could not be written.
    fn send(&mut self, place: usize, millis: u64) {
        let (Some(intake), Some(dest)) = (self.diversions.intake(place), self.dests.get_mut(place))
        else {
            return;
        };
        if dest.awaits_store(intake, millis) {
            return;
        }
        let is_kept = dest.is_stalled && !dest.lines.are_none();
        if !is_kept || self.connector.has_files(DestId(place)) {
            dest.is_behind_files = is_kept;
            self.connector.send_files(DestId(place), millis);
            return;
        }
        if mem::replace(&mut dest.is_behind_files, false) {
            dest.retry_at = millis;
            return;
        }
        dest.is_sending = self
            .connector
            .send_kept(DestId(place), millis, &mut dest.lines);
        if dest.lines.are_none() {
            dest.has_written = true;
        }
    }

    /// Asks the sender of a destination to give the intake up once almost all is sent, and lets the destination be live once all is.
    /// Returns whether it is not.
    fn end(&mut self, place: usize, millis: u64) -> bool {
        let (Some(intake), Some(notes)) = (self.diversions.intake(place), self.notes.get(place))
        else {
            return false;
        };
        if !intake.is_behind(&self.disk) {
            return false;
        }
        notes.note_behind();
        let (is_open, waiting) = intake.state(&self.disk);
        let left = self.left_of(place, waiting as u64);
        if is_open {
            if self.is_almost_sent(place, left) {
                self.ask_to_shut(place, intake, millis);
            }
            return true;
        }
        if left > 0 || self.connector.is_behind(place) || !intake.end_return(&self.disk) {
            return true;
        }
        if let Some(dest) = self.dests.get_mut(place) {
            dest.has_written = false;
        }
        let is_whole = self.leave_files(place);
        notes.note_sent(is_whole);
        notes.note_stall(None);
        self.gate.wake_all();
        false
    }

    /// Whether almost all is sent to a destination of which so many bytes are left: its store takes more, or has all.
    fn is_almost_sent(&self, place: usize, left: u64) -> bool {
        let has_written = match self.dests.get(place) {
            Some(dest) => dest.has_written,
            None => false,
        };
        left <= CLOSE && self.connector.takes_more(place) || left == 0 && has_written
    }

    /// Asks the sender of a destination to give the intake up, unless it was asked a short time ago.
    fn ask_to_shut(&mut self, place: usize, intake: &Intake, millis: u64) {
        let Some(dest) = self.dests.get_mut(place) else {
            return;
        };
        if millis >= dest.close_at {
            dest.close_at = millis.saturating_add(CLOSE_AGAIN_MS);
            intake.ask_to_shut();
            self.gate.wake_all();
        }
    }

    /// A destination is live again. Returns whether all of its files is sent: one that cannot be read stays.
    fn leave_files(&mut self, place: usize) -> bool {
        self.note_used();
        match self.connector.files_mut(place) {
            Some(files) => {
                files.leave_empty(&self.disk);
                files.waiting().bytes == 0
            }
            None => true,
        }
    }

    /// How many bytes are left of a destination, of which so many wait in its intake.
    fn left_of(&mut self, place: usize, in_intake: u64) -> u64 {
        let is_behind = self.connector.is_behind(place);
        let in_files = match self.connector.files_mut(place) {
            Some(files) if is_behind => files.waiting().bytes,
            _ => 0,
        };
        let in_hand = match self.dests.get(place) {
            Some(dest) => dest.lines.len() as u64,
            None => 0,
        };
        in_files.saturating_add(in_hand).saturating_add(in_intake)
    }

    /// Gives up the connection that has lines of a destination which could not be written, if one has. What it took counts as sent
    /// unless it is lost; the others are written, or go out again.
    pub(crate) fn leave_kept(&mut self, place: usize) {
        let Some(dest) = self.dests.get_mut(place) else {
            return;
        };
        if dest.is_sending {
            dest.is_sending = false;
            let is_lost = self.connector.leave_kept(DestId(place));
            dest.lines.leave_connection(is_lost);
        }
    }

    /// Whether there is memory for what waits in the intake of a destination behind the lines that are not written.
    pub(crate) fn has_room_for_intake(&mut self, place: usize) -> bool {
        let (Some(intake), Some(dest)) = (self.diversions.intake(place), self.dests.get_mut(place))
        else {
            return false;
        };
        let (_is_open, waiting) = intake.state(&self.disk);
        dest.lines.make_room(waiting)
    }

    /// Writes the last lines of a destination, once its sender has ended, as far as they can be written.
    pub(crate) fn write_last(&mut self, place: usize, millis: u64) {
        for _ in 0..u64::MAX {
            let (Some(intake), Some(dest)) = (
                self.diversions.intake(place),
                self.dests.get_mut(place),
            ) else {
                return;
            };
            let _has_taken = dest.lines.fill(&self.disk, intake);
            let before = dest.lines.len();
            if before == 0 {
                return;
            }
            self.write(place, millis, true);
            if self.is_stuck(place, before) {
                return;
            }
        }
    }

    /// Whether no line of a destination could be written, of which so many bytes were left.
    fn is_stuck(&self, place: usize, before: usize) -> bool {
        match self.dests.get(place) {
            Some(dest) => dest.lines.len() >= before,
            None => true,
        }
    }

    /// Waits until the files of a destination are on the disk.
    pub(crate) fn sync(&mut self, place: usize) {
        let (Some(files), Some(notes)) = (self.connector.files_mut(place), self.notes.get(place))
        else {
            return;
        };
        if let Err(error) = files.end_segments(&self.disk) {
            notes.note_lost(&error);
            drop(error);
        }
    }
}

/// Why files take no more for now, where a write of them gave this error.
fn stall_of(error: &io::Error) -> SpoolStall {
    match error.kind() {
        ErrorKind::StorageFull | ErrorKind::QuotaExceeded | ErrorKind::FileTooLarge =>
            SpoolStall::Full,
        _ => SpoolStall::CannotWrite,
    }
}
