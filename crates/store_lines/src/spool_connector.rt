//! Connections behind the files of what an earlier run did not send, and files in place of the last connections.

ghost use Rattle.std.specs.Prelude.{◌≡◌, IfErr};

use crate::dest_carry_over::{DestSlots, socket_of};
use crate::earlier_lines::{EarlierLines, connect_behind, wait_beside};
use crate::file_end::PartEnd;
use crate::rest_connector::RestFiles;
use crate::sender_places::Share;
use crate::sender_spool::{SenderSpool, half_close};
use crate::spool_left::{SpooledRest, spool_rest};
use handover::Rest;
use mio_loops::ReadinessFault;
use relay_base::{DestId, MOST_DESTINATIONS};
use run_state::{DiskTurns, DiskUser, Signals};
use senders::{Connect, HalfClose, KeptSocket};
use spool::{DestSpool, FileSink, KeptLines, SpoolDisk};
use std::alloc::Global;
use std::io;
use std::io::Write;

/// Connects through another connector. While the file of an earlier run holds lines for a destination, it keeps the
/// connections for itself and sends the file, a part by each, so that the destination is not connected for others before. Once
/// a destination is spooled, it reports its connection as closed, and the next one is its new file.
///
/// Without a spool it connects as the other connector does.
#[derive(Drop)]
pub(crate) struct SpoolConnector<'n, 's, N: Connect, D> {
    connector: N,
    files: SenderFiles<'n, 's, N::Sink, D>,
    slots: &'n DestSlots,
    signals: &'s Signals,
    // Whether the last connections are files.
    may_spool: bool,
    ready: [DestId; MOST_DESTINATIONS],
}

impl<'n, 's, N: Connect, D: SpoolDisk + Copy + Drop> SpoolConnector<'n, 's, N, D>
where
    N::Sink: HalfClose,
{
    /// Connects through `connector` to a sender's share, and reaches the files by `disk`, as this user. These signals say which
    /// destinations' last connections are files. Only a sender gives those out: what the other users have not sent is written to
    /// files elsewhere.
    pub(crate) fn new(
        connector: N,
        disk: D,
        spool: SenderSpool<'n, N::Sink>,
        share: &Share<'n>,
        signals: &'s Signals,
        user: DiskUser,
    ) -> SpoolConnector<'n, 's, N, D> {
        SpoolConnector {
            connector,
            files: SenderFiles::new(spool, disk, DiskTurns::new(signals, user)),
            slots: share.slots,
            signals,
            may_spool: matches!(user, DiskUser::Sender(_)),
            ready: [DestId(0); MOST_DESTINATIONS],
        }
    }

    /// Begins a turn. Returns whether it may use the disk until the next one begins.
    pub(crate) fn begin_turn(&mut self) -> bool {
        self.files.begin_turn()
    }

    /// The files of a destination.
    pub(crate) fn files_mut(&mut self, place: usize) -> Option<&mut DestSpool> {
        self.files.spool.files_mut(place)
    }

    /// Sends some of the earlier files of a destination, if there are, and connects to it for them alone.
    pub(crate) fn send_files(&mut self, dest: DestId, millis: u64) {
        if self.files.awaits_end(dest.0, millis) {
            return;
        }
        if !self.files.spool.is_behind(dest.0) {
            self.files.spool.leave_connection(dest.0);
            return;
        }
        if let Some(sink) = connect_behind(&mut self.connector, &mut self.files, dest, millis) {
            half_close(sink);
        }
    }

    /// Whether an earlier file of a destination is not sent yet, or not known to be at its store.
    pub(crate) fn is_behind(&self, place: usize) -> bool {
        self.files.spool.is_behind(place) || self.files.spool.is_sending(place)
    }

    /// Whether files of a destination hold lines that are to be sent.
    pub(crate) fn has_files(&self, dest: DestId) -> bool {
        self.files.spool.is_behind(dest.0)
    }

    /// Sends some of the lines that no file takes, of a destination of which no file is left, and connects to it for them alone.
    /// Returns whether a connection has some of them, and its store has not ended it.
    pub(crate) fn send_kept(&mut self, dest: DestId, millis: u64, lines: &mut KeptLines) -> bool {
        match self.files.spool.kept_end(dest.0, millis) {
            Some(PartEnd::Open) => return true,
            Some(PartEnd::Taken) | Some(PartEnd::NoEnd) => {
                lines.pass_all();
                return false;
            }
            Some(PartEnd::Lost) => {
                lines.send_again();
                return false;
            }
            None => {}
        }
        if !self.files.spool.has_sink(dest.0) {
            let Some(sink) = self.connector.connect(dest, millis) else {
                return false;
            };
            lines.send_again();
            self.files.spool.keep(dest.0, sink);
        }
        self.files.spool.send_kept(dest.0, lines)
    }

    /// Gives up the connection that has lines which no file takes. Returns whether it is lost.
    pub(crate) fn leave_kept(&mut self, dest: DestId) -> bool {
        let is_lost = self.files.spool.has_lost_kept(dest.0);
        self.files.spool.leave_connection(dest.0);
        is_lost
    }

    /// Whether the store of a destination takes more of the earlier file at once, or is about to end the connection that took a
    /// part.
    pub(crate) fn takes_more(&self, place: usize) -> bool {
        self.files.spool.takes_more(place)
    }

    /// Whether the last connection of a destination is its new file.
    fn is_spooling(&self, dest: DestId) -> bool {
        self.may_spool && self.signals.is_spooled(dest) && !self.files.spool.is_none()
    }

    /// Leaves the files of a destination in their slot, with the socket that the earlier one goes out on if another run
    /// follows.
    fn leave(&mut self, place: usize) {
        let Some((mut files, sink)) = self.files.spool.take(place) else {
            return;
        };
        let Some(sink) = sink else {
            self.slots.leave_files(place, Some(files), None);
            return;
        };
        let socket = socket_of(&mut self.connector, self.signals, DestId(place), sink);
        let notes = self.files.spool.notes.get(place);
        match &socket {
            Some(_) => {}
            None if self.signals.is_handing() => files.send_again(notes),
            None => files.reconnect(notes),
        }
        self.slots.leave_files(place, Some(files), socket);
    }

    /// Begins a turn, and waits beside the files.
    fn wait_beside_files(&mut self, millis: u64) -> Result<&[DestId], ReadinessFault>
        ensures device { IfErr result (λ fault. fault ≡ ReadinessFault.Device) }
    {
        let _may_use_disk = self.files.begin_turn();
        let count = wait_beside(
            &mut self.connector,
            &mut self.files,
            &mut self.ready,
            millis,
        )?;
        Ok(&self.ready[..count])
    }

    /// The connection of a destination, once the file of an earlier run is sent.
    fn connect_behind_file(&mut self, dest: DestId, millis: u64) -> Option<N::Sink> {
        if !self.files.may_use_disk() && self.is_behind(dest.0) {
            return None;
        }
        if self.files.awaits_end(dest.0, millis) {
            return None;
        }
        connect_behind(&mut self.connector, &mut self.files, dest, millis)
    }
}

impl<'n, 's, N: Connect + Drop, D: SpoolDisk + Copy + Drop> Connect for SpoolConnector<'n, 's, N, D>
where
    N::Sink: HalfClose,
{
    type Sink = SpoolSink<'n, N::Sink, D>;

    type Stores = N::Stores;

    fn stores(&mut self) -> &mut N::Stores {
        self.connector.stores()
    }

    fn wait(&mut self, millis: u64) -> Result<&[DestId], ReadinessFault> {
        if self.files.spool.is_none() {
            return self.connector.wait(millis);
        }
        self.wait_beside_files(millis)
    }

    fn connect(&mut self, dest: DestId, millis: u64) -> Option<SpoolSink<'n, N::Sink, D>> {
        if self.is_spooling(dest) {
            return Some(SpoolSink::File(self.files.last_file(dest.0)?));
        }
        Some(SpoolSink::Store(self.connect_behind_file(dest, millis)?))
    }

    fn has_closed(&self, dest: DestId) -> bool {
        if self.is_spooling(dest) {
            return self.files.spool.has_file(dest.0);
        }
        self.connector.has_closed(dest)
    }

    fn take_back(&mut self, dest: DestId, sink: SpoolSink<'n, N::Sink, D>) -> Option<KeptSocket> {
        match sink {
            SpoolSink::Store(sink) => self.connector.take_back(dest, sink),
            SpoolSink::File(_) => None,
        }
    }

    fn end(&mut self) {
        for place in 0..self.files.spool.dests() {
            self.leave(place);
        }
        self.files.end_turns();
        self.connector.end();
    }
}

impl<'n, 's, N: Connect, D: SpoolDisk + Copy + Drop> RestFiles for SpoolConnector<'n, 's, N, D>
where
    N::Sink: HalfClose,
{
    fn may_spool(&self, dest: DestId) -> bool {
        self.may_spool && self.files.spool.has_file(dest.0)
    }

    fn may_use_disk(&self) -> bool {
        self.files.may_use_disk()
    }

    fn spool_rest(&mut self, alloc: Global, dest: DestId, rest: Rest) -> SpooledRest {
        let Some((files, sink)) = self.files.spool.take(dest.0) else {
            return SpooledRest {
                left: Some(rest),
                kept: 0,
                lost: 0,
                files: None,
            };
        };
        drop(sink);
        let mut spooled = spool_rest(
            self.files.disk,
            alloc,
            rest,
            files,
            self.files.spool.limit(),
        );
        self.files.spool.begin(dest.0, spooled.files.take(), None);
        spooled
    }
}

/// A sender's files, the disk that they are on, and the turns in which the sender may use it.
#[derive(Drop)]
struct SenderFiles<'n, 's, W, D> {
    spool: SenderSpool<'n, W>,
    disk: D,
    turns: DiskTurns<'s>,
    may_use_disk: bool,
}

impl<'n, 's, W: Drop, D: SpoolDisk> SenderFiles<'n, 's, W, D> {
    /// These files, on this disk. Before the first turn the sender may use it.
    fn new(spool: SenderSpool<'n, W>, disk: D, turns: DiskTurns<'s>) -> SenderFiles<'n, 's, W, D> {
        SenderFiles {
            spool,
            disk,
            turns,
            may_use_disk: true,
        }
    }

    /// Begins a turn. Returns whether the sender may use the disk until the next one begins.
    fn begin_turn(&mut self) -> bool {
        self.may_use_disk = self.turns.begin();
        self.may_use_disk
    }

    /// Whether the sender may use the disk.
    fn may_use_disk(&self) -> bool {
        self.may_use_disk
    }

    /// The sender uses the disk no more.
    fn end_turns(&mut self) {
        self.turns.end();
    }
}

impl<'n, 's, W: Write + HalfClose + Drop, D: SpoolDisk + Copy + Drop> SenderFiles<'n, 's, W, D> {
    /// Whether a connection that took a part of the earlier file of a destination is not ended by its store yet, at these
    /// milliseconds.
    fn awaits_end(&mut self, place: usize, millis: u64) -> bool {
        self.spool.awaits_end(&self.disk, place, millis)
    }

    /// The new file of a destination, once: it is its last connection.
    fn last_file(&mut self, place: usize) -> Option<FileSink<'n, D>> {
        let files = self.spool.take_files(&self.disk, place)?;
        let notes = self.spool.notes.get(place);
        Some(FileSink::new(self.disk, files, self.spool.limit(), notes))
    }
}

impl<'n, 's, W: Write + HalfClose + Drop, D: SpoolDisk> EarlierLines<W>
    for SenderFiles<'n, 's, W, D> {
    fn dests(&self) -> usize {
        self.spool.dests()
    }

    fn goes_on(&self) -> bool {
        self.may_use_disk && self.spool.goes_on()
    }

    fn note_ready(&mut self, ready: &[DestId]) {
        self.spool.note_ready(ready);
    }

    // A close that is not noted now shows at the next write.
    fn note_closed(&mut self, place: usize) {
        if self.may_use_disk {
            self.spool.note_closed(&self.disk, place);
        }
    }

    fn is_left(&self, place: usize) -> bool {
        self.spool.is_behind(place)
    }

    fn is_open(&self, place: usize) -> bool {
        self.spool.has_sink(place)
    }

    fn begin_connection(&mut self, place: usize, sink: W) {
        self.spool.keep(place, sink);
    }

    fn send(&mut self, place: usize) -> Option<W> {
        self.spool.send(&self.disk, place)
    }
}

/// A connection: to the store, or the destination's new file.
#[derive(Drop)]
pub(crate) enum SpoolSink<'n, W, D: SpoolDisk + Drop> {
    /// To the store.
    Store(W),
    /// The file.
    File(FileSink<'n, D>),
}

impl<W: Write, D: SpoolDisk + Drop> Write for SpoolSink<'_, W, D> {
    fn write(&mut self, buf: &[u8]) -> io::Result<usize> {
        match self {
            SpoolSink::Store(sink) => sink.write(buf),
            SpoolSink::File(file) => file.write(buf),
        }
    }

    fn flush(&mut self) -> io::Result<()> {
        match self {
            SpoolSink::Store(sink) => sink.flush(),
            SpoolSink::File(file) => file.flush(),
        }
    }
}
