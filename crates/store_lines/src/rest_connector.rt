//! Connections behind what ended runs left.

ghost use Rattle.std.specs.Prelude.{◌≡◌, IfErr};
ghost use Rattle.dest_writer.specs.Writer.{bytes_left};
ghost use Rattle.handover.specs.Rest.{left_text};

use crate::dest_carry_over::socket_of;
use crate::dest_rests::DestRests;
use crate::earlier_lines::{EarlierLines, connect_behind, wait_beside};
use crate::sender_places::Share;
use crate::spool_left::SpooledRest;
use dest_queue::QueuedPoints;
use dest_writer::GatherBuf;
use handover::{Rest, RestConnection};
use mio_loops::{LeftBatch, LeftWriter, ReadinessFault};
use relay_base::{DestId, MOST_DESTINATIONS, NoMemory, add};
use run_state::{RestNotes, Signals};
use senders::{Connect, HandOver, KeptSocket};
use std::alloc::Global;
use std::io::Write;

/// What ended runs left for a sender's destinations, until all of it is sent.
#[derive(Drop)]
pub(crate) struct SenderRests<'n, W> {
    // By destination.
    dests: Vec<DestRests<W>>,
    // None if there is no place.
    gathered: Option<GatherBuf>,
    notes: &'n [RestNotes],
}

impl<'n, W: Drop> SenderRests<'n, W> {
    /// Places for the rests of so many destinations; where it is noted how much of each is left. Refuses if out of memory. For
    /// none it takes no memory.
    pub(crate) fn new(
        alloc: Global,
        dests: usize,
        notes: &'n [RestNotes],
    ) -> Result<SenderRests<'n, W>, NoMemory> {
        let mut none = Vec::new(alloc);
        for _ in 0..dests {
            add(&mut none, DestRests::none())?;
        }
        let gathered = if dests == 0 {
            None
        } else {
            Some(GatherBuf::new(alloc)?)
        };
        Ok(SenderRests {
            dests: none,
            gathered,
            notes,
        })
    }

    /// From now on this rest of a destination is to be sent, and then the later one, if there is one: the connection that its
    /// writer had goes on, if it is there.
    pub(crate) fn begin(&mut self, place: usize, rest: Rest, later: Option<Rest>, sink: Option<W>) {
        if let Some(dest) = self.dests.get_mut(place) {
            *dest = DestRests::begin(rest, later, sink);
        }
    }

    /// Whether nothing is left for any destination.
    fn are_over(&self) -> bool {
        self.dests.iter().all(|dest| dest.rest.is_none())
    }

    /// All connections are to be tried.
    fn note_all_ready(&mut self) {
        for place in 0..self.dests.len() {
            if let Some(rest) = self.rest_mut(place) {
                rest.note_ready();
            }
        }
    }

    /// The rest of a destination, if one is left.
    fn rest_mut(&mut self, place: usize) -> Option<&mut RestConnection<W>> {
        self.dests.get_mut(place)?.rest.as_mut()
    }

    /// Takes the rest of a destination, its connection, if there is one, and the later rest, if there is one.
    fn take(&mut self, place: usize) -> Option<(Rest, Option<W>, Option<Rest>)> {
        self.dests.get_mut(place)?.take()
    }

    /// Whether the first rest of a destination is to go to the file.
    fn is_for_file(&self, place: usize) -> bool {
        match self.dests.get(place) {
            Some(dest) => dest.may_spool,
            None => false,
        }
    }

    /// Takes the first rest of a destination, once, if it is to go to the file. Its connection, if there is one, is given up.
    fn take_for_file(&mut self, place: usize) -> Option<Rest> {
        let dest = self.dests.get_mut(place)?;
        if !dest.may_spool {
            return None;
        }
        dest.may_spool = false;
        let (mut rest, sink) = dest.rest.take()?.into_parts();
        drop(sink);
        rest.lose();
        Some(rest)
    }

    /// The file of a destination keeps so many datapoints of the first rest, which had this many in hand, and has lost so many.
    /// What it did not take is left.
    fn put_back(&mut self, place: usize, spooled: SpooledRest, in_hand: u64) {
        let SpooledRest {
            left,
            kept,
            lost,
            ..
        } = spooled;
        let Some(dest) = self.dests.get_mut(place) else {
            drop(left);
            return;
        };
        match left {
            Some(left) => dest.rest = Some(RestConnection::new(left)),
            None => drop(dest.go_on(None)),
        }
        let notes = self.notes.get(place);
        dest.note(notes);
        if let Some(notes) = notes {
            // Those in hand count as taken already.
            notes.note_spooled(kept.saturating_sub(in_hand), lost.saturating_sub(in_hand));
        }
    }
}

impl<W: Write + Drop> EarlierLines<W> for SenderRests<'_, W> {
    fn dests(&self) -> usize {
        self.dests.len()
    }

    fn goes_on(&self) -> bool {
        for dest in &self.dests {
            if let Some(rest) = &dest.rest {
                if rest.goes_on() {
                    return true;
                }
            }
        }
        false
    }

    fn note_ready(&mut self, ready: &[DestId]) {
        for dest in ready {
            if let Some(rest) = self.rest_mut(dest.0) {
                rest.note_ready();
            }
        }
    }

    fn note_closed(&mut self, place: usize) {
        if let Some(rest) = self.rest_mut(place) {
            if rest.is_open() {
                rest.lose();
            }
        }
    }

    fn is_left(&self, place: usize) -> bool {
        match self.dests.get(place) {
            Some(dest) => dest.rest.is_some(),
            None => false,
        }
    }

    fn is_open(&self, place: usize) -> bool {
        match self.dests.get(place) {
            Some(
                DestRests {
                    rest: Some(rest),
                    ..
                },
            ) => rest.is_open(),
            _ => false,
        }
    }

    // It is another connection than the writer had.
    fn begin_connection(&mut self, place: usize, sink: W) {
        if let Some(rest) = self.rest_mut(place) {
            rest.begin(sink);
        }
    }

    // The connection is for others once it took all of the rest, and of the later one.
    fn send(&mut self, place: usize) -> Option<W> {
        let Some(gathered) = &mut self.gathered else {
            return None;
        };
        let dest = self.dests.get_mut(place)?;
        let sink = dest.send(gathered);
        dest.note(self.notes.get(place));
        sink
    }
}

/// The rest that a writer with the batch in hand leaves, with nothing behind it.
fn rest_in_hand(alloc: Global, batch: LeftBatch) -> Rest
    ensures { left_text result ≡ bytes_left batch.writer.writer }
{
    let LeftBatch {
        limit,
        writer,
        lent,
    } = batch;
    Rest::new(limit, writer, lent, QueuedPoints::none(alloc))
}

/// Connects through another connector. While a rest is left for a destination, it keeps the connection for itself and sends the
/// rest, so that the destination is not connected for others before. Without rests it connects as the other connector does. A
/// rest that has another one behind it goes to the file first, if there is one.
///
/// When the sender ends, what is still left goes to the slots; and if another run follows, so does what the sender had in hand,
/// with its connection.
#[derive(Drop)]
pub(crate) struct RestConnector<'n, 's, N: Connect> {
    connector: N,
    rests: SenderRests<'n, N::Sink>,
    share: Share<'n>,
    signals: &'s Signals,
    alloc: Global,
    ready: [DestId; MOST_DESTINATIONS],
}

impl<'n, 's, N: Connect> RestConnector<'n, 's, N> {
    /// Connects through `connector`, behind these rests, for a sender with this share of the destinations.
    pub(crate) fn new(
        alloc: Global,
        connector: N,
        rests: SenderRests<'n, N::Sink>,
        share: Share<'n>,
        signals: &'s Signals,
    ) -> RestConnector<'n, 's, N> {
        RestConnector {
            connector,
            rests,
            share,
            signals,
            alloc,
            ready: [DestId(0); MOST_DESTINATIONS],
        }
    }

    /// Waits beside the rests. While the relay ends, each connection is tried after a wait: the system reports late what a slow
    /// store takes.
    fn wait_beside_rests(&mut self, millis: u64) -> Result<&[DestId], ReadinessFault>
        ensures device { IfErr result (λ fault. fault ≡ ReadinessFault.Device) }
    {
        let count = wait_beside(
            &mut self.connector,
            &mut self.rests,
            &mut self.ready,
            millis,
        )?;
        if self.signals.is_relay_ending() {
            self.rests.note_all_ready();
        }
        Ok(&self.ready[..count])
    }

    /// Leaves the rests of a destination in their slot, with the socket of the connection if another run follows.
    fn leave(&mut self, place: usize) {
        let Some((rest, sink, later)) = self.rests.take(place) else {
            return;
        };
        let socket = match sink {
            Some(sink) => { socket_of(&mut self.connector, self.signals, DestId(place), sink) }
            None => None,
        };
        self.share.slots.leave_rest(place, rest, later, socket);
    }
}

/// Who has the files of a sender's destinations.
pub(crate) trait RestFiles {
    /// Whether a rest of a destination may go to its file while the run goes on.
    fn may_spool(&self, dest: DestId) -> bool;

    /// Whether the disk may be used.
    fn may_use_disk(&self) -> bool;

    /// Writes a rest of a destination to its file, which is sent before anything else from now on. The connection that an earlier
    /// file went out on is given up. Without files all of the rest is left.
    fn spool_rest(&mut self, alloc: Global, dest: DestId, rest: Rest) -> SpooledRest;
}

impl<'n, 's, N: Connect + RestFiles> RestConnector<'n, 's, N> {
    /// Writes the first rest of a destination to the file, once, if it is to go there. Returns whether that is done: not while
    /// the disk may not be used.
    fn spool_first(&mut self, dest: DestId) -> bool {
        if !self.connector.may_spool(dest) || !self.rests.is_for_file(dest.0) {
            return true;
        }
        if !self.connector.may_use_disk() {
            return false;
        }
        if let Some(rest) = self.rests.take_for_file(dest.0) {
            let in_hand = rest.in_hand() as u64;
            let spooled = self.connector.spool_rest(self.alloc, dest, rest);
            self.rests.put_back(dest.0, spooled, in_hand);
        }
        true
    }
}

impl<'n, 's, N: Connect + RestFiles + Drop> Connect for RestConnector<'n, 's, N> {
    type Sink = N::Sink;

    type Stores = N::Stores;

    fn stores(&mut self) -> &mut N::Stores {
        self.connector.stores()
    }

    fn wait(&mut self, millis: u64) -> Result<&[DestId], ReadinessFault> {
        if self.rests.are_over() {
            return self.connector.wait(millis);
        }
        self.wait_beside_rests(millis)
    }

    fn connect(&mut self, dest: DestId, millis: u64) -> Option<N::Sink> {
        if self.rests.is_left(dest.0) && !self.spool_first(dest) {
            return None;
        }
        connect_behind(&mut self.connector, &mut self.rests, dest, millis)
    }

    fn has_closed(&self, dest: DestId) -> bool {
        self.connector.has_closed(dest)
    }

    fn take_back(&mut self, dest: DestId, sink: N::Sink) -> Option<KeptSocket> {
        self.connector.take_back(dest, sink)
    }

    fn end(&mut self) {
        for place in 0..self.rests.dests.len() {
            self.leave(place);
        }
        self.connector.end();
    }
}

impl<'n, 's, N: Connect + RestFiles + Drop> HandOver for RestConnector<'n, 's, N> {
    fn hands_over(&self) -> bool {
        self.signals.is_handing()
    }

    /// What the sender had in hand is the beginning of the destination's rest, if the run is followed by another, and the
    /// destination is this sender's and had no rest.
    fn hand_over(&mut self, dest: DestId, left: LeftWriter<N::Sink>) {
        let is_own = self.share.has(dest.0);
        if !is_own || !self.signals.is_handing() || self.rests.is_left(dest.0) {
            return;
        }
        let LeftWriter { batch, sink } = left;
        let socket = match sink {
            Some(sink) => self.connector.take_back(dest, sink),
            None => None,
        };
        let rest = rest_in_hand(self.alloc, batch);
        self.share.slots.leave_rest(dest.0, rest, None, socket);
    }
}
