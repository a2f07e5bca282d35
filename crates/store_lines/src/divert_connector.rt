//! Connections of destinations that are diverted while their stores are away, or take less than comes.

ghost use Rattle.std.specs.Prelude.{◌≡◌, IfErr};

use crate::diversions::{DivertTo, QueueLevels};
use crate::divert_sink::{DivertSink, IntakeSink};
use crate::sender_places::Share;
use mio_loops::ReadinessFault;
use relay_base::{DestId, MOST_DESTINATIONS};
use run_state::Signals;
use senders::{Connect, KeptSocket, Stores, copy_list};
use spool::Intake;
use std::sync::Wait;

/// How full the queue of a live destination is, in eighths, once it is diverted.
const LIVE_EIGHTHS: u64 = 4;

/// How full that of a returning one is once it is diverted again: it is about to be live.
const RETURNING_EIGHTHS: u64 = 7;

/// Which connection a destination's writer has.
#[derive(Clone, Copy)]
enum Given {
    /// None: the destination is live, and has lost it, or never had one.
    Nothing,
    /// None: the destination is about to be live again.
    Returning,
    /// One to the store.
    Store,
    /// One to the store that the writer is to drop.
    Ending,
    /// The intake.
    Intake,
}

/// Connects through another connector. While the store of a destination is away, or takes no more, and the destination's queue
/// is half full, the connection is the destination's intake: the keeper of the files writes them from there, and sends them. It
/// is given up for one to the store once the keeper asks for that, and has sent all.
///
/// In a run that diverts nothing it connects as the other connector does.
#[derive(Drop)]
pub(crate) struct DivertConnector<'n, 's, N, R, Q> {
    connector: N,
    rt: R,
    levels: Q,
    to: Option<DivertTo<'n>>,
    share: Share<'n>,
    signals: &'s Signals,
    given: [Given; MOST_DESTINATIONS],
    ready: [DestId; MOST_DESTINATIONS],
}

impl<'n, 's, N: Connect, R: Wait + Copy + Drop, Q: QueueLevels> DivertConnector<'n, 's, N, R, Q> {
    /// Connects through `connector` to a sender's share, and diverts by this, if it diverts, until these signals end the run.
    pub(crate) fn new(
        connector: N,
        rt: R,
        levels: Q,
        to: Option<DivertTo<'n>>,
        share: Share<'n>,
        signals: &'s Signals,
    ) -> DivertConnector<'n, 's, N, R, Q> {
        DivertConnector {
            connector,
            rt,
            levels,
            to,
            share,
            signals,
            given: [Given::Nothing; MOST_DESTINATIONS],
            ready: [DestId(0); MOST_DESTINATIONS],
        }
    }

    /// These destinations go on with the connections to their stores that an ended run had.
    pub(crate) fn with_kept(
        self,
        are_kept: &[bool; MOST_DESTINATIONS],
    ) -> DivertConnector<'n, 's, N, R, Q> {
        let mut connector = self;
        for (place, is_kept) in are_kept.iter().enumerate() {
            if *is_kept {
                connector.give(DestId(place), Given::Store);
            }
        }
        connector
    }

    /// The intake of a destination, if it may be diverted.
    fn intake(&self, dest: DestId) -> Option<&'n Intake> {
        self.to?.diversions.intake(dest.0)
    }

    /// Which connection the writer of a destination has.
    fn given(&self, dest: DestId) -> Given {
        self.given.get(dest.0).copied().unwrap_or(Given::Nothing)
    }

    /// From now on the writer of a destination has this connection.
    fn give(&mut self, dest: DestId, given: Given) {
        if let Some(place) = self.given.get_mut(dest.0) {
            *place = given;
        }
    }

    /// Whether the last connection of a destination is its intake: the relay is about to end.
    fn is_ending(&self, dest: DestId) -> bool {
        self.signals.is_spooled(dest)
    }

    /// The connection to the store of a destination that is not diverted, if there is one.
    fn connect_store(
        &mut self,
        dest: DestId,
        millis: u64,
        intake: &'n Intake,
    ) -> Option<DivertSink<'n, N::Sink, R>> {
        if intake.is_behind(&self.rt) {
            return None;
        }
        let sink = self.connector.connect(dest, millis)?;
        intake.note_blocked(false);
        self.give(dest, Given::Store);
        Some(DivertSink::Store {
            sink,
            intake: Some(intake),
        })
    }

    /// The intake of a destination, which is diverted from now on.
    fn divert(
        &mut self,
        dest: DestId,
        intake: &'n Intake,
        to: DivertTo<'n>,
    ) -> DivertSink<'n, N::Sink, R> {
        let was_live = intake.open(&self.rt);
        intake.note_blocked(false);
        if let Some(notes) = to.notes.get(dest.0) {
            if was_live {
                notes.note_begun();
            }
            if self.is_ending(dest) {
                notes.note_spooling();
            }
        }
        self.give(dest, Given::Intake);
        to.gate.wake_all();
        DivertSink::Intake(IntakeSink::new(self.rt, intake, to.gate))
    }

    /// Whether a destination is to be diverted, which has no connection to its store, or one that takes no more.
    fn is_full(&self, dest: DestId) -> bool {
        let eighths = match self.given(dest) {
            Given::Returning => RETURNING_EIGHTHS,
            _ => LIVE_EIGHTHS,
        };
        self.levels.is_filled(dest, eighths)
    }

    /// Looks at each destination of the share, and waits: not at all while a connection is given up, or an intake that was full has
    /// room again.
    fn wait_beside_intakes(
        &mut self,
        millis: u64,
        to: DivertTo<'n>,
    ) -> Result<&[DestId], ReadinessFault>
        ensures device { IfErr result (λ fault. fault ≡ ReadinessFault.Device) }
    {
        let pause = if self.look_at_all(to) { 0 } else { millis };
        let count = copy_list(self.connector.wait(pause)?, &mut self.ready);
        for place in 0..count.min(MOST_DESTINATIONS) {
            let dest = self.ready[place];
            self.note_ready(dest);
        }
        let mut count = count;
        for place in 0..to.diversions.len().min(MOST_DESTINATIONS) {
            let dest = DestId(place);
            self.note_end(dest, to);
            if self.takes_again(dest) && count < MOST_DESTINATIONS {
                self.ready[count] = dest;
                count += 1;
            }
        }
        Ok(&self.ready[..count.min(MOST_DESTINATIONS)])
    }

    /// Looks at each destination. Returns whether nothing is to be waited for.
    fn look_at_all(&mut self, to: DivertTo<'n>) -> bool {
        let mut presses = false;
        for place in 0..self.share.dests {
            presses = self.look_at(DestId(place), to) || presses;
        }
        presses
    }

    /// The connection of a destination is ready.
    fn note_ready(&self, dest: DestId) {
        if let (Given::Store, Some(intake)) = (self.given(dest), self.intake(dest)) {
            intake.note_blocked(false);
        }
    }

    /// Whether the intake of a destination, which was full, has room again.
    fn has_room_at(&self, dest: DestId) -> bool {
        match (self.given(dest), self.intake(dest)) {
            (Given::Intake, Some(intake)) => intake.is_blocked() && intake.has_room(&self.rt),
            _ => false,
        }
    }

    /// Whether the intake of a destination, which was full, has room again. It is ready then.
    fn takes_again(&self, dest: DestId) -> bool {
        if !self.has_room_at(dest) {
            return false;
        }
        if let Some(intake) = self.intake(dest) {
            intake.note_blocked(false);
        }
        true
    }

    /// Ends the connection of a destination to its store, if that takes no more while the queue is half full, or if the relay is
    /// about to end. Returns whether nothing is to be waited for: a connection is given up, or an intake has room again.
    fn look_at(&mut self, dest: DestId, to: DivertTo<'n>) -> bool {
        let Some(intake) = self.intake(dest) else {
            return false;
        };
        match self.given(dest) {
            Given::Store if self.is_given_up(dest, intake) => {
                self.connector.stores().end_connection(dest);
                intake.note_store_busy(true);
                self.give(dest, Given::Ending);
                true
            }
            Given::Intake => {
                if let (true, Some(notes)) = (self.is_ending(dest), to.notes.get(dest.0)) {
                    notes.note_spooling();
                }
                self.has_room_at(dest)
            }
            _ => false,
        }
    }

    /// Notes whether the store of a destination has ended the connection that was given up, if one was.
    fn note_end(&mut self, dest: DestId, to: DivertTo<'n>) {
        let Some(intake) = self.intake(dest) else {
            return;
        };
        if self.share.has(dest.0)
            && intake.is_store_busy()
            && self.connector.stores().has_ended(dest)
        {
            intake.note_store_busy(false);
            to.gate.wake_all();
        }
    }

    /// Whether the connection of a destination to its store was given up.
    fn is_given_up_already(&self, dest: DestId) -> bool {
        matches!(self.given(dest), Given::Ending)
    }

    /// Whether the connection of a destination to its store is given up.
    fn is_given_up(&self, dest: DestId, intake: &Intake) -> bool {
        if self.signals.is_handing() {
            return false;
        }
        self.is_ending(dest) || intake.is_blocked() && self.levels.is_filled(dest, LIVE_EIGHTHS)
    }
}

impl<'n, 's, N: Connect + Drop, R: Wait + Copy + Drop, Q: QueueLevels + Drop> Connect
    for DivertConnector<'n, 's, N, R, Q> {
    type Sink = DivertSink<'n, N::Sink, R>;

    type Stores = N::Stores;

    fn stores(&mut self) -> &mut N::Stores {
        self.connector.stores()
    }

    fn wait(&mut self, millis: u64) -> Result<&[DestId], ReadinessFault> {
        match self.to {
            Some(to) => self.wait_beside_intakes(millis, to),
            None => self.connector.wait(millis),
        }
    }

    fn connect(&mut self, dest: DestId, millis: u64) -> Option<DivertSink<'n, N::Sink, R>> {
        let (Some(to), Some(intake)) = (self.to, self.intake(dest)) else {
            return Some(DivertSink::Store {
                sink: self.connector.connect(dest, millis)?,
                intake: None,
            });
        };
        match self.given(dest) {
            Given::Store => self.give(dest, Given::Nothing),
            Given::Intake => self.give(dest, Given::Returning),
            Given::Nothing | Given::Returning | Given::Ending => {}
        }
        // One that was given up is not closed before its store has read it.
        if self.is_ending(dest) || self.is_given_up_already(dest) {
            return Some(self.divert(dest, intake, to));
        }
        if let Some(sink) = self.connect_store(dest, millis, intake) {
            return Some(sink);
        }
        if self.is_full(dest) {
            Some(self.divert(dest, intake, to))
        } else {
            None
        }
    }

    fn has_closed(&self, dest: DestId) -> bool {
        match self.given(dest) {
            Given::Nothing | Given::Returning | Given::Store => self.connector.has_closed(dest),
            Given::Ending => true,
            Given::Intake => match self.intake(dest) {
                Some(intake) => intake.is_to_shut() && !self.is_ending(dest),
                None => true,
            },
        }
    }

    fn take_back(&mut self, dest: DestId, sink: DivertSink<'n, N::Sink, R>) -> Option<KeptSocket> {
        match sink {
            DivertSink::Store { sink, .. } => self.connector.take_back(dest, sink),
            DivertSink::Intake(sink) => {
                drop(sink);
                None
            }
        }
    }

    fn end(&mut self) {
        self.connector.end();
    }
}
