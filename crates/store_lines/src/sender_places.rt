//! What a sender has for its destinations beside their connections.

use crate::dest_carry_over::{DestCarryOver, DestSlots};
use crate::diversions::DivertTo;
use crate::divert_sink::DivertSink;
use crate::rest_connector::SenderRests;
use crate::sender_spool::SenderSpool;
use crate::spool_connector::SpoolSink;
use crate::spool_left::{WrittenLeft, write_lines};
use relay_base::{DestId, MOST_DESTINATIONS, NoMemory};
use run_state::RestNotes;
use senders::{Lookup, StoreConnector, StoreStream};
use spool::{SpoolDisk, SpoolNotes};
use std::alloc::Global;
use std::net::Net;
use std::sync::Wait;

/// The destinations of one of several senders, of which one of `n` has each n-th, and the slots that have what is left for them.
#[derive(Clone, Copy)]
pub struct Share<'n> {
    /// The slots.
    pub slots: &'n DestSlots,
    /// How many destinations all senders have.
    pub dests: usize,
    /// The number of this sender.
    pub sender: usize,
    /// How many senders there are.
    pub senders: usize,
}

impl Share<'_> {
    /// Whether the sender has the destination of a place.
    pub(crate) fn has(&self, place: usize) -> bool {
        place.checked_rem(self.senders) == Some(self.sender)
    }
}

/// The places of a sender, by destination: for files, and for what ended runs left.
#[derive(Drop)]
pub struct SenderPlaces<'n, D: SpoolDisk + Wait + Drop> {
    pub(crate) spool: SenderSpool<'n, DivertSink<'n, StoreStream<'n>, D>>,
    pub(crate) rests: SenderRests<'n, SpoolSink<'n, DivertSink<'n, StoreStream<'n>, D>, D>>,
}

impl<'n, D: SpoolDisk + Wait + Net + Copy + Drop> SenderPlaces<'n, D> {
    /// Places for so many files, which may grow to this limit, and for so many rests, and where it is noted what becomes of
    /// each; 0 if there are none. Refuses if out of memory.
    pub fn new(
        alloc: Global,
        files: usize,
        limit: Option<u64>,
        file_notes: &'n [SpoolNotes],
        rests: usize,
        rest_notes: &'n [RestNotes],
    ) -> Result<SenderPlaces<'n, D>, NoMemory> {
        let spool = SenderSpool::new(alloc, files, limit, file_notes)?;
        match SenderRests::new(alloc, rests, rest_notes) {
            Ok(rests) => Ok(SenderPlaces { spool, rests }),
            Err(fault) => {
                drop(spool);
                Err(fault)
            }
        }
    }

    /// Takes what is left for each destination of a sender out of its slot, and has it sent: the connector goes on with the
    /// connection, at these milliseconds. Returns which destinations have one. It takes no memory.
    pub(crate) fn take_lefts<L: Lookup + Drop>(
        &mut self,
        rt: &D,
        share: &Share<'n>,
        connector: &mut StoreConnector<'n, D, L>,
        to: Option<DivertTo<'n>>,
        millis: u64,
    ) -> [bool; MOST_DESTINATIONS] {
        let mut are_kept = [false; MOST_DESTINATIONS];
        for place in 0..share.dests {
            if share.has(place) {
                let mut left = if self.spool.is_none() {
                    share.slots.take_rests(rt, place)
                } else {
                    share.slots.take(place)
                };
                let sink = match left.socket.take() {
                    Some(socket) => connector.keep(DestId(place), socket, millis),
                    None => None,
                };
                if let Some(is_kept) = are_kept.get_mut(place) {
                    *is_kept = sink.is_some();
                }
                self.take_left(rt, place, left, diverted_sink(sink, to, place));
            }
        }
        are_kept
    }

    /// Has what is left for a destination sent: its connection goes on with the earlier file, if that is not sent yet, and
    /// otherwise with the rest. A later rest is behind another one. Lines that could not be written are tried once more: of a
    /// destination that is gone nobody keeps them.
    fn take_left(
        &mut self,
        rt: &D,
        place: usize,
        left: DestCarryOver,
        sink: Option<DivertSink<'n, StoreStream<'n>, D>>,
    ) {
        let is_behind_file = left.is_behind_file();
        let WrittenLeft {
            rest,
            later,
            files,
            lost,
        } = write_lines(rt, left, self.spool.limit());
        self.spool.note_left_out(place, lost);
        let mut sink = sink;
        let of_file = if is_behind_file { sink.take() } else { None };
        self.spool.begin(place, files, of_file);
        if let Some(rest) = rest {
            let of_rest = match sink.take() {
                Some(sink) => Some(SpoolSink::Store(sink)),
                None => None,
            };
            self.rests.begin(place, rest, later, of_rest);
        } else {
            drop(later);
        }
        drop(sink);
    }
}

/// The connection of a destination that may be diverted, if it has one.
fn diverted_sink<'n, D: Wait + Drop>(
    sink: Option<StoreStream<'n>>,
    to: Option<DivertTo<'n>>,
    place: usize,
) -> Option<DivertSink<'n, StoreStream<'n>, D>> {
    let intake = match to {
        Some(to) => to.diversions.intake(place),
        None => None,
    };
    match sink {
        Some(sink) => Some(DivertSink::Store { sink, intake }),
        None => None,
    }
}
