//! What goes out to a sender's destinations before its own lines.

use crate::diversions::{DivertTo, QueueLevels};
use crate::divert_connector::DivertConnector;
use crate::rest_connector::{RestConnector, SenderRests};
use crate::sender_places::{SenderPlaces, Share};
use crate::sender_spool::SenderSpool;
use crate::spool_connector::{SpoolConnector, SpoolSink};
use run_state::{DiskUser, Signals};
use senders::{Connect, HalfClose, StoreConnector};
use spool::SpoolDisk;
use std::alloc::Global;
use std::net::Net;
use std::sync::Wait;

/// What a sender begins with: what connects to the destinations of its share, the places of what is left for each, what it diverts
/// them by, if it does, and how full their queues are.
#[derive(Drop)]
pub(crate) struct SenderStart<'x, R: Wait + SpoolDisk + Drop, Q> {
    pub(crate) connector: StoreConnector<'x, R>,
    pub(crate) places: SenderPlaces<'x, R>,
    pub(crate) share: Share<'x>,
    pub(crate) divert: Option<DivertTo<'x>>,
    pub(crate) levels: Q,
}

impl<'x, R: Wait + Net + SpoolDisk + Copy + Drop, Q: QueueLevels + Drop> SenderStart<'x, R, Q> {
    /// Takes what is left for each destination out of its slot, for this user of the files, at these milliseconds.
    ///
    /// The connector that diverts is innermost: for the others an intake is a connection as any.
    pub(crate) fn take_lefts<'s>(
        self,
        rt: &R,
        signals: &'s Signals,
        user: DiskUser,
        millis: u64,
    ) -> FirstLines<'x, 's, DivertConnector<'x, 's, StoreConnector<'x, R>, R, Q>, R> {
        let SenderStart {
            mut connector,
            mut places,
            share,
            divert,
            levels,
        } = self;
        let kept = places.take_lefts(rt, &share, &mut connector, divert, millis);
        let connector = DivertConnector::new(
            connector, *rt, levels, divert, share, signals,
        ).with_kept(&kept);
        let SenderPlaces { spool, rests } = places;
        FirstLines {
            connector,
            spool,
            rests,
            share,
            signals,
            user,
        }
    }
}

/// What connects to a sender's destinations, and what is left for each: files, and rests; the signals of the run, and who uses
/// the files.
#[derive(Drop)]
pub(crate) struct FirstLines<'n, 's, N: Connect, D: SpoolDisk + Drop> {
    connector: N,
    spool: SenderSpool<'n, N::Sink>,
    rests: SenderRests<'n, SpoolSink<'n, N::Sink, D>>,
    share: Share<'n>,
    signals: &'s Signals,
    user: DiskUser,
}

impl<'n, 's, N: Connect + Drop, D: SpoolDisk + Copy + Drop> FirstLines<'n, 's, N, D>
where
    N::Sink: HalfClose + Drop,
{
    /// What connects to the destinations for other lines, once those that are left have gone out: first the file that is still to
    /// be sent, then the rest. So the connector that knows of rests is outside: it takes what the writers have in hand when
    /// another run follows.
    pub(crate) fn into_connector(
        self,
        disk: D,
        alloc: Global,
    ) -> RestConnector<'n, 's, SpoolConnector<'n, 's, N, D>> {
        let FirstLines {
            connector,
            spool,
            rests,
            share,
            signals,
            user,
        } = self;
        let connector = SpoolConnector::new(connector, disk, spool, &share, signals, user);
        RestConnector::new(alloc, connector, rests, share, signals)
    }
}
