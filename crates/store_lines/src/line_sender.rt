//! What sends a sender's own lines, and what goes out before and after them.

ghost use Rattle.std.specs.Prelude.{◌≡◌, ◌≤◌};
ghost use Rattle.queue_records.specs.Takes.{IsHandedBy};
ghost use Rattle.senders.specs.Record.{SenderEnds, EndsFor};

use crate::counted_connector::CountedConnector;
use crate::diversions::{DivertTo, QueueLevels};
use crate::first_lines::{FirstLines, SenderStart};
use crate::sender_places::{SenderPlaces, Share};
use mio_loops::TimeSource;
use queue_records::Supply;
use run_state::{BeginNote, DiskUser, EndState, Signals};
use senders::{BatchSender, Connect, HalfClose, SenderRecord, StoreConnector, send_batches};
use spool::SpoolDisk;
use std::alloc::Global;
use std::net::Net;
use std::rt::Clock;
use std::sync::Wait;

/// What sends to a sender's share of the destinations: to each first what ended runs left for it, then the batches of a supply,
/// and at the end what is left to its file.
#[derive(Drop)]
pub struct LineSender<'x, R: Wait + SpoolDisk + Drop, Q> {
    /// What connects to the destinations.
    pub connector: StoreConnector<'x, R>,
    /// The places of its files, and of what ended runs left.
    pub places: SenderPlaces<'x, R>,
    /// Its share.
    pub share: Share<'x>,
    /// The greatest number of datapoints in a batch.
    pub limit: usize,
    /// What it diverts destinations by, if it does, and how full their queues are.
    pub divert: Option<DivertTo<'x>>,
    /// The queues.
    pub levels: Q,
    /// Where it is counted what the connections take; `None` if what is queued at the end is lost.
    pub end: Option<&'x EndState>,
    ghost few: { (1 ≤ share.dests) × (share.dests ≤ 64) },
    ghost most: { (1 ≤ limit) × (limit ≤ 10000) },
}

impl<'x, R: Wait + Clock + Net + SpoolDisk + Copy + Drop, Q: QueueLevels + Drop> LineSender<
    'x,
    R,
    Q,
> {
    /// Sends until the senders' stop flag is set, or a fault, by [`send_batches`].
    ///
    /// A connection goes to the file that is still to be sent, then to the rest, then to the batches.
    pub fn send<S: Supply + Drop, T: TimeSource>(
        self,
        rt: &R,
        alloc: Global,
        supply: S,
        times: &T,
        signals: &Signals,
    ) -> SenderRecord<S>
        ensures ran { SenderEnds (IsHandedBy S.record_of S.may_hand) self.entry.share.dests self.entry.limit result.fault
            result.logs.items (S.record_of supply) (S.record_of result.outlet) }
        ensures fault { EndsFor result.fault result.logs.items (S.record_of supply)
            (S.record_of result.outlet) }
    {
        let LineSender {
            connector,
            places,
            share,
            limit,
            divert,
            levels,
            end,
        } = self;
        let own = OwnLines {
            supply,
            dests: share.dests,
            limit,
            end,
        };
        let start = SenderStart {
            connector,
            places,
            share,
            divert,
            levels,
        };
        let user = DiskUser::Sender(share.sender);
        let first = start.take_lefts(rt, signals, user, times.millis());
        send_own(rt, alloc, first, own, times, signals)
    }
}

/// A sender's own lines: those of a supply to so many destinations, so many datapoints in a batch at most, and where it is counted
/// what the connections take.
#[derive(Drop)]
struct OwnLines<'x, S> {
    supply: S,
    dests: usize,
    limit: usize,
    end: Option<&'x EndState>,
    ghost few: { (1 ≤ dests) × (dests ≤ 64) },
    ghost most: { (1 ≤ limit) × (limit ≤ 10000) },
}

/// Sends what is left for each destination, and then a sender's own lines, by [`send_batches`].
fn send_own<
    'n,
    's,
    N: Connect + Drop,
    R: Wait + SpoolDisk + Copy + Drop,
    S: Supply + Drop,
    T: TimeSource,
>(
    rt: &R,
    alloc: Global,
    first: FirstLines<'n, 's, N, R>,
    own: OwnLines<'n, S>,
    times: &T,
    signals: &Signals,
) -> SenderRecord<S>
where
    N::Sink: HalfClose + Drop,
    ensures ran { SenderEnds (IsHandedBy S.record_of S.may_hand) own.entry.dests own.entry.limit
        result.fault result.logs.items (S.record_of own.entry.supply) (S.record_of result.outlet) }
    ensures fault { EndsFor result.fault result.logs.items (S.record_of own.entry.supply)
        (S.record_of result.outlet) }
{
    let OwnLines {
        supply,
        dests,
        limit,
        end,
    } = own;
    let connector = first.into_connector(*rt, alloc);
    let connector = CountedConnector::new(connector, end, BeginNote::new(signals));
    let sender = BatchSender {
        connector,
        dests,
        limit,
        supply,
    };
    send_batches(rt, alloc, sender, times, &signals.senders())
}
