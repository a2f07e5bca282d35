//! The work of the thread that sends to destinations that are gone.

use crate::diversions::NoLevels;
use crate::first_lines::{FirstLines, SenderStart};
use crate::gone_dests::GoneDests;
use crate::last_wait::end_connections;
use crate::sender_places::{SenderPlaces, Share};
use crate::spool_left::{SpooledLeft, spool_left};
use mio_loops::{SystemTimes, TimeSource};
use relay_base::DestId;
use run_state::{DiskTurns, DiskUser, GoneEnd, Signals, ThreadWork};
use senders::{Connect, HalfClose, StoreConnector, Stores};
use spool::SpoolDisk;
use std::alloc::{AllocError, Global};
use std::net::Net;
use std::rt::Clock;
use std::sync::Wait;
use std::time::{Duration, Instant};

/// For how many milliseconds a wait lasts at most: so late a try to connect begins.
const MOST_WAIT_MS: u64 = 10;

/// The milliseconds between two looks whether it may use the disk.
const TURN_MS: u64 = 1;

/// A sender to destinations that are gone, as long as `--drain` allows: their connector, its places, and since when the
/// milliseconds of a run count.
#[derive(Drop)]
pub struct PartingJob<'x, R: Wait + SpoolDisk + Drop> {
    /// The destinations.
    pub gone: &'x GoneDests,
    /// What connects to them.
    pub connector: StoreConnector<'x, R>,
    /// The places.
    pub places: SenderPlaces<'x, R>,
    /// The system's limit for the size of a file, in bytes, if there is one.
    pub limit: Option<u64>,
    /// Since when the milliseconds of a run count.
    pub began: Option<Instant>,
}

impl<'x, R: Wait + Clock + Net + SpoolDisk + Copy + Drop> ThreadWork<R, ()> for PartingJob<'x, R> {
    fn name(&self, alloc: Global) -> Result<String, AllocError> {
        String::from_str(alloc, "parting")
    }

    /// Sends until all is sent, the time of each is over, or the senders stop. What is left then goes to the next run, if one
    /// follows, and otherwise to files, or is lost.
    fn work(self, rt: &R, alloc: Global, signals: &Signals) {
        let PartingJob {
            gone,
            connector,
            places,
            limit,
            began,
        } = self;
        let share = Share {
            slots: &gone.slots,
            dests: gone.dests.len(),
            sender: 0,
            senders: 1,
        };
        let times = SystemTimes::since(rt, began);
        let start = SenderStart {
            connector,
            places,
            share,
            divert: None,
            levels: NoLevels,
        };
        let first = start.take_lefts(rt, signals, DiskUser::Parting, times.millis());
        send_left(rt, alloc, first, gone, &times, signals);
        let mut turns = DiskTurns::new(signals, DiskUser::Parting);
        for place in 0..gone.dests.len() {
            if !wait_for_turn(rt, &mut turns, signals) {
                break;
            }
            spool_one(rt, alloc, gone, place, limit);
        }
        turns.end();
        gone.note_sender_over();
    }
}

/// Sends what is left to each destination that is gone.
fn send_left<'n, 's, N: Connect + Drop, R: Wait + Clock + SpoolDisk + Copy + Drop>(
    rt: &R,
    alloc: Global,
    first: FirstLines<'n, 's, N, R>,
    gone: &GoneDests,
    times: &SystemTimes<'_, R>,
    signals: &Signals,
)
where
    N::Sink: HalfClose + Drop,
{
    let connector = first.into_connector(*rt, alloc);
    send_all(rt, connector, gone, times, signals);
}

/// Sends to each destination that is gone, and ends the connections.
fn send_all<R: Wait + Clock, N: Connect + Drop>(
    rt: &R,
    connector: N,
    gone: &GoneDests,
    times: &SystemTimes<'_, R>,
    signals: &Signals,
) {
    let mut connector = connector;
    send_until_over(rt, &mut connector, gone, times, signals);
    end_connections(rt, &mut connector, times, signals);
    connector.end();
    drop(connector);
}

/// Sends to each destination that is gone until it has all, its time is over, or the senders stop.
fn send_until_over<R: Wait + Clock, N: Connect>(
    rt: &R,
    connector: &mut N,
    gone: &GoneDests,
    times: &SystemTimes<'_, R>,
    signals: &Signals,
) {
    for _ in rt.forever() {
        let millis = times.millis();
        send_to_all(connector, gone, millis);
        connector.stores().about_to_wait();
        if !gone.are_sent_to(millis) || ends(signals) {
            return;
        }
        if connector.wait(MOST_WAIT_MS).is_err() {
            return;
        }
    }
    unreachable!()
}

/// Whether it ends: with the senders, or, if another run follows, before them.
fn ends(signals: &Signals) -> bool {
    signals.senders_end() || signals.is_handing()
}

/// Sends some to each destination that is gone, and notes which have all.
fn send_to_all<N: Connect>(connector: &mut N, gone: &GoneDests, millis: u64) {
    for place in 0..gone.dests.len() {
        if gone.is_over(place, millis) {
            continue;
        }
        // The connection is given out once it took all that is left.
        if let Some(sink) = connector.connect(DestId(place), millis) {
            drop(sink);
            let end = GoneEnd {
                spooled: 0,
                unsent: 0,
            };
            gone.note_over(place, end);
        }
    }
}

/// Waits until it may use the disk. Returns whether it may: not if another run follows.
fn wait_for_turn<R: Wait + Clock>(rt: &R, turns: &mut DiskTurns<'_>, signals: &Signals) -> bool {
    for _ in rt.forever() {
        if signals.is_handing() {
            return false;
        }
        if turns.begin() {
            return true;
        }
        rt.sleep(Duration::from_millis(TURN_MS));
    }
    unreachable!()
}

/// Writes to a file what is left for a destination that is gone, if files keep that, and notes what became of it. The files stay in
/// the slot: a destination that returns is sent what they hold.
fn spool_one<R: SpoolDisk + Copy + Drop>(
    rt: &R,
    alloc: Global,
    gone: &GoneDests,
    place: usize,
    limit: Option<u64>,
) {
    let SpooledLeft { end, files } = spool_left(*rt, alloc, gone.slots.take(place), limit);
    gone.slots.leave_files(place, files, None);
    if !gone.has_ended(place) {
        gone.note_over(place, end);
    }
}
