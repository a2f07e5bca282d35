//! The work of the thread that keeps the files of a run that diverts destinations.

use crate::dest_carry_over::DestCarryOver;
use crate::diversions::Diversions;
use crate::keeper::{Keeper, KeeperRoom, KeptDest};
use crate::last_wait::end_connections;
use crate::sender_places::Share;
use crate::sender_spool::SenderSpool;
use crate::spool_connector::SpoolConnector;
use mio_loops::{SystemTimes, TimeSource};
use relay_base::{DestId, NoMemory, add};
use run_state::{BeginNote, DiskUser, Signals, ThreadWork};
use senders::{Connect, HalfClose, Lookup, StoreConnector, StoreStream, Stores, WakeGate};
use spool::{KeptLines, SpoolBound, SpoolDisk, SpoolNotes};
use std::alloc::{AllocError, Global};
use std::net::Net;
use std::rt::Clock;
use std::sync::Wait;
use std::sync::atomic::AtomicU64;
use std::time::{Duration, Instant};

/// After how many milliseconds a wait that failed is tried again.
const RETRY_WAIT_MS: u64 = 10;

/// After how many milliseconds a keeper that does nothing looks again whether it is to go on, or to stop.
const HALT_MS: u64 = 1;

/// What the keeper of files has for each destination.
#[derive(Drop)]
pub struct KeeperPlaces<'n> {
    spool: SenderSpool<'n, StoreStream<'n>>,
    dests: Vec<KeptDest>,
    used: Vec<u64>,
}

impl<'n> KeeperPlaces<'n> {
    /// Places for so many destinations, whose files may grow to this limit, and where it is noted what happens to them. Refuses if
    /// out of memory.
    pub fn new(
        alloc: Global,
        dests: usize,
        limit: Option<u64>,
        notes: &'n [SpoolNotes],
    ) -> Result<KeeperPlaces<'n>, NoMemory> {
        let mut kept = Vec::new(alloc);
        let mut used = Vec::new(alloc);
        for _ in 0..dests {
            add(&mut kept, KeptDest::new(KeptLines::new(alloc)?))?;
            add(&mut used, 0)?;
        }
        match SenderSpool::new(alloc, dests, limit, notes) {
            Ok(spool) => Ok(KeeperPlaces {
                spool: spool.of_keeper(),
                dests: kept,
                used,
            }),
            Err(fault) => {
                drop((kept, used));
                Err(fault)
            }
        }
    }

    /// Takes the files of each destination out of its slot: the connection that one goes out on goes on, at these milliseconds.
    fn take_files<R: Net + Wait + Drop, L: Lookup + Drop>(
        &mut self,
        rt: &R,
        share: &Share<'n>,
        connector: &mut StoreConnector<'n, R, L>,
        millis: u64,
    ) {
        for place in 0..share.dests {
            let left = share.slots.take_files(rt, place);
            self.take_left(place, left, connector, millis);
        }
    }

    /// Has the files of a destination sent.
    fn take_left<R: Net + Drop, L: Lookup + Drop>(
        &mut self,
        place: usize,
        left: DestCarryOver,
        connector: &mut StoreConnector<'n, R, L>,
        millis: u64,
    ) {
        let DestCarryOver {
            rest,
            later,
            files,
            socket,
            lines,
        } = left;
        drop((rest, later));
        let sink = match socket {
            Some(socket) => connector.keep(DestId(place), socket, millis),
            None => None,
        };
        self.spool.begin(place, files, sink);
        if let (Some(dest), Some(lines)) = (self.dests.get_mut(place), lines) {
            dest.lines = lines;
        }
    }
}

/// The keeper of the files of a run that diverts destinations: it alone opens, writes, sends and removes them while the run goes
/// on. A disk that hangs holds up this thread, and no other.
#[derive(Drop)]
pub struct KeeperJob<'x, R: Wait + SpoolDisk + Drop> {
    /// What connects to the destinations.
    pub connector: StoreConnector<'x, R>,
    /// Its places.
    pub places: KeeperPlaces<'x>,
    /// All destinations.
    pub share: Share<'x>,
    /// Their intakes.
    pub diversions: &'x Diversions,
    /// Where it is noted what happens to the files.
    pub notes: &'x [SpoolNotes],
    /// What wakes the senders.
    pub gate: &'x WakeGate,
    /// How much the files may have.
    pub bound: SpoolBound,
    /// How many bytes they have.
    pub used: &'x AtomicU64,
    /// The system's limit for the size of a file, in bytes, if there is one.
    pub limit: Option<u64>,
    /// Since when the milliseconds of a run count.
    pub began: Option<Instant>,
}

impl<'x, R: Wait + Clock + Net + SpoolDisk + Copy + Drop> ThreadWork<R, ()> for KeeperJob<'x, R> {
    fn name(&self, alloc: Global) -> Result<String, AllocError> {
        String::from_str(alloc, "spool")
    }

    /// Keeps and sends files until the senders have ended. What is still in intakes then goes to files, which are left for the next
    /// run.
    fn work(self, rt: &R, alloc: Global, signals: &Signals) {
        let KeeperJob {
            mut connector,
            mut places,
            share,
            diversions,
            notes,
            gate,
            bound,
            used: all_used,
            limit,
            began,
        } = self;
        let times = SystemTimes::since(rt, began);
        places.take_files(rt, &share, &mut connector, times.millis());
        let KeeperPlaces { spool, dests, used } = places;
        let start = KeeperStart {
            connector,
            spool,
            share,
            diversions,
            notes,
            room: KeeperRoom {
                bound,
                limits: bound.segments(limit),
                used: all_used,
            },
            gate,
            signals,
            dests,
            used,
        };
        keep_all(rt, alloc, start, &times);
    }
}

/// What the keeper of the files begins with: what connects to the destinations, the files that are left, and the rest of
/// [`Keeper`].
#[derive(Drop)]
struct KeeperStart<'n, 's, N: Connect> {
    connector: N,
    spool: SenderSpool<'n, N::Sink>,
    share: Share<'n>,
    diversions: &'n Diversions,
    notes: &'n [SpoolNotes],
    room: KeeperRoom<'n>,
    gate: &'n WakeGate,
    signals: &'s Signals,
    dests: Vec<KeptDest>,
    used: Vec<u64>,
}

impl<'n, 's, N: Connect + Drop> KeeperStart<'n, 's, N>
where
    N::Sink: HalfClose,
{
    /// The keeper, which reaches the files by this.
    fn into_keeper<D: SpoolDisk + Wait + Copy + Drop>(self, disk: D) -> Keeper<'n, 's, N, D> {
        let KeeperStart {
            connector,
            spool,
            share,
            diversions,
            notes,
            room,
            gate,
            signals,
            dests,
            used,
        } = self;
        let user = DiskUser::Keeper;
        let connector = SpoolConnector::new(connector, disk, spool, &share, signals, user);
        let mut keeper = Keeper {
            connector,
            disk,
            diversions,
            notes,
            room,
            gate,
            signals,
            dests,
            used,
            note_at: 0,
        };
        keeper.note_used();
        keeper
    }
}

/// Keeps and sends files until the senders have ended, and leaves them.
fn keep_all<'n, 's, R: Wait + Clock + SpoolDisk + Copy + Drop, N: Connect + Drop>(
    rt: &R,
    alloc: Global,
    start: KeeperStart<'n, 's, N>,
    times: &SystemTimes<'_, R>,
)
where
    N::Sink: HalfClose,
{
    let share = start.share;
    let mut keeper = start.into_keeper(*rt);
    BeginNote::new(keeper.signals).note_wait();
    keep_until_stopped(rt, &mut keeper, times);
    end_files(rt, alloc, &mut keeper, times, &share);
    keeper.connector.end();
    drop(keeper);
}

/// Keeps and sends files until the senders have ended. While it is to do nothing it does not use the disk.
fn keep_until_stopped<'n, 's, R: Wait + Clock + SpoolDisk + Copy + Drop, N: Connect + Drop>(
    rt: &R,
    keeper: &mut Keeper<'n, 's, N, R>,
    times: &SystemTimes<'_, R>,
)
where
    N::Sink: HalfClose,
{
    for _ in rt.forever() {
        if keeper.signals.keeper_stops() {
            return;
        }
        if !keeper.connector.begin_turn() {
            rt.sleep(Duration::from_millis(HALT_MS));
            continue;
        }
        keeper.connector.stores().about_to_wait();
        let pause = keeper.take_turn(times.millis());
        if keeper.connector.wait(pause).is_err() {
            rt.sleep(Duration::from_millis(RETRY_WAIT_MS));
        }
    }
    unreachable!()
}

/// Writes what is left, ends the connections, and waits until all files are on the disk; not if another run follows, which goes on
/// with all of these, and writes what is left.
fn end_files<'n, 's, R: Wait + Clock + SpoolDisk + Copy + Drop, N: Connect + Drop>(
    rt: &R,
    alloc: Global,
    keeper: &mut Keeper<'n, 's, N, R>,
    times: &SystemTimes<'_, R>,
    share: &Share<'n>,
)
where
    N::Sink: HalfClose,
{
    let is_handing = keeper.signals.is_handing();
    for place in 0..keeper.dests.len() {
        keeper.leave_kept(place);
        if !is_handing || !keeper.has_room_for_intake(place) {
            keeper.write_last(place, times.millis());
        }
        leave_lines(rt, alloc, keeper, place, share, is_handing);
    }
    if is_handing {
        return;
    }
    end_connections(rt, &mut keeper.connector, times, keeper.signals);
    for place in 0..keeper.dests.len() {
        keeper.sync(place);
    }
}

/// Leaves the lines of a destination that are not written to the next run, if one follows; otherwise they are lost.
fn leave_lines<'n, 's, R: Wait + SpoolDisk + Copy + Drop, N: Connect + Drop>(
    rt: &R,
    alloc: Global,
    keeper: &mut Keeper<'n, 's, N, R>,
    place: usize,
    share: &Share<'n>,
    is_handing: bool,
)
where
    N::Sink: HalfClose,
{
    let (Some(dest), Some(intake)) = (keeper.dests.get_mut(place), keeper.diversions.intake(place))
    else {
        return;
    };
    let _are_all = dest.lines.fill_behind(rt, alloc, intake);
    if dest.lines.are_none() {
        return;
    }
    if is_handing {
        let lines = dest.lines.take(alloc);
        share.slots.leave_lines(place, lines);
    } else if let Some(notes) = keeper.notes.get(place) {
        notes.note_left_out(dest.lines.datapoints());
    }
}
