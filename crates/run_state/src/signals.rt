//! Signals between the threads of a relay and the first one, and who gives them.

ghost use Rattle.std.specs.Prelude.{◌≡◌, ◌^◌, nat_lt, if◌then◌else◌};

use crate::disk_users::{DiskUser, DiskUsers};
use mio_loops::{ReadinessFault, StopFlag};
use relay_base::DestId;
use std::rt::Clock;
use std::sync::Wait;
use std::sync::atomic::{AtomicBool, AtomicU64, AtomicUsize, Ordering};
use std::time::Duration;

/// The milliseconds between two looks at the threads that begin.
const PAUSE_MS: u64 = 1;

/// Signals between the threads of a relay and the first one: that the receivers, the senders and at last the watching threads are
/// to stop, which receivers and senders have begun, and for whom a drain did not wait. Who has only these stops nobody: [`Stopper`]
/// does.
#[derive(Drop)]
pub struct Signals {
    receivers: AtomicBool,
    // The receiver of datagrams is to stop, after those of connections.
    datagrams: AtomicBool,
    // The connections of the senders are files from now on.
    spooling: AtomicBool,
    // The destinations whose connections are files before that, a bit each.
    spooled: AtomicU64,
    senders: AtomicBool,
    // The keeper of the files is to stop.
    keeper: AtomicBool,
    // Nobody is to use the disk, and who does not: a bit each.
    halting: AtomicBool,
    halted: AtomicU64,
    watchers: AtomicBool,
    // The status server is to stop.
    status: AtomicBool,
    // What the threads hold goes on in another run.
    handing: AtomicBool,
    // How many of these stops were told: a thread that sleeps wakes when that changes.
    stops: AtomicU64,
    // The destinations that a drain gave up, a bit each.
    stuck: AtomicU64,
    slow: AtomicU64,
    // Which receivers and senders have begun, and which ended out of memory: a bit each.
    begun: AtomicUsize,
    lost_receivers: AtomicU64,
    lost_senders: AtomicU64,
}

impl Signals {
    /// No thread has begun, and none is to stop.
    pub fn new() -> Signals {
        Signals {
            receivers: AtomicBool::new(false),
            datagrams: AtomicBool::new(false),
            spooling: AtomicBool::new(false),
            spooled: AtomicU64::new(0),
            senders: AtomicBool::new(false),
            keeper: AtomicBool::new(false),
            halting: AtomicBool::new(false),
            halted: AtomicU64::new(0),
            watchers: AtomicBool::new(false),
            status: AtomicBool::new(false),
            handing: AtomicBool::new(false),
            stops: AtomicU64::new(0),
            stuck: AtomicU64::new(0),
            slow: AtomicU64::new(0),
            begun: AtomicUsize::new(0),
            lost_receivers: AtomicU64::new(0),
            lost_senders: AtomicU64::new(0),
        }
    }

    /// Whether the receivers are to stop.
    pub fn receivers(&self) -> StopSign<'_> {
        StopSign {
            flag: &self.receivers,
        }
    }

    /// Whether the receiver of datagrams is to stop: after those of connections, since what comes to its shut port is lost.
    pub fn datagrams(&self) -> StopSign<'_> {
        StopSign {
            flag: &self.datagrams,
        }
    }

    /// Whether the senders are to stop. Then they close their connections.
    pub fn senders(&self) -> StopSign<'_> {
        StopSign {
            flag: &self.senders,
        }
    }

    /// Whether what the threads hold goes on in the next run.
    pub fn is_handing(&self) -> bool {
        self.handing.load(Ordering::SeqCst)
    }

    /// Whether the senders write to files what they have not sent.
    fn is_spooling(&self) -> bool {
        self.spooling.load(Ordering::SeqCst)
    }

    /// Whether the sender of a destination writes to a file what it has not sent.
    pub fn is_spooled(&self, dest: DestId) -> bool {
        if self.is_spooling() {
            return true;
        }
        let spooled = self.spooled.load(Ordering::SeqCst);
        spooled != 0 && spooled & bit_of(dest) != 0
    }

    /// Whether the keeper of the files is to stop.
    pub fn keeper_stops(&self) -> bool {
        self.keeper.load(Ordering::SeqCst)
    }

    /// Whether nobody is to use the disk.
    pub(crate) fn is_disk_use_to_halt(&self) -> bool {
        self.halting.load(Ordering::SeqCst)
    }

    /// A thread does not use the disk, or it goes on.
    pub(crate) fn note_disk_use_halted(&self, user: DiskUser, is_halted: bool) {
        let bit = user.bit();
        let _before = if is_halted {
            self.halted.fetch_or(bit, Ordering::SeqCst)
        } else {
            self.halted.fetch_and(!bit, Ordering::SeqCst)
        };
    }

    /// Whether none of these threads uses the disk.
    pub fn has_disk_use_halted(&self, users: DiskUsers) -> bool {
        self.halted.load(Ordering::SeqCst) & users.bits == users.bits
    }

    /// Whether the status server is to stop.
    pub fn status_stops(&self) -> bool {
        self.status.load(Ordering::SeqCst) || self.watchers_stop()
    }

    /// How many stops were told.
    pub fn stops(&self) -> u64 {
        self.stops.load(Ordering::SeqCst)
    }

    /// Sleeps for this many milliseconds, or until another stop is told beside those that were seen. It may end earlier.
    pub fn sleep<R: Wait>(&self, rt: &R, seen: u64, millis: u64) {
        let seen = u32::try_from(seen).unwrap_or(u32::MAX);
        self.stops
            .park_timeout(rt, seen, Duration::from_millis(millis));
    }

    /// The destinations that take nothing, and those that are too slow, for which a drain does not wait: a bit each.
    pub fn note_given_up(&self, stuck: u64, slow: u64) {
        self.stuck.store(stuck, Ordering::SeqCst);
        self.slow.store(slow, Ordering::SeqCst);
    }

    /// The destinations for which the drain did not wait, those that took nothing and those that were too slow: a bit each.
    pub fn given_up(&self) -> (u64, u64) {
        let stuck = self.stuck.load(Ordering::SeqCst);
        (stuck, self.slow.load(Ordering::SeqCst))
    }

    /// Whether the relay is about to end: the receivers are to stop, or have stopped, and no run follows.
    pub fn is_relay_ending(&self) -> bool {
        self.receivers.load(Ordering::SeqCst) && !self.is_handing()
    }

    /// Whether the senders give up their connections: they write to files, or are to stop, or have stopped.
    pub fn senders_end(&self) -> bool {
        self.is_spooling() || self.senders_stop()
    }

    /// Whether the senders are to stop, or have stopped.
    pub fn senders_stop(&self) -> bool {
        self.senders.load(Ordering::SeqCst)
    }

    /// Whether receivers and senders have ended.
    pub fn watchers_stop(&self) -> bool {
        self.watchers.load(Ordering::SeqCst)
    }

    /// The receiver of a number has ended, with a fault or without.
    pub fn note_receiver_end(&self, receiver: usize, fault: Option<ReadinessFault>) {
        if let Some(ReadinessFault::NoMemory) = fault {
            let _before = self
                .lost_receivers
                .fetch_or(bit(receiver), Ordering::SeqCst);
        }
    }

    /// The sender of a number has ended, with a fault or without.
    pub fn note_sender_end(&self, sender: usize, fault: Option<ReadinessFault>) {
        if let Some(ReadinessFault::NoMemory) = fault {
            let _before = self.lost_senders.fetch_or(bit(sender), Ordering::SeqCst);
        }
    }

    /// The receivers and the senders that ended out of memory, a bit each.
    pub fn lost(&self) -> (u64, u64) {
        let receivers = self.lost_receivers.load(Ordering::SeqCst);
        (receivers, self.lost_senders.load(Ordering::SeqCst))
    }

    /// Waits until this many receivers and senders have begun. Returns whether they have: false if one has ended out of
    /// memory.
    pub fn wait_for_begun<R: Wait + Clock>(&self, rt: &R, count: usize) -> bool {
        for _ in rt.forever() {
            let (receivers, senders) = self.lost();
            if receivers != 0 || senders != 0 {
                return false;
            }
            if self.begun.load(Ordering::SeqCst) >= count {
                return true;
            }
            rt.sleep(Duration::from_millis(PAUSE_MS));
        }
        unreachable!()
    }
}

/// Whether a thread is to stop.
#[derive(Clone, Copy)]
pub struct StopSign<'s> {
    flag: &'s AtomicBool,
}

impl StopFlag for StopSign<'_> {
    fn is_set(&self) -> bool {
        self.flag.load(Ordering::SeqCst)
    }
}

/// Where a receiver or a sender notes that it has begun: it has all the memory that it needs to begin when it first
/// waits or connects.
#[derive(Drop)]
pub struct BeginNote<'s> {
    signals: &'s Signals,
    is_noted: bool,
}

impl<'s> BeginNote<'s> {
    /// It has not begun.
    pub fn new(signals: &'s Signals) -> BeginNote<'s> {
        BeginNote {
            signals,
            is_noted: false,
        }
    }

    /// Whether the receivers are to stop, or have stopped, and no run follows.
    pub fn is_receiving_over(&self) -> bool {
        self.signals.is_relay_ending()
    }

    /// It waits or connects: if for the first time, it has begun.
    pub fn note_wait(&mut self) {
        if !self.is_noted {
            self.is_noted = true;
            let _before = self.signals.begun.fetch_add(1, Ordering::SeqCst);
        }
    }
}

/// Tells the threads of a run to stop. The first thread alone has it, so that no receiver or sender stops another one.
#[derive(Clone, Copy)]
pub struct Stopper<'s> {
    signals: &'s Signals,
}

impl<'s> Stopper<'s> {
    /// Tells those that read these signals.
    pub(crate) fn of(signals: &'s Signals) -> Stopper<'s> {
        Stopper { signals }
    }

    /// The signals that the threads read.
    pub fn signals(self) -> &'s Signals {
        self.signals
    }

    /// From now on what the threads hold goes on in the next run: nothing is closed, and nothing ends but this run.
    pub fn begin_handing(self) {
        self.signals.handing.store(true, Ordering::SeqCst);
    }

    /// Tells the receivers to stop.
    pub fn stop_receivers(self) {
        self.tell(&self.signals.receivers);
    }

    /// Tells the receiver of datagrams to stop.
    pub fn stop_datagrams(self) {
        self.signals.datagrams.store(true, Ordering::SeqCst);
    }

    /// Tells the senders to write to files what they have not sent to these destinations, a bit each: before any receiver stops, so
    /// that the ports are shut for a shorter time.
    pub fn spool_to(self, dests: u64) {
        let _before = self.signals.spooled.fetch_or(dests, Ordering::SeqCst);
    }

    /// Tells the senders to write to files what they have not sent.
    pub fn begin_spooling(self) {
        self.signals.spooling.store(true, Ordering::SeqCst);
    }

    /// Tells the senders to stop.
    pub fn stop_senders(self) {
        self.tell(&self.signals.senders);
    }

    /// Has no thread use the disk before the run ends, or has them go on as before.
    pub fn halt_disk_use(self, is_to_halt: bool) {
        self.signals.halting.store(is_to_halt, Ordering::SeqCst);
    }

    /// Tells the keeper of the files to stop: the senders have ended.
    pub fn stop_keeper(self) {
        self.signals.keeper.store(true, Ordering::SeqCst);
    }

    /// Tells the status server to stop, before the others: another run follows, and nothing is to wait for it meanwhile.
    pub fn stop_status(self) {
        self.tell(&self.signals.status);
    }

    /// Tells the watching threads to stop.
    pub fn stop_watchers(self) {
        self.tell(&self.signals.watchers);
    }

    /// Sets a stop flag, and wakes the threads that sleep until a stop.
    fn tell(self, flag: &AtomicBool) {
        flag.store(true, Ordering::SeqCst);
        let _before = self.signals.stops.fetch_add(1, Ordering::SeqCst);
        self.signals.stops.wake_all();
    }
}

/// The bit of a receiver or a sender, of which there are 8 at most; 0 for another number.
pub fn bit(number: usize) -> u64
    ensures { result ≡ (if nat_lt number 8 then 2 ^ number else 0) }
{
    match number {
        0 => 1,
        1 => 2,
        2 => 4,
        3 => 8,
        4 => 16,
        5 => 32,
        6 => 64,
        7 => 128,
        _ => 0,
    }
}

/// The bit of a destination, of which there are 64 at most; 0 for another one.
fn bit_of(dest: DestId) -> u64 {
    let mut bit: u64 = 1;
    for _ in 0..dest.0 {
        bit = bit.wrapping_mul(2);
    }
    bit
}
