//! What a sender notes of a destination.

use crate::noted_address::NotedAddress;
use crate::why::Why;
use std::net::SocketAddr;
use std::sync::atomic::{AtomicBool, AtomicU32, AtomicU64, Ordering};

/// What happened to the connections of a destination. Its sender alone notes it; the thread that writes the log
/// reads it at the same time.
#[derive(Drop)]
pub struct DestNotes {
    // The number of connections made, and of those lost: a connection that is not lost is up.
    made: AtomicU64,
    losses: AtomicU64,
    // The number of tries that failed, of writes that connections took, and of bytes that these took.
    failures: AtomicU64,
    writes: AtomicU64,
    bytes: AtomicU64,
    // Why the last connection was lost, and why the last try failed, if it did.
    loss: AtomicU32,
    has_failed: AtomicBool,
    failure: AtomicU32,
    // The address and the port that the last try that failed went to; port 0 if it went to none.
    failed_at: NotedAddress,
    failed_port: AtomicU32,
    // Whether it was never connected, and not all addresses of its host were tried.
    is_starting: AtomicBool,
    // What went wrong last, if anything did.
    has_error: AtomicBool,
    error: AtomicU32,
    // The milliseconds since which it is up or down, and whether the sender has noted that it is down.
    since: AtomicU64,
    is_down_noted: AtomicBool,
    // Whether its host has been looked up for more than a second.
    is_lookup_long: AtomicBool,
}

/// The state of a destination at one look.
#[derive(Clone, Copy)]
pub struct DestStatus {
    /// Whether it has a connection.
    pub is_up: bool,
    /// Whether it was never connected, and not all addresses of its host were tried.
    pub is_starting: bool,
    /// The milliseconds of its sender's clock at which it was connected, if it is up, and otherwise at which it was
    /// first seen without a connection. The sender notes that in the turn after a loss.
    pub since: u64,
    /// Why the last connection was lost or the last try failed, whichever is later; `None` if neither happened.
    pub last_error: Option<Why>,
    /// Whether its host has been looked up for more than a second.
    pub is_lookup_long: bool,
    /// How many connections were made.
    pub made: u64,
    /// How many connections it has lost.
    pub losses: u64,
    /// How many tries to connect have failed.
    pub failures: u64,
    /// Why it lost the last one.
    pub loss: Why,
    /// Why it cannot be connected, if the last try failed.
    pub failure: Option<Why>,
    /// Where that try went, if it went to an address.
    pub failed_at: Option<SocketAddr>,
    /// How many datapoints its queue has dropped.
    pub dropped: u64,
    /// Whether its queue has room.
    pub has_room: bool,
}

/// What the connections of a destination took.
#[derive(Clone, Copy)]
pub struct DestWrites {
    /// How many writes took bytes.
    pub writes: u64,
    /// How many bytes these took.
    pub bytes: u64,
}

impl DestNotes {
    /// No connection was made, and no try failed.
    pub fn new() -> DestNotes {
        DestNotes {
            made: AtomicU64::new(0),
            losses: AtomicU64::new(0),
            failures: AtomicU64::new(0),
            writes: AtomicU64::new(0),
            bytes: AtomicU64::new(0),
            loss: AtomicU32::new(0),
            has_failed: AtomicBool::new(false),
            failure: AtomicU32::new(0),
            failed_at: NotedAddress::new(),
            failed_port: AtomicU32::new(0),
            is_starting: AtomicBool::new(true),
            has_error: AtomicBool::new(false),
            error: AtomicU32::new(0),
            since: AtomicU64::new(0),
            is_down_noted: AtomicBool::new(false),
            is_lookup_long: AtomicBool::new(false),
        }
    }

    /// A connection was made, at these milliseconds of the sender's clock.
    fn note_connected(&self, millis: u64) {
        self.has_failed.store(false, Ordering::SeqCst);
        self.since.store(millis, Ordering::SeqCst);
        self.is_down_noted.store(false, Ordering::SeqCst);
        self.is_starting.store(false, Ordering::SeqCst);
        let _before = self.made.fetch_add(1, Ordering::SeqCst);
    }

    /// A connection goes on here, or follows one that is no loss. It counts as made at these milliseconds of the sender's clock,
    /// unless one is up.
    pub fn note_kept(&self, millis: u64) {
        if !self.is_up() {
            self.note_connected(millis);
        }
    }

    /// There is no connection, at these milliseconds of the sender's clock. Does nothing if that was noted since
    /// the last connection, or if that is no loss.
    pub fn note_down(&self, millis: u64) {
        if !self.is_up() && !self.is_down_noted.load(Ordering::SeqCst) {
            self.since.store(millis, Ordering::SeqCst);
            self.is_down_noted.store(true, Ordering::SeqCst);
        }
    }

    /// The connection is lost. Does nothing if there is none.
    pub fn note_lost(&self, why: Why) {
        if self.is_up() {
            self.loss.store(why.code(), Ordering::SeqCst);
            self.note_error(why);
            let _before = self.losses.fetch_add(1, Ordering::SeqCst);
        }
    }

    /// A try to connect failed, which went to this address, if to any.
    pub fn note_failure(&self, why: Why, address: Option<SocketAddr>) {
        self.failure.store(why.code(), Ordering::SeqCst);
        self.note_failed_at(address);
        self.has_failed.store(true, Ordering::SeqCst);
        self.note_error(why);
        let _before = self.failures.fetch_add(1, Ordering::SeqCst);
    }

    /// Each address of the host was tried.
    pub fn note_all_tried(&self) {
        self.is_starting.store(false, Ordering::SeqCst);
    }

    /// A connection took this number of bytes in one write.
    pub fn note_write(&self, bytes: usize) {
        let _writes = self.writes.fetch_add(1, Ordering::SeqCst);
        let _bytes = self.bytes.fetch_add(bytes as u64, Ordering::SeqCst);
    }

    /// What its connections took; each number by itself, since the sender may note a write at the same time.
    pub fn writes(&self) -> DestWrites {
        DestWrites {
            writes: self.writes.load(Ordering::SeqCst),
            bytes: self.bytes.load(Ordering::SeqCst),
        }
    }

    /// Notes whether the host has been looked up for more than a second.
    pub fn note_lookup(&self, is_long: bool) {
        self.is_lookup_long.store(is_long, Ordering::SeqCst);
    }

    /// The state now, by what the queue has dropped and whether it has room.
    pub fn status(&self, dropped: u64, has_room: bool) -> DestStatus {
        // In this order, so that a connection that is made and lost meanwhile does not appear to be up.
        let made = self.made.load(Ordering::SeqCst);
        let losses = self.losses.load(Ordering::SeqCst);
        DestStatus {
            is_up: made > losses,
            is_starting: self.is_starting.load(Ordering::SeqCst),
            since: self.since.load(Ordering::SeqCst),
            last_error: self.last_error(),
            is_lookup_long: self.is_lookup_long.load(Ordering::SeqCst),
            made,
            losses,
            failures: self.failures.load(Ordering::SeqCst),
            loss: Why::of_code(self.loss.load(Ordering::SeqCst)),
            failure: self.failure(),
            failed_at: self.failed_at(),
            dropped,
            has_room,
        }
    }

    /// Whether there is a connection.
    fn is_up(&self) -> bool {
        self.made.load(Ordering::SeqCst) > self.losses.load(Ordering::SeqCst)
    }

    /// Notes what went wrong last.
    fn note_error(&self, why: Why) {
        self.error.store(why.code(), Ordering::SeqCst);
        self.has_error.store(true, Ordering::SeqCst);
    }

    /// What went wrong last, if anything did.
    fn last_error(&self) -> Option<Why> {
        if self.has_error.load(Ordering::SeqCst) {
            Some(Why::of_code(self.error.load(Ordering::SeqCst)))
        } else {
            None
        }
    }

    /// Why the last try failed, if it did.
    fn failure(&self) -> Option<Why> {
        if self.has_failed.load(Ordering::SeqCst) {
            Some(Why::of_code(self.failure.load(Ordering::SeqCst)))
        } else {
            None
        }
    }

    /// Notes where the last try that failed went.
    fn note_failed_at(&self, address: Option<SocketAddr>) {
        if let Some(address) = address {
            self.failed_at.store(address.ip());
        }
        let port = match address {
            Some(address) => u32::from(address.port()),
            None => 0,
        };
        self.failed_port.store(port, Ordering::SeqCst);
    }

    /// Where the last try that failed went.
    fn failed_at(&self) -> Option<SocketAddr> {
        match u16::try_from(self.failed_port.load(Ordering::SeqCst)) {
            Ok(0) | Err(_) => None,
            Ok(port) => Some(SocketAddr::new(self.failed_at.load(), port)),
        }
    }
}
