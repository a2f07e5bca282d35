//! What producers have sent, by their addresses.

ghost use Rattle.std.specs.Prelude.{◌≡◌};
ghost use Rattle.log_lines.specs.Producers.{nothing_sent, sent_after};

use std::net::IpAddr;
use std::sync::Mutex;
use std::sync::atomic::{AtomicBool, Ordering};

/// What came from one address or several.
#[derive(Clone, Copy)]
pub struct ProducerCounts {
    /// The accepted datapoints, with those that rewriting dropped.
    pub datapoints: u64,
    /// All bytes.
    pub bytes: u64,
    /// The bad lines, pickles, rows and names.
    pub bad: u64,
}

impl ProducerCounts {
    /// Nothing came.
    pub fn zero() -> ProducerCounts
        ensures { result ≡ nothing_sent }
    {
        ProducerCounts {
            datapoints: 0,
            bytes: 0,
            bad: 0,
        }
    }

    /// This and more.
    pub fn with(self, more: ProducerCounts) -> ProducerCounts
        ensures { result ≡ sent_after self more }
    {
        ProducerCounts {
            datapoints: self.datapoints.saturating_add(more.datapoints),
            bytes: self.bytes.saturating_add(more.bytes),
            bad: self.bad.saturating_add(more.bad),
        }
    }
}

/// A producer, by its address.
#[derive(Clone, Copy)]
pub struct Producer {
    /// The address; one of IPv4 is known as such also at a port of IPv6.
    pub address: IpAddr,
    /// What came from there.
    pub counts: ProducerCounts,
    /// How many connections it has open.
    pub connections: u64,
    /// The milliseconds at which the oldest of these was taken; `u64::MAX` if there is none.
    pub since: u64,
}

/// What came to a receiver since its last window.
#[derive(Drop)]
pub struct ProducerWindow {
    /// The producers, each address once.
    pub producers: Vec<Producer>,
    /// What came from other addresses, for which there was no room.
    pub others: ProducerCounts,
}

/// Where a receiver puts its windows, one at a time, and the status takes them. Neither waits for the other.
#[derive(Drop)]
pub struct ProducerPlace {
    is_wanted: AtomicBool,
    is_full: AtomicBool,
    window: Mutex<Option<ProducerWindow>>,
}

impl ProducerPlace {
    /// An empty place, which nobody looks at.
    pub(crate) fn new() -> ProducerPlace {
        ProducerPlace {
            is_wanted: AtomicBool::new(false),
            is_full: AtomicBool::new(false),
            window: Mutex::new(None),
        }
    }

    /// From now on somebody takes windows.
    pub fn want(&self) {
        self.is_wanted.store(true, Ordering::SeqCst);
    }

    /// Whether somebody takes windows.
    pub fn is_wanted(&self) -> bool {
        self.is_wanted.load(Ordering::SeqCst)
    }

    /// Whether somebody takes windows, and has taken the last one.
    pub fn wants_window(&self) -> bool {
        self.is_wanted() && !self.is_full.load(Ordering::SeqCst)
    }

    /// Puts a window there. One thread alone does so, where a window is wanted.
    pub fn put(&self, window: ProducerWindow) {
        if let Some(mut place) = self.window.try_lock() {
            *place = Some(window);
            self.is_full.store(true, Ordering::SeqCst);
        }
    }

    /// Takes the window, if there is one. One thread alone does so.
    pub fn take(&self) -> Option<ProducerWindow> {
        if !self.is_full.load(Ordering::SeqCst) {
            return None;
        }
        let window = match self.window.try_lock() {
            Some(mut place) => place.take(),
            None => return None,
        };
        self.is_full.store(false, Ordering::SeqCst);
        window
    }
}
