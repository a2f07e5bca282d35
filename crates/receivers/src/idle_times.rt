//! How long connections have sent no datapoint.

use crate::stream_receiver::MOST_WAIT_MS;
use mio_loops::{MOST_CONNECTIONS, Token};
use relay_base::NoMemory;
use std::alloc::Global;
use std::sync::atomic::{AtomicBool, AtomicU64, Ordering};

/// How many milliseconds a connection may be idle beyond its limit: as long as a turn waits, since the time of a turn is
/// that of its beginning.
const GRACE_MS: u64 = MOST_WAIT_MS;

/// The least time between two looks at all connections, in milliseconds.
const BETWEEN_LOOKS_MS: u64 = 100;

/// After so many milliseconds without an accepted datapoint a connection gives way to one that finds no room.
const GIVES_WAY_MS: u64 = 60_000;

/// The time of a token with no connection.
const NEVER: u64 = u64::MAX;

/// Since when a connection has sent no datapoint.
#[derive(Drop)]
struct IdleTime {
    // When its last datapoint was accepted, or it was taken.
    last: AtomicU64,
    // Whether it has sent bytes since it was last served.
    is_heard: AtomicBool,
    // Whether its time is over for good, so that its next read fails.
    is_over: AtomicBool,
}

/// When the last datapoint of each connection, by its token, was accepted, and for how long one may send none. What is no
/// datapoint does not count: who sends blank or bad lines is idle.
#[derive(Drop)]
pub(crate) struct IdleTimes {
    // The limit in milliseconds; 0 for no limit.
    limit: AtomicU64,
    // The milliseconds at which this turn began, and of the next look.
    now: AtomicU64,
    next_look: AtomicU64,
    // Whether the time of a connection is over for good that was not listed since.
    has_over: AtomicBool,
    times: Vec<IdleTime>,
}

impl IdleTime {
    /// There is no connection.
    fn none() -> IdleTime {
        IdleTime {
            last: AtomicU64::new(NEVER),
            is_heard: AtomicBool::new(false),
            is_over: AtomicBool::new(false),
        }
    }

    /// A connection whose last datapoint was accepted at these milliseconds; or none.
    fn begin(&self, millis: u64) {
        self.last.store(millis, Ordering::SeqCst);
        self.is_heard.store(false, Ordering::SeqCst);
        self.is_over.store(false, Ordering::SeqCst);
    }

    /// For how many milliseconds it has sent no datapoint now; `None` if there is no connection.
    fn age(&self, now: u64) -> Option<u64> {
        match self.last.load(Ordering::SeqCst) {
            NEVER => None,
            last => Some(now.saturating_sub(last)),
        }
    }
}

impl IdleTimes {
    /// No limit, and no connection; or out of memory.
    pub(crate) fn new(alloc: Global) -> Result<IdleTimes, NoMemory> {
        let mut times = Vec::new(alloc);
        for _ in 0..MOST_CONNECTIONS {
            if times.push(IdleTime::none()).is_err() {
                return Err(NoMemory);
            }
        }
        Ok(IdleTimes {
            limit: AtomicU64::new(0),
            now: AtomicU64::new(0),
            next_look: AtomicU64::new(0),
            has_over: AtomicBool::new(false),
            times,
        })
    }

    /// From now on a connection may send no datapoint for this number of seconds; 0: for ever.
    pub(crate) fn set_limit(&self, seconds: u64) {
        self.limit
            .store(seconds.saturating_mul(1_000), Ordering::SeqCst);
    }

    /// A turn begins, at these milliseconds.
    pub(crate) fn begin_turn(&self, millis: u64) {
        self.now.store(millis, Ordering::SeqCst);
    }

    /// The milliseconds at which this turn began.
    pub(crate) fn now(&self) -> u64 {
        self.now.load(Ordering::SeqCst)
    }

    /// A connection of a token was taken.
    pub(crate) fn note_taken(&self, token: Token) {
        self.note_taken_at(token, self.now());
    }

    /// A connection of a token was taken, whose last datapoint another receiver accepted at these milliseconds.
    pub(crate) fn note_taken_at(&self, token: Token, millis: u64) {
        if let Some(time) = self.times.get(token.0) {
            time.begin(millis);
        }
    }

    /// The connection of a token sent bytes. Whether there are datapoints among them is known once it was served.
    pub(crate) fn note_bytes(&self, token: Token) {
        if let Some(time) = self.times.get(token.0) {
            time.is_heard.store(true, Ordering::SeqCst);
        }
    }

    /// The connection of a token was served, and its reader accepted datapoints, or none. If its time is over, and what it
    /// sent has none, it is over for good.
    pub(crate) fn note_served(&self, token: Token, has_datapoints: bool) {
        let Some(time) = self.times.get(token.0) else {
            return;
        };
        if has_datapoints && time.age(0).is_some() {
            time.begin(self.now());
            return;
        }
        let is_heard = time.is_heard.load(Ordering::SeqCst);
        time.is_heard.store(false, Ordering::SeqCst);
        if is_heard && self.is_late(time) {
            self.end(time);
        }
    }

    /// When the last datapoint of a token's connection was accepted, or it was taken.
    pub(crate) fn last_of(&self, token: Token) -> u64 {
        match self.times.get(token.0) {
            Some(time) => time.last.load(Ordering::SeqCst),
            None => NEVER,
        }
    }

    /// Whether there is a connection of a token.
    pub(crate) fn is_held(&self, token: Token) -> bool {
        self.last_of(token) != NEVER
    }

    /// The connection of a token has left.
    pub(crate) fn note_left(&self, token: Token) {
        if let Some(time) = self.times.get(token.0) {
            time.begin(NEVER);
        }
    }

    /// Whether the time of a token's connection is over for good.
    pub(crate) fn is_over(&self, token: Token) -> bool {
        match self.times.get(token.0) {
            Some(time) => time.is_over.load(Ordering::SeqCst),
            None => false,
        }
    }

    /// Whether the time of a token's connection is over, and it has sent nothing since it was last served.
    pub(crate) fn is_silent(&self, token: Token) -> bool {
        match self.times.get(token.0) {
            Some(time) => !time.is_heard.load(Ordering::SeqCst) && self.is_late(time),
            None => false,
        }
    }

    /// The connection that has been without an accepted datapoint longest gives way: its time is over for good. Returns
    /// `false` if none has been without one for [`GIVES_WAY_MS`] milliseconds.
    pub(crate) fn give_way(&self) -> bool {
        let now = self.now();
        let mut longest: Option<&IdleTime> = None;
        let mut longest_age = GIVES_WAY_MS;
        for time in self.times.as_slice() {
            if let Some(age) = time.age(now) {
                if age >= longest_age {
                    longest_age = age;
                    longest = Some(time);
                }
            }
        }
        match longest {
            Some(time) => {
                self.end(time);
                true
            }
            None => false,
        }
    }

    /// Whether the time of a connection is over for good that was not listed since.
    pub(crate) fn has_over(&self) -> bool {
        self.has_over.load(Ordering::SeqCst)
    }

    /// Whether all connections are to be looked at now.
    pub(crate) fn is_look_due(&self) -> bool {
        let now = self.now();
        if self.limit.load(Ordering::SeqCst) == 0 || now < self.next_look.load(Ordering::SeqCst) {
            return false;
        }
        self.next_look
            .store(now.saturating_add(BETWEEN_LOOKS_MS), Ordering::SeqCst);
        true
    }

    /// Adds the tokens of the connections whose time is over to a list, as many as memory has room for.
    pub(crate) fn add_idle(&self, list: &mut Vec<Token>) {
        self.has_over.store(false, Ordering::SeqCst);
        for token in 0..self.times.len() {
            if self.is_over(Token(token)) || self.is_silent(Token(token)) {
                let _kept = list.push(Token(token));
            }
        }
    }

    /// Whether a connection has sent no datapoint for longer than the limit.
    fn is_late(&self, time: &IdleTime) -> bool {
        let limit = self.limit.load(Ordering::SeqCst);
        match time.age(self.now()) {
            Some(age) => limit != 0 && age >= limit.saturating_add(GRACE_MS),
            None => false,
        }
    }

    /// The time of a connection is over for good.
    fn end(&self, time: &IdleTime) {
        time.is_over.store(true, Ordering::SeqCst);
        self.has_over.store(true, Ordering::SeqCst);
    }
}
