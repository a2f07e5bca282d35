//! What producers have sent in the last seconds.

use log_lines::{Producer, ProducerCounts, ProducerWindow};
use relay_base::add;
use status_page::{OtherProducers, ProducerSnapshot};
use std::alloc::{AllocError, Global};
use std::net::IpAddr;

/// For how many milliseconds a window counts.
const COUNTS_MS: u64 = 10_000;

/// How many windows are kept at most, of all receivers together: six of each.
const MOST_WINDOWS: usize = 48;

/// How many producers are shown.
const MOST_SHOWN: usize = 20;

/// By how much rates are greater here than in a second, so that those of small producers are not lost.
const SCALE: u64 = 1_000;

/// The time of a producer without a connection.
const NEVER: u64 = u64::MAX;

/// A window of a receiver: when it was taken, and how many milliseconds after the one before.
#[derive(Drop)]
struct SeenWindow {
    receiver: usize,
    window: ProducerWindow,
    taken: u64,
    millis: u64,
}

/// When the last window of a receiver was taken.
#[derive(Clone, Copy)]
struct LastWindow {
    receiver: usize,
    taken: u64,
}

/// The windows of the last seconds, in the order in which they were taken.
#[derive(Drop)]
pub(crate) struct ProducerHistory {
    windows: Vec<SeenWindow>,
    last: Vec<LastWindow>,
}

/// The twenty greatest producers, and what the others sent.
#[derive(Drop)]
pub(crate) struct SeenProducers {
    pub(crate) greatest: Vec<ProducerSnapshot>,
    pub(crate) others: OtherProducers,
}

impl ProducerHistory {
    /// No window. Takes no memory yet.
    pub(crate) fn new(alloc: Global) -> ProducerHistory {
        ProducerHistory {
            windows: Vec::new(alloc),
            last: Vec::new(alloc),
        }
    }

    /// A window of a receiver was taken at these milliseconds. If out of memory, it is not kept.
    pub(crate) fn put(&mut self, receiver: usize, window: ProducerWindow, millis: u64) {
        let passed = self.passed(receiver, millis);
        self.forget(millis);
        if self.windows.len() >= MOST_WINDOWS {
            let _oldest = self.windows.remove(0);
        }
        let seen = SeenWindow {
            receiver,
            window,
            taken: millis,
            millis: passed,
        };
        let _kept = add(&mut self.windows, seen);
    }

    /// How many milliseconds have passed since the last window of a receiver, at these; since the start if it is the first.
    fn passed(&mut self, receiver: usize, millis: u64) -> u64 {
        for last in self.last.as_mut_slice().iter_mut() {
            if last.receiver == receiver {
                let passed = millis.saturating_sub(last.taken);
                last.taken = millis;
                return passed.max(1).min(COUNTS_MS);
            }
        }
        let first = LastWindow {
            receiver,
            taken: millis,
        };
        let _kept = self.last.push(first);
        millis.max(1).min(COUNTS_MS)
    }

    /// Forgets the windows that are too old.
    fn forget(&mut self, millis: u64) {
        for _ in 0..self.windows.len() {
            if self.windows.is_empty() || !is_old(&self.windows[0], millis) {
                return;
            }
            let _oldest = self.windows.remove(0);
        }
    }

    /// What was seen at these milliseconds.
    pub(crate) fn seen(&self, alloc: Global, millis: u64) -> Result<SeenProducers, AllocError> {
        let mut all = Vec::new(alloc);
        let mut others = ProducerCounts::zero();
        for (place, seen) in self.windows.as_slice().iter().enumerate() {
            if is_old(seen, millis) {
                continue;
            }
            let span = self.span(seen.receiver, millis);
            others = others.with(rate_of(seen.window.others, span));
            let is_last = self.is_last(place, seen.receiver);
            for producer in seen.window.producers.as_slice() {
                all.push(rated(producer, span, is_last))?;
            }
        }
        all.sort_unstable_by_key(|producer| producer.address);
        let mut joined = joined(alloc, all.as_slice())?;
        drop(all);
        joined.sort_unstable_by_key(|producer| u64::MAX.saturating_sub(weight_of(producer)));
        shown(alloc, joined.as_slice(), others, millis)
    }

    /// For how many milliseconds the windows of a receiver count that are seen at these.
    fn span(&self, receiver: usize, millis: u64) -> u64 {
        let mut span: u64 = 0;
        for seen in self.windows.as_slice() {
            if seen.receiver == receiver && !is_old(seen, millis) {
                span = span.saturating_add(seen.millis);
            }
        }
        span.max(1)
    }

    /// Whether a window is the last of its receiver.
    fn is_last(&self, place: usize, receiver: usize) -> bool {
        for later in self.windows.as_slice().iter().skip(place.saturating_add(1)) {
            if later.receiver == receiver {
                return false;
            }
        }
        true
    }
}

/// Whether a window no longer counts at these milliseconds.
fn is_old(seen: &SeenWindow, millis: u64) -> bool {
    millis.saturating_sub(seen.taken) >= COUNTS_MS
}

/// A producer of a window that counts for this time, as it was in a second, scaled. Its connections are those of the last window.
fn rated(producer: &Producer, span: u64, is_last: bool) -> Producer {
    Producer {
        address: producer.address,
        counts: rate_of(producer.counts, span),
        connections: if is_last { producer.connections } else { 0 },
        since: if is_last { producer.since } else { NEVER },
    }
}

/// What came in a second, scaled, where this came in so many milliseconds.
fn rate_of(counts: ProducerCounts, millis: u64) -> ProducerCounts {
    ProducerCounts {
        datapoints: scaled(counts.datapoints, millis),
        bytes: scaled(counts.bytes, millis),
        bad: scaled(counts.bad, millis),
    }
}

fn scaled(count: u64, millis: u64) -> u64 {
    count.saturating_mul(1_000 * SCALE).div_ceil(millis.max(1))
}

/// How great a producer is: its datapoints and its bad input.
fn weight_of(producer: &Producer) -> u64 {
    producer
        .counts
        .datapoints
        .saturating_add(producer.counts.bad)
}

/// Each address once, of producers in the order of their addresses.
fn joined(alloc: Global, all: &[Producer]) -> Result<Vec<Producer>, AllocError> {
    let mut joined: Vec<Producer> = Vec::new(alloc);
    for producer in all {
        let place = joined.len().saturating_sub(1);
        let is_there = match joined.get(place) {
            Some(last) => last.address == producer.address,
            None => false,
        };
        if !is_there {
            joined.push(*producer)?;
        } else if let Some(last) = joined.get_mut(place) {
            last.counts = last.counts.with(producer.counts);
            last.connections = last.connections.saturating_add(producer.connections);
            last.since = last.since.min(producer.since);
        }
    }
    Ok(joined)
}

/// The first of these producers, and the rest with others.
fn shown(
    alloc: Global,
    all: &[Producer],
    others: ProducerCounts,
    millis: u64,
) -> Result<SeenProducers, AllocError> {
    let (first, rest) = all.split_at(all.len().min(MOST_SHOWN));
    let mut greatest = Vec::new(alloc);
    for producer in first {
        greatest.push(snapshot_of(alloc, producer, millis)?)?;
    }
    let mut counts = others;
    for producer in rest {
        counts = counts.with(producer.counts);
    }
    Ok(SeenProducers {
        greatest,
        others: OtherProducers {
            addresses: rest.len() as u64,
            rates: unscaled(counts),
        },
    })
}

/// A producer, for the status.
fn snapshot_of(
    alloc: Global,
    producer: &Producer,
    millis: u64,
) -> Result<ProducerSnapshot, AllocError> {
    Ok(ProducerSnapshot {
        address: address_text(alloc, producer.address)?,
        rates: unscaled(producer.counts),
        connections: producer.connections,
        age: millis.saturating_sub(producer.since) / 1_000,
    })
}

fn address_text(alloc: Global, address: IpAddr) -> Result<String, AllocError> {
    format!(in alloc; "{address}")
}

/// What came in a second, rounded up.
fn unscaled(counts: ProducerCounts) -> ProducerCounts {
    ProducerCounts {
        datapoints: counts.datapoints.div_ceil(SCALE),
        bytes: counts.bytes.div_ceil(SCALE),
        bad: counts.bad.div_ceil(SCALE),
    }
}
