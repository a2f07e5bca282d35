//! What a receiver counts of its producers, by their addresses.

use log_lines::{Producer, ProducerCounts, ProducerWindow};
use relay_base::NoMemory;
use std::alloc::Global;
use std::mem;
use std::net::IpAddr;

/// How many addresses are told apart between two windows.
pub const MOST_PRODUCERS: usize = 4_096;

/// How many slots there are: of so many at most half are taken.
const SLOTS: usize = 2 * MOST_PRODUCERS;

/// How many slots are looked at for an address. One that finds no place there is one of the others.
const MOST_STEPS: usize = 16;

/// The time of a producer without a connection.
const NEVER: u64 = u64::MAX;

/// What came from each address since the last window, from at most [`MOST_PRODUCERS`]; and from all others.
#[derive(Drop)]
pub(crate) struct ProducerTable {
    alloc: Global,
    producers: Vec<Producer>,
    // The number of the producer of each slot, from 1; 0 if there is none.
    slots: Vec<u16>,
    others: ProducerCounts,
    // The place of the producer that was found last.
    last: usize,
}

impl ProducerTable {
    /// Nothing came. Takes no memory yet.
    pub(crate) fn new(alloc: Global) -> ProducerTable {
        ProducerTable {
            alloc,
            producers: Vec::new(alloc),
            slots: Vec::new(alloc),
            others: ProducerCounts::zero(),
            last: 0,
        }
    }

    /// This came from an address.
    pub(crate) fn add(&mut self, address: IpAddr, counts: ProducerCounts) {
        let Some(place) = self.place_of(address) else {
            self.others = self.others.with(counts);
            return;
        };
        if let Some(producer) = self.producers.get_mut(place) {
            producer.counts = producer.counts.with(counts);
        }
    }

    /// A connection of this address is open, which was taken at these milliseconds.
    pub(crate) fn add_connection(&mut self, address: IpAddr, since: u64) {
        let Some(place) = self.place_of(address) else {
            return;
        };
        if let Some(producer) = self.producers.get_mut(place) {
            producer.connections = producer.connections.saturating_add(1);
            producer.since = producer.since.min(since);
        }
    }

    /// Takes what came, and begins anew.
    pub(crate) fn take(&mut self) -> ProducerWindow {
        for slot in self.slots.as_mut_slice().iter_mut() {
            *slot = 0;
        }
        let others = self.others;
        self.others = ProducerCounts::zero();
        self.last = 0;
        ProducerWindow {
            producers: mem::replace(&mut self.producers, Vec::new(self.alloc)),
            others,
        }
    }

    /// The place of the producer of an address, which is new if it was not there; `None` if there is no room for it.
    fn place_of(&mut self, address: IpAddr) -> Option<usize> {
        if !self.is_at(self.last, address) {
            self.last = self.place_by_slots(address)?;
        }
        Some(self.last)
    }

    /// The place of a producer that was not found last.
    fn place_by_slots(&mut self, address: IpAddr) -> Option<usize> {
        let mut slot = slot_of(address);
        for _ in 0..MOST_STEPS {
            let number = usize::from(self.slots.get(slot).copied().unwrap_or(0));
            if number == 0 {
                return self.add_at(slot, address).ok();
            }
            let place = number.saturating_sub(1);
            if self.is_at(place, address) {
                return Some(place);
            }
            slot = slot.wrapping_add(1) % SLOTS;
        }
        None
    }

    /// Whether the producer of this address is at a place.
    fn is_at(&self, place: usize, address: IpAddr) -> bool {
        match self.producers.get(place) {
            Some(producer) => producer.address == address,
            None => false,
        }
    }

    /// Adds the producer of an address at a free slot, and returns its place. Refuses if there is no room or no memory for it.
    fn add_at(&mut self, slot: usize, address: IpAddr) -> Result<usize, NoMemory> {
        let place = self.producers.len();
        if place >= MOST_PRODUCERS {
            return Err(NoMemory);
        }
        if self.slots.is_empty() {
            self.slots = vec![in self.alloc; 0; SLOTS]?;
        }
        self.producers.push(Producer {
            address,
            counts: ProducerCounts::zero(),
            connections: 0,
            since: NEVER,
        })?;
        if let Some(number) = self.slots.get_mut(slot) {
            *number = place.saturating_add(1) as u16;
        }
        Ok(place)
    }
}

/// The first slot in which an address is looked for.
fn slot_of(address: IpAddr) -> usize {
    let bits = match address {
        IpAddr::V4(ip) => u64::from(ip.to_bits()),
        IpAddr::V6(ip) => {
            let [a, b, c, d, e, f, g, h, i, j, k, l, m, n, o, p] = ip.octets();
            let first = u64::from_be_bytes([a, b, c, d, e, f, g, h]);
            first.rotate_left(29) ^ u64::from_be_bytes([i, j, k, l, m, n, o, p])
        }
    };
    (bits.wrapping_mul(0x9e37_79b9_7f4a_7c15) >> 40) as usize % SLOTS
}
