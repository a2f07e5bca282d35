//! What the connections of a listener have sent, for the table of its producers.

use crate::idle_times::IdleTimes;
use crate::input_counts::ServedInput;
use crate::producer_table::ProducerTable;
use log_lines::{ProducerCounts, ProducerPlace};
use mio_loops::{MOST_CONNECTIONS, Token};
use relay_base::NoMemory;
use std::alloc::Global;
use std::net::{IpAddr, Ipv4Addr};

/// Of this many reports of what a receiver has counted, one is of its producers too: about one in two seconds.
pub(crate) const REPORTS_A_WINDOW: u32 = 20;

/// The address of a connection that never was.
const NO_PEER: IpAddr = IpAddr::V4(Ipv4Addr::UNSPECIFIED);

/// The last connection of a token: the address of its producer, when it was taken, and what it has sent that is in no table yet.
#[derive(Clone, Copy)]
struct Tally {
    peer: IpAddr,
    since: u64,
    counts: ProducerCounts,
}

/// What the connections of a listener have sent, by their tokens. A piece costs a few additions; the table of addresses is looked
/// at when a connection ends, and once a window.
#[derive(Drop)]
pub(crate) struct ProducerTallies {
    tallies: Vec<Tally>,
    table: ProducerTable,
    reports: u32,
    // Whether somebody looks at them.
    is_wanted: bool,
}

impl ProducerTallies {
    /// No connection; or out of memory.
    pub(crate) fn new(alloc: Global) -> Result<ProducerTallies, NoMemory> {
        let nobody = Tally {
            peer: NO_PEER,
            since: 0,
            counts: ProducerCounts::zero(),
        };
        Ok(ProducerTallies {
            tallies: vec![in alloc; nobody; MOST_CONNECTIONS]?,
            table: ProducerTable::new(alloc),
            reports: 0,
            is_wanted: false,
        })
    }

    /// The connection of a token is one of this address, which was taken at these milliseconds. That of IPv4 is known as such also
    /// at a port of IPv6.
    pub(crate) fn begin(&mut self, token: Token, peer: IpAddr, since: u64) {
        self.settle(token);
        if let Some(tally) = self.tallies.get_mut(token.0) {
            tally.peer = peer.to_canonical();
            tally.since = since;
        }
    }

    /// The address of the connection of a token, or of the last that it had.
    pub(crate) fn peer(&self, token: Token) -> IpAddr {
        match self.tallies.get(token.0) {
            Some(tally) => tally.peer,
            None => NO_PEER,
        }
    }

    /// The milliseconds at which it was taken.
    pub(crate) fn since(&self, token: Token) -> u64 {
        match self.tallies.get(token.0) {
            Some(tally) => tally.since,
            None => 0,
        }
    }

    /// The connection of a token sent this many bytes, and its reader counted this of them.
    pub(crate) fn add(&mut self, token: Token, bytes: u64, served: ServedInput) {
        if !self.is_wanted {
            return;
        }
        if let Some(tally) = self.tallies.get_mut(token.0) {
            tally.counts = tally.counts.with(served.counts(bytes));
        }
    }

    /// Puts what came since the last window there, if it is time and one is wanted. `held` knows which connections are open.
    pub(crate) fn report(&mut self, place: &ProducerPlace, held: &IdleTimes) {
        self.is_wanted = place.is_wanted();
        self.reports = self.reports.saturating_add(1);
        if self.reports < REPORTS_A_WINDOW || !place.wants_window() {
            return;
        }
        self.reports = 0;
        for token in 0..MOST_CONNECTIONS {
            self.settle(Token(token));
            if held.is_held(Token(token)) {
                let (peer, since) = (self.peer(Token(token)), self.since(Token(token)));
                self.table.add_connection(peer, since);
            }
        }
        place.put(self.table.take());
    }

    /// What the connection of a token has sent is in the table.
    fn settle(&mut self, token: Token) {
        if let Some(tally) = self.tallies.get_mut(token.0) {
            if tally.counts.bytes > 0 {
                self.table.add(tally.peer, tally.counts);
                tally.counts = ProducerCounts::zero();
            }
        }
    }
}
