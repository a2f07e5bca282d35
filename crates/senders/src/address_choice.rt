//! Which of a host's addresses the next try takes.

use crate::host_addresses::HostAddresses;
use std::net::IpAddr;

/// The addresses of a destination's host, as far as they are known, and those that were tried.
///
/// Tries go round: first the address that was connected last, if the host still has it, and then each other one in the
/// order of the system. A look-up may change the addresses or their order in between: an address is tried again only
/// once each one that is known was tried.
#[derive(Drop)]
pub(crate) struct AddressChoice {
    known: HostAddresses,
    // The tries of this round.
    tried: HostAddresses,
    last: Option<IpAddr>,
    // The address that was connected last.
    connected: Option<IpAddr>,
}

impl AddressChoice {
    /// Of a host with this address alone; with none the addresses are not known yet.
    pub(crate) fn new(address: Option<IpAddr>) -> AddressChoice {
        let mut known = HostAddresses::new();
        if let Some(address) = address {
            known.add(address);
        }
        AddressChoice {
            known,
            tried: HostAddresses::new(),
            last: None,
            connected: None,
        }
    }

    /// The host has these addresses now.
    pub(crate) fn note_found(&mut self, found: HostAddresses) {
        self.known = found;
    }

    /// The address that the next try takes, which is tried from now on; `None` if none is known.
    pub(crate) fn next(&mut self) -> Option<IpAddr> {
        if self.tried.is_full() || self.untried().is_none() {
            self.tried = HostAddresses::new();
        }
        let address = self.untried()?;
        self.tried.add(address);
        self.last = Some(address);
        Some(address)
    }

    /// Whether each address that is known was tried since the last connection, or since the round began.
    pub(crate) fn are_all_tried(&self) -> bool {
        self.untried().is_none()
    }

    /// The last try was connected, so that the next round begins with its address.
    pub(crate) fn note_connected(&mut self) {
        self.connected = self.last;
        self.tried = HostAddresses::new();
    }

    /// The address whose turn it is in this round, if the round is not over.
    fn untried(&self) -> Option<IpAddr> {
        if let Some(address) = self.connected {
            if self.known.contains(address) && !self.tried.contains(address) {
                return Some(address);
            }
        }
        let known = self.known.as_slice();
        known
            .iter()
            .copied()
            .find(|address| !self.tried.contains(*address))
    }
}
