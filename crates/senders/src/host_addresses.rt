//! The addresses of a host.

use std::net::{IpAddr, Ipv4Addr};

/// The greatest number of addresses of a host that are tried.
const MOST_ADDRESSES: usize = 32;

/// The addresses of a host, each once, in the order of the system: at most 32.
#[derive(Clone, Copy)]
pub struct HostAddresses {
    list: [IpAddr; MOST_ADDRESSES],
    count: usize,
}

impl HostAddresses {
    /// No address.
    pub fn new() -> HostAddresses {
        HostAddresses {
            list: [IpAddr::V4(Ipv4Addr::UNSPECIFIED); MOST_ADDRESSES],
            count: 0,
        }
    }

    /// Appends an address. One that is there already is left out, and so is one more than there is room for.
    pub fn add(&mut self, address: IpAddr) {
        if self.count < MOST_ADDRESSES && !self.contains(address) {
            self.list[self.count] = address;
            self.count += 1;
        }
    }

    /// The addresses in their order.
    pub fn as_slice(&self) -> &[IpAddr] {
        &self.list[..self.count.min(MOST_ADDRESSES)]
    }

    /// Whether there is none.
    pub fn is_empty(&self) -> bool {
        self.count == 0
    }

    /// Whether there is no room for another one.
    pub(crate) fn is_full(&self) -> bool {
        self.count >= MOST_ADDRESSES
    }

    /// Whether an address is one of them.
    pub(crate) fn contains(&self, address: IpAddr) -> bool {
        self.as_slice().contains(&address)
    }
}
