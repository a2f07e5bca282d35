//! An address in atomic words.

use std::net::{IpAddr, Ipv4Addr, Ipv6Addr};
use std::sync::atomic::{AtomicBool, AtomicU64, Ordering};

/// The place for an address, which one thread notes and another reads at the same time: each word by itself.
#[derive(Drop)]
pub(crate) struct NotedAddress {
    is_ipv6: AtomicBool,
    // Of IPv4 four bytes, of IPv6 two halves.
    first: AtomicU64,
    second: AtomicU64,
}

impl NotedAddress {
    /// The address 0.0.0.0.
    pub(crate) fn new() -> NotedAddress {
        NotedAddress {
            is_ipv6: AtomicBool::new(false),
            first: AtomicU64::new(0),
            second: AtomicU64::new(0),
        }
    }

    /// From now on this address is there.
    pub(crate) fn store(&self, address: IpAddr) {
        let (is_ipv6, first, second) = halves_of(address);
        self.is_ipv6.store(is_ipv6, Ordering::SeqCst);
        self.first.store(first, Ordering::SeqCst);
        self.second.store(second, Ordering::SeqCst);
    }

    /// The address that is there.
    pub(crate) fn load(&self) -> IpAddr {
        let first = self.first.load(Ordering::SeqCst);
        if self.is_ipv6.load(Ordering::SeqCst) {
            IpAddr::V6(ipv6_of(first, self.second.load(Ordering::SeqCst)))
        } else {
            IpAddr::V4(ipv4_of(first))
        }
    }
}

/// Whether an address is of IPv6, and its bytes as two numbers.
fn halves_of(address: IpAddr) -> (bool, u64, u64) {
    match address {
        IpAddr::V4(ip) => (false, u64::from(ip.to_bits()), 0),
        IpAddr::V6(ip) => {
            let [a, b, c, d, e, f, g, h, i, j, k, l, m, n, o, p] = ip.octets();
            let first = u64::from_be_bytes([a, b, c, d, e, f, g, h]);
            (true, first, u64::from_be_bytes([i, j, k, l, m, n, o, p]))
        }
    }
}

/// The address of IPv4 with this number.
fn ipv4_of(number: u64) -> Ipv4Addr {
    let [_, _, _, _, a, b, c, d] = number.to_be_bytes();
    Ipv4Addr::from_octets([a, b, c, d])
}

/// The address of IPv6 with these halves.
fn ipv6_of(first: u64, second: u64) -> Ipv6Addr {
    let [a, b, c, d, e, f, g, h] = first.to_be_bytes();
    let [i, j, k, l, m, n, o, p] = second.to_be_bytes();
    Ipv6Addr::from_octets([a, b, c, d, e, f, g, h, i, j, k, l, m, n, o, p])
}
