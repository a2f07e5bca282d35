//! Finds the addresses of hosts.

use crate::host_addresses::HostAddresses;
use std::net::ToSocketAddrs;

/// Finds the addresses of hosts. A call may take as long as it likes.
///
/// It is a trait of its own, beside the kit's `Net`, since a thread's bounds may have no types in
/// them.
pub trait Resolve {
    /// The addresses of a host in the order of the system; none if it has none, or the search failed.
    fn resolve(&self, host: &str) -> HostAddresses;
}

impl Resolve for HostRuntime {
    fn resolve(&self, host: &str) -> HostAddresses {
        let mut addresses = HostAddresses::new();
        if let Ok(found) = (host, 0u16).to_socket_addrs(self) {
            for address in found {
                addresses.add(address.ip());
            }
        }
        addresses
    }
}
