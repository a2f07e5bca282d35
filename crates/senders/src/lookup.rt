//! Looks up the hosts of destinations.

use crate::host_addresses::HostAddresses;

/// The state of a look-up.
#[derive(Clone, Copy)]
pub enum LookupAnswer {
    /// None was begun since the last answer, or it could not be begun.
    None,
    /// It is under way.
    UnderWay,
    /// The host has these addresses, at least one.
    Found(HostAddresses),
    /// The host has no address, or the look-up failed.
    NotFound,
}

/// Looks the hosts of destinations up. No call waits for an answer.
pub trait Lookup {
    /// Begins to look up the host of a destination that has no look-up under way.
    fn begin(&mut self, dest: usize);

    /// The state of the destination's last look-up. An answer is returned once.
    fn answer(&mut self, dest: usize) -> LookupAnswer;
}
