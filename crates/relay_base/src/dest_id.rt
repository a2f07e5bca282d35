//! Where destinations are counted: the index of one in DESTINATIONS.

/// The index of a destination in DESTINATIONS, from 0.
#[derive(Clone, Copy, Debug, PartialEq)]
pub struct DestId(pub usize);
