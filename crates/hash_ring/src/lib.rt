//! The MD5 ring of consistent hashing: which destinations a metric goes to, so that each gets about as
//! much as the others and few metrics move when a destination is added.
//!
//! - A *node* is a destination's host with its instance; in clauses it is its `DestId`.
//! - A *position* is the number that the first four hexadecimal digits of a key's MD5 write, 0 to
//!   65,535 (`specs/Key.antt`).
//! - The *entries* are positions on the ring with the nodes there. A node has [`REPLICAS`], one for each of its
//!   replicas; a replica whose position is taken gets the next free one, even past 65,535 (`specs/Placing.antt`).
//! - The *walk* of a position is the entries at or above it in rising order, then the others in rising order, and
//!   its *choice* is the first distinct nodes of the walk. If replicas are diverse, it skips a node that is on
//!   the server of a chosen one (`specs/Walk.antt`).
//! - A *server* is a number, the same for two nodes on one host (`specs/Servers.antt`).
//!
//! [`Ring::nodes`] returns the choice:
//!
//! ```text
//! let ring = Ring::from_nodes(alloc, &destinations)?;
//! let chosen = ring.nodes(alloc, position(name.as_bytes()), factor, diverse)?;
//! ```
//!
//! The rules are those of the carbon documentation's
//! `consistent-hashing` method and of `docs/ROUTING.md`.
#![tactic(auto)]

mod choosing;
mod entries;
mod fault;
mod key;
pub mod laws;
mod ring;
mod servers;

pub use entries::{LARGEST_RING, MOST_NODES, REPLICAS, RingEntries};
pub use fault::RingFault;
pub use key::{position, replica_key};
pub use relay_base::NoMemory;
pub use ring::Ring;
