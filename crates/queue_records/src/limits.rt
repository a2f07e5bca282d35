//! The greatest numbers of what a set of queues has.

use relay_base::{MOST_CONNECTIONS, MOST_DESTINATIONS};

/// The greatest number of destinations.
pub const MOST_DESTS: usize = MOST_DESTINATIONS;

/// The greatest number of senders.
pub const MOST_SENDERS: usize = 8;

/// How many readers a receiver has, one for each connection: receiver `k` has the readers from `READERS_EACH * k` on.
pub const READERS_EACH: usize = MOST_CONNECTIONS;

/// How many offers a door records, and how many batches an outlet. Later ones are left out.
pub const MOST_ENTRIES: usize = 65_536;

// Callers rely on these numbers, and the definitions of `specs/` write the last two themselves.
const _: () = prove!(MOST_SENDERS == 8 && READERS_EACH == 1_024 && MOST_ENTRIES == 65_536);
