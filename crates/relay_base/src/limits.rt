//! The limits that several crates share. What one crate alone limits is a constant of that crate.

/// The greatest number of destinations (DESTINATIONS in `docs/CONFIGURATION.md`).
pub const MOST_DESTINATIONS: usize = 64;

/// The greatest size of a destination's queue, in datapoints (MAX_QUEUE_SIZE in `docs/CONFIGURATION.md`).
pub const LARGEST_QUEUE_SIZE: usize = 1_000_000;

/// The greatest number of datapoints in one batch (MAX_DATAPOINTS_PER_MESSAGE in `docs/CONFIGURATION.md`).
pub const LARGEST_MESSAGE: usize = 10_000;

/// The greatest number of receivers, one for each port on which a relay listens (`docs/RUNNING.md`).
pub const MOST_RECEIVERS: usize = 8;

/// The greatest number of receivers of lines: all but one for pickles and one for datagrams.
pub const MOST_LINE_RECEIVERS: usize = MOST_RECEIVERS - 2;

/// The greatest number of connections that a receiver holds at a time (`docs/RUNNING.md`). Each has a reader.
pub const MOST_CONNECTIONS: usize = 1_024;

// Callers rely on these numbers, and definitions elsewhere write some of them.
const _: () = prove!(
    MOST_DESTINATIONS == 64
        && LARGEST_QUEUE_SIZE == 1_000_000
        && LARGEST_MESSAGE == 10_000
        && MOST_RECEIVERS == 8
        && MOST_CONNECTIONS == 1_024
);
