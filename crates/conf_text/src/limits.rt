//! The limits of a configuration that no other crate has (this project's profile, `docs/CONFIGURATION.md`).

/// The greatest REPLICATION_FACTOR.
pub const LARGEST_FACTOR: usize = 64;

/// The longest host or instance, in bytes.
pub const LONGEST_LABEL: usize = 255;

/// The greatest port.
pub const HIGHEST_PORT: u64 = 65_535;

/// The most digits of a port.
pub(crate) const MOST_PORT_DIGITS: usize = 5;

/// The most digits of the number of a setting.
pub(crate) const MOST_DIGITS: usize = 10;

// The definitions of `specs/` write these numbers themselves.
const _: () = prove!(LARGEST_FACTOR == 64);

const _: () = prove!(LONGEST_LABEL == 255 && HIGHEST_PORT == 65_535);

const _: () = prove!(MOST_PORT_DIGITS == 5 && MOST_DIGITS == 10);
