//! The files that the commands of `relayd` read, and how a command ends.
//!
//! [`Configuration::read`] opens the files of a configuration in their order, each when its turn comes, and returns
//! the settings and the plan, or the first fault. [`RunConfiguration`] keeps the texts of the files, so that each
//! receiver of a running relay can have its own plan. A [`Source`] is a file that can be opened, a [`Role`] says what
//! it is for, a [`RelayFault`] why a command failed, and a [`Status`] the number that the process ends with.
//! An [`ExtendedSource`] is a file with more text after it, such as the rule of a [`LongestName`].
//!
//! ```text
//! let mut configuration = Configuration::read(alloc, &mut sources)?;
//! let sent = configuration.plan.send(&point)?;
//! ```
//!
//! What the files say is `configuration_of` of `specs/Configuration.antt`; `EndsAt` of `specs/Faults.antt` says with
//! which fault reading ends, and which files it opened before. Reads and writes that are interrupted or would block
//! are repeated, and counted ([`read_piece`], [`write_all`], [`flush`]).
#![tactic(auto)]

mod again;
mod checksum;
mod configuration;
mod extended_source;
mod fault;
mod input;
mod listen_role;
mod longest_name;
mod output;
mod role;
mod run_configuration;
mod source;

pub use checksum::configuration_sum;
pub use configuration::{Configuration, text_in};
pub use extended_source::{ExtendedSource, OptionalReader};
pub use fault::{RelayFault, Status};
pub use input::{InputFailed, PIECE, read_piece};
pub use listen_role::ListenRole;
pub use longest_name::{LongestName, MOST_CHARACTERS};
pub use output::{OutputFailed, flush, write_all, write_out};
pub use role::Role;
pub use run_configuration::RunConfiguration;
pub use source::{Source, Sources, read_source};
