//! Configuration files, destinations and settings of the relay.
//!
//! - [`Ini`] is a configuration file: sections of keys with their values.
//! - [`Dest`] is a destination, `host:port` or `host:port:instance`, and [`DestId`] its index in DESTINATIONS.
//! - [`Settings`] is what the section `[relay]` says, each setting with its default and its rule.
//! - [`truth`] reads a truth word.
//!
//! # Definitions
//!
//! Each is a function of a whole text, in `specs`: what a line says (`Lines`), the sections of a file or its
//! first fault with the line (`IniText`), the destination that a text writes (`Destination`), and the table of
//! the settings, whose rows are in the order of the checks (`SettingsTable`, with the rules in
//! `SettingRules`). The format is this project's profile of carbon's `carbon.conf`: `docs/CONFIGURATION.md`
//! describes it in full.
//!
//! # Contract
//!
//! What is read is exactly what the definition gives: that value, or that fault at that line or setting and
//! no other, unless memory ran out. A printed destination is read as itself, and a fault of the settings is
//! that of the first row that has one ([`laws`]).
//!
//! # Example
//!
//! ```text
//! let ini = Ini::read(alloc, "[relay]\nDESTINATIONS = 10.0.0.1:2003\n..")?;
//! let settings = Settings::read(alloc, &ini)?;
//! let first = &settings.destinations()[0];
//! ```
#![tactic(auto)]

mod dest;
mod ini;
pub mod laws;
mod limits;
mod line;
mod method;
mod places;
mod protocol;
mod section;
mod setting;
mod setting_rules;
mod settings;
mod truth_word;

pub use dest::{Dest, DestFault};
pub use ini::{Ini, IniFault};
pub use limits::{HIGHEST_PORT, LARGEST_FACTOR, LONGEST_LABEL};
pub use method::RelayMethod;
pub use protocol::DestinationProtocol;
pub use relay_base::{DestId, LARGEST_MESSAGE, LARGEST_QUEUE_SIZE, MOST_DESTINATIONS};
pub use section::{KeyValue, Section};
pub use setting::{Setting, SettingFault};
pub use settings::Settings;
pub use truth_word::truth;
