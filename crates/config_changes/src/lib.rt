//! What changes from one configuration to the next.
//!
//! [`changed_ports`] says which receivers listen somewhere else, [`kept_places`] where each new destination was before, and
//! [`push_reload_line`] adds the line of the log on what changed.
//!
//! ```text
//! let ports = changed_ports(old.settings(), new.settings());
//! if ports.lines {
//!     bind(new.settings().line_receiver_port());
//! }
//! let kept = kept_places(alloc, old.destinations(), new.destinations())?;
//! ```
#![tactic(auto)]

mod kept;
mod ports;
mod reload_line;

pub use kept::{kept_places, place_of};
pub use ports::{ChangedPorts, changed_ports};
pub use relay_base::NoMemory;
pub use reload_line::{OtherChanges, push_reload_line};
