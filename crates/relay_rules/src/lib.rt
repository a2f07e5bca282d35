//! Relay rules: which destinations a metric name goes to, by patterns.
//!
//! `RelayRules::read` reads the sections of a rules file, and `route` returns the destinations of a name:
//!
//! ```text
//! let mut rules = RelayRules::read(alloc, &ini, settings.destinations())?;
//! let ids = rules.route(&name)?;
//! ```
//!
//! `specs/Sections.antt` defines what a file says, `specs/Faults.antt` its first fault, and
//! `specs/Route.antt` the route of a name. Patterns are those of the crate `patterns`, without regard to
//! case.
#![tactic(auto)]

mod destinations;
mod fault;
pub mod laws;
mod route;
mod rule;
mod rules;
mod section;

pub use fault::RuleFault;
pub use rules::RelayRules;
