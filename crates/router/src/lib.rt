//! What a configuration does with a datapoint: it rewrites the name, and then routes it.
//!
//! A [`Plan`] is the rewrite rules of a configuration with its relay rules or its hash ring.
//! [`Plan::send`] returns a datapoint as it is sent on, and its destinations:
//!
//! ```text
//! let mut plan = Plan::new(alloc, &settings, rewrite_rules, Some(relay_rules))?;
//! let sent = plan.send(&point)?;
//! ```
//!
//! What is sent is `sent_by` of `specs/Plan.antt`: nothing if rewriting leaves no metric name, and
//! otherwise the datapoint under its new name, with the destinations that the relay rules or the ring give
//! that name. Each destination is there once, in the order of the route ([`laws`]).
//!
//! A plan serves one thread: each receiver makes its own from the same texts.
#![tactic(auto)]

mod fault;
pub mod laws;
mod plan;
mod recent_routes;
mod route;
mod routing;
mod sent;

pub use fault::PlanFault;
pub use plan::Plan;
pub use recent_routes::MOST_HELD;
pub use sent::Sent;
