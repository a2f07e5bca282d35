//! What the relay asks of the system for its connections: to notice hosts that are gone.
//!
//! The kit's sockets have no calls for these options. A socket of which the system refuses an option goes on without it.
//!
//! ```text
//! notice_lost_producers(&listener); // and so do the connections that it takes
//! notice_lost_store(&stream);
//! leave_rest_to_system(&stream); // before it is closed
//! ```
#![tactic(auto)]

mod lost_hosts;
mod option;

pub use lost_hosts::{leave_rest_to_system, notice_lost_producers, notice_lost_store};
