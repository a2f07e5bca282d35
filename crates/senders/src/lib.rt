//! Sender threads: each connects to its destinations, takes batches from their queues, and writes them.
//!
//! [`send_batches`] is the work of one thread, over any [`HandOver`] and any supply of batches. [`StoreConnector`]
//! connects by the system's sockets, and looks hosts up in threads of their own. A sender waits for its sockets and
//! for its [`Alarm`], which a [`WakeGate`] rings under a queue's lock.
//!
//! `specs/Record.antt` says what a sender returns when it ends.
#![tactic(auto)]

mod address_choice;
mod alarm;
mod attempt;
mod connect;
mod connection;
mod connection_lines;
mod counted_supply;
mod dest_list;
mod host_addresses;
mod host_lookup;
pub mod laws;
mod link;
mod lookup;
mod resolve;
mod send;
mod sender_share;
mod store_connector;
mod store_end;
mod store_stream;
mod take_waits;
mod turn;
mod wake_gate;
mod wire;

pub use alarm::Alarm;
pub use connect::{Connect, HandOver, KeptSocket, Stores};
pub use dest_list::copy_list;
pub use host_addresses::HostAddresses;
pub use host_lookup::{HostLookup, HostThreads};
pub use lookup::{Lookup, LookupAnswer};
pub use resolve::Resolve;
pub use send::{BatchSender, SenderRecord, send_batches};
pub use sender_share::SenderShare;
pub use store_connector::StoreConnector;
pub use store_end::{HalfClose, StoreEnd};
pub use store_stream::StoreStream;
pub use wake_gate::WakeGate;
