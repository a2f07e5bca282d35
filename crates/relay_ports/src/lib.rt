//! The ports of a running relay, and what receives at them.
//!
//! [`bind_all`] binds those of a configuration; the first thread keeps some of them from one run to the next ([`FirstPorts`]).
//! A reload binds those that change before it ends a run, and finds each receiver of the next one by its name ([`RunReceivers`]).
//! An [`Inlet`] watches the port of a receiver, and [`PortReceiver`] receives there, with a plan and through a door. Receivers of
//! lines share a port. [`descriptors_needed`] says how many descriptors all need.
//!
//! `specs/StartFault.antt` says what a relay that cannot begin answers.
#![tactic(auto)]

mod datagram_room;
mod descriptors;
mod first_ports;
mod inlet;
mod listeners;
mod port_listener;
mod port_receiver;
mod receiver_ports;
mod run_receivers;
mod said_refusals;
mod system_tables;

pub use descriptors::{descriptors_needed, free_descriptors, receivers_of};
pub use first_ports::{FirstPorts, Holders, NewPorts, NextReceivers};
pub use inlet::Inlet;
pub use listeners::{Ports, bind_all};
pub use port_listener::Share;
pub use port_receiver::PortReceiver;
pub use run_receivers::{KnownReceiver, RunReceivers};
pub use said_refusals::SaidRefusals;
pub use system_tables::SystemTables;
