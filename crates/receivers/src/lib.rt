//! Receiver threads: each takes connections or datagrams, feeds readers, and makes their offers.
//!
//! [`receive_streams`] and [`receive_datagrams`] are the work of one thread, over any [`Accept`] and any [`Datagrams`];
//! [`StreamListener`] and [`DatagramSocket`] are those of the system. `specs/Record.antt` says what a receiver returns.
#![tactic(auto)]

mod accept;
mod bad_input;
mod bad_pickle;
mod connection_room;
mod connections;
mod datagram_loop;
mod datagram_receiver;
mod datagram_socket;
mod datagrams;
mod handing;
mod held_stream;
mod idle_times;
mod input_counts;
mod long_words;
mod noting_times;
mod optional_notes;
mod producer_table;
mod producer_tallies;
mod progress;
mod receiver;
mod receiver_control;
mod record;
mod refusal;
mod serving;
mod stream_listener;
mod stream_port;
mod stream_receiver;
mod system_drops;

pub use accept::{Accept, AcceptOutcome};
pub use connection_room::ConnectionRoom;
pub use datagram_loop::{MOST_DATAGRAM, MOST_DATAGRAMS};
pub use datagram_receiver::receive_datagrams;
pub use datagram_socket::DatagramSocket;
pub use datagrams::Datagrams;
pub use handing::{HandedStream, HandedStreams};
pub use held_stream::HeldStream;
pub use input_counts::ServedInput;
pub use mio_loops::ReadinessFault;
pub use producer_table::MOST_PRODUCERS;
pub use receiver::Receiver;
pub use receiver_control::{ReceiverControl, wake_receivers};
pub use record::ReceiverRecord;
pub use stream_listener::StreamListener;
pub use stream_port::StreamPort;
pub use stream_receiver::{MOST_TAKEN, receive_streams};
