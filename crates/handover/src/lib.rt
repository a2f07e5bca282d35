//! What a run hands to the next one in the same process, over the same sockets.
//!
//! A [`FirstBytes`] is a producer's connection with the bytes of its unfinished line or frame: it gives these first. A
//! [`RestConnection`] is what was left for a destination, in hand or queued, with the connection that this goes out on: nothing
//! else is written to it before.
//!
//! `specs/FirstBytes.antt` says what such a stream gives, and `specs/Rest.antt` what a connection gets of a rest.
//!
//! ```text
//! let mut stream = FirstBytes::new(alloc, rest, socket); // "a.b 4", and then "2 1700000000\n" comes
//! let mut rest = RestConnection::new(Rest::new(limit, writer, lent, queued));
//! rest.go_on(socket);
//! rest.send(&mut gathered); // RestTurn::Over(socket), once all is sent
//! ```
#![tactic(auto)]

mod first_bytes;
mod rest;
mod rest_connection;
mod rest_turn;

pub use first_bytes::FirstBytes;
pub use rest::Rest;
pub use rest_connection::{MOST_BATCHES, RestConnection};
pub use rest_turn::RestTurn;
