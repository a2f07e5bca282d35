//! What a watcher sees of the datapoints that pass through a running relay (`relayd watch`).
//!
//! A receiver has a [`Tap`]: it copies each piece that it reads, and notes what became of each offer ([`WatchedDoor`]), in a
//! batch. Batches change hands in a [`WatchPlace`], for which neither side waits. A [`WatchDesk`] opens and ends watches, reads
//! the batches again, and joins each datapoint with its offers by a plan of the same configuration.
//!
//! ```text
//! let tap = Tap::new(&place);                      // in the receiver's thread
//! let door = WatchedDoor::new(door, PieceOffers::of(&tap));
//! let answer = desk.answer(alloc, b"lines find ^a", millis)?; // in the first thread: `watching 1`
//! ```
#![tactic(auto)]

mod agreement;
mod batch;
mod connection_shadow;
mod desk;
mod found;
mod joined;
mod line_watch;
mod name_parts;
mod name_sketch;
mod names_watch;
mod open_watch;
mod place;
mod reading;
mod receiver_kind;
mod shown;
mod tap;
mod watched_door;

pub use batch::{NotedOffer, PieceHead, PieceStart};
pub use desk::WatchDesk;
pub use place::{WatchPlace, WatchPlaces};
pub use receiver_kind::kind_of;
pub use tap::Tap;
pub use watched_door::{NotesOffers, PieceOffers, WatchedDoor};
