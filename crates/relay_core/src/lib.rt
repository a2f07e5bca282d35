//! The core of the relay: [`World`], a relay as a value to which events happen one after another,
//! and the laws of every run of events, in [`laws`].
//!
//! A run is a configuration, the kinds of the readers, and a list of events in any order: a reader
//! gets a piece, the reader's connection ends, the reader makes an offer; a destination's writer
//! takes a batch, gets a connection, writes bytes, loses the connection. `specs/Run.antt` computes
//! the state at its end from the whole list. What a reader has for a destination is a function of
//! its whole input alone, however it was cut. By [`World::apply`], a world that represents a run
//! represents, after an event, the run with that event; what a world returns ([`World::handed`],
//! [`World::counts`], ..) is that run's.
//!
//! The main laws are [`laws::prefix`] (what a reader has offered, followed by what waits, is what
//! it has for the destination; and what the destination kept is written as whole lines, in order,
//! each once, or is in hand or queued) and [`laws::isolated`] (runs that agree at a destination
//! hand it the same bytes).
//!
//! A datapoint on its way to one of two destinations:
//!
//! ```
//! let mut world = World::new(alloc, plan, 1000, 500, 2, &[ReaderKind::Line])?;
//! world.apply(Event::Piece(0, b"a.x 1 5\n", moment))?; // Done: one offer waits
//! world.apply(Event::Up(0))?; // Done: the first destination has a connection
//! world.apply(Event::Offer(0))?; // Done: it is in the queue to which the plan sends it
//! world.apply(Event::Take(0))?; // Done: it is in hand
//! world.apply(Event::Wrote(0, 8))?; // Done
//! world.handed(0); // one connection, which got "a.x 1 5\n"
//! ```
#![tactic(auto)]

mod destination;
mod event;
pub mod laws;
mod making;
mod offering;
mod world;

pub use common_orders::{OrderFault, common_order};
pub use event::{Answer, Event};
pub use relay_base::NoMemory;
pub use world::{LARGEST_BATCH, World};
