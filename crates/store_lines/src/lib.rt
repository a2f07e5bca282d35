//! What goes out to a store before and after a sender's own lines.
//!
//! [`LineSender`] sends to a sender's destinations: to each first what ended runs left for it, a file and then a rest, which its
//! slot has ([`DestSlots`]); then the batches of its queue; and at the end of a run what is left goes to its file, or, if another
//! run follows, into the slot. [`PartingJob`] sends what is left to destinations that are gone ([`GoneDests`]).
//!
//! In a run that diverts destinations ([`Diversions`]) a sender writes to an intake while a store is away, and [`KeeperJob`] keeps
//! and sends the files.
//!
//! `specs/DestCarryOver.antt` says what the carry-over of a destination is ([`DestCarryOver`]).
#![tactic(auto)]

mod counted_connector;
mod dest_carry_over;
mod dest_rests;
mod diversions;
mod divert_connector;
mod divert_sink;
mod earlier_lines;
mod file_end;
mod first_lines;
mod gone_dests;
mod keeper;
mod keeper_job;
mod last_wait;
mod line_sender;
mod parting_job;
mod rest_connector;
mod sender_places;
mod sender_spool;
mod spool_connector;
mod spool_left;
mod spooled_dest;

pub use dest_carry_over::{DestCarryOver, DestSlots, counts_of};
pub use diversions::{Diversions, DivertTo, QueueLevels};
pub use gone_dests::{GoneDests, PartingDest, SeenGone};
pub use keeper_job::{KeeperJob, KeeperPlaces};
pub use line_sender::LineSender;
pub use parting_job::PartingJob;
pub use sender_places::{SenderPlaces, Share};
pub use spool_left::spool_slots;
