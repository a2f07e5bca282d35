//! The log of a running relay: lines for its destinations and its receivers.
//!
//! A sender notes in a [`DestNotes`] that a connection was made or lost, a receiver in a [`ReceiverNotes`] that it
//! cannot take connections. A note is a few atomic words: no lock, no memory, no system call; only what producers sent, for the
//! status, changes hands in a [`ProducerPlace`], for which neither side waits. The thread that
//! writes the log looks at them once a second; [`LoggedDest::look`] and [`LoggedReceiver::look`] return at most one
//! event a look, and [`push_dest_line`] and [`push_receiver_line`] write its line.
#![tactic(auto)]

mod bad_example;
mod counts_line;
mod dest_notes;
mod end_lines;
mod line;
mod logged_counts;
mod logged_dest;
mod logged_lookup;
mod losses;
mod losses_line;
mod noted_address;
mod producers;
mod receiver_counts;
mod receiver_name;
mod receiver_notes;
mod why;

pub use bad_example::{BadExample, BadInput, BadPickle, LoggedExample, push_example_line};
pub use counts_line::{push_lookup_line, push_receiver_counts_line, push_refusals_line};
pub use dest_notes::{DestNotes, DestStatus, DestWrites};
pub use end_lines::{
    DestEnd, RelayEnd, push_dest_end_line, push_lost_receiver_line, push_lost_sender_line,
    push_relay_end_line,
};
pub use line::{push_dest_line, push_receiver_line};
pub use logged_counts::{LoggedCounts, LoggedRefusals, MOST_CONNECTIONS, RefusalEvent, has_bad};
pub use logged_dest::{DestEvent, LoggedDest};
pub use logged_lookup::{LoggedLookup, LookupEvent};
pub use losses::{LOSS_REASONS, LoggedLosses, LossCounts, LossNotes, LossReason, has_lost};
pub use losses_line::{InputUnit, push_losses_line};
pub use producers::{Producer, ProducerCounts, ProducerPlace, ProducerWindow};
pub use receiver_counts::ReceiverCounts;
pub use receiver_name::{RECEIVER_PLACES, ReceiverName};
pub use receiver_notes::{LoggedReceiver, ReceiverNotes, ReceiverState};
pub use why::Why;
