//! `relayd pass`: lines in, lines out, over any reader and writers.
//!
//! [`pass`] reads its input as one connection of one moment, and writes the printed line of each datapoint that it
//! accepts, in order, through a queue of one datapoint and the writer of a destination. [`moment_of`] reads that moment
//! from decimal digits.
//!
//! ```text
//! let status = pass(alloc, &mut input, &mut output, &mut notes, moment)?;
//! // for the input `a  1 60` the output has `a 1 60`
//! ```
//!
//! `specs/Pass.antt` defines what it writes, `pass_text`, and its notes, `notes_text`: functions of the whole input.
#![tactic(auto)]

mod moment_text;
mod pass_command;
mod point_writer;
mod relay;
mod write_fault;

pub use moment_text::moment_of;
pub use pass_command::pass;
