//! Loops over the connections that are ready: a [`ReadLoop`] reads from them, a [`WriteLoop`] writes to them.
//!
//! A receiver's thread has a [`ReadLoop`], a sender's a [`WriteLoop`]; a [`Readiness`] tells which sockets are ready.
//! Each loop logs what it did: an [`InputLog`] has what the readers were fed, a [`WriteLog`] the steps of one writer.
//!
//! `specs/Reading.antt` and `specs/WriterSteps.antt` say what these logs mean, `specs/ReadTurn.antt` and
//! `specs/WriteLoop.antt` what a turn does.
#![tactic(auto)]

mod admit_fault;
mod all_destinations;
pub mod exchange;
pub mod faulty;
mod input_log;
mod leaving_loop;
mod left_writer;
mod log_entry;
mod logged_writer;
mod offers;
mod outgoing;
pub mod read_laws;
mod read_loop;
mod read_room;
mod read_totals;
mod reader_turn;
mod readiness;
mod ready_tokens;
mod serve;
mod served;
mod stop_flag;
mod system_times;
mod time_source;
mod token;
mod turn_report;
pub mod write_laws;
mod write_log;
mod write_loop;
mod write_report;
mod write_serve;

pub use admit_fault::AdmitFault;
pub use input_log::{InputLog, MOST_LOG_BYTES, MOST_LOG_ENTRIES};
pub use leaving_loop::LeavingLoop;
pub use left_writer::{LeftBatch, LeftTaker, LeftWriter};
pub use log_entry::{LogEntries, LogEntry, LogInput};
pub use offers::make_offers;
pub use read_loop::{MOST_CONNECTIONS, ReadLoop};
pub use read_totals::ReadTotals;
pub use readiness::{MOST_EVENTS, Readiness, ReadinessFault};
pub use ready_tokens::marks_of;
pub use relay_base::NoMemory;
pub use serve::{MOST_READ, MOST_READS, feed_piece};
pub use served::Served;
pub use stop_flag::StopFlag;
pub use system_times::SystemTimes;
pub use time_source::TimeSource;
pub use token::{LISTENER, Token, WAKER};
pub use turn_report::TurnReport;
pub use write_log::{WriteLog, WriterEntry};
pub use write_loop::{AttachFault, WriteLoop};
pub use write_report::WriteReport;
