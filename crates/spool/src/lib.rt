//! The files in which a relay keeps what it did not send, for each destination one or more in an order, its segments.
//!
//! At a start [`open_all`] looks for the destinations' files. While one holds lines, [`DestSpool::send`] sends them to the
//! destination's [`FileConnection`], a piece at a time, from the first line that no connection took to its end, notes in
//! [`LOCK`] how far it is sent, and gives the connection out with the last line. At a stop a [`FileSink`] takes the place of
//! the connection: what is written to it goes into the file, behind the lines that this holds.
//!
//! A relay with a size for its files ([`SpoolBound`]) writes them while it runs: a sender writes to an [`Intake`], whose keeper
//! takes [`KeptLines`] from there, has [`DestSpool::append`] write them, and sends the files.
//!
//! The threads reach the disk by [`SpoolDisk`]. `specs/Held.antt` says what is read of a file, and what connections take of
//! it.
#![tactic(auto)]

mod bound;
mod clock;
mod copy;
mod dest_new;
mod dest_opening;
mod dest_segments;
mod dest_sending;
mod dest_spool;
mod file_connection;
mod file_names;
mod file_sink;
mod found_file;
mod held_file;
mod held_text;
mod intake;
mod kept_lines;
mod limited_file;
mod line_count;
mod open_folder;
mod part;
mod pieces;
mod pipe;
mod put_aside;
mod segments;
mod sent_table;
mod spool_disk;
mod spool_files;
mod spool_notes;
mod turn;
mod waiting;

pub use bound::SpoolBound;
pub use clock::clock_seconds;
pub use dest_segments::SegmentLimits;
pub use dest_spool::DestSpool;
pub use file_connection::FileConnection;
pub use file_names::{FileNames, LOCK, TRIAL, fits_name};
pub use file_sink::FileSink;
pub use held_text::{HeldText, end_of_lines};
pub use intake::{INTAKE_ROOM, Intake};
pub use kept_lines::KeptLines;
pub use line_count::lines_in;
pub use open_folder::{FolderAt, OpenFault};
pub use pieces::{SendOutcome, send_piece};
pub use spool_disk::SpoolDisk;
pub use spool_files::{SpoolFiles, Unopened, is_of_no_destination, open_all, open_others};
pub use spool_notes::{MOST_NEWS, SpoolFailure, SpoolNotes, SpoolStall};
pub use turn::Turn;
pub use waiting::Waiting;
