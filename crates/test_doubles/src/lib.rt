//! Readers, writers and doors over memory that block, are interrupted and fail where a test says so.
//!
//! ```
//! let steps = [FaultyStep::Pass(3), FaultyStep::Block, FaultyStep::Interrupt];
//! let mut reader = FaultyReader::new(b"a 1 2\n", &steps); // gives `a 1`, blocks, is interrupted, gives ` 2\n`
//! let mut writer = FaultyWriter::new(Vec::new(alloc), &steps); // takes 3 bytes, blocks, is interrupted, takes all
//! let mut door = FaultyDoor::new(ListDoor::new(alloc, 1, 10, 0)?, 2); // refuses the second offer
//! ```
//!
//! `specs/Faulty.antt` says what a call does. No product code makes one of these.
#![tactic(auto)]

mod door;
mod reader;
mod step;
mod writer;

pub use door::FaultyDoor;
pub use reader::FaultyReader;
pub use step::FaultyStep;
pub use writer::FaultyWriter;
