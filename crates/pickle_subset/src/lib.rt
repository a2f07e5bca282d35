//! Datapoints as Python pickles, as carbon's clients send them: the frames of a connection, the pickle in each, its
//! rows, and their datapoints. The rules, with tables, are those of `docs/FORMATS.md`.
//!
//! - A *pickle* is a list of opcodes with arguments (`specs/Opcode.antt`, `specs/Instruction.antt`). Its *rows* are a
//!   fold over that list, on a stack, a memo and a list of rows (`specs/Table.antt`, `specs/Stack.antt`,
//!   `specs/Pickle.antt`). `load` returns them, or the fault of the first opcode that fails.
//! - A row's *datapoint* is what its path, its time and its value denote (`specs/RowPoint.antt`,
//!   `specs/Binary.antt`). `Row::point` returns it.
//! - A *connection* is its bytes, each with the moment of the piece that held it. Its *frames* are read by length, and
//!   the *accepted* datapoints are those of their rows, in order (`specs/Frame.antt`, `specs/Accepted.antt`).
//!   `PickleReader::feed` adds to its `out` exactly those that a piece adds.
//!
//! ```text
//! let mut reader = PickleReader::new(alloc);
//! let mut points = Vec::new(alloc);
//! let end = reader.feed(b"\x00\x00\x00\x02].", moment, &mut points)?;
//! ```
#![tactic(auto)]

mod binary;
mod fault;
mod frame;
mod frame_points;
mod frames;
mod instruction;
pub mod laws;
mod loading;
mod machine;
mod no_names;
mod opcode;
mod path;
mod place;
mod reader;
mod row_point;
mod sharing;
mod stack;
mod table;
mod unread;
mod usual_row;
mod value;

pub use fault::PickleFault;
pub use frame::LONGEST_FRAME;
pub use frames::FoundFrames;
pub use loading::load;
pub use reader::{FrameEnd, PickleReader};
pub use relay_base::NoMemory;
pub use unread::{Unread, unread_part};
pub use value::{Row, Scalar};
