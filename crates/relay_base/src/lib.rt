//! What the crates of the relay share: white space, UTF-8, whole numbers, destinations by number, limits, out of memory,
//! and definitions for contracts.
//!
//! - *White space* in a line is a tab, a vertical tab, a form feed, a carriage return or a space
//!   (`specs/White.antt`). A newline ends a line, so no line contains one. `strip` returns a text without the
//!   white space at its ends, and `strip_bytes` does the same for bytes that need not be UTF-8.
//! - `NoMemory` is the fault of a call that only memory can fail. A call that has other faults too reports out
//!   of memory by its own variant; `specs/Memory.antt` has the definitions for its contract.
//! - `utf8_text` returns the text that bytes are, if they are UTF-8.
//! - `whole_number_up_to` and `short_whole_number` return the number that decimal digits write
//!   (`specs/WholeNumber.antt`).
//! - `DestId` is the index of a destination in DESTINATIONS; `specs/DestIds.antt` has the words for lists of them, and
//!   [`laws`] what these keep.
//! - `MOST_DESTINATIONS` and the other constants are the limits that several crates share.
//! - `specs/Ascii.antt` names the bytes that the formats use.
//!
//! ```text
//! let key = strip(" \tkey ");    // "key"
//! ```
#![tactic(auto)]

mod dest_id;
pub mod laws;
mod limits;
mod list;
mod memory;
mod utf8;
mod white;
mod whole_number;

pub use dest_id::DestId;
pub use limits::{
    LARGEST_MESSAGE, LARGEST_QUEUE_SIZE, MOST_CONNECTIONS, MOST_DESTINATIONS, MOST_LINE_RECEIVERS,
    MOST_RECEIVERS,
};
pub use list::{add, put};
pub use memory::NoMemory;
pub use utf8::utf8_text;
pub use white::{is_white, strip, strip_bytes};
pub use whole_number::{short_whole_number, whole_number_up_to};
