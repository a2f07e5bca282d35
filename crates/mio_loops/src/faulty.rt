//! What tests put in the place of connections and doors: those of `test_doubles`.

pub use test_doubles::{FaultyDoor, FaultyReader, FaultyStep, FaultyWriter};
