//! Why a pickle was refused.
ghost use Rattle.std.specs.Prelude.{◌≡◌};
ghost use Rattle.pickle_subset.specs.declared.fault.PickleFault.TheVariants.{NoMemory as OutOfMemory};

use relay_base::NoMemory;
use thiserror::Error;

/// Why a pickle has no rows: the fault of its first opcode that fails.
#[derive(Clone, Copy, Debug, PartialEq, Error)]
pub enum PickleFault {
    /// The bytes end before STOP, or inside an argument.
    #[error("the pickle ends too early")]
    Truncated,
    /// A byte that is not an opcode of the table, or a protocol above 5.
    #[error("an opcode that is not read")]
    UnknownOpcode,
    /// The opcode does not fit what is on the stack, or the pickle is not a list of rows.
    #[error("not a list of rows")]
    BadShape,
    /// Nothing is stored under the number, or there is nothing to store.
    #[error("a memo entry that is not there")]
    BadMemo,
    /// A text is not UTF-8, or its length is below 0.
    #[error("not a text")]
    BadText,
    /// There was no memory for the values or the rows.
    #[error("out of memory")]
    NoMemory,
}

impl<E: Into<NoMemory> + Drop> From<E> for PickleFault {
    ghost from_gives = { λ _ fault. fault ≡ OutOfMemory };

    fn from(_error: E) -> PickleFault {
        PickleFault::NoMemory
    }
}
