//! Why a text is no script.
ghost use Rattle.std.specs.Prelude.{◌≡◌};
ghost use Rattle.replay.specs.declared.script_fault.ScriptFault.TheVariants.{NoMemory as OutOfMemory};

use relay_base::NoMemory;
use thiserror::Error;

/// Why a text is no script.
#[derive(Clone, Copy, Debug, Error)]
pub enum ScriptFault {
    /// The first faulty line, by its number, from 1; 0 where no line is faulty and none declares a reader.
    #[error("line {line}")]
    BadLine { line: usize },
    /// A growth was refused.
    #[error("out of memory")]
    NoMemory,
}

impl<E: Into<NoMemory> + Drop> From<E> for ScriptFault {
    ghost from_gives = { λ _ fault. fault ≡ OutOfMemory };

    fn from(_error: E) -> ScriptFault {
        ScriptFault::NoMemory
    }
}
