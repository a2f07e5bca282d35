//! Why a pattern was not compiled.

ghost use Rattle.patterns.specs.declared.fault.PatternFault.TheVariants.{NoMemory as OutOfMemory};
ghost use Rattle.std.specs.Prelude.{◌≡◌};

use relay_base::NoMemory;
use thiserror::Error;

/// Why a text did not become a pattern.
#[derive(Clone, Copy, Debug, Error)]
pub enum PatternFault {
    /// `regex` refuses it for a reason other than memory: it is not a pattern, or one that is too big.
    #[error("the pattern is refused")]
    Refused,
    /// There was no memory for it.
    #[error("out of memory")]
    NoMemory,
}

impl<E: Into<NoMemory> + Drop> From<E> for PatternFault {
    ghost from_gives = { λ _ fault. fault ≡ OutOfMemory };

    fn from(_error: E) -> PatternFault {
        PatternFault::NoMemory
    }
}
