//! Why a file of rules was refused.

ghost use Rattle.std.specs.Prelude.{◌≡◌};
ghost use Rattle.relay_rules.specs.declared.fault.RuleFault.TheVariants.{NoMemory as OutOfMemory};

use relay_base::NoMemory;
use thiserror::Error;

/// Why sections are not relay rules: the first fault, with the number of its section, from 0. Its text
/// is that number and the name of the fault.
#[derive(Clone, Copy, Debug, Error)]
pub enum RuleFault {
    /// The section has no `destinations`.
    #[error("{section}: NoDestinations")]
    NoDestinations { section: usize },
    /// The section has both a `pattern` and a `default`.
    #[error("{section}: PatternAndDefault")]
    PatternAndDefault { section: usize },
    /// The section is a default rule, and one before it is too.
    #[error("{section}: SecondDefault")]
    SecondDefault { section: usize },
    /// No section is the default rule. `section` is the number of sections, and the text leaves it out.
    #[error("NoDefault")]
    NoDefault { section: usize },
    /// The kit's `regex` refuses the section's `pattern`, for a reason other than memory.
    #[error("{section}: BadPattern")]
    BadPattern { section: usize },
    /// The section's `continue` or `default` is not a truth word.
    #[error("{section}: BadTruth")]
    BadTruth { section: usize },
    /// An item of the section's `destinations` is not a destination.
    #[error("{section}: BadDestination")]
    BadDestination { section: usize },
    /// There was no memory for the rules.
    #[error("no memory")]
    NoMemory,
}

impl<E: Into<NoMemory> + Drop> From<E> for RuleFault {
    ghost from_gives = { λ _ fault. fault ≡ OutOfMemory };

    fn from(_error: E) -> RuleFault {
        RuleFault::NoMemory
    }
}
