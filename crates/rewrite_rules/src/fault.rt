//! Why a rewrite file was refused, or a name dropped.
ghost use Rattle.std.specs.Prelude.{◌≡◌};
ghost use Rattle.rewrite_rules.specs.declared.fault.RewriteReadFault.TheVariants as read;
ghost use Rattle.rewrite_rules.specs.declared.fault.RewriteFault.TheVariants as rewrite;

use relay_base::NoMemory;
use thiserror::Error;

/// Why a text is not a rewrite file: its first fault, with the number of the line, from 1.
#[derive(Clone, Copy, Debug, Error)]
pub enum RewriteReadFault {
    /// A rule is before the first header, or a header is neither `[pre]` nor `[post]`.
    #[error("line {line}: NoSection")]
    NoSection { line: usize },
    /// A rule has no `=`.
    #[error("line {line}: NoEquals")]
    NoEquals { line: usize },
    /// `regex` refuses the pattern of a rule, for a reason other than memory.
    #[error("line {line}: BadPattern")]
    BadPattern { line: usize },
    /// A replacement has a byte up to 32 or byte 127, a backslash that is neither doubled nor before a single digit
    /// from 1 to 9, or a group that its pattern does not have.
    #[error("line {line}: BadReplacement")]
    BadReplacement { line: usize },
    /// There was no memory for the rules.
    #[error("out of memory")]
    NoMemory,
}

impl<E: Into<NoMemory> + Drop> From<E> for RewriteReadFault {
    ghost from_gives = { λ _ fault. fault ≡ read.NoMemory };

    fn from(_error: E) -> RewriteReadFault {
        RewriteReadFault::NoMemory
    }
}

/// Why a name was not rewritten.
#[derive(Clone, Copy, Debug, Error)]
pub enum RewriteFault {
    /// What the rules make of it is not a metric name.
    #[error("the rewritten name is not a metric name")]
    BadResult,
    /// There was no memory for it.
    #[error("out of memory")]
    NoMemory,
}

impl<E: Into<NoMemory> + Drop> From<E> for RewriteFault {
    ghost from_gives = { λ _ fault. fault ≡ rewrite.NoMemory };

    fn from(_error: E) -> RewriteFault {
        RewriteFault::NoMemory
    }
}
