//! Why a text was refused.

ghost use Rattle.std.specs.Prelude.{◌≡◌};
ghost use Rattle.line_text.specs.declared.fault.NameFault.TheVariants as name;
ghost use Rattle.line_text.specs.declared.fault.LineFault.TheVariants as line;

use relay_base::NoMemory;
use thiserror::Error;

/// Why a text is not a metric name.
#[derive(Clone, Copy, Debug, Error)]
pub enum NameFault {
    /// It is empty, over 16,384 bytes or not UTF-8, or has a byte up to 32 or byte 127.
    #[error("not a metric name")]
    BadName,
    /// There was no memory for a copy of it.
    #[error("out of memory")]
    NoMemory,
}

impl<E: Into<NoMemory> + Drop> From<E> for NameFault {
    ghost from_gives = { λ _ fault. fault ≡ name.NoMemory };

    fn from(_error: E) -> NameFault {
        NameFault::NoMemory
    }
}

/// Why a text is not a number.
#[derive(Clone, Copy, Debug, Error)]
pub enum NumberFault {
    /// It does not have the form of a number.
    #[error("not a number")]
    NotANumber,
}

/// Why a line has no datapoint, the first fault that it has.
#[derive(Clone, Copy, Debug, Error)]
pub enum LineFault {
    /// It has fields, and not three of them.
    #[error("a line has three fields: name, value and time")]
    FieldCount,
    /// The first field is not a metric name.
    #[error("not a metric name")]
    BadName,
    /// The second field is not a number, or is a number that is not a value.
    #[error("not a value")]
    BadValue,
    /// The third field is not a number, or is a number that is not a time.
    #[error("not a time")]
    BadTime,
    /// There was no memory for the name.
    #[error("out of memory")]
    NoMemory,
}

impl<E: Into<NoMemory> + Drop> From<E> for LineFault {
    ghost from_gives = { λ _ fault. fault ≡ line.NoMemory };

    fn from(_error: E) -> LineFault {
        LineFault::NoMemory
    }
}
