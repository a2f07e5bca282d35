//! Where the bytes of a name are stored.
ghost use Rattle.std.specs.Prelude.{◌≡◌, IfOk};
ghost use Rattle.line_text.specs.NameBytes.{bytes_of};

use arrayvec::ArrayString;
use std::alloc::{AllocError, Global};

/// The longest name that is stored in the value itself, in bytes.
const SHORT: usize = 56;

/// The bytes of a name. A short one is in one piece of memory with the count of its shares, so that reading a
/// name allocates once and comparing it touches memory once.
#[derive(Debug, Drop)]
pub(crate) enum NameBytes {
    Short(ArrayString<SHORT>),
    Long(String),
}

impl NameBytes {
    /// A copy of a text.
    pub(crate) fn of(alloc: Global, text: &str) -> Result<NameBytes, AllocError>
        ensures { IfOk result (λ bytes. bytes_of bytes ≡ text.now) }
    {
        match ArrayString::from(text) {
            Ok(short) => Ok(NameBytes::Short(short)),
            Err(_) => Ok(NameBytes::Long(String::from_str(alloc, text)?)),
        }
    }

    /// The text.
    pub(crate) fn as_str(&self) -> &str
        ensures { result.now ≡ bytes_of self.now }
    {
        match self {
            NameBytes::Short(short) => short.as_str(),
            NameBytes::Long(long) => long.as_str(),
        }
    }
}
