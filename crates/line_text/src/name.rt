//! Names of metrics.
ghost use Rattle.std.specs.Prelude.{◌≡◌, List, ℕ, true, false, IfOk, IsErrOf, IsTrue, ◌↔◌, MatchOption};
ghost use Rattle.line_text.specs.Name.{is_name, is_name_byte, has_name_bytes};
ghost use Rattle.std.specs.List.{list_all};

use crate::fault::NameFault;
use crate::name_bytes::NameBytes;
use relay_base::utf8_text;
use std::alloc::{AllocError, Global};
use std::marker::Model;

/// The longest name, in bytes.
pub const LONGEST_NAME: usize = 16_384;

/// The name of a metric: 1 to 16,384 bytes of UTF-8, each above 32 and none 127.
///
/// In clauses it is its bytes.
#[derive(Debug, Drop)]
pub struct Name {
    text: NameBytes,
}

impl Model for Name {
    ghost use Rattle.std.specs.Prelude.{◌≡◌, List, ℕ, true};
    ghost use Rattle.line_text.specs.Name.{is_name};
    ghost use Rattle.line_text.specs.NameBytes.{bytes_of};

    ghost Value = { List ℕ };

    ghost view = { λ n. bytes_of n.text };

    ghost invariant = { λ n. is_name (bytes_of n.text) ≡ true };
}

impl Name {
    /// The name that a text is. Refuses a text that is not a name (`BadName`); then returns
    /// `NoMemory` if there is no memory for a copy of it.
    pub fn read(alloc: Global, text: &[u8]) -> Result<Name, NameFault>
        ensures found { IfOk result (λ name. (name ≡ text.now) × IsTrue (is_name text.now)) }
        ensures bad { IsErrOf result NameFault.BadName ↔ (is_name text.now ≡ false) }
    {
        let text = name_text(text).ok_or(NameFault::BadName)?;
        Ok(Name::of(alloc, text)?)
    }

    /// A copy of the text of a name.
    pub(crate) fn of(alloc: Global, text: &str) -> Result<Name, AllocError>
        requires { is_name text.now ≡ true }
        ensures { IfOk result (λ name. name ≡ text.now) }
    {
        Ok(Name {
            text: NameBytes::of(alloc, text)?,
        })
    }

    /// The name as text.
    pub fn text(&self) -> &str
        ensures value { result.now ≡ self.now }
        ensures name { IsTrue (is_name self.now) }
    {
        self.text.as_str()
    }
}

/// The text of a name, if these bytes are one.
pub(crate) fn name_text(text: &[u8]) -> Option<&str>
    ensures { MatchOption result (is_name text.now ≡ false) (λ name. (name.now ≡ text.now)
        × (is_name text.now ≡ true)) }
{
    if has_name_bytes(text) {
        utf8_text(text)
    } else {
        None
    }
}

fn has_name_bytes(text: &[u8]) -> bool
    ensures { result ≡ has_name_bytes text.now }
{
    !text.is_empty() && text.len() <= LONGEST_NAME && are_name_bytes(text)
}

/// Whether all bytes may be in a name. It looks at every byte, with no early end, so that one step
/// can look at many.
fn are_name_bytes(text: &[u8]) -> bool
    ensures { result ≡ list_all is_name_byte text.now }
{
    let mut all = true;
    for b in text {
        all &= is_name_byte(*b);
    }
    all
}

fn is_name_byte(b: u8) -> bool
    ensures { result ≡ is_name_byte b }
{
    b > 32 && b != 127
}
