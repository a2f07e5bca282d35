//! An index of names: the index of each in a list.

ghost use Rattle.std.specs.Prelude.{◌≡◌, ◌++◌, ◌∷◌, [], List, ℕ, None, Some, length, OnOk, OnErr};
ghost use Rattle.conf_text.specs.Places.{place_of, IsIndexOf};

use std::alloc::{AllocError, Global};
use std::collections::HashMap;

/// Puts one more name into an index, at the end of the list.
pub(crate) fn put(
    places: &mut HashMap<String, usize>,
    alloc: Global,
    name: &str,
    place: usize,
) -> Result<(), AllocError>
    ensures ok { OnOk result ((names : List (List ℕ)) → IsIndexOf names places.old
        → place_of name.now names ≡ None → place ≡ length names
        → IsIndexOf (names ++ name.now ∷ []) places.new) }
    ensures err { OnErr result
        ((names : List (List ℕ)) → IsIndexOf names places.old → IsIndexOf names places.new) }
{
    let name = String::from_str(alloc, name)?;
    places.insert(name, place)?;
    Ok(())
}
