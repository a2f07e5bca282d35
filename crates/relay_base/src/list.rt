//! Lists that grow, and places that are filled.

ghost use Rattle.std.specs.Prelude.{◌≡◌, [], ◌∷◌, ◌++◌, OnOk, IfErr};

use crate::memory::NoMemory;

/// Adds one at the end. Refuses if out of memory; then the list is unchanged, and the item is dropped.
pub fn add<T: Drop>(list: &mut Vec<T>, item: T) -> Result<(), NoMemory>
    ensures ok { OnOk result (list.new.items ≡ list.old.items ++ item ∷ []) }
    ensures err { IfErr result (λ _. list.new.items ≡ list.old.items) }
{
    list.push(item)?;
    Ok(())
}

/// Puts a value, or none, in the place of another.
pub fn put<T: Drop>(place: &mut Option<T>, value: Option<T>)
    ensures { place.new ≡ value }
{
    *place = value;
}
