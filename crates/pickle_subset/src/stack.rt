//! The stack of a pickle.
ghost use Rattle.std.specs.Prelude.{◌≡◌, ◌++◌, ◌∷◌, [], Ok, MatchOption, reverse};
ghost use Rattle.relay_base.specs.Memory.{Gives};
ghost use Rattle.pickle_subset.specs.Views.{item, rows, row, stack};

use crate::fault::PickleFault;
use crate::value::{Item, Row};

/// Pushes an item.
pub fn push<'v, 'a>(items: &mut Vec<Item<'v, 'a>>, pushed: Item<'v, 'a>) -> Result<(), PickleFault>
    ensures { Gives PickleFault.NoMemory (λ _. stack items.new.items) result
        (Ok (item pushed.entry ∷ stack items.old.items)) }
{
    items.push(pushed)?;
    Ok(())
}

/// Takes the top away.
pub fn pop<'v, 'a>(items: &mut Vec<Item<'v, 'a>>) -> Option<Item<'v, 'a>>
    ensures { MatchOption result (stack items.old.items ≡ [])
        (λ top. stack items.old.items ≡ item top ∷ stack items.new.items) }
{
    items.pop()
}
