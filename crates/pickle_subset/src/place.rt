//! The places of the memo.
ghost use Rattle.std.specs.Prelude.{◌≡◌, Err, OnErr, OnOk};
ghost use Rattle.pickle_subset.specs.Items.{item, memo};
ghost use Rattle.pickle_subset.specs.UsualRow.{stored_at};
ghost use Rattle.pickle_subset.specs.declared.fault.PickleFault.TheVariants.{NoMemory};

use crate::fault::PickleFault;
use crate::value::Item;
use numbered_memo::Memo;

/// The number under which something is stored.
#[derive(Clone, Copy)]
pub enum Place {
    /// This number.
    Under(u64),
    /// How many numbers have something stored under them.
    Next,
}

/// Stores an item at a place of the memo.
pub fn store_at<'v, 'a>(
    stored_items: &mut Memo<Item<'v, 'a>>,
    place: Place,
    stored: Item<'v, 'a>,
) -> Result<(), PickleFault>
    ensures ok { OnOk result (memo stored_items.new
        ≡ stored_at place (item stored.entry) (memo stored_items.old)) }
    ensures err { OnErr result (result ≡ Err NoMemory) }
{
    let number = match place {
        Place::Under(number) => number,
        Place::Next => stored_items.len(),
    };
    Ok(stored_items.insert(number, stored)?)
}
