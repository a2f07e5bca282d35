//! Rows and items that share what they hold.
ghost use Rattle.std.specs.Prelude.{◌≡◌, Ok, option_map};
ghost use Rattle.std.specs.Arc.{arc_value};
ghost use Rattle.relay_base.specs.Memory.{Gives};
ghost use Rattle.pickle_subset.specs.RowPoint.{path_name};
ghost use Rattle.pickle_subset.specs.Views.{item, row, pair, scalar, scalar_in, pair_of};

use crate::fault::PickleFault;
use crate::path::{Path, name_of, share};
use crate::usual_row::UsualRow;
use crate::value::{BareScalar, Item, Pair, Row, Scalar};
use line_text::{Name, SharedNames};
use std::alloc::Global;
use std::sync::Arc;

impl<'a> Row<'a> {
    /// A row of a path with a pair.
    pub(crate) fn new(path: &Path<'a>, pair: Pair<'a>) -> Result<Row<'a>, PickleFault>
        ensures { Gives PickleFault.NoMemory row result
            (Ok (record {
              path = path.now.text.now;
              time = scalar pair.entry.time;
              value = scalar pair.entry.value;
            })) }
    {
        let name = share(&path.name)?;
        Ok(Row {
            path: path.text,
            time: pair.time,
            value: pair.value,
            name,
        })
    }

    /// A row that is written whole. A remembered name is shared.
    pub(crate) fn of_usual<N: SharedNames>(
        alloc: Global,
        names: &N,
        usual: &UsualRow<'a>,
    ) -> Result<Row<'a>, PickleFault>
        ensures { Gives PickleFault.NoMemory row result
            (Ok (record {
              path = usual.now.path.now;
              time = scalar usual.now.time;
              value = scalar usual.now.value;
            })) }
    {
        let name = name_of(alloc, names, usual.path)?;
        Ok(Row {
            path: usual.path,
            time: usual.time,
            value: usual.value,
            name,
        })
    }

    /// A row of the same path with another pair.
    pub(crate) fn with_pair(&self, pair: Pair<'a>) -> Result<Row<'a>, PickleFault>
        ensures { Gives PickleFault.NoMemory row result
            (Ok (record {
              path = self.now.path.now;
              time = scalar pair.entry.time;
              value = scalar pair.entry.value;
            })) }
    {
        let name = share(&self.name)?;
        Ok(Row {
            path: self.path,
            time: pair.time,
            value: pair.value,
            name,
        })
    }

    /// The same row once more.
    pub(crate) fn share(&self) -> Result<Row<'a>, PickleFault>
        ensures { Gives PickleFault.NoMemory row result (Ok (row self.now)) }
    {
        let name = share(&self.name)?;
        Ok(Row {
            path: self.path,
            time: self.time,
            value: self.value,
            name,
        })
    }

    /// The name that the path is, if it is one.
    pub(crate) fn name(&self) -> Option<&Arc<Name>>
        ensures { option_map (λ name. arc_value name.now) result ≡ path_name self.now.path.now }
    {
        self.name.as_ref()
    }
}

impl<'v, 'a> Item<'v, 'a> {
    /// The same item once more.
    pub fn share(&self) -> Result<Item<'v, 'a>, PickleFault>
        ensures { Gives PickleFault.NoMemory item result (Ok (item self.now)) }
    {
        Ok(match self {
            Item::Mark => Item::Mark,
            Item::Rows => Item::Rows,
            Item::Text(path) => Item::Text(path.clone()?),
            Item::One(bare) => Item::One(*bare),
            Item::Two(pair) => Item::Two(pair),
            Item::Three(row) => Item::Three(row.clone()?),
            Item::PathOf(row) => Item::PathOf(row.clone()?),
            Item::PairOf(row) => Item::PairOf(row.clone()?),
        })
    }

    /// The scalar that an item is, if it is one.
    pub fn scalar(&self) -> Option<Scalar<'a>>
        ensures { option_map (λ found. scalar found) result ≡ scalar_in (item self.now) }
    {
        match self {
            Item::Text(path) => Some(Scalar::Text(path.text)),
            Item::PathOf(row) => Some(Scalar::Text(row.path)),
            Item::One(BareScalar::Whole(number)) => Some(Scalar::Whole(*number)),
            Item::One(BareScalar::Binary(bits)) => Some(Scalar::Binary(*bits)),
            Item::One(BareScalar::Other) => Some(Scalar::Other),
            _ => None,
        }
    }

    /// The pair that an item is, if it is one.
    pub fn pair(&self) -> Option<Pair<'a>>
        ensures { option_map (λ found. pair found) result ≡ pair_of (item self.now) }
    {
        match self {
            Item::Two(pair) => Some(**pair),
            Item::PairOf(row) => Some(Pair {
                time: row.time,
                value: row.value,
            }),
            _ => None,
        }
    }
}
