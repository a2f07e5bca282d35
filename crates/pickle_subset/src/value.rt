//! The values that a pickle makes.
ghost use Rattle.std.specs.Prelude.{◌≡◌, option_map};
ghost use Rattle.std.specs.Arc.{arc_value};
ghost use Rattle.pickle_subset.specs.RowPoint.{path_name};

use crate::path::Path;
use bumpalo::Bump;
use line_text::Name;
use numbered_memo::Meaning;
use std::rc::Rc;
use std::sync::Arc;

/// A value of a pickled row: its time or its value, or a part of either that is on the stack.
#[derive(Clone, Copy)]
pub enum Scalar<'a> {
    /// A text.
    Text(&'a str),
    /// A whole number of 64 bits.
    Whole(i64),
    /// The 64 bits of a binary64.
    Binary(u64),
    /// Anything else that may be in a row: None, or a whole number past 64 bits.
    Other,
}

/// A time and a value.
#[derive(Clone, Copy)]
pub struct Pair<'a> {
    pub time: Scalar<'a>,
    pub value: Scalar<'a>,
}

/// A row of a pickle: a metric's path, its time and its value, as they were in the pickle.
#[derive(Drop)]
pub struct Row<'a> {
    /// The metric's name, if it is one.
    pub path: &'a str,
    pub time: Scalar<'a>,
    pub value: Scalar<'a>,
    /// The name that the path is, which rows of one text share.
    pub(crate) name: Option<Arc<Name>>,
    ghost named: { option_map arc_value name ≡ path_name path.now },
}

/// A scalar that is not a text.
#[derive(Clone, Copy)]
pub enum BareScalar {
    Whole(i64),
    Binary(u64),
    Other,
}

/// What is on the stack of a pickle. Values are shared: the same value may be there more than once, and in the memo.
/// They are in an arena.
#[derive(Drop)]
pub enum Item<'v, 'a> {
    Mark,
    Rows,
    Text(Rc<Path<'a>, &'v Bump>),
    One(BareScalar),
    Two(&'v Pair<'a>),
    Three(Rc<Row<'a>, &'v Bump>),
    /// The path of a row that was read in one step.
    PathOf(Rc<Row<'a>, &'v Bump>),
    /// The pair of a row that was read in one step.
    PairOf(Rc<Row<'a>, &'v Bump>),
}

impl<'v, 'a> Meaning for Item<'v, 'a> {
    ghost use Rattle.pickle_subset.specs.Value as values;
    ghost use Rattle.pickle_subset.specs.Items.{item};

    ghost Meant = { values.Item };

    ghost meaning = { item };
}
