//! The machine of a pickle: its stack, its memo and its rows.
ghost use Rattle.std.specs.Prelude.{◌≡◌, Ok, Err, OnOk, OnErr, option_map, ◌++◌, ◌∷◌, ◌≤◌, reverse, take, drop, ok_or, vec_len};
ghost use Rattle.std.specs.Rc.{rc_value};
ghost use Rattle.relay_base.specs.Memory.{Gives};
ghost use Rattle.pickle_subset.specs.Instruction.{HasForm};
ghost use Rattle.pickle_subset.specs.Opcode.{form_of};
ghost use Rattle.pickle_subset.specs.Value as values;
ghost use Rattle.pickle_subset.specs.Stack as steps;
ghost use Rattle.pickle_subset.specs.Pickle.{step};
ghost use Rattle.pickle_subset.specs.UsualRow.{acts, number_of, row_actions, row_stored};
ghost use Rattle.pickle_subset.specs.Items.{memo as stored};
ghost use Rattle.pickle_subset.specs.Views.{item, rows, row, stack, scalar, pair as pair_view, pair_or_fault, machine};
ghost use Rattle.pickle_subset.specs.Views.{action_view, Becomes, PopsRows, begins_with_list, is_list_only};
ghost use Rattle.pickle_subset.specs.Instruction.{instruction_view};

use crate::fault::PickleFault;
use crate::instruction::Instruction;
use crate::path::Path;
use crate::place::{Place, store_at};
use crate::stack::{pop, push};
use crate::table::{Action, action_of};
use crate::usual_row::UsualRow;
use crate::value::{BareScalar, Item, Pair, Row, Scalar};
use bumpalo::Bump;
use line_text::SharedNames;
use numbered_memo::Memo;
use std::alloc::Global;
use std::mem;
use std::rc::Rc;

/// The stack, the memo and the rows, while the instructions of a pickle are carried out. The values are
/// in an arena.
#[derive(Drop)]
pub struct Machine<'v, 'a> {
    alloc: Global,
    arena: &'v Bump,
    stack: Vec<Item<'v, 'a>>,
    memo: Memo<Item<'v, 'a>>,
    rows: Vec<Row<'a>>,
}

impl<'v, 'a> Machine<'v, 'a> {
    /// A machine before the first instruction.
    pub fn new(alloc: Global, arena: &'v Bump) -> Machine<'v, 'a>
        ensures { machine result ≡ steps.opening }
    {
        Machine {
            alloc,
            arena,
            stack: Vec::new(alloc),
            memo: Memo::new(alloc),
            rows: Vec::new(alloc),
        }
    }

    /// The rows at STOP, which it gives up.
    pub fn finish(&mut self) -> Result<Vec<Row<'a>>, PickleFault>
        ensures { Gives PickleFault.NoMemory (λ found. rows found.items) result
            (steps.finish (machine self.old).stack (machine self.old).rows) }
    {
        if is_list_alone(self.stack.as_slice()) {
            Ok(mem::replace(&mut self.rows, Vec::new(self.alloc)))
        } else {
            Err(PickleFault::BadShape)
        }
    }

    /// Carries out an instruction. A remembered name is shared.
    pub fn step<N: SharedNames>(
        &mut self,
        names: &N,
        instruction: Instruction<'a>,
    ) -> Result<(), PickleFault>
        requires { HasForm (form_of instruction.opcode) instruction.argument.now }
        ensures { Becomes result self.new
            (step (instruction_view instruction.entry) (machine self.old)) }
    {
        let action = action_of(instruction)?;
        self.act(names, action)
    }

    /// Carries out all instructions of a row. A remembered name is shared.
    pub fn take_row<N: SharedNames>(
        &mut self,
        names: &N,
        row: &UsualRow<'a>,
    ) -> Result<(), PickleFault>
        ensures { Becomes result self.new (acts (row_actions row.now) (machine self.old)) }
    {
        let made = Row::of_usual(self.alloc, names, row)?;
        let made = Rc::new(self.arena, made)?;
        store_row(&mut self.memo, row, &made)?;
        push(&mut self.stack, Item::Three(made))
    }

    fn act<N: SharedNames>(&mut self, names: &N, action: Action<'a>) -> Result<(), PickleFault>
        ensures { Becomes result self.new
            (steps.act (action_view action.entry) (machine self.old)) }
    {
        match action {
            Action::Pass => Ok(()),
            Action::PushMark => push(&mut self.stack, Item::Mark),
            Action::PushRows => self.push_rows(),
            Action::Push(pushed) => self.push_scalar(names, pushed),
            Action::JoinTwo => self.join_two(),
            Action::JoinMarked => self.join_marked(),
            Action::AppendOne => self.append_one(),
            Action::AppendMarked => self.append_marked(),
            Action::Store(number) => self.store(Place::Under(number)),
            Action::StoreNext => self.store(Place::Next),
            Action::Fetch(number) => self.fetch(number),
        }
    }

    fn push_rows(&mut self) -> Result<(), PickleFault>
        ensures { Becomes result self.new
            (steps.push_rows (machine self.old).stack (machine self.old)) }
    {
        if self.stack.is_empty() {
            push(&mut self.stack, Item::Rows)
        } else {
            Err(PickleFault::BadShape)
        }
    }

    fn push_scalar<N: SharedNames>(
        &mut self,
        names: &N,
        pushed: Scalar<'a>,
    ) -> Result<(), PickleFault>
        ensures { Becomes result self.new
            (steps.push (values.One (scalar pushed.entry)) (machine self.old)) }
    {
        let pushed = self.item_of(names, pushed)?;
        push(&mut self.stack, pushed)
    }

    /// A scalar as an item: a text with its name.
    fn item_of<N: SharedNames>(
        &self,
        names: &N,
        pushed: Scalar<'a>,
    ) -> Result<Item<'v, 'a>, PickleFault>
        ensures { Gives PickleFault.NoMemory item result (Ok (values.One (scalar pushed.entry))) }
    {
        match pushed {
            Scalar::Text(text) => {
                let path = Path::new(self.alloc, names, text)?;
                Ok(Item::Text(Rc::new(self.arena, path)?))
            }
            Scalar::Whole(number) => Ok(Item::One(BareScalar::Whole(number))),
            Scalar::Binary(bits) => Ok(Item::One(BareScalar::Binary(bits))),
            Scalar::Other => Ok(Item::One(BareScalar::Other)),
        }
    }

    /// Stores the top once more.
    fn store(&mut self, place: Place) -> Result<(), PickleFault>
        ensures { Becomes result self.new
            (steps.store (number_of place (machine self.old).memo) (machine self.old)) }
    {
        let stored = match self.stack.last() {
            None | Some(Item::Mark) => return Err(PickleFault::BadMemo),
            Some(stored) => stored.share()?,
        };
        store_at(&mut self.memo, place, stored)
    }

    fn fetch(&mut self, number: u64) -> Result<(), PickleFault>
        ensures { Becomes result self.new (steps.fetch number (machine self.old)) }
    {
        match self.memo.get(number) {
            None => Err(PickleFault::BadMemo),
            Some(Item::Rows) => Err(PickleFault::BadShape),
            Some(stored) => {
                let stored = stored.share()?;
                push(&mut self.stack, stored)
            }
        }
    }

    /// The tuple of two items: a pair in the arena, or a row.
    #[tactic(auto, using(crate::proofs::TupleLemmas::second_pair, crate::proofs::TupleLemmas::no_pair))]
    fn tuple_of(
        &self,
        first: &Item<'v, 'a>,
        second: &Item<'v, 'a>,
    ) -> Result<Item<'v, 'a>, PickleFault>
        ensures { Gives PickleFault.NoMemory item result
            (ok_or (steps.tuple (item first.now) (item second.now)) PickleFault.BadShape) }
    {
        match second.pair() {
            Some(pair) => self.new_row(first, pair),
            None => self.new_pair(first.scalar(), second.scalar()),
        }
    }

    /// The row of an item with a pair, if the item is a text.
    fn new_row(&self, first: &Item<'v, 'a>, pair: Pair<'a>) -> Result<Item<'v, 'a>, PickleFault>
        ensures { Gives PickleFault.NoMemory item result
            (ok_or (steps.tuple (item first.now) (values.Two (pair_view pair.entry)))
            PickleFault.BadShape) }
    {
        let row = match first {
            Item::Text(path) => Row::new(path, pair)?,
            Item::PathOf(row) => row.with_pair(pair)?,
            _ => return Err(PickleFault::BadShape),
        };
        Ok(Item::Three(Rc::new(self.arena, row)?))
    }

    /// The pair of two scalars.
    fn new_pair(
        &self,
        time: Option<Scalar<'a>>,
        value: Option<Scalar<'a>>,
    ) -> Result<Item<'v, 'a>, PickleFault>
        ensures { Gives PickleFault.NoMemory item result
            (pair_or_fault (option_map (λ t. scalar t) time.entry) (option_map (λ v. scalar v) value.entry)) }
    {
        let (Some(time), Some(value)) = (time, value) else {
            return Err(PickleFault::BadShape);
        };
        Ok(Item::Two(self.arena.try_alloc(Pair { time, value })?))
    }

    fn push_tuple(&mut self, first: &Item<'v, 'a>, second: &Item<'v, 'a>) -> Result<(), PickleFault>
        ensures { Becomes result self.new
            (steps.push_tuple (item first.now) (item second.now)
            (machine self.old).stack (machine self.old)) }
    {
        let tuple = self.tuple_of(first, second)?;
        push(&mut self.stack, tuple)
    }

    fn join_two(&mut self) -> Result<(), PickleFault>
        ensures { Becomes result self.new
            (steps.join_two (machine self.old).stack (machine self.old)) }
    {
        let Some(second) = pop(&mut self.stack) else {
            return Err(PickleFault::BadShape);
        };
        let joined = self.join_with(&second);
        drop(second);
        joined
    }

    /// Joins the top with an item that was above it.
    fn join_with(&mut self, second: &Item<'v, 'a>) -> Result<(), PickleFault>
        ensures { Becomes result self.new (steps.join_two
            (item second.now ∷ (machine self.old).stack) (machine self.old)) }
    {
        let Some(first) = pop(&mut self.stack) else {
            return Err(PickleFault::BadShape);
        };
        let joined = self.push_tuple(&first, second);
        drop(first);
        joined
    }

    fn join_marked(&mut self) -> Result<(), PickleFault>
        ensures { Becomes result self.new
            (steps.join_marked (machine self.old).stack (machine self.old)) }
    {
        let Some(second) = pop(&mut self.stack) else {
            return Err(PickleFault::BadShape);
        };
        let joined = self.join_marked_with(&second);
        drop(second);
        joined
    }

    /// Joins the top, which a mark is below, with an item that was above it.
    fn join_marked_with(&mut self, second: &Item<'v, 'a>) -> Result<(), PickleFault>
        ensures { Becomes result self.new (steps.join_marked
            (item second.now ∷ (machine self.old).stack) (machine self.old)) }
    {
        let Some(first) = pop(&mut self.stack) else {
            return Err(PickleFault::BadShape);
        };
        let joined = self.join_above_mark(&first, second);
        drop(first);
        joined
    }

    /// Joins two items that were above a mark, which is on top.
    fn join_above_mark(
        &mut self,
        first: &Item<'v, 'a>,
        second: &Item<'v, 'a>,
    ) -> Result<(), PickleFault>
        ensures { Becomes result self.new (steps.join_marked
            (item second.now ∷ item first.now ∷ (machine self.old).stack) (machine self.old)) }
    {
        let Some(Item::Mark) = pop(&mut self.stack) else {
            return Err(PickleFault::BadShape);
        };
        self.push_tuple(first, second)
    }

    fn append_one(&mut self) -> Result<(), PickleFault>
        ensures { Becomes result self.new
            (steps.append_one (machine self.old).stack (machine self.old)) }
    {
        let Some(top) = pop(&mut self.stack) else {
            return Err(PickleFault::BadShape);
        };
        let appended = self.append(&top);
        drop(top);
        appended
    }

    /// Adds the row that an item is to the list on top of the stack.
    fn append(&mut self, appended: &Item<'v, 'a>) -> Result<(), PickleFault>
        ensures { Becomes result self.new (steps.append_one
            (item appended.now ∷ (machine self.old).stack) (machine self.old)) }
    {
        let Item::Three(row) = appended else {
            return Err(PickleFault::BadShape);
        };
        if !is_list_on_top(self.stack.as_slice()) {
            return Err(PickleFault::BadShape);
        }
        self.rows.push(row.share()?)?;
        Ok(())
    }

    fn append_marked(&mut self) -> Result<(), PickleFault>
        ensures { Becomes result self.new (steps.append_marked (machine self.old)) }
    {
        let start = self.rows.len();
        pop_rows(&mut self.stack, &mut self.rows)?;
        reverse_from(&mut self.rows, start);
        if is_list_on_top(self.stack.as_slice()) {
            Ok(())
        } else {
            Err(PickleFault::BadShape)
        }
    }
}

/// Stores the path, the pair and the row of a row that is written whole.
fn store_row<'v, 'a>(
    memo: &mut Memo<Item<'v, 'a>>,
    usual: &UsualRow<'a>,
    made: &Rc<Row<'a>, &'v Bump>,
) -> Result<(), PickleFault>
    ensures ok { OnOk result (stored memo.new ≡ row_stored usual.now (row (rc_value made.now)) (stored memo.old)) }
    ensures err { OnErr result (result ≡ Err PickleFault.NoMemory) }
{
    store_at(memo, usual.path_place, Item::PathOf(made.clone()?))?;
    store_at(memo, usual.pair_place, Item::PairOf(made.clone()?))?;
    store_at(memo, usual.row_place, Item::Three(made.clone()?))
}

/// Takes the rows above the topmost mark from the stack, and the mark; adds the rows to others, the top
/// first.
fn pop_rows<'v, 'a>(
    items: &mut Vec<Item<'v, 'a>>,
    found: &mut Vec<Row<'a>>,
) -> Result<(), PickleFault>
    ensures { PopsRows (stack items.old.items) (stack items.new.items)
        (rows found.old.items) (rows found.new.items) result }
{
    while let Some(top) = pop(items) {
        match top {
            Item::Three(row) => found.push(row.share()?)?,
            Item::Mark => return Ok(()),
            _ => return Err(PickleFault::BadShape),
        }
    }
    Err(PickleFault::BadShape)
}

fn is_list_alone(items: &[Item<'_, '_>]) -> bool
    ensures { result ≡ is_list_only (stack items.now) }
{
    matches!(items, [Item::Rows])
}

fn is_list_on_top(items: &[Item<'_, '_>]) -> bool
    ensures { result ≡ begins_with_list (stack items.now) }
{
    matches!(items, [.., Item::Rows])
}

/// Reverses the order of the rows from a place on.
fn reverse_from(found: &mut Vec<Row<'_>>, start: usize)
    requires { start ≤ vec_len found.old }
    ensures { found.new.items ≡ take start found.old.items ++ reverse (drop start found.old.items) }
{
    found.as_mut_slice()[start..].reverse();
}
