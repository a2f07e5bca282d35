//! Reading a pickle.
ghost use Rattle.std.specs.Prelude.{◌≡◌};
ghost use Rattle.relay_base.specs.Memory.{Gives};
ghost use Rattle.pickle_subset.specs.Pickle.{rows_of};
ghost use Rattle.pickle_subset.specs.Stack.{opening};
ghost use Rattle.pickle_subset.specs.Views.{rows, machine as state};

use crate::fault::PickleFault;
use crate::instruction::instruction_at;
use crate::machine::Machine;
use crate::no_names::NoNames;
use crate::usual_row::usual_row;
use crate::value::Row;
use bumpalo::Bump;
use line_text::SharedNames;
use std::alloc::Global;

/// The rows of a pickle: of a list of rows, each a path with a pair of a time and a value. They borrow their texts
/// from the pickle. Bytes after STOP are ignored.
///
/// Carries out one opcode after the other, and refuses the pickle with the fault of the first that fails.
/// `docs/FORMATS.md` says what each opcode refuses; inside an opcode the fault is the first of these: its bytes are
/// missing (`Truncated`), its length is below 0 (`BadText`), its text is missing (`Truncated`), and then what the
/// opcode itself refuses. It calls and makes nothing but texts, numbers, pairs and rows. After `NoMemory` it leaves
/// nothing behind.
pub fn load(alloc: Global, pickle: &[u8]) -> Result<Vec<Row<'_>>, PickleFault>
    ensures { Gives PickleFault.NoMemory (λ found. rows found.items) result (rows_of pickle.now) }
{
    load_with(alloc, &NoNames, pickle)
}

/// Like [`load`], but shares a remembered name, which takes no memory.
pub fn load_with<'a, N: SharedNames>(
    alloc: Global,
    names: &N,
    pickle: &'a [u8],
) -> Result<Vec<Row<'a>>, PickleFault>
    ensures { Gives PickleFault.NoMemory (λ found. rows found.items) result (rows_of pickle.now) }
{
    let arena = Bump::new(alloc);
    let mut machine = Machine::new(alloc, &arena);
    let found = carry_out(&mut machine, names, pickle);
    drop(machine);
    found
}

/// Carries out the instructions of a pickle up to STOP, and returns the rows there.
fn carry_out<'v, 'a, N: SharedNames>(
    machine: &mut Machine<'v, 'a>,
    names: &N,
    pickle: &'a [u8],
) -> Result<Vec<Row<'a>>, PickleFault>
    requires { state machine.old ≡ opening }
    ensures { Gives PickleFault.NoMemory (λ found. rows found.items) result (rows_of pickle.now) }
{
    let mut rest = pickle;
    while !rest.is_empty() {
        if let Some((row, others)) = usual_row(rest) {
            machine.take_row(names, &row)?;
            rest = others;
            continue;
        }
        let next = instruction_at(rest)?;
        if next.instruction.opcode.is_stop() {
            return machine.finish();
        }
        machine.step(names, next.instruction)?;
        rest = next.rest;
    }
    Err(PickleFault::Truncated)
}
