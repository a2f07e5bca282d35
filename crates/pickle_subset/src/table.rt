//! What each opcode does.
ghost use Rattle.std.specs.Prelude.{◌≡◌, ◌≤◌, length};
ghost use Rattle.relay_base.specs.Memory.{Gives};
ghost use Rattle.byteorder.specs.Endian.{little_number, big_number};
ghost use Rattle.pickle_subset.specs.Opcode.{form_of};
ghost use Rattle.pickle_subset.specs.Instruction.{HasForm};
ghost use Rattle.pickle_subset.specs.Table.{action, text_action, protocol_action, long_scalar, signed_number};
ghost use Rattle.pickle_subset.specs.Views.{scalar, action_view};

use crate::fault::PickleFault;
use crate::instruction::Instruction;
use crate::opcode::Opcode;
use crate::value::Scalar;
use byteorder::{BigEndian, ByteOrder, LittleEndian};
use relay_base::utf8_text;

/// The last protocol that is read.
const LAST_PROTOCOL: u8 = 5;

/// The longest argument of LONG1 that is read as a number, in bytes.
const LONGEST_WHOLE: usize = 8;

/// What is done with the stack, the memo and the list of rows.
#[derive(Clone, Copy)]
pub enum Action<'a> {
    Pass,
    PushMark,
    PushRows,
    Push(Scalar<'a>),
    /// The top two become a tuple.
    JoinTwo,
    /// The two above the topmost mark become a tuple.
    JoinMarked,
    AppendOne,
    AppendMarked,
    Store(u64),
    StoreNext,
    Fetch(u64),
}

/// The action of an instruction, or its fault.
pub fn action_of<'a>(instruction: Instruction<'a>) -> Result<Action<'a>, PickleFault>
    requires { HasForm (form_of instruction.opcode) instruction.argument.now }
    ensures { Gives PickleFault.NoMemory action_view result
        (action instruction.entry.opcode instruction.entry.argument.now) }
{
    let argument = instruction.argument;
    Ok(match instruction.opcode {
        Opcode::Proto => return protocol_action(argument[0]),
        Opcode::Frame | Opcode::Stop => Action::Pass,
        Opcode::Mark => Action::PushMark,
        Opcode::EmptyList => Action::PushRows,
        Opcode::BinInt => Action::Push(Scalar::Whole(LittleEndian::read_int(argument, 4))),
        Opcode::BinInt1 => Action::Push(Scalar::Whole(i64::from(argument[0]))),
        Opcode::BinInt2 => Action::Push(Scalar::Whole(i64::from(LittleEndian::read_u16(argument)))),
        Opcode::Long1 => Action::Push(long_scalar(argument)),
        Opcode::BinFloat => Action::Push(Scalar::Binary(BigEndian::read_u64(argument))),
        Opcode::BinUnicode | Opcode::ShortBinUnicode | Opcode::BinString | Opcode::ShortBinString =>
            return text_action(argument),
        Opcode::None => Action::Push(Scalar::Other),
        Opcode::NewTrue => Action::Push(Scalar::Whole(1)),
        Opcode::NewFalse => Action::Push(Scalar::Whole(0)),
        Opcode::Tuple2 => Action::JoinTwo,
        Opcode::Tuple => Action::JoinMarked,
        Opcode::Append => Action::AppendOne,
        Opcode::Appends => Action::AppendMarked,
        Opcode::BinPut => Action::Store(u64::from(argument[0])),
        Opcode::LongBinPut => Action::Store(u64::from(LittleEndian::read_u32(argument))),
        Opcode::Memoize => Action::StoreNext,
        Opcode::BinGet => Action::Fetch(u64::from(argument[0])),
        Opcode::LongBinGet => Action::Fetch(u64::from(LittleEndian::read_u32(argument))),
    })
}

fn protocol_action<'a>(protocol: u8) -> Result<Action<'a>, PickleFault>
    ensures { Gives PickleFault.NoMemory action_view result (protocol_action protocol) }
{
    if protocol > LAST_PROTOCOL {
        return Err(PickleFault::UnknownOpcode);
    }
    Ok(Action::Pass)
}

fn long_scalar<'a>(argument: &[u8]) -> Scalar<'a>
    ensures { scalar result ≡ long_scalar argument.now }
{
    if argument.is_empty() {
        Scalar::Whole(0)
    } else if argument.len() > LONGEST_WHOLE {
        Scalar::Other
    } else {
        Scalar::Whole(LittleEndian::read_int(argument, argument.len()))
    }
}

fn text_action(argument: &[u8]) -> Result<Action<'_>, PickleFault>
    ensures { Gives PickleFault.NoMemory action_view result (text_action argument.now) }
{
    match utf8_text(argument) {
        Some(text) => Ok(Action::Push(Scalar::Text(text))),
        None => Err(PickleFault::BadText),
    }
}
