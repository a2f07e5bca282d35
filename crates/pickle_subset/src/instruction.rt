//! Instructions: opcodes with their arguments.
ghost use Rattle.std.specs.Prelude.{◌≡◌, ◌<◌, ◌≤◌, ◌^◌, length, IfOk, Ok};
ghost use Rattle.relay_base.specs.Memory.{Gives};
ghost use Rattle.byteorder.specs.Endian.{little_number};
ghost use Rattle.pickle_subset.specs.Opcode.{form_of};
ghost use Rattle.pickle_subset.specs.Instruction.{bytes_at, argument_at, instruction_at, HasForm, HasShortCount, next};

use crate::fault::PickleFault;
use crate::opcode::{Form, Opcode};
use byteorder::{ByteOrder, LittleEndian};

/// An opcode, and the bytes of its argument.
#[derive(Clone, Copy)]
pub struct Instruction<'a> {
    pub opcode: Opcode,
    /// Without the length before it.
    pub argument: &'a [u8],
}

/// A part of a pickle, and the bytes after it.
#[derive(Clone, Copy)]
pub struct Part<'a> {
    pub bytes: &'a [u8],
    pub rest: &'a [u8],
}

/// This number of bytes from the front.
pub fn bytes_at(count: usize, bytes: &[u8]) -> Result<Part<'_>, PickleFault>
    ensures part { Gives PickleFault.NoMemory (λ p. (p.bytes.now, p.rest.now)) result
        (bytes_at count bytes.now) }
    ensures count { IfOk result (λ p. length p.bytes.now ≡ count) }
{
    if bytes.len() < count {
        return Err(PickleFault::Truncated);
    }
    let (bytes, rest) = bytes.split_at(count);
    Ok(Part { bytes, rest })
}

/// The argument of an opcode, and the bytes after it.
fn argument_at(form: Form, bytes: &[u8]) -> Result<Part<'_>, PickleFault>
    requires { HasShortCount form }
    ensures part { Gives PickleFault.NoMemory (λ p. (p.bytes.now, p.rest.now)) result
        (argument_at form bytes.now) }
    ensures form { IfOk result (λ p. HasForm form p.bytes.now) }
{
    match form {
        Form::Bytes(count) => bytes_at(count, bytes),
        Form::Counted(count) => {
            let length = bytes_at(count, bytes)?;
            let count = LittleEndian::read_uint(length.bytes, count);
            bytes_at(count as usize, length.rest)
        }
        Form::SignedCount => {
            let length = bytes_at(4, bytes)?;
            let count = LittleEndian::read_u32(length.bytes);
            if count >= 1 << 31 {
                return Err(PickleFault::BadText);
            }
            bytes_at(count as usize, length.rest)
        }
    }
}

/// The first instruction of a pickle, and the bytes after it.
#[derive(Clone, Copy)]
pub struct FirstInstruction<'a> {
    pub instruction: Instruction<'a>,
    pub rest: &'a [u8],
}

/// Reads the first instruction of a pickle.
pub fn instruction_at(bytes: &[u8]) -> Result<FirstInstruction<'_>, PickleFault>
    ensures next { Gives PickleFault.NoMemory next result (instruction_at bytes.now) }
    ensures form { IfOk result
        (λ n. HasForm (form_of n.instruction.opcode) n.instruction.argument.now) }
{
    let Some((byte, bytes)) = bytes.split_first() else {
        return Err(PickleFault::Truncated);
    };
    let opcode = Opcode::of_byte(*byte).ok_or(PickleFault::UnknownOpcode)?;
    let argument = argument_at(opcode.form(), bytes)?;
    Ok(FirstInstruction {
        instruction: Instruction {
            opcode,
            argument: argument.bytes,
        },
        rest: argument.rest,
    })
}
