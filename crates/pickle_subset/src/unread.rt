//! What of a pickle is not read, for who looks for the reason.

ghost use Rattle.std.specs.Prelude.{IfSome};
ghost use Rattle.pickle_subset.specs.Unread.{IsUnread};

use crate::instruction::{Instruction, instruction_at};
use crate::opcode::Opcode;

/// The greatest protocol that is read.
const LAST_PROTOCOL: u8 = 5;

/// What of a pickle is not read.
#[derive(Clone, Copy, Debug, PartialEq)]
pub enum Unread {
    /// A protocol.
    Protocol { protocol: u8 },
    /// A byte that is no opcode of the table, of a pickle of this protocol.
    Opcode { byte: u8, protocol: u8 },
}

/// The first part of a pickle that is not read: a protocol above 5, or a byte that is no opcode of the table; `None` if there
/// is none up to STOP, or to the first argument that is not whole.
///
/// A pickle without PROTO is of protocol 1 from its first opcode of that protocol on, and of protocol 0 before.
pub fn unread_part(pickle: &[u8]) -> Option<Unread>
    ensures { IfSome result IsUnread }
{
    let mut rest = pickle;
    let mut protocol = 0;
    for _ in 0..pickle.len() {
        let (byte, _) = rest.split_first()?;
        if Opcode::of_byte(*byte).is_none() {
            return Some(Unread::Opcode {
                byte: *byte,
                protocol,
            });
        }
        let Ok(next) = instruction_at(rest) else {
            return None;
        };
        if next.instruction.opcode.is_stop() {
            return None;
        }
        protocol = protocol_after(protocol, next.instruction);
        if protocol > LAST_PROTOCOL {
            return Some(Unread::Protocol { protocol });
        }
        rest = next.rest;
    }
    None
}

/// The protocol of a pickle behind an instruction, which was of this protocol before.
fn protocol_after(protocol: u8, instruction: Instruction<'_>) -> u8 {
    match instruction.opcode {
        Opcode::Proto => instruction.argument.first().copied().unwrap_or(protocol),
        Opcode::Mark | Opcode::Append | Opcode::Tuple | Opcode::None => protocol,
        _ => protocol.max(1),
    }
}
