//! The line that is written of a datapoint.
ghost use Rattle.std.specs.Prelude.{◌≡◌, [], length, IfOk};
ghost use Rattle.line_text.specs.Print.{printed_line};

use crate::bytes::append;
use crate::point::Point;
use crate::printed_value::{append_value, printed_length};
use itoa::Buffer;
use relay_base::NoMemory;
use std::alloc::Global;
use std::marker::Model;

/// The bytes of the longest line, with its newline: a name of 16,384, a value of 31 and a time of 16
/// bytes, two spaces and the newline.
pub const LONGEST_PRINTED: usize = 16_434;

/// Room for one printed line. In clauses it is the bytes of the line.
#[derive(Drop)]
pub struct LineBuf {
    bytes: Vec<u8>,
}

impl Model for LineBuf {
    ghost use Rattle.std.specs.Prelude.{List, ℕ, ◌≤◌, vec_capacity};
    ghost use Rattle.line_text.specs.Print.{longest_printed};

    ghost Value = { List ℕ };

    ghost view = { λ line. line.bytes.items };

    ghost invariant = { λ line. longest_printed ≤ vec_capacity line.bytes };
}

impl LineBuf {
    /// Room for any line, 16,434 bytes, with no line in it. Returns `NoMemory` if there is no memory
    /// for it.
    pub fn new(alloc: Global) -> Result<LineBuf, NoMemory>
        ensures { IfOk result (λ line. line ≡ []) }
    {
        Ok(LineBuf {
            bytes: Vec::with_capacity(alloc, LONGEST_PRINTED)?,
        })
    }

    /// The line that was printed last.
    pub fn bytes(&self) -> &[u8]
        ensures { result.now ≡ self.now }
    {
        self.bytes.as_slice()
    }
}

/// Prints the line of a datapoint, in place of what the buffer held: its name, a space, its value in
/// decimal digits without zeros at the end of its fraction, a space, its time in decimal digits, and a
/// newline. Takes no memory.
pub fn print_line(point: &Point, line: &mut LineBuf)
    ensures { line.new ≡ printed_line point.now }
{
    let bytes = &mut line.bytes;
    bytes.clear();
    append(bytes, point.name.text().as_bytes());
    bytes.push_reserved(b' ');
    append_value(bytes, point.value);
    bytes.push_reserved(b' ');
    append(bytes, Buffer::new().format(point.time).as_bytes());
    bytes.push_reserved(b'\n');
}

/// How many bytes the line of a datapoint has, with its newline.
pub fn line_length(point: &Point) -> usize
    ensures { result ≡ length (printed_line point.now) }
{
    let value = printed_length(point.value);
    let time = Buffer::new().format(point.time).len();
    point.name.text().len() + value + time + 3
}
