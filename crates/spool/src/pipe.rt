//! Bytes on their way from one thread to another.

ghost use Rattle.std.specs.Prelude.{◌≡◌, ◌≤◌, [], ◌++◌, length, take};
ghost use Rattle.backlog.specs.Lines.{whole_lines};

use backlog::whole_length;
use relay_base::NoMemory;
use std::alloc::Global;
use std::mem;

/// How many bytes more a pipe takes while it is full and has no whole line, so that each line gets through.
const MORE: usize = 65_536;

/// Bytes in the order in which they came, for which there is some room. Who takes them gets whole lines alone.
#[derive(Drop)]
pub(crate) struct Pipe {
    bytes: Vec<u8>,
    room: usize,
}

impl Pipe {
    /// No bytes, and room for so many. Refuses if out of memory.
    pub(crate) fn new(alloc: Global, room: usize) -> Result<Pipe, NoMemory> {
        Ok(Pipe {
            bytes: Vec::with_capacity(alloc, room)?,
            room,
        })
    }

    /// How many bytes are there.
    pub(crate) fn len(&self) -> usize {
        self.bytes.len()
    }

    /// Whether it takes more.
    pub(crate) fn has_room(&self) -> bool {
        room_in(&self.bytes, self.room) > 0
    }

    /// Takes a first part of these bytes, as far as there is room: behind those that are there. Returns how many.
    pub(crate) fn push(&mut self, bytes: &[u8]) -> usize
        ensures count { result ≤ length bytes.now }
        ensures behind { self.new.bytes.items ≡ self.old.bytes.items ++ take result bytes.now }
    {
        let count = room_in(&self.bytes, self.room).min(bytes.len());
        if self.bytes.extend_from_slice(&bytes[..count]).is_ok() {
            count
        } else {
            0
        }
    }

    /// Gives out the whole lines that are there, into a list that has nothing; what is behind them stays.
    // Each byte is given out or stays, in order, and what is given out are whole lines.
    #[tactic(auto, using(crate::proofs::PipeLemmas::first_lines, crate::proofs::PipeLemmas::lines_length, crate::proofs::PipeLemmas::lines_behind, crate::proofs::PipeLemmas::lines_whole))]
    pub(crate) fn take_lines(&mut self, lines: &mut Vec<u8>)
        requires none { lines.old.items ≡ [] }
        ensures all { lines.new.items ++ self.new.bytes.items ≡ self.old.bytes.items }
        ensures whole { whole_lines lines.new.items ≡ lines.new.items }
    {
        let whole = whole_length(&self.bytes);
        if lines.extend_from_slice(&self.bytes[whole..]).is_err() {
            return;
        }
        mem::swap(&mut self.bytes, lines);
        lines.truncate(whole);
    }

    /// Only the whole lines stay that are there.
    #[tactic(auto, using(crate::proofs::PipeLemmas::first_lines))]
    pub(crate) fn cut(&mut self)
        ensures { self.new.bytes.items ≡ whole_lines self.old.bytes.items }
    {
        let whole = whole_length(&self.bytes);
        self.bytes.truncate(whole);
    }
}

/// How many bytes more these may become, for which there is so much room: more than that while they have no whole line.
fn room_in(bytes: &[u8], room: usize) -> usize {
    let left = room.saturating_sub(bytes.len());
    if left > 0 || whole_length(bytes) > 0 {
        left
    } else {
        MORE
    }
}
