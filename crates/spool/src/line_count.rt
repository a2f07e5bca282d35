//! How many lines of a file wait.

ghost use Rattle.std.specs.Prelude.{◌≡◌, ◌==◌, ◌≤◌, count_by, length};
ghost use Rattle.relay_base.specs.Ascii.{newline};

use crate::held_text::{HeldText, read_some};

/// How many bytes are counted in a number of one byte: so the compiler counts sixteen in one step.
const BLOCK: usize = 255;

/// How many lines a file has from where its part begins up to a place, and how many of these its connections took.
#[derive(Clone, Copy)]
pub(crate) struct LineCount {
    lines: u64,
    end: u64,
    taken: u64,
}

impl LineCount {
    /// No line is counted, from a place on.
    pub(crate) fn at(start: u64) -> LineCount {
        LineCount {
            lines: 0,
            end: start,
            taken: 0,
        }
    }

    /// So many lines are counted, from the beginning of a file up to a place.
    pub(crate) fn of(lines: u64, end: u64) -> LineCount {
        LineCount {
            lines,
            end,
            taken: 0,
        }
    }

    /// Counts on in a file whose whole lines end there: reads what is not counted yet. One that has become shorter is counted
    /// again from where its part begins.
    pub(crate) fn count_to<F: HeldText>(
        &mut self,
        file: &F,
        start: u64,
        end: u64,
        piece: &mut [u8],
    ) {
        if self.end > end {
            *self = LineCount::at(start);
        }
        let more = lines_between(file, self.end, end, piece);
        self.lines = self.lines.saturating_add(more);
        self.end = end.max(self.end);
    }

    /// How many lines wait.
    pub(crate) fn lines(&self) -> u64 {
        self.lines
    }

    /// The connection took so many lines of the part.
    pub(crate) fn take(&mut self, lines: u64) {
        self.taken = self.taken.saturating_add(lines);
    }

    /// The store has what its connection took.
    pub(crate) fn end_part(&mut self) {
        self.lines = self.lines.saturating_sub(self.taken);
        self.taken = 0;
    }

    /// The part goes out again.
    pub(crate) fn send_again(&mut self) {
        self.taken = 0;
    }
}

/// How many lines end in a file up to a place, as far as it can be read: piece by piece.
pub(crate) fn lines_up_to<F: HeldText>(file: &F, end: u64, piece: &mut [u8]) -> u64 {
    lines_between(file, 0, end, piece)
}

/// How many lines end in a file from one place up to another, as far as it can be read: piece by piece.
fn lines_between<F: HeldText>(file: &F, start: u64, end: u64, piece: &mut [u8]) -> u64 {
    let (mut next, mut lines): (u64, u64) = (start, 0);
    for _ in 0..u64::MAX {
        let most = end.saturating_sub(next).min(piece.len() as u64) as usize;
        if most == 0 {
            break;
        }
        let Ok(count) = read_some(file, next, &mut piece[..most]) else {
            break;
        };
        lines = lines.saturating_add(lines_in(&piece[..count.min(most)]));
        next = next.saturating_add(count as u64);
    }
    lines
}

/// How many bytes 10 a text has: each ends a datapoint.
pub fn lines_in(bytes: &[u8]) -> u64
    ensures { result ≡ count_by (λ b. b == newline) bytes.now }
{
    let mut lines: u64 = 0;
    let mut left = bytes;
    while left.len() > BLOCK {
        let (block, behind) = left.split_at(BLOCK);
        lines += u64::from(lines_in_block(block));
        left = behind;
    }
    lines + u64::from(lines_in_block(left))
}

/// How many bytes 10 a short text has.
fn lines_in_block(block: &[u8]) -> u8
    requires { length block.now ≤ 255 }
    ensures { result ≡ count_by (λ b. b == newline) block.now }
{
    let mut lines: u8 = 0;
    for byte in block {
        lines += u8::from(*byte == b'\n');
    }
    lines
}
