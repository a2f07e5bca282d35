//! Whether two texts are the same.

ghost use Rattle.std.specs.Prelude.{◌≡◌, ◌+◌, ◌≤◌, length, take, drop, IsTrue};

use std::simd::prelude::*;

/// How many bytes are compared in one step.
const BLOCK: usize = 16;

/// Whether two texts are the same. Compares long ones a block at a time; the last block may begin within the
/// one before it.
pub(crate) fn is_same(a: &[u8], b: &[u8]) -> bool
    ensures { IsTrue result → a.now ≡ b.now }
{
    if a.len() != b.len() {
        return false;
    }
    if a.len() < BLOCK {
        return a == b;
    }
    let last = a.len() - BLOCK;
    let mut seen = 0;
    while seen < last {
        if !is_same_block(a, b, seen) {
            return false;
        }
        seen += BLOCK;
    }
    is_same_block(a, b, last)
}

/// Whether two texts have the same block at a place.
#[inline(always)]
fn is_same_block(a: &[u8], b: &[u8], at: usize) -> bool
    requires a { at + BLOCK ≤ length a.now }
    requires b { at + BLOCK ≤ length b.now }
    ensures { IsTrue result → take BLOCK (drop at a.now) ≡ take BLOCK (drop at b.now) }
{
    let others = u8x16::from_slice(&a[at..])
        .simd_ne(u8x16::from_slice(&b[at..]))
        .to_bitmask();
    others == 0
}
