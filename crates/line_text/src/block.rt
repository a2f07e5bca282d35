//! Blocks of bytes that are looked at in one step.
ghost use Rattle.std.specs.Prelude.{◌≡◌, ◌-◌, ◌≤◌, length, drop};
ghost use Rattle.std.specs.List.{prefix_len};
ghost use Rattle.line_text.specs.Field.{is_visible};

use std::simd::prelude::*;

/// How many bytes a block has.
pub(crate) const BLOCK: usize = 16;

/// The number of bytes above a space that the last bytes of a block begin with; there are this many
/// last bytes.
#[inline(always)]
pub(crate) fn visible_in_last(block: &[u8], count: usize) -> usize
    requires block { length block.now ≡ BLOCK }
    requires count { count ≤ BLOCK }
    ensures len { result ≡ prefix_len is_visible (drop (BLOCK - count) block.now) }
    ensures within { result ≤ count }
{
    let others = u8x16::from_slice(block)
        .simd_le(u8x16::splat(b' '))
        .to_bitmask()
        >> (BLOCK - count);
    if others == 0 {
        count
    } else {
        others.trailing_zeros() as usize
    }
}
