//! Where the table holds a name.

use memchr::memchr;

/// How many bits the number of a slot has.
const SLOT_BITS: u32 = 17;

/// The number of slots, 131,072. They are in pairs.
pub(crate) const SLOTS: usize = 1 << SLOT_BITS;

/// The most lines of a text whose slots are found ahead.
const MOST_AHEAD: usize = 256;

/// The first slot of the name that a text is, which it may share with others. The second one is the other
/// slot of a pair.
///
/// The hash takes in eight bytes at a time. Names that were made to share a slot are computed anew each time, as if
/// nothing were remembered, and cost no more than that.
pub(crate) fn slot_of(text: &[u8]) -> usize {
    slot_at(hash_of(text))
}

/// The hash of a name, of which the uppermost bits number its slot.
pub(crate) fn hash_of(text: &[u8]) -> u64 {
    let (words, last) = text.as_chunks::<8>();
    let mut hash = 0;
    for word in words {
        hash = mixed(hash, u64::from_le_bytes(*word));
    }
    mixed(hash, number_of(last))
}

/// A hash and a further number, as one hash, whose uppermost bits depend on all bits of both.
fn mixed(hash: u64, more: u64) -> u64 {
    (hash.rotate_left(5) ^ more).wrapping_mul(0x517c_c1b7_2722_0a95)
}

/// The slot that a hash gives.
pub(crate) fn slot_at(hash: u64) -> usize {
    (hash >> (u64::BITS - SLOT_BITS)) as usize
}

/// At most seven bytes as one number, the first byte lowest.
fn number_of(bytes: &[u8]) -> u64 {
    let mut number = 0;
    for byte in bytes.iter().rev() {
        number = number << 8 | u64::from(*byte);
    }
    number
}

/// The slots of the names that the lines of a text begin with, in order, as far as there is memory for them. They
/// replace what `slots` had.
pub(crate) fn find_slots(text: &[u8], slots: &mut Vec<usize>) {
    slots.clear();
    let mut text = text;
    for _ in 0..MOST_AHEAD {
        let ahead = first_name(text);
        if slots.push(ahead.slot).is_err() {
            return;
        }
        let Some(end) = memchr(b'\n', ahead.rest) else {
            return;
        };
        text = &ahead.rest[end + 1..];
    }
}

/// The slot of the name that a text begins with, and what follows the name.
#[derive(Clone, Copy)]
struct FirstName<'a> {
    slot: usize,
    rest: &'a [u8],
}

/// The slot of what a text has before its first space, as [`slot_of`] gives it.
fn first_name(text: &[u8]) -> FirstName<'_> {
    let mut rest = text;
    let mut hash = 0;
    while let Some((word, others)) = rest.split_first_chunk::<8>() {
        let word = u64::from_le_bytes(*word);
        let spaces = spaces_in(word);
        if spaces != 0 {
            let slot = slot_at(mixed(hash, bytes_before(word, spaces)));
            return FirstName { slot, rest };
        }
        hash = mixed(hash, word);
        rest = others;
    }
    FirstName {
        slot: slot_at(mixed(hash, number_of(first_word(rest)))),
        rest,
    }
}

/// The uppermost bit of the first of eight bytes that is a space, and maybe of some that follow it; 0 if none is.
fn spaces_in(word: u64) -> u64 {
    let others = word ^ 0x2020_2020_2020_2020;
    others.wrapping_sub(0x0101_0101_0101_0101) & !others & 0x8080_8080_8080_8080
}

/// The bytes of a word before its first space, with zeros for the others.
fn bytes_before(word: u64, spaces: u64) -> u64 {
    let first = spaces & spaces.wrapping_neg();
    word & (first >> 7).wrapping_sub(1)
}

/// What a text has before its first space.
fn first_word(text: &[u8]) -> &[u8] {
    match memchr(b' ', text) {
        Some(end) => &text[..end],
        None => text,
    }
}
