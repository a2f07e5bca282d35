//! Rows as Python's picklers usually write them, read in one step.
ghost use Rattle.std.specs.Prelude.{◌≡◌, ◌∷◌, [], Ok, IfSome};
ghost use Rattle.pickle_subset.specs.Table as table;
ghost use Rattle.pickle_subset.specs.Views.{scalar};
ghost use Rattle.pickle_subset.specs.UsualRow.{followed_by, BeginWith, action_at, actions_at, place_action, pair_actions, row_actions};

use crate::instruction::bytes_at;
use crate::place::Place;
use crate::value::{Pair, Scalar};
use byteorder::{BigEndian, ByteOrder, LittleEndian};
use relay_base::utf8_text;

/// A row that is written whole: a path, a time and a value; the path, the pair and the row are stored.
#[derive(Clone, Copy)]
pub struct UsualRow<'a> {
    pub path: &'a str,
    pub path_place: Place,
    pub time: Scalar<'a>,
    pub value: Scalar<'a>,
    pub pair_place: Place,
    pub row_place: Place,
}

/// The row that bytes begin with, and the bytes after it, if it has the usual shape: a text, two numbers that are not
/// LONG1, and TUPLE2 twice, with BINPUT, LONG_BINPUT or MEMOIZE after all but the numbers.
pub fn usual_row(bytes: &[u8]) -> Option<(UsualRow<'_>, &[u8])>
    ensures { IfSome result
        (λ found. actions_at 8 bytes.now ≡ Ok (row_actions found.0, found.1.now)) }
{
    let (text, rest) = text_at(bytes)?;
    let (path_place, rest) = place_at(rest)?;
    let (pair, pair_place, rest) = pair_at(rest)?;
    let (row_place, rest) = tuple_at(rest)?;
    let path = utf8_text(text)?;
    let row = UsualRow {
        path,
        path_place,
        time: pair.time,
        value: pair.value,
        pair_place,
        row_place,
    };
    Some((row, rest))
}

/// The bytes of the text that bytes begin with, and the bytes after it.
fn text_at(bytes: &[u8]) -> Option<(&[u8], &[u8])>
    ensures { IfSome result (λ found. action_at bytes.now
        ≡ followed_by found.1.now (table.text_action found.0.now)) }
{
    let (byte, bytes) = bytes.split_first()?;
    let length_size = match *byte {
        0x58 => 4,
        0x8c => 1,
        _ => return None,
    };
    let Ok(length) = bytes_at(length_size, bytes) else {
        return None;
    };
    let count = LittleEndian::read_uint(length.bytes, length_size);
    let Ok(text) = bytes_at(count as usize, length.rest) else {
        return None;
    };
    Some((text.bytes, text.rest))
}

/// The place under which bytes first store something, and the bytes after that.
fn place_at(bytes: &[u8]) -> Option<(Place, &[u8])>
    ensures { IfSome result
        (λ found. action_at bytes.now ≡ Ok (place_action found.0, found.1.now)) }
{
    let (byte, bytes) = bytes.split_first()?;
    match *byte {
        0x71 => {
            let Ok(number) = bytes_at(1, bytes) else {
                return None;
            };
            Some((Place::Under(u64::from(number.bytes[0])), number.rest))
        }
        0x72 => {
            let Ok(number) = bytes_at(4, bytes) else {
                return None;
            };
            let place = Place::Under(u64::from(LittleEndian::read_u32(number.bytes)));
            Some((place, number.rest))
        }
        0x94 => Some((Place::Next, bytes)),
        _ => None,
    }
}

/// The number that bytes begin with, and the bytes after it.
fn number_at(bytes: &[u8]) -> Option<(Scalar<'_>, &[u8])>
    ensures { IfSome result
        (λ found. action_at bytes.now ≡ Ok (table.Push (scalar found.0), found.1.now)) }
{
    let (byte, bytes) = bytes.split_first()?;
    match *byte {
        0x4a => {
            let Ok(number) = bytes_at(4, bytes) else {
                return None;
            };
            let whole = LittleEndian::read_int(number.bytes, 4);
            Some((Scalar::Whole(whole), number.rest))
        }
        0x47 => {
            let Ok(number) = bytes_at(8, bytes) else {
                return None;
            };
            let bits = BigEndian::read_u64(number.bytes);
            Some((Scalar::Binary(bits), number.rest))
        }
        0x4b => {
            let Ok(number) = bytes_at(1, bytes) else {
                return None;
            };
            Some((Scalar::Whole(i64::from(number.bytes[0])), number.rest))
        }
        0x4d => {
            let Ok(number) = bytes_at(2, bytes) else {
                return None;
            };
            let whole = i64::from(LittleEndian::read_u16(number.bytes));
            Some((Scalar::Whole(whole), number.rest))
        }
        _ => None,
    }
}

/// The tuple that bytes first make: the place under which they store it, and the bytes after that.
fn tuple_at(bytes: &[u8]) -> Option<(Place, &[u8])>
    ensures { IfSome result (λ found.
        BeginWith (table.JoinTwo ∷ place_action found.0 ∷ []) found.1.now bytes.now) }
{
    let (byte, bytes) = bytes.split_first()?;
    if *byte == 0x86 { place_at(bytes) } else { None }
}

/// The pair that bytes first make, the place under which they store it, and the bytes after that.
fn pair_at(bytes: &[u8]) -> Option<(Pair<'_>, Place, &[u8])>
    ensures { IfSome result
        (λ found. BeginWith (pair_actions found.0 found.1) found.2.now bytes.now) }
{
    let (time, rest) = number_at(bytes)?;
    let (value, rest) = number_at(rest)?;
    let (place, rest) = tuple_at(rest)?;
    Some((Pair { time, value }, place, rest))
}
