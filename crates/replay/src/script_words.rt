//! The words of a line: numbers, moments and bytes.
ghost use Rattle.std.specs.Prelude.{◌≡◌, IfOk, option_map};
ghost use Rattle.std.specs.List.{list_all};
ghost use Rattle.replay.specs.ScriptWords.{number, moment, is_hex_digit, hex_bytes};

use hex::FromHexError;
use line_text::Moment;
use relay_base::{NoMemory, short_whole_number};
use std::alloc::Global;

const MOST_DIGITS: usize = 16;

// The definitions of `specs/` write this number themselves.
const _: () = prove!(MOST_DIGITS == 16);

/// The number that one to sixteen decimal digits write, or `None` where the word is none.
pub(crate) fn number(word: &str) -> Option<usize>
    ensures { result ≡ number word.now }
{
    Some(short_whole_number(word, MOST_DIGITS)? as usize)
}

/// The moment that a number of seconds is, or `None` where the word is no number or it is above
/// 9,007,199,254,740,992.
pub(crate) fn moment(word: &str) -> Option<Moment>
    ensures { result ≡ moment word.now }
{
    Moment::new(number(word)? as u64)
}

fn is_hex_digit(byte: u8) -> bool
    ensures { result ≡ is_hex_digit byte }
{
    matches!(byte, b'0'..=b'9' | b'a'..=b'f')
}

fn has_hex_digits_alone(word: &[u8]) -> bool
    ensures { result ≡ list_all is_hex_digit word.now }
{
    word.iter().all(|byte| is_hex_digit(*byte))
}

/// The bytes that hexadecimal digits write, an even number of them and at least two, letters in lower case; or
/// `None` where the word is none.
pub(crate) fn hex_bytes(alloc: Global, word: &str) -> Result<Option<Vec<u8>>, NoMemory>
    ensures { IfOk result (λ bytes. option_map (λ v. v.items) bytes ≡ hex_bytes word.now) }
{
    let digits = word.as_bytes();
    if digits.is_empty() || !has_hex_digits_alone(digits) {
        return Ok(None);
    }
    match hex::decode(alloc, digits) {
        Ok(bytes) => Ok(Some(bytes)),
        Err(FromHexError::OutOfMemory) => Err(NoMemory),
        Err(_) => Ok(None),
    }
}
