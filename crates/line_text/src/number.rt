//! The texts of numbers: whole numbers times powers of ten.
ghost use Rattle.std.specs.Prelude.{◌≡◌, ℕ, ℤ, ◌+◌, ◌*◌, ◌^◌, ◌<◌, ◌≤◌, pos, negsuc, nat_abs, ◌≤ℤ◌, ◌-ℤ◌, Some, None, true, ◌++◌, length, IfSome, SomeIff, ◌-◌, if◌then◌else◌, position};
ghost use Rattle.std.specs.List.{list_all};
ghost use Rattle.std.specs.Option.{option_copied};
ghost use Rattle.std.specs.Result.{result_ok};
ghost use Rattle.std.specs.Char.{is_ascii_digit};
ghost use Rattle.relay_base.specs.Ascii.{digit_zero};
ghost use Rattle.line_text.specs.Number.{most_digits, lowest_written, highest_exponent, number_of, with_digits, whole_of, are_digits, with_sign, exponent_in, places_in, are_places, is_minus, without_sign, is_point, is_exponent_mark};

use crate::fault::NumberFault;
use crate::halves::halves_at;
use crate::short::short_decimal;
use std::marker::Model;

/// The most digits that a number may have before its exponent.
pub(crate) const MOST_DIGITS: usize = 38;

/// The most digits that an exponent may have.
const MOST_PLACES: usize = 3;

/// A number as its text denotes it: a whole number of up to 38 digits, times a power of ten.
///
/// In clauses it is that whole number and the exponent.
#[derive(Clone, Copy)]
pub struct Number {
    pub(crate) mantissa: i128,
    pub(crate) exponent: i32,
}

impl Model for Number {
    ghost use Rattle.std.specs.Prelude.{◌<◌, ◌^◌, nat_abs, ◌≤ℤ◌};
    ghost use Rattle.line_text.specs.Number.{Decimal, most_digits, lowest_exponent, highest_exponent};

    ghost Value = { Decimal };

    ghost view = { λ n. record { mantissa = n.mantissa; exponent = n.exponent } };

    ghost invariant = { λ n. (nat_abs n.mantissa < 10 ^ most_digits)
        × (lowest_exponent ≤ℤ n.exponent) × (n.exponent ≤ℤ highest_exponent) };

    ghost inverse = { λ d. record { mantissa = d.mantissa; exponent = d.exponent } };
}

impl Number {
    /// The number that a text denotes. Refuses a text that is not a number (`NotANumber`): a number is an
    /// optional sign, digits with at most one point before, among or after them, and optionally `e` or `E`,
    /// a sign and one to three digits; 1 to 38 digits before the exponent.
    #[inline(always)]
    pub fn read(text: &[u8]) -> Result<Number, NumberFault>
        ensures { result_ok result ≡ number_of text.now }
    {
        number_in(text).ok_or(NumberFault::NotANumber)
    }
}

#[inline(always)]
fn number_in(text: &[u8]) -> Option<Number>
    ensures { result ≡ number_of text.now }
{
    match short_decimal(text) {
        Some(short) => Some(short.number()),
        None => long_number(text),
    }
}

/// The number that a text of any length denotes.
fn long_number(text: &[u8]) -> Option<Number>
    ensures { result ≡ number_of text.now }
{
    let unsigned = without_sign(text);
    let round_mark = halves_at(unsigned, place_of_mark(unsigned));
    let round_point = halves_at(round_mark.front, place_of_point(round_mark.front));
    let fraction = round_point.back.unwrap_or(&[]);
    let magnitude = digits_of(round_point.front, fraction)?;
    let exponent = exponent_in(round_mark.back)?;
    Some(decimal_of(is_minus(text), magnitude, exponent, fraction.len()))
}

/// The number with these digits and their sign, and this number of places after the point.
fn decimal_of(minus: bool, digits: u128, exponent: i32, places: usize) -> Number
    requires digits { digits < 10 ^ most_digits }
    requires exponent { (lowest_written ≤ℤ exponent) × (exponent ≤ℤ highest_exponent) }
    requires places { places ≤ most_digits }
    ensures mantissa { result.mantissa ≡ with_sign minus digits }
    ensures exponent { result.exponent ≡ exponent -ℤ pos places }
{
    Number {
        mantissa: with_sign(minus, digits),
        exponent: exponent - places as i32,
    }
}

/// A number with its sign.
pub(crate) fn with_sign(minus: bool, magnitude: u128) -> i128
    requires { magnitude < 10 ^ most_digits }
    ensures value { result ≡ with_sign minus magnitude }
    ensures within { nat_abs result < 10 ^ most_digits }
{
    if minus {
        -(magnitude as i128)
    } else {
        magnitude as i128
    }
}

/// The position of the first `e` or `E`.
fn place_of_mark(text: &[u8]) -> Option<usize>
    ensures place { result ≡ position is_exponent_mark text.now }
    ensures within { IfSome result (λ at. at < length text.now) }
{
    text.iter().position(|b| *b == b'E' || *b == b'e')
}

/// The position of the first point.
fn place_of_point(text: &[u8]) -> Option<usize>
    ensures place { result ≡ position is_point text.now }
    ensures within { IfSome result (λ at. at < length text.now) }
{
    text.iter().position(|b| *b == b'.')
}

/// Whether a text begins with a minus sign.
pub(crate) fn is_minus(text: &[u8]) -> bool
    ensures { result ≡ is_minus text.now }
{
    matches!(text, [b'-', ..])
}

/// What follows the sign, or the whole text if there is none.
pub(crate) fn without_sign(text: &[u8]) -> &[u8]
    ensures { result.now ≡ without_sign text.now }
{
    match text {
        [b'+' | b'-', unsigned @ ..] => unsigned,
        _ => text,
    }
}

/// A number with decimal digits after it, or `None` if a byte is not a digit.
fn with_digits(number: u128, digits: &[u8]) -> Option<u128>
    requires { (number + 1) * 10 ^ length digits.now ≤ 10 ^ most_digits }
    ensures digits { result ≡ if list_all is_ascii_digit digits.now
        then Some (with_digits number digits.now) else None }
    ensures within { IfSome result (λ whole. (whole + 1) ≤ (number + 1) * 10 ^ length digits.now) }
{
    let mut number = number;
    for b in digits {
        number = number * 10 + u128::from(digit_of(*b)?);
    }
    Some(number)
}

/// The digit that a byte writes.
pub(crate) fn digit_of(b: u8) -> Option<u8>
    ensures value { SomeIff result (is_ascii_digit b ≡ true) (b - digit_zero) }
    ensures within { IfSome result (λ digit. digit ≤ 9) }
{
    match b {
        b'0'..=b'9' => Some(b - b'0'),
        _ => None,
    }
}

/// The number that the digits on both sides of the point write, if they are digits and not too many.
fn digits_of(whole: &[u8], fraction: &[u8]) -> Option<u128>
    ensures digits { result ≡ if are_digits whole.now fraction.now
        then Some (whole_of (whole.now ++ fraction.now)) else None }
    ensures within { IfSome result (λ digits.
        (digits < 10 ^ most_digits) × (length fraction.now ≤ most_digits)) }
{
    if whole.len() > MOST_DIGITS || fraction.len() > MOST_DIGITS - whole.len() {
        return None;
    }
    if whole.len() + fraction.len() == 0 {
        return None;
    }
    with_digits(with_digits(0, whole)?, fraction)
}

/// The exponent that a text writes, or 0 if there is no text.
fn exponent_in(text: Option<&[u8]>) -> Option<i32>
    ensures value { result ≡ exponent_in (option_copied text.entry) }
    ensures within { IfSome result (λ places.
        (lowest_written ≤ℤ places) × (places ≤ℤ highest_exponent)) }
{
    match text {
        None => Some(0),
        Some(text) => places_in(text),
    }
}

fn places_in(text: &[u8]) -> Option<i32>
    ensures value { result ≡ places_in text.now }
    ensures within { IfSome result (λ places.
        (lowest_written ≤ℤ places) × (places ≤ℤ highest_exponent)) }
{
    let digits = without_sign(text);
    let places = whole_places(digits)?;
    Some(if is_minus(text) { -places } else { places })
}

/// The places that one to three digits write.
fn whole_places(digits: &[u8]) -> Option<i32>
    ensures value { result ≡ if are_places digits.now then Some (pos (whole_of digits.now))
        else None }
    ensures within { IfSome result (λ places. (pos 0 ≤ℤ places) × (places ≤ℤ highest_exponent)) }
{
    if digits.is_empty() || digits.len() > MOST_PLACES {
        return None;
    }
    let places = with_digits(0, digits)?;
    Some(places as i32)
}
