//! Short decimals: at most 18 digits with their sign and point, and no exponent.
ghost use Rattle.std.specs.Prelude.{◌≡◌, ◌+◌, ◌-◌, ◌*◌, ◌^◌, ◌<◌, ◌≤◌, true, Some, length, take, IfSome};
ghost use Rattle.std.specs.List.{list_all};
ghost use Rattle.std.specs.Char.{is_ascii_digit};
ghost use Rattle.line_text.specs.Number.{number_of, with_digits, whole_of, IsAfterWhole};
ghost use Rattle.line_text.specs.Time.{time_of, last_time};
ghost use Rattle.line_text.specs.Value.{value_of};

use crate::moment::Moment;
use crate::number::{Number, digit_of, is_minus, with_sign, without_sign};
use crate::time::time_from_zero;
use crate::value::{DECIMALS, Value, value_in_range};
use std::marker::Model;

/// How many digits always fit 64 bits.
pub(crate) const SHORT_DIGITS: usize = 18;

/// The units of 1 at each decimal, from none.
const UNITS_AT: [u64; 11] = [
    10_000_000_000,
    1_000_000_000,
    100_000_000,
    10_000_000,
    1_000_000,
    100_000,
    10_000,
    1_000,
    100,
    10,
    1,
];

/// A number of at most 18 digits, which fit 64 bits: its sign, its digits, and how many of them
/// follow the point.
#[derive(Drop)]
pub(crate) struct ShortDecimal {
    is_minus: bool,
    digits: u64,
    places: u32,
}

impl Model for ShortDecimal {
    ghost use Rattle.std.specs.Prelude.{◌<◌, ◌≤◌, ◌^◌, pos, ◌-ℤ◌};
    ghost use Rattle.line_text.specs.Number.{Decimal, with_sign};

    ghost Value = { Decimal };

    ghost view = { λ d. record { mantissa = with_sign d.is_minus d.digits; exponent = pos 0 -ℤ pos d.places } };

    ghost invariant = { λ d. (d.digits < 10 ^ 18) × (d.places ≤ 18) };
}

impl ShortDecimal {
    /// The same number.
    pub(crate) fn number(&self) -> Number
        ensures { result ≡ self.now }
    {
        Number {
            mantissa: with_sign(self.is_minus, u128::from(self.digits)),
            exponent: -(self.places as i32),
        }
    }

    /// Its value: with at most ten decimals it is exact, and takes one multiplication.
    pub(crate) fn value(&self) -> Option<Value>
        ensures { result ≡ value_of self.now }
    {
        if self.places > DECIMALS {
            return self.number().value();
        }
        let units = u128::from(self.digits) * u128::from(units_at(self.places));
        value_in_range(self.is_minus, units)
    }

    /// Its time.
    pub(crate) fn time(&self, moment: Moment) -> Option<u64>
        ensures value { result ≡ time_of self.now moment }
        ensures in_range { IfSome result (λ time. time ≤ last_time) }
    {
        if self.places > 0 || self.is_minus {
            return self.number().time(moment);
        }
        time_from_zero(u128::from(self.digits))
    }
}

/// The units of 1 at a decimal.
#[inline(always)]
fn units_at(decimal: u32) -> u64
    requires { decimal ≤ 10 }
    ensures { result ≡ 10 ^ (10 - decimal) }
{
    UNITS_AT[decimal as usize]
}

/// The number of a text that is a short decimal, or `None` for all other texts. Looks at each byte once.
pub(crate) fn short_decimal(text: &[u8]) -> Option<ShortDecimal>
    ensures { IfSome result (λ short. number_of text.now ≡ Some short) }
{
    let unsigned = without_sign(text);
    if unsigned.len() > SHORT_DIGITS + 1 {
        return None;
    }
    let whole = leading_digits(unsigned);
    let fraction = fraction_of(&unsigned[whole.len..])?;
    let len = whole.len + fraction.len();
    if len == 0 || len > SHORT_DIGITS {
        return None;
    }
    let digits = more_digits(whole.number, fraction)?;
    Some(ShortDecimal {
        is_minus: is_minus(text),
        digits,
        places: fraction.len() as u32,
    })
}

/// The digits that a text begins with.
#[derive(Clone, Copy)]
struct LeadingDigits {
    /// The number that they write.
    number: u64,
    /// How many there are.
    len: usize,
}

/// The digits that a short text begins with.
#[inline(always)]
fn leading_digits(text: &[u8]) -> LeadingDigits
    requires { length text.now ≤ 19 }
    ensures within { result.len ≤ length text.now }
    ensures digits { list_all is_ascii_digit (take result.len text.now) ≡ true }
    ensures number { result.number ≡ whole_of (take result.len text.now) }
    ensures room { result.number < 10 ^ result.len }
{
    let mut number: u64 = 0;
    for (len, b) in text.iter().enumerate() {
        let Some(digit) = digit_of(*b) else {
            return LeadingDigits { number, len };
        };
        number = number * 10 + u64::from(digit);
    }
    LeadingDigits {
        number,
        len: text.len(),
    }
}

/// What follows the point, without the digits before it; nothing if there is no point.
#[inline(always)]
fn fraction_of(rest: &[u8]) -> Option<&[u8]>
    ensures { IfSome result (λ fraction. IsAfterWhole rest.now fraction.now) }
{
    match rest {
        [] => Some(rest),
        [b'.', fraction @ ..] => Some(fraction),
        _ => None,
    }
}

/// A number with decimal digits after it, or `None` if a byte is not a digit.
#[inline(always)]
fn more_digits(number: u64, digits: &[u8]) -> Option<u64>
    requires { (number + 1) * 10 ^ length digits.now ≤ 10 ^ 18 }
    ensures digits { IfSome result (λ all. (list_all is_ascii_digit digits.now ≡ true)
        × (all ≡ with_digits number digits.now)) }
    ensures within { IfSome result (λ all. all < 10 ^ 18) }
{
    let mut number = number;
    for b in digits {
        number = number * 10 + u64::from(digit_of(*b)?);
    }
    Some(number)
}
