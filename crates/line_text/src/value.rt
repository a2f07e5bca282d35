//! Values of datapoints.
ghost use Rattle.std.specs.Prelude.{◌≡◌, pos, ◌≤◌, ◌≤ℤ◌, nat_abs, ◌*ℤ◌, SomeIff, None, ◌<◌, IfSome, ◌*◌, ◌^◌};
ghost use Rattle.line_text.specs.Nearest.{nearest};
ghost use Rattle.line_text.specs.Number.{most_digits, highest_exponent, lowest_exponent};
ghost use Rattle.line_text.specs.Value.{units_of_one, most_units, value_of, units_in_range, places_left, places_right};

use crate::nearest::nearest_at;
use crate::number::Number;
use crate::powers::product;
use std::marker::Model;

/// How many units are 1: 10,000,000,000, so a unit is a ten-billionth.
pub const UNITS_OF_ONE: i128 = 10_000_000_000;

/// How many decimals a value has.
pub(crate) const DECIMALS: u32 = 10;

/// The units of the largest value, 2 to the power 63.
const MOST_UNITS: u128 = (1 << 63) * UNITS_OF_ONE as u128;

/// How many numbers a word of 64 bits has.
const WORD_SIZE: i128 = 1 << 64;

const _: () = prove!(UNITS_OF_ONE == 10_000_000_000);

const _: () = prove!(MOST_UNITS == 92_233_720_368_547_758_080_000_000_000);

/// The value of a datapoint: a whole number of units, from -2^63 to 2^63 times [`UNITS_OF_ONE`].
///
/// In clauses it is that number. In memory it is two words, since an `i128` would have each datapoint begin at a
/// multiple of 16 bytes, for which the allocator takes 16 bytes more.
#[derive(Clone, Copy, Debug, PartialEq)]
pub struct Value {
    upper: i64,
    lower: u64,
}

impl Model for Value {
    ghost use Rattle.std.specs.Prelude.{ℤ, ◌≤◌, ◌<◌, nat_abs};
    ghost use Rattle.line_text.specs.Value.{most_units};
    ghost use Rattle.line_text.specs.ValueWords.{word_size, units_of_words, upper_word, lower_word, words_again};

    ghost Value = { ℤ };

    ghost view = { λ v. units_of_words v.upper v.lower };

    ghost invariant = { λ v. (v.lower < word_size) × (nat_abs (units_of_words v.upper v.lower) ≤ most_units) };

    ghost inverse = { λ units. record { upper = upper_word units; lower = lower_word units } };

    ghost inverse_ok = { λ v sound. words_again v.upper v.lower sound.0 };
}

impl Value {
    /// The value of a number of units ([`UNITS_OF_ONE`] units are 1), or `None` if its magnitude is above 2^63.
    pub fn new(units: i128) -> Option<Value>
        ensures { SomeIff result (nat_abs units ≤ most_units) units }
    {
        if units.unsigned_abs() <= MOST_UNITS {
            Some(in_words(units))
        } else {
            None
        }
    }

    /// The value of a whole number.
    pub fn of_whole(whole: i64) -> Value
        ensures { result ≡ whole *ℤ pos units_of_one }
    {
        in_words(i128::from(whole) * UNITS_OF_ONE)
    }

    /// The number of units; [`UNITS_OF_ONE`] units are 1.
    pub fn units(self) -> i128
        ensures value { result ≡ self }
        ensures in_range { nat_abs self ≤ most_units }
    {
        i128::from(self.upper) * WORD_SIZE + i128::from(self.lower)
    }
}

impl Number {
    /// The value that the number is, to the nearest unit, the even one of two that are as near; or `None` if its
    /// magnitude is then above 2^63.
    pub fn value(&self) -> Option<Value>
        ensures { result ≡ value_of self.now }
    {
        let units = units_of(self.mantissa.unsigned_abs(), self.exponent)?;
        value_in_range(self.mantissa < 0, units)
    }
}

/// The units of digits times a power of ten, to the nearest; `None` only if they are more than any value has.
fn units_of(digits: u128, exponent: i32) -> Option<u128>
    requires digits { digits < 10 ^ most_digits }
    requires exponent { (lowest_exponent ≤ℤ exponent) × (exponent ≤ℤ highest_exponent) }
    ensures units { IfSome result (λ units. units
        ≡ nearest (digits * 10 ^ places_right exponent * units_of_one) (10 ^ places_left exponent)) }
    ensures none { result ≡ None → most_units
        < nearest (digits * 10 ^ places_right exponent * units_of_one) (10 ^ places_left exponent) }
{
    let places = exponent.unsigned_abs();
    if exponent >= 0 {
        product(digits, places + DECIMALS)
    } else if places <= DECIMALS {
        product(digits, DECIMALS - places)
    } else {
        Some(nearest_at(digits, places - DECIMALS))
    }
}

/// Units with a sign as a value, if they are in range.
pub(crate) fn value_in_range(minus: bool, units: u128) -> Option<Value>
    ensures { result ≡ units_in_range minus units }
{
    if units > MOST_UNITS {
        return None;
    }
    let units = units as i128;
    Some(in_words(if minus { -units } else { units }))
}

/// The value of a number of units that some value has.
fn in_words(units: i128) -> Value
    requires { nat_abs units ≤ most_units }
    ensures { result ≡ units }
{
    Value {
        upper: units.div_euclid(WORD_SIZE) as i64,
        lower: units.rem_euclid(WORD_SIZE) as u64,
    }
}
