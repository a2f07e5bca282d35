//! Binary64 by whole numbers.
ghost use Rattle.std.specs.Prelude.{◌≡◌, ℕ, ◌+◌, ◌-◌, ◌*◌, ◌/◌, ◌%◌, ◌^◌, ◌<◌, ◌≤◌, ◌==◌, max, None, true, false, IfSome};
ghost use Rattle.line_text.specs.Nearest.{nearest};
ghost use Rattle.line_text.specs.Number.{with_sign};
ghost use Rattle.line_text.specs.Time.{last_time};
ghost use Rattle.line_text.specs.Value.{units_of_one, most_units, units_in_range};
ghost use Rattle.pickle_subset.specs.Binary.{is_negative, exponent, is_number, significand, place, numerator, denominator, binary_units, binary_value, binary_time, whole_time};

use line_text::{LAST_TIME, Moment, UNITS_OF_ONE, Value};

/// The value of a binary64, by its 64 bits: the number that they denote, to the nearest unit, the even one of two
/// that are as near. `None` if they are an infinity or not a number, or if the magnitude is then above 2^63.
pub fn binary_value(bits: u64) -> Option<Value>
    ensures { result ≡ binary_value bits }
{
    if !is_number(bits) {
        return None;
    }
    value_in_range(is_negative(bits), units_of(bits)?)
}

/// The time that the 64 bits of a binary64 are, in seconds, or `None` if they are not a time. What follows the point
/// is cut off; then -1 is the moment.
pub fn binary_time(bits: u64, moment: Moment) -> Option<u64>
    ensures value { result ≡ binary_time bits moment }
    ensures in_range { IfSome result (λ time. time ≤ last_time) }
{
    if !is_number(bits) {
        return None;
    }
    whole_time(is_negative(bits), whole_part_of(bits)?, moment)
}

/// The time of a whole part and its sign: below zero 0 is 0 and -1 the moment, and from zero it is itself if it is in
/// range.
pub fn whole_time(negative: bool, whole: u64, moment: Moment) -> Option<u64>
    ensures value { result ≡ whole_time negative whole moment }
    ensures in_range { IfSome result (λ time. time ≤ last_time) }
{
    if !negative {
        return if whole <= LAST_TIME {
            Some(whole)
        } else {
            None
        };
    }
    match whole {
        0 => Some(0),
        1 => Some(moment.seconds()),
        _ => None,
    }
}

/// Units with a sign as a value, if they are in range.
fn value_in_range(negative: bool, units: u128) -> Option<Value>
    ensures { result ≡ units_in_range negative units }
{
    let units = i128::try_from(units).ok()?;
    Value::new(if negative { -units } else { units })
}

/// The exponent of an infinity and of a not-a-number: the greatest.
const NO_NUMBER: u64 = 2047;

/// The place at which the significand is the number itself.
const ONES: u64 = 1075;

/// The units of the magnitude of a number, to the nearest, the even one of two that are as near. `None` only if they
/// are more than any value has.
fn units_of(bits: u64) -> Option<u128>
    ensures units { IfSome result (λ units. units ≡ binary_units bits) }
    ensures none { result ≡ None → most_units < binary_units bits }
{
    let place = place_of(bits);
    if place < ONES {
        Some(nearest_units(significand_of(bits), ONES - place))
    } else {
        let whole = product(significand_of(bits), place - ONES)?;
        Some(units_of_whole(whole))
    }
}

/// The part before the point of the magnitude of a number. `None` only if that is not a time.
fn whole_part_of(bits: u64) -> Option<u64>
    ensures whole { IfSome result (λ whole. whole ≡ numerator bits / denominator bits) }
    ensures none { result ≡ None → 2 ^ 64 ≤ numerator bits / denominator bits }
{
    let place = place_of(bits);
    if place < ONES {
        Some(quotient(significand_of(bits), ONES - place))
    } else {
        product(significand_of(bits), place - ONES)
    }
}

fn is_negative(bits: u64) -> bool
    ensures { result ≡ is_negative bits }
{
    bits >= 1 << 63
}

/// Whether the bits denote a number.
fn is_number(bits: u64) -> bool
    ensures { result ≡ is_number bits }
{
    exponent_of(bits) != NO_NUMBER
}

fn exponent_of(bits: u64) -> u64
    ensures value { result ≡ exponent bits }
    ensures within { result ≤ 2047 }
{
    bits / (1 << 52) % (1 << 11)
}

fn place_of(bits: u64) -> u64
    ensures value { result ≡ place bits }
    ensures within { result ≤ 2047 }
{
    exponent_of(bits).max(1)
}

fn significand_of(bits: u64) -> u64
    ensures value { result ≡ significand bits }
    ensures within { result < 2 ^ 53 }
    ensures first_bit { 1 ≤ exponent bits → 2 ^ 52 ≤ result }
{
    let fraction = bits % (1 << 52);
    if exponent_of(bits) == 0 {
        fraction
    } else {
        (1 << 52) + fraction
    }
}

/// The units of a whole number.
fn units_of_whole(whole: u64) -> u128
    ensures { result ≡ whole * units_of_one }
{
    u128::from(whole) * UNITS_OF_ONE as u128
}

/// The most bits that the units of a significand have. Moved by more places, less than half of one is left.
const UNITS_BITS: u64 = 87;

/// The units of a significand with the point moved this number of places to the left, to the nearest.
fn nearest_units(significand: u64, places: u64) -> u128
    requires { significand < 2 ^ 53 }
    ensures { result ≡ nearest (significand * units_of_one) (2 ^ places) }
{
    if places > UNITS_BITS {
        return 0;
    }
    nearest(units_of_whole(significand), places)
}

/// Units with the point moved this number of places to the left, to the nearest whole number, the even one of two
/// that are as near.
fn nearest(units: u128, places: u64) -> u128
    requires units { units < 2 ^ 87 }
    requires places { places ≤ 87 }
    ensures { result ≡ nearest units (2 ^ places) }
{
    let one = 1u128 << places;
    let quotient = units >> places;
    let twice = 2 * (units - (quotient << places));
    if twice < one {
        quotient
    } else if one < twice {
        quotient + 1
    } else {
        quotient + quotient % 2
    }
}

/// The most bits that a significand has. Moved by more places, nothing of it is left before the point.
const SIGNIFICAND_BITS: u64 = 53;

/// What is left before the point of a significand, once the point is moved this number of places to the left.
fn quotient(significand: u64, places: u64) -> u64
    requires { significand < 2 ^ 53 }
    ensures { result ≡ significand / 2 ^ places }
{
    significand / power(places.min(SIGNIFICAND_BITS))
}

/// The most places by which a significand with its first bit is moved and still fits 64 bits.
const ROOM: u64 = 11;

/// A significand with this number of places after it, or `None` if that does not fit 64 bits.
fn product(significand: u64, places: u64) -> Option<u64>
    requires { (2 ^ 52 ≤ significand) × (significand < 2 ^ 53) }
    ensures value { IfSome result (λ product. product ≡ significand * 2 ^ places) }
    ensures none { result ≡ None → 2 ^ 64 ≤ significand * 2 ^ places }
{
    if places > ROOM {
        return None;
    }
    Some(significand * power(places))
}

/// Two to a power.
fn power(places: u64) -> u64
    requires { places ≤ 53 }
    ensures value { result ≡ 2 ^ places }
    ensures positive { 0 < result }
{
    1 << places
}
