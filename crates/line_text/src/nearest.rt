//! Rounding to the nearest whole number.
ghost use Rattle.std.specs.Prelude.{◌≡◌, ◌^◌, ◌<◌, ◌≤◌};
ghost use Rattle.line_text.specs.Nearest.{nearest};
ghost use Rattle.line_text.specs.Number.{most_digits};

use crate::number::MOST_DIGITS;
use crate::powers::power_of_ten;

/// Digits with the point moved by a number of places to the left, to the nearest whole number, the even
/// one of two that are as near.
pub(crate) fn nearest_at(digits: u128, places: u32) -> u128
    requires { digits < 10 ^ most_digits }
    ensures { result ≡ nearest digits (10 ^ places) }
{
    if places as usize > MOST_DIGITS {
        return 0;
    }
    nearest(digits, power_of_ten(places))
}

/// A fraction to the nearest whole number, the even one of two that are as near.
fn nearest(digits: u128, unit: u128) -> u128
    requires digits { digits < 10 ^ most_digits }
    requires positive { 0 < unit }
    requires unit { unit ≤ 10 ^ most_digits }
    ensures { result ≡ nearest digits unit }
{
    let quotient = digits / unit;
    let twice = 2 * (digits % unit);
    if twice < unit {
        quotient
    } else if unit < twice {
        quotient + 1
    } else {
        quotient + quotient % 2
    }
}
