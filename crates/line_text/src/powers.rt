//! Powers of ten, and digits with the point moved by some places.
ghost use Rattle.std.specs.Prelude.{◌≡◌, ◌*◌, ◌/◌, ◌^◌, ◌<◌, ◌≤◌, None, IfSome};
ghost use Rattle.line_text.specs.Number.{most_digits};

use crate::number::MOST_DIGITS;
use crate::short::SHORT_DIGITS;

/// What digits have before the point, once it is moved this number of places to the left.
pub(crate) fn quotient(digits: u128, places: u32) -> u128
    requires { digits < 10 ^ most_digits }
    ensures { result ≡ digits / 10 ^ places }
{
    if places as usize > MOST_DIGITS {
        return 0;
    }
    match u64::try_from(digits) {
        Ok(short) if places as usize <= SHORT_DIGITS => short_quotient(short, places),
        _ => digits / power_of_ten(places),
    }
}

/// The same for digits that fit 64 bits, and at most 18 places.
fn short_quotient(digits: u64, places: u32) -> u128
    requires { places ≤ 18 }
    ensures { result ≡ digits / 10 ^ places }
{
    u128::from(digits / 10u64.pow(places))
}

/// Digits with this number of zeros after them, or `None` if that does not fit 128 bits.
pub(crate) fn product(digits: u128, places: u32) -> Option<u128>
    ensures product { IfSome result (λ product. product ≡ digits * 10 ^ places) }
    ensures none { result ≡ None → 2 ^ 128 ≤ digits * 10 ^ places }
{
    if digits == 0 || places == 0 {
        return Some(digits);
    }
    if places as usize > MOST_DIGITS {
        return None;
    }
    digits.checked_mul(power_of_ten(places))
}

/// Ten to a power.
pub(crate) fn power_of_ten(places: u32) -> u128
    requires { places ≤ most_digits }
    ensures value { result ≡ 10 ^ places }
    ensures positive { 0 < result }
    ensures within { result ≤ 10 ^ most_digits }
{
    10u128.pow(places)
}
