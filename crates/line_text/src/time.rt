//! Times of datapoints.
ghost use Rattle.std.specs.Prelude.{◌≡◌, ◌^◌, ◌≤◌, None, IfSome};
ghost use Rattle.line_text.specs.Time.{time_of, whole_part, time_below_zero, time_from_zero, last_time};

use crate::moment::{LAST_TIME, Moment};
use crate::number::Number;
use crate::powers::{product, quotient};

impl Number {
    /// The time that the number is, in seconds, or `None` if it is not a time. What follows the point
    /// is cut off; then -1 is the moment, and 0 to 9,007,199,254,740,992 is itself.
    pub fn time(&self, moment: Moment) -> Option<u64>
        ensures value { result ≡ time_of self.now moment }
        ensures in_range { IfSome result (λ time. time ≤ last_time) }
    {
        let whole = whole_part(self)?;
        if self.mantissa < 0 {
            time_below_zero(whole, moment)
        } else {
            time_from_zero(whole)
        }
    }
}

/// The part before the point of a number, apart from its sign; `None` only if it is out of every
/// range.
fn whole_part(number: &Number) -> Option<u128>
    ensures whole { IfSome result (λ whole. whole ≡ whole_part number.now) }
    ensures none { result ≡ None → 2 ^ 128 ≤ whole_part number.now }
{
    let digits = number.mantissa.unsigned_abs();
    let places = number.exponent.unsigned_abs();
    if number.exponent < 0 {
        Some(quotient(digits, places))
    } else {
        product(digits, places)
    }
}

/// The time of a whole part below zero: 0 is 0, and -1 the moment.
fn time_below_zero(whole: u128, moment: Moment) -> Option<u64>
    ensures value { result ≡ time_below_zero whole moment }
    ensures in_range { IfSome result (λ time. time ≤ last_time) }
{
    match whole {
        0 => Some(0),
        1 => Some(moment.seconds()),
        _ => None,
    }
}

/// The time of a whole part from zero, if it is in range.
pub(crate) fn time_from_zero(whole: u128) -> Option<u64>
    ensures value { result ≡ time_from_zero whole }
    ensures in_range { IfSome result (λ time. time ≤ last_time) }
{
    if whole <= u128::from(LAST_TIME) {
        Some(whole as u64)
    } else {
        None
    }
}
