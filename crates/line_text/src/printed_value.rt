//! Values in decimal digits.
ghost use Rattle.std.specs.Prelude.{◌≡◌, ℕ, ◌+◌, ◌/◌, ◌%◌, ◌^◌, ◌<◌, ◌≤◌, ◌++◌, pos, nat_abs, int_lt, length, vec_len, vec_capacity};
ghost use Rattle.line_text.specs.Value.{units_of_one, most_units};
ghost use Rattle.line_text.specs.Print.{printed_value, printed_sign, printed_fraction, digits_after_point};

use crate::bytes::append;
use crate::value::{UNITS_OF_ONE, Value};
use itoa::Buffer;

/// The units of 1, in 64 bits.
const UNITS: u64 = 10_000_000_000;

const _: () = prove!(UNITS as i128 == UNITS_OF_ONE);

/// The parts of a value: its sign, the part before its point, and the units after it.
#[derive(Clone, Copy)]
struct ValueParts {
    is_negative: bool,
    whole: u64,
    fraction: u64,
}

/// The parts of a value.
fn parts_of(value: Value) -> ValueParts
    ensures sign { result.is_negative ≡ int_lt value (pos 0) }
    ensures whole { result.whole ≡ nat_abs value / units_of_one }
    ensures fraction { result.fraction ≡ nat_abs value % units_of_one }
    ensures short { result.whole ≤ 2 ^ 63 }
    ensures within { result.fraction < units_of_one }
{
    let units = value.units();
    let whole = whole_of_units(units.unsigned_abs());
    ValueParts {
        is_negative: units < 0,
        whole,
        fraction: (units.unsigned_abs() - u128::from(whole) * u128::from(UNITS)) as u64,
    }
}

/// The whole part of units; in 64 bits if they fit.
fn whole_of_units(units: u128) -> u64
    requires { units ≤ most_units }
    ensures { result ≡ units / units_of_one }
{
    match u64::try_from(units) {
        Ok(short) => short / UNITS,
        Err(_) => (units / u128::from(UNITS)) as u64,
    }
}

/// Appends a value, for which there is room.
pub(crate) fn append_value(bytes: &mut Vec<u8>, value: Value)
    requires { vec_len bytes.old + 31 ≤ vec_capacity bytes.old }
    ensures items { bytes.new.items ≡ bytes.old.items ++ printed_value value }
    ensures len { vec_len bytes.new ≤ vec_len bytes.old + 31 }
    ensures capacity { vec_capacity bytes.old ≤ vec_capacity bytes.new }
{
    let parts = parts_of(value);
    append_sign(bytes, parts.is_negative);
    append(bytes, Buffer::new().format(parts.whole).as_bytes());
    append_fraction(bytes, parts.fraction);
}

/// Appends a minus sign below zero, for which there is room.
fn append_sign(bytes: &mut Vec<u8>, is_negative: bool)
    requires { vec_len bytes.old + 1 ≤ vec_capacity bytes.old }
    ensures items { bytes.new.items ≡ bytes.old.items ++ printed_sign is_negative }
    ensures len { vec_len bytes.new ≤ vec_len bytes.old + 1 }
    ensures capacity { vec_capacity bytes.old ≤ vec_capacity bytes.new }
{
    if is_negative {
        append(bytes, b"-");
    }
}

/// Appends the point and the digits of a fraction, given in units, up to the last that is not 0; nothing
/// for a fraction of 0.
fn append_fraction(bytes: &mut Vec<u8>, fraction: u64)
    requires fraction { fraction < units_of_one }
    requires room { vec_len bytes.old + 11 ≤ vec_capacity bytes.old }
    ensures items { bytes.new.items ≡ bytes.old.items ++ printed_fraction fraction }
    ensures len { vec_len bytes.new ≤ vec_len bytes.old + 11 }
    ensures capacity { vec_capacity bytes.old ≤ vec_capacity bytes.new }
{
    if fraction == 0 {
        return;
    }
    append(bytes, b".");
    append_digits(bytes, fraction);
}

/// Appends the digits of a fraction, up to the last that is not 0. Each is what ten times the rest has
/// before its point.
fn append_digits(bytes: &mut Vec<u8>, fraction: u64)
    requires fraction { fraction < units_of_one }
    requires room { vec_len bytes.old + 10 ≤ vec_capacity bytes.old }
    ensures items { bytes.new.items ≡ bytes.old.items ++ digits_after_point 10 fraction }
    ensures len { vec_len bytes.new ≤ vec_len bytes.old + 10 }
    ensures capacity { vec_capacity bytes.old ≤ vec_capacity bytes.new }
{
    let mut rest = fraction;
    let mut places: usize = 0;
    while rest != 0 {
        let ten_times = rest * 10;
        append(bytes, &[b'0' + (ten_times / UNITS) as u8]);
        rest = ten_times % UNITS;
        places += 1;
    }
}

/// How many bytes a printed value has.
pub(crate) fn printed_length(value: Value) -> usize
    ensures value { result ≡ length (printed_value value) }
    ensures short { result ≤ 31 }
{
    let parts = parts_of(value);
    let whole = Buffer::new().format(parts.whole).len();
    usize::from(parts.is_negative) + whole + fraction_length(parts.fraction)
}

/// How many bytes a printed fraction has, with its point.
fn fraction_length(fraction: u64) -> usize
    requires { fraction < units_of_one }
    ensures value { result ≡ length (printed_fraction fraction) }
    ensures short { result ≤ 11 }
{
    if fraction == 0 {
        return 0;
    }
    1 + count_of_digits(fraction)
}

/// How many digits a printed fraction has.
fn count_of_digits(fraction: u64) -> usize
    requires { fraction < units_of_one }
    ensures value { result ≡ length (digits_after_point 10 fraction) }
    ensures short { result ≤ 10 }
{
    let mut left = fraction;
    let mut places: usize = 0;
    while left != 0 {
        left = left * 10 % UNITS;
        places += 1;
    }
    places
}
