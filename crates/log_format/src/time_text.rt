//! Times as RFC 3339 writes them.

use httpdate::HttpDate;
use std::alloc::AllocError;
use std::str;

/// The months as a date of HTTP names them.
static MONTHS: [&str; 12] = [
    "Jan", "Feb", "Mar", "Apr", "May", "Jun", "Jul", "Aug", "Sep", "Oct", "Nov", "Dec",
];

/// Adds the time of a second since 1970, as `2026-11-28T21:35:07Z`; nothing from the year 10000 on. Fails when out of
/// memory.
pub fn push_time(text: &mut String, seconds: u64) -> Result<(), AllocError> {
    let Ok(date) = HttpDate::from_unix_secs(seconds) else {
        return Ok(());
    };
    // As `Sat, 28 Nov 2026 21:35:07 GMT`.
    let bytes = date.to_bytes();
    let Some(date) = str::from_utf8(bytes.as_slice()).ok() else {
        return Ok(());
    };
    text.push_str(part_of(date, 12, 16))?;
    text.push_str(number_of_month(part_of(date, 8, 11)))?;
    text.push_str(part_of(date, 5, 7))?;
    text.push('T')?;
    text.push_str(part_of(date, 17, 25))?;
    text.push('Z')
}

/// The part of a date between two places.
fn part_of(date: &str, from: usize, to: usize) -> &str {
    date.get(from..to).unwrap_or("")
}

/// A month between hyphens, as `-11-`.
fn number_of_month(name: &str) -> &'static str {
    static NUMBERS: [&str; 12] = [
        "-01-", "-02-", "-03-", "-04-", "-05-", "-06-", "-07-", "-08-", "-09-", "-10-", "-11-",
        "-12-",
    ];
    for (month, number) in MONTHS.iter().zip(NUMBERS.iter()) {
        if *month == name {
            return *number;
        }
    }
    "-"
}
