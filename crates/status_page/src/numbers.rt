//! Numbers and times as people read them.

use httpdate::HttpDate;
use std::alloc::AllocError;
use std::fmt::Write as _;

/// The powers of 1,000 before which a comma may stand, the greatest first.
const UNITS: [u64; 5] = [
    1_000_000_000_000_000,
    1_000_000_000_000,
    1_000_000_000,
    1_000_000,
    1_000,
];

/// Adds a number with a comma before each three digits: `12,345`. One of more than 18 digits has the others before the first
/// comma.
pub(crate) fn push_count(text: &mut String, count: u64) -> Result<(), AllocError> {
    let mut is_begun = false;
    for unit in UNITS {
        let group = count.checked_div(unit).unwrap_or(0);
        push_group(text, group, &mut is_begun)?;
    }
    if is_begun {
        push_three(text, count)
    } else {
        write!(text, "{count}")
    }
}

/// Adds digits and a comma, if they are the first that are not 0 or others stand before them.
fn push_group(text: &mut String, group: u64, is_begun: &mut bool) -> Result<(), AllocError> {
    if *is_begun {
        push_three(text, group)?;
        return text.push_str(",");
    }
    if group == 0 {
        return Ok(());
    }
    *is_begun = true;
    write!(text, "{group},")
}

/// Adds the three last digits of a number.
fn push_three(text: &mut String, count: u64) -> Result<(), AllocError> {
    let (hundreds, tens, ones) = (count / 100 % 10, count / 10 % 10, count % 10);
    write!(text, "{hundreds}{tens}{ones}")
}

/// Adds a number of bytes, in the greatest unit that it reaches, with one digit behind the point.
pub(crate) fn push_size(text: &mut String, bytes: u64) -> Result<(), AllocError> {
    let (tenth, unit): (u64, &str) = if bytes >= 1_000_000_000 {
        (100_000_000, "GB")
    } else if bytes >= 1_000_000 {
        (100_000, "MB")
    } else if bytes >= 1_000 {
        (100, "kB")
    } else {
        return write!(text, "{bytes} bytes");
    };
    let tenths = bytes.checked_div(tenth).unwrap_or(0);
    write!(text, "{}.{} {unit}", tenths / 10, tenths % 10)
}

/// Adds a number of seconds in the two greatest units that it reaches.
pub(crate) fn push_duration(text: &mut String, seconds: u64) -> Result<(), AllocError> {
    let minutes = seconds / 60;
    let hours = minutes / 60;
    let days = hours / 24;
    if minutes == 0 {
        return write!(text, "{seconds} s");
    }
    let (great, great_unit, small, small_unit) = if days > 0 {
        (days, "d", hours % 24, "h")
    } else if hours > 0 {
        (hours, "h", minutes % 60, "min")
    } else {
        (minutes, "min", seconds % 60, "s")
    };
    write!(text, "{great} {great_unit} {small} {small_unit}")
}

/// Adds a number of milliseconds: as such below a second, and otherwise in seconds and more.
pub(crate) fn push_millis(text: &mut String, millis: u64) -> Result<(), AllocError> {
    if millis < 1_000 {
        return write!(text, "{millis} ms");
    }
    push_duration(text, millis / 1_000)
}

/// Adds a second since 1970 as a date and a time of day of Greenwich, and nothing for one beyond the year 9999.
pub(crate) fn push_clock(text: &mut String, second: u64) -> Result<(), AllocError> {
    match HttpDate::from_unix_secs(second) {
        Ok(date) => write!(text, "{date}"),
        Err(_) => Ok(()),
    }
}
