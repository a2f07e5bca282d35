//! How much memory there is, by the files in which Linux says it.

use relay_base::{short_whole_number, strip};

/// The most digits of a number that is read.
const MOST_DIGITS: usize = 19;

/// The memory of the machine in bytes, by the text of `/proc/meminfo`; `None` for another text.
pub fn machine_memory(text: &str) -> Option<usize> {
    let rest = rest_of_line(text, "MemTotal:")?;
    let kilobytes = bytes_in(rest.strip_suffix("kB")?)?;
    Some(kilobytes.saturating_mul(1_024))
}

/// The group of this process below `/sys/fs/cgroup`, by the text of `/proc/self/cgroup`; `None` for another text.
pub fn own_group(text: &str) -> Option<&str> {
    rest_of_line(text, "0::")
}

/// The limit of a group in bytes, by the text of its `memory.max`; `None` without a limit, and for another text.
pub fn group_memory(text: &str) -> Option<usize> {
    bytes_in(text.strip_suffix('\n')?)
}

/// What follows a text on the first line that begins with it, without white space around it.
fn rest_of_line<'a>(text: &'a str, start: &str) -> Option<&'a str> {
    for line in text.split('\n') {
        if let Some(rest) = line.strip_prefix(start) {
            return Some(strip(rest));
        }
    }
    None
}

/// The number that a text is, without white space around it.
fn bytes_in(text: &str) -> Option<usize> {
    let number = short_whole_number(strip(text), MOST_DIGITS)?;
    Some(number as usize)
}
