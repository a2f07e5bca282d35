//! How many files a process may open, by the file in which Linux says it.

use relay_base::{short_whole_number, strip};

/// How many files a process may open, by the text of its `/proc/PID/limits`; `None` for another text.
pub fn open_file_limit(text: &str) -> Option<u64> {
    for line in text.split('\n') {
        if let Some(rest) = line.strip_prefix("Max open files") {
            return first_number(strip(rest));
        }
    }
    None
}

fn first_number(text: &str) -> Option<u64> {
    let word = match text.split_once(' ') {
        Some((word, _)) => word,
        None => text,
    };
    short_whole_number(word, 19)
}
