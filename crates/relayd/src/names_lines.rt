//! The names of a file, one a line, and what is written for each.

use relay_base::{NoMemory, strip_bytes};
use relay_files::{RelayFault, flush, write_all};
use std::alloc::Global;
use std::io::Write;

/// Writes something for each of some names.
pub trait WritesNames {
    /// Writes it. It ends with `BadName` if the text is not a metric name.
    fn write_name<W: Write>(&mut self, name: &[u8], output: &mut W) -> Result<(), RelayFault>;

    /// Notes that a name was bad.
    fn note_bad(&mut self);
}

/// Writes something for the names of a text, one a line, and notes the lines that have a bad one.
pub fn write_names<T: WritesNames, W: Write, N: Write>(
    alloc: Global,
    names: &mut T,
    text: &[u8],
    output: &mut W,
    notes: &mut N,
) -> Result<(), RelayFault> {
    let mut number: u64 = 0;
    for line in text.split_inclusive(|byte| *byte == b'\n') {
        number = number.saturating_add(1);
        let name = strip_bytes(line.strip_suffix(b"\n").unwrap_or(line));
        if name.is_empty() {
            continue;
        }
        match names.write_name(name, output) {
            Err(RelayFault::BadName) => {
                names.note_bad();
                let note = note_of_bad_name(alloc, number)?;
                write_all(notes, note.as_str().as_bytes())?;
            }
            written => written?,
        }
    }
    flush(output)?;
    Ok(())
}

/// The note that the line with this number has a bad name.
fn note_of_bad_name(alloc: Global, number: u64) -> Result<String, NoMemory> {
    Ok(format!(in alloc; "relayd: name: line {number}: BadName\n")?)
}
