//! Lines that are written to a log; what it cannot write is lost.

use conf_text::Dest;
use log_lines::{DestEnd, RelayEnd, push_dest_end_line, push_relay_end_line};
use run_state::GoneEnd;
use std::alloc::{AllocError, Global};
use std::io::Write;

/// Writes a line, if any.
pub(crate) fn write_line<L: Write>(output: &mut L, line: Result<String, AllocError>) {
    if let Ok(line) = line {
        write_text(output, line.as_str());
    }
}

/// Writes a line.
pub(crate) fn write_text<L: Write>(output: &mut L, line: &str) {
    // A log that cannot be written holds up nothing.
    let _ = output.write_all(line.as_bytes());
}

/// Writes what ends for a destination, if anything does.
pub(crate) fn write_dest_end<L: Write>(
    output: &mut L,
    alloc: Global,
    dest: &Dest,
    end: Option<DestEnd>,
) {
    if let Some(end) = end {
        write_line(output, dest_end_line(alloc, dest, end));
    }
}

/// Writes what became of what was held for a destination that is gone.
pub(crate) fn write_gone_end<L: Write>(output: &mut L, alloc: Global, dest: &Dest, end: GoneEnd) {
    if end.spooled > 0 {
        let spooled = DestEnd::GoneSpooled {
            datapoints: end.spooled,
        };
        write_dest_end(output, alloc, dest, Some(spooled));
    }
    if end.unsent > 0 || end.spooled == 0 {
        let unsent = DestEnd::GoneUnsent {
            datapoints: end.unsent,
        };
        write_dest_end(output, alloc, dest, Some(unsent));
    }
}

/// Writes what the relay ends with.
pub(crate) fn write_relay_end<L: Write>(output: &mut L, alloc: Global, end: RelayEnd) {
    write_line(output, relay_end_line(alloc, end));
}

/// The line on what ends for a destination.
fn dest_end_line(alloc: Global, dest: &Dest, end: DestEnd) -> Result<String, AllocError> {
    let mut line = String::new(alloc);
    push_dest_end_line(&mut line, dest, end)?;
    Ok(line)
}

/// The line on what the relay ends with.
fn relay_end_line(alloc: Global, end: RelayEnd) -> Result<String, AllocError> {
    let mut line = String::new(alloc);
    push_relay_end_line(&mut line, end)?;
    Ok(line)
}
