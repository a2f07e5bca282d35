//! The report of a relay that keeps files.

ghost use Rattle.std.specs.Prelude.{◌≡◌, ◌++◌, IfOk, OnOk, OnErr};
ghost use Rattle.std.specs.String.{string_bytes};
ghost use Rattle.admin_report.specs.FileReport.{file_words, waiting_words, file_line, file_report};

use crate::report_text::push_counts;
use conf_text::Dest;
use dest_queue::Counts;
use relay_base::NoMemory;
use std::alloc::{AllocError, Global};
use std::fmt::Write as _;

/// What waits in the file of a destination.
#[derive(Clone, Copy)]
pub struct FileCounts {
    /// The datapoints, as far as the file can be read.
    pub datapoints: u64,
    /// Their bytes.
    pub bytes: u64,
    /// How many seconds ago the file was last written.
    pub age: u64,
}

/// A line: a destination, what its queue has counted, and what waits in its file, if something does.
#[derive(Drop)]
pub struct ReportLine {
    pub dest: Dest,
    pub counts: Counts,
    pub file: Option<FileCounts>,
}

/// Appends a line for each destination, in the order given: that of [`crate::report`], and before its newline, if something
/// waits in the destination's file, ` spool_datapoints n spool_bytes n spool_age_seconds n`.
///
/// `NoMemory` leaves `out` unchanged.
pub fn report_with_files(
    alloc: Global,
    lines: &[ReportLine],
    out: &mut Vec<u8>,
) -> Result<(), NoMemory>
    ensures report { OnOk result (out.new.items ≡ out.old.items ++ file_report lines.now) }
    ensures unchanged { OnErr result (out.new.items ≡ out.old.items) }
{
    let text = text_of(alloc, lines)?;
    out.extend_from_slice(text.as_str().as_bytes())?;
    Ok(())
}

/// The text of the report.
fn text_of(alloc: Global, lines: &[ReportLine]) -> Result<String, AllocError>
    ensures { IfOk result (λ text. string_bytes text ≡ file_report lines.now) }
{
    let mut text = String::new(alloc);
    for line in lines {
        push_line(&mut text, line)?;
    }
    Ok(text)
}

/// Adds the line of a destination.
fn push_line(text: &mut String, line: &ReportLine) -> Result<(), AllocError>
    ensures { OnOk result (string_bytes text.new ≡ string_bytes text.old ++ file_line line.now) }
{
    write!(text, "destination {}", line.dest)?;
    push_counts(text, &line.counts)?;
    push_waiting(text, line.file)?;
    text.push('\n')
}

/// Adds what waits in a file, if something does.
fn push_waiting(text: &mut String, file: Option<FileCounts>) -> Result<(), AllocError>
    ensures { OnOk result (string_bytes text.new ≡ string_bytes text.old ++ waiting_words file) }
{
    match file {
        Some(file) => push_file(text, file),
        None => Ok(()),
    }
}

/// Adds what waits in a file.
fn push_file(text: &mut String, file: FileCounts) -> Result<(), AllocError>
    ensures { OnOk result (string_bytes text.new ≡ string_bytes text.old ++ file_words file) }
{
    write!(
        text,
        " spool_datapoints {} spool_bytes {} spool_age_seconds {}",
        file.datapoints, file.bytes, file.age
    )
}
