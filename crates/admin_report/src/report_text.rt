//! The lines of the report.

ghost use Rattle.std.specs.Prelude.{◌≡◌, ◌++◌, IfOk, OnOk, OnErr};
ghost use Rattle.std.specs.String.{string_bytes};
ghost use Rattle.admin_report.specs.ReportText.{count_words, destination_line, report_text};

use conf_text::Dest;
use dest_queue::Counts;
use relay_base::NoMemory;
use std::alloc::{AllocError, Global};
use std::fmt::Write as _;

/// Appends a line for each destination, in the order given: `destination D queued n offered n kept n dropped n
/// taken n` and a newline, where D is the destination as it is written in DESTINATIONS and each n is decimal.
///
/// `NoMemory` leaves `out` unchanged.
pub fn report(alloc: Global, lines: &[(Dest, Counts)], out: &mut Vec<u8>) -> Result<(), NoMemory>
    ensures report { OnOk result (out.new.items ≡ out.old.items ++ report_text lines.now) }
    ensures unchanged { OnErr result (out.new.items ≡ out.old.items) }
{
    let text = text_of(alloc, lines)?;
    out.extend_from_slice(text.as_str().as_bytes())?;
    Ok(())
}

/// The text of the report.
fn text_of(alloc: Global, lines: &[(Dest, Counts)]) -> Result<String, AllocError>
    ensures { IfOk result (λ text. string_bytes text ≡ report_text lines.now) }
{
    let mut text = String::new(alloc);
    for (dest, counts) in lines {
        push_line(&mut text, dest, counts)?;
    }
    Ok(text)
}

/// Adds the line of a destination.
fn push_line(text: &mut String, dest: &Dest, counts: &Counts) -> Result<(), AllocError>
    ensures { OnOk result
        (string_bytes text.new ≡ string_bytes text.old ++ destination_line dest.now counts.now) }
{
    write!(text, "destination {dest}")?;
    push_counts(text, counts)?;
    text.push('\n')
}

/// Adds what a queue has counted.
pub(crate) fn push_counts(text: &mut String, counts: &Counts) -> Result<(), AllocError>
    ensures { OnOk result
        (string_bytes text.new ≡ string_bytes text.old ++ count_words counts.now) }
{
    write!(
        text,
        " queued {} offered {} kept {} dropped {} taken {}",
        counts.queued, counts.offered, counts.kept, counts.dropped, counts.taken
    )
}
