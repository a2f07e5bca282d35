//! The line of a reader.
ghost use Rattle.std.specs.Prelude.{◌≡◌, ◌++◌, OnOk};
ghost use Rattle.std.specs.String.{string_bytes};
ghost use Rattle.run_record.specs.ScriptLines.{kind_word, reader_line};

use reader_core::ReaderKind;
use std::alloc::AllocError;

/// Adds the line that declares a reader.
pub(crate) fn push_reader(kind: ReaderKind, text: &mut String) -> Result<(), AllocError>
    ensures { OnOk result
        (string_bytes text.new ≡ string_bytes text.old ++ reader_line kind) }
{
    text.push_str("reader ")?;
    text.push_str(kind_word(kind))?;
    text.push('\n')
}

fn kind_word(kind: ReaderKind) -> &'static str
    ensures { result.now ≡ kind_word kind }
{
    match kind {
        ReaderKind::Line => "line",
        ReaderKind::Pickle => "pickle",
        ReaderKind::Datagram => "datagram",
    }
}
