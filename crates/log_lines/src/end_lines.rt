//! The lines of the log on ends: of threads without memory, of files that were sent, and of the relay.

ghost use Rattle.std.specs.Prelude.{◌≡◌, ◌++◌, OnOk};
ghost use Rattle.std.specs.String.{string_bytes};
ghost use Rattle.log_lines.specs.EndLines.{dest_end_line, dest_end_words, relay_end_line, lost_receiver_line, lost_sender_line};

use conf_text::Dest;
use std::alloc::AllocError;
use std::fmt::Write as _;

/// What ends for a destination.
#[derive(Clone, Copy)]
pub enum DestEnd {
    /// The file of an earlier run was sent to it.
    FileSent,
    /// It is diverted to files.
    SpoolBegins,
    /// Its files take no more for now: they have the size that all may have, or there is no room.
    SpoolFull,
    /// Its files take more again.
    SpoolGoesOn,
    /// A drain did not wait for it: it took nothing.
    TakesNothing,
    /// A drain did not wait for it: it was too slow.
    TooSlow,
    /// Its file took no more: there was no room.
    NoRoom,
    /// Its file took no more: it could not be written.
    CannotWrite,
    /// Its file keeps this many datapoints.
    Spooled { datapoints: u64 },
    /// This many datapoints were not sent to it.
    Unsent { datapoints: u64 },
    /// It is gone, and its file keeps this many datapoints.
    GoneSpooled { datapoints: u64 },
    /// It is gone, and this many datapoints were not sent to it.
    GoneUnsent { datapoints: u64 },
}

/// What the relay ends with, or goes on with.
#[derive(Clone, Copy)]
pub enum RelayEnd {
    /// Files keep this many datapoints.
    Spooled { datapoints: u64 },
    /// This many datapoints were not sent.
    Unsent { datapoints: u64 },
    /// It goes on, and the files of all destinations have so many of the hundred parts that they may have: so many bytes.
    SpoolFilled { percent: u64, bytes: u64 },
}

/// Adds the line on the end of what a destination is sent. Fails when out of memory; the text may have a part of the line
/// then.
pub fn push_dest_end_line(text: &mut String, dest: &Dest, end: DestEnd) -> Result<(), AllocError>
    ensures { OnOk result
        (string_bytes text.new ≡ string_bytes text.old ++ dest_end_line dest.now end) }
{
    write!(text, "destination {dest} ")?;
    push_dest_end_words(text, end)?;
    text.push('\n')
}

/// Adds what ends for a destination.
fn push_dest_end_words(text: &mut String, end: DestEnd) -> Result<(), AllocError>
    ensures { OnOk result (string_bytes text.new ≡ string_bytes text.old ++ dest_end_words end) }
{
    match end {
        DestEnd::FileSent => text.push_str("spool sent"),
        DestEnd::SpoolBegins => text.push_str("spool begins"),
        DestEnd::SpoolFull => text.push_str("spool full"),
        DestEnd::SpoolGoesOn => text.push_str("spool goes on"),
        DestEnd::TakesNothing => text.push_str("not waited for: takes nothing"),
        DestEnd::TooSlow => text.push_str("not waited for: too slow"),
        DestEnd::NoRoom => text.push_str("spool: no room"),
        DestEnd::CannotWrite => text.push_str("spool: cannot write"),
        DestEnd::Spooled { datapoints } => write!(text, "stopped, {datapoints} datapoints spooled"),
        DestEnd::Unsent { datapoints } => write!(text, "stopped, {datapoints} datapoints not sent"),
        DestEnd::GoneSpooled { datapoints } => write!(
            text,
            "gone, {datapoints} datapoints spooled"
        ),
        DestEnd::GoneUnsent { datapoints } => write!(
            text,
            "gone, {datapoints} datapoints not sent"
        ),
    }
}

/// Adds the line on what the relay ends with. Fails when out of memory; the text may have a part of the line then.
pub fn push_relay_end_line(text: &mut String, end: RelayEnd) -> Result<(), AllocError>
    ensures { OnOk result (string_bytes text.new ≡ string_bytes text.old ++ relay_end_line end) }
{
    match end {
        RelayEnd::Spooled { datapoints } => {
            write!(text, "relay stopped, {datapoints} datapoints spooled\n")
        }
        RelayEnd::Unsent { datapoints } => {
            write!(text, "relay stopped, {datapoints} datapoints not sent\n")
        }
        RelayEnd::SpoolFilled { percent, bytes } => {
            write!(text, "relay spool {percent} % full, {bytes} bytes\n")
        }
    }
}

/// Adds the line on a receiver of a name that ended out of memory. Fails when out of memory; the text may have a part of
/// the line then.
pub fn push_lost_receiver_line(text: &mut String, name: &str) -> Result<(), AllocError>
    ensures { OnOk result
        (string_bytes text.new ≡ string_bytes text.old ++ lost_receiver_line name.now) }
{
    write!(text, "receiver {name} ended: out of memory\n")
}

/// Adds the line on the sender of a number that ended out of memory. Fails when out of memory; the text may have a part of
/// the line then.
pub fn push_lost_sender_line(text: &mut String, number: usize) -> Result<(), AllocError>
    ensures { OnOk result
        (string_bytes text.new ≡ string_bytes text.old ++ lost_sender_line number) }
{
    write!(text, "sender {number} ended: out of memory\n")
}
