//! The names of receivers.

ghost use Rattle.std.specs.Prelude.{◌<◌};

use crate::losses_line::InputUnit;

/// The name of a receiver, as the log has it. It stands for the same receiver in all runs of a process: what one was told of, and
/// what it held, goes on with that of its name, wherever it listens then.
#[derive(Clone, Copy)]
pub enum ReceiverName {
    /// The one receiver of lines.
    Line,
    /// One of several receivers of lines, by its number: 5 at most.
    LineOf(usize),
    /// The receiver of pickles.
    Pickle,
    /// The receiver of datagrams.
    Datagram,
}

impl ReceiverName {
    /// Its text, which is also the name of its thread.
    pub fn text(self) -> &'static str {
        match self {
            ReceiverName::Line => "line",
            ReceiverName::LineOf(number) => line_name(number),
            ReceiverName::Pickle => "pickle",
            ReceiverName::Datagram => "udp",
        }
    }

    /// What its readers read whole.
    pub fn unit(self) -> InputUnit {
        match self {
            ReceiverName::Line | ReceiverName::LineOf(_) => InputUnit::Line,
            ReceiverName::Pickle => InputUnit::Frame,
            ReceiverName::Datagram => InputUnit::Datagram,
        }
    }

    /// Its place among all receivers that a process may have. A process has one receiver of lines, or several: no two of one process
    /// have the same place.
    pub fn place(self) -> usize
        ensures { result < 8 }
    {
        match self {
            ReceiverName::Line => 0,
            ReceiverName::LineOf(number) => number.min(5),
            ReceiverName::Pickle => 6,
            ReceiverName::Datagram => 7,
        }
    }
}

/// How many places there are.
pub const RECEIVER_PLACES: usize = 8;

/// The name of one of several receivers of lines, of which there are six at most.
fn line_name(number: usize) -> &'static str {
    match number {
        0 => "line 0",
        1 => "line 1",
        2 => "line 2",
        3 => "line 3",
        4 => "line 4",
        _ => "line 5",
    }
}
