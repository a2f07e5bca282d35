//! What reads what a receiver receives.

use log_lines::ReceiverName;
use reader_core::ReaderKind;

/// The kind of the readers of a receiver.
pub fn kind_of(receiver: ReceiverName) -> ReaderKind {
    match receiver {
        ReceiverName::Line | ReceiverName::LineOf(_) => ReaderKind::Line,
        ReceiverName::Pickle => ReaderKind::Pickle,
        ReceiverName::Datagram => ReaderKind::Datagram,
    }
}
