//! Why a relay was not asked, or did not answer.

use relay_base::NoMemory;
use std::io::ErrorKind;
use thiserror::Error;

/// Why a command was not carried out. Its text is what follows `relayd: admin: ` and the address on standard error; that of
/// `Output` and `NoMemory` follows `relayd: `, and that of `LongName` `relayd: name: `.
#[derive(Clone, Copy, Debug, Error)]
pub enum AdminFault {
    /// Nothing listens at the port, or the system refused a connection.
    #[error("{reason}")]
    CannotConnect { reason: ErrorKind },
    /// The command could not be sent, or the connection ended without an answer: a relay has not read the command.
    #[error("no answer")]
    NoAnswer,
    /// No whole answer came in time: a relay may still carry out the command.
    #[error("no answer in time")]
    NotInTime,
    /// The connection ended within an answer of a relay.
    #[error("answer cut off")]
    CutOff,
    /// The relay takes commands only with its key.
    #[error("wrong key")]
    WrongKey,
    /// What listens at the port does not know the command.
    #[error("unknown command")]
    UnknownCommand,
    /// What listens at the port answered as no relay does.
    #[error("no relay")]
    NoRelay,
    /// The relay took `stop`, and has not ended within a day.
    #[error("still running")]
    StillRunning,
    /// A name has more than [`LONGEST_ROUTED`](crate::LONGEST_ROUTED) bytes.
    #[error("more than 4096 bytes")]
    LongName,
    /// The output could not be written.
    #[error("output")]
    Output,
    /// Out of memory.
    #[error("no memory")]
    NoMemory,
}

impl From<NoMemory> for AdminFault {
    fn from(_fault: NoMemory) -> AdminFault {
        AdminFault::NoMemory
    }
}
