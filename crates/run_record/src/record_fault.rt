//! Why a run has no record.

ghost use Rattle.std.specs.Prelude.{◌≡◌};
ghost use Rattle.run_record.specs.Recorded.{script_fault};
ghost use Rattle.run_record.specs.declared.record_fault.RecordFault.TheVariants.{NoMemory as OutOfMemory};

use crate::parts::RunScriptFault;
use relay_base::NoMemory;
use thiserror::Error;

/// Why a run has no record.
#[derive(Clone, Copy, Debug, Error)]
pub enum RecordFault {
    /// The history of a destination's queue was sealed, or a record has no room for a step there.
    #[error("the history of destination {dest} is not whole")]
    History {
        /// The destination's place in DESTINATIONS.
        dest: usize,
    },
    /// The queues have not settled.
    #[error("the run has not settled")]
    NotSettled,
    /// The log of a receiver was sealed, or could not be made.
    #[error("the log of receiver {receiver} is not whole")]
    Received {
        /// The receiver's place: lines, pickles, datagrams, those that there are.
        receiver: usize,
    },
    /// The log of a destination's writer was sealed, or could not be made.
    #[error("the log of destination {dest} is not whole")]
    Written {
        /// The destination's place in DESTINATIONS.
        dest: usize,
    },
    /// A datagram had no bytes: a replay script has no line for it.
    #[error("an empty datagram was received")]
    EmptyDatagram,
    /// What the threads logged is no run with the counts of the queues. That cannot happen.
    #[error("the logs are not one run")]
    NotOneRun,
    /// Out of memory.
    #[error("no memory")]
    NoMemory,
}

impl From<RunScriptFault> for RecordFault {
    ghost from_gives = { λ fault own. own ≡ script_fault fault };

    fn from(fault: RunScriptFault) -> RecordFault {
        match fault {
            RunScriptFault::EmptyDatagram => RecordFault::EmptyDatagram,
            RunScriptFault::NotOneRun => RecordFault::NotOneRun,
            RunScriptFault::NoMemory => RecordFault::NoMemory,
        }
    }
}

impl From<NoMemory> for RecordFault {
    ghost from_gives = { λ _ fault. fault ≡ OutOfMemory };

    fn from(_fault: NoMemory) -> RecordFault {
        RecordFault::NoMemory
    }
}
