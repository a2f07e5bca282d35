//! What a settling returns.

ghost use Rattle.std.specs.Prelude.{◌≡◌};
ghost use Rattle.locked_queues.specs.declared.settled.SettleFault.TheVariants.{NoMemory as OutOfMemory};

use dest_queue::{Counts, Step};
use relay_base::{DestId, NoMemory};
use thiserror::Error;

/// The result of a settling: copies of all counts and histories, and a common order of their steps.
#[derive(Debug, Drop)]
pub struct Settled {
    /// What each queue has counted.
    pub counts: Vec<Counts>,
    /// Each queue's history.
    pub histories: Vec<Vec<Step>>,
    /// A common order of all steps: the number 65,536 `d` + `i` is step `i` of destination `d`.
    pub order: Vec<u64>,
}

/// Who made a step: a reader an offer, or the destination's sender a take.
#[derive(Clone, Copy, Debug, PartialEq)]
pub enum StepMaker {
    /// The reader of this number.
    Reader(usize),
    /// The sender that owns the destination.
    Sender,
}

/// Why queues and records do not settle, the first that fits in this order: strangers, out of memory,
/// totals, a seal, a difference, no order.
#[derive(Debug, Drop, Error)]
pub enum SettleFault {
    /// The records are not those of the set's seats, each once.
    #[error("the records are not those of the set")]
    Strangers,
    /// Out of memory.
    #[error("out of memory")]
    NoMemory,
    /// The counts of a queue are not the sums of the records' counts.
    #[error("the totals of destination {} differ", dest.0)]
    Totals {
        /// The least such destination.
        dest: DestId,
    },
    /// A history was sealed, or an offer or a take was left out of a record.
    #[error("the history of destination {} is not whole", dest.0)]
    Sealed {
        /// The least such destination.
        dest: DestId,
        /// The counts of all queues.
        counts: Vec<Counts>,
    },
    /// A history and a record differ.
    #[error("the history of destination {} differs", dest.0)]
    Differs {
        /// The least such destination.
        dest: DestId,
        /// The least reader there, or else the sender.
        whose: StepMaker,
        /// The first place that differs among its offers, or the takes, there.
        place: usize,
    },
    /// The histories and the records have no common order.
    #[error("there is no common order")]
    NoOrder,
}

impl<E: Into<NoMemory> + Drop> From<E> for SettleFault {
    ghost from_gives = { λ _ fault. fault ≡ OutOfMemory };

    fn from(_error: E) -> SettleFault {
        SettleFault::NoMemory
    }
}
