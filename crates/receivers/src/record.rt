//! What a receiver returns.
ghost use Rattle.std.specs.Prelude.{◌≡◌, ℕ, Bool};
ghost use Rattle.router.specs.Plan.{Plan as PlanValue};
ghost use Rattle.queue_records.specs.Offers.{IsRefusedBy};
ghost use Rattle.receivers.specs.Record.{EndsFor, RanOrRefused};

use mio_loops::{InputLog, ReadinessFault};
use queue_records::Door;
use reader_core::{Reader, ReaderKind};
use std::alloc::Global;

/// What a receiver returns when it ends.
#[derive(Drop)]
pub struct ReceiverRecord<D> {
    /// The door, with the record of the offers that were made.
    pub door: D,
    /// What the readers were fed. It is empty and sealed if it could not be made.
    pub log: InputLog,
    /// Why the receiver ended, if it was not stopped.
    pub fault: Option<ReadinessFault>,
}

/// What a receiver with readers of a kind returns if there is no memory to begin.
pub(crate) fn without_memory<D: Door + Drop>(
    alloc: Global,
    kind: ReaderKind,
    door: D,
) -> ReceiverRecord<D>
    ensures ran { (plan : PlanValue) (receiver : ℕ) (may_give : ℕ → Bool)
        → RanOrRefused (IsRefusedBy D.may_refuse) kind plan receiver may_give result.log (D.record_of door)
        (D.record_of result.door) }
    ensures fault { EndsFor result.fault result.log (D.record_of door) (D.record_of result.door) }
{
    // No effect at run time: the proof reads that a reader begins with nothing fed.
    let _reader = Reader::new(alloc, kind);
    ReceiverRecord {
        door,
        log: InputLog::none(alloc),
        fault: Some(ReadinessFault::NoMemory),
    }
}
