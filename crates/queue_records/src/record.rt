//! What the records of doors and outlets have in common.
ghost use Rattle.std.specs.Prelude.{◌≡◌, List};

use crate::door_record::DoorRecord;
use crate::entry::Entry;
use crate::made::Made;
use crate::outlet_record::OutletRecord;
use crate::taken_batch::TakenBatch;

/// A record, which has entries.
pub(crate) trait Record<E: Entry> {
    // Its entries.
    ghost entries_of: { Self → List E };

    /// Its entries.
    fn entries(&self) -> &[E]
        ensures { result.now ≡ entries_of self.now };
}

impl Record<Made> for DoorRecord {
    ghost entries_of = { λ r. r.made.items };

    fn entries(&self) -> &[Made] {
        self.made.as_slice()
    }
}

impl Record<TakenBatch> for OutletRecord {
    ghost entries_of = { λ r. r.takes.items };

    fn entries(&self) -> &[TakenBatch] {
        self.takes.as_slice()
    }
}
