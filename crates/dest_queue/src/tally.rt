//! What a queue has counted.
ghost use Rattle.std.specs.Prelude.{◌≡◌, ◌+◌, ◌-◌, ◌^◌, ◌<◌, [], slice_set, IfOk};
ghost use Rattle.std.specs.Vec.{vec_len};
ghost use Rattle.dest_queue.specs.Queue.{empty_queue};
ghost use Rattle.dest_queue.specs.Tally.{tallied_queue, tallied_counts};

use crate::counts::Counts;
use crate::offer::Kept;
use relay_base::NoMemory;
use std::alloc::Global;

/// What a queue has counted, in datapoints, and each reader's next number.
#[derive(Drop)]
pub(crate) struct Tally {
    pub(crate) offered: u64,
    pub(crate) kept: u64,
    pub(crate) dropped: u64,
    pub(crate) taken: u64,
    pub(crate) next: Vec<u64>,
}

impl Tally {
    /// Zeros, for this many readers, or out of memory for their numbers.
    pub(crate) fn new(alloc: Global, readers: usize) -> Result<Tally, NoMemory>
        ensures zeros { IfOk result (λ tally. tallied_queue [] tally 0 ≡ empty_queue readers) }
    {
        let next = vec![in alloc; 0; readers]?;
        Ok(Tally {
            offered: 0,
            kept: 0,
            dropped: 0,
            taken: 0,
            next,
        })
    }

    /// Resets it to zeros, for the same readers.
    pub(crate) fn restart(&mut self)
        ensures zeros { tallied_queue [] self.new 0 ≡ empty_queue (vec_len self.old.next) }
        ensures readers { vec_len self.new.next ≡ vec_len self.old.next }
    {
        self.offered = 0;
        self.kept = 0;
        self.dropped = 0;
        self.taken = 0;
        self.next.fill(0);
    }

    /// Becomes equal to the tally of a queue with the same number of readers. Takes no memory.
    pub(crate) fn copy_from(&mut self, other: &Tally)
        requires readers { vec_len self.old.next ≡ vec_len other.now.next }
        ensures offered { self.new.offered ≡ other.now.offered }
        ensures kept { self.new.kept ≡ other.now.kept }
        ensures dropped { self.new.dropped ≡ other.now.dropped }
        ensures taken { self.new.taken ≡ other.now.taken }
        ensures next { self.new.next.items ≡ other.now.next.items }
    {
        self.offered = other.offered;
        self.kept = other.kept;
        self.dropped = other.dropped;
        self.taken = other.taken;
        self.next.copy_from_slice(other.next.as_slice());
    }

    /// Counts an offer, which the queue answered with `kept`, as the reader's offer with this number.
    pub(crate) fn count_offer(&mut self, reader: usize, number: u64, kept: Kept)
        requires reader { reader < vec_len self.old.next }
        requires number { number < 2 ^ 64 - 1 }
        requires offered { self.old.offered < 2 ^ 64 - 1 }
        requires kept { self.old.kept < 2 ^ 64 - 1 }
        requires dropped { self.old.dropped < 2 ^ 64 - 1 }
        ensures offered { self.new.offered ≡ self.old.offered + 1 }
        ensures queued { kept ≡ Kept.Queued → (self.new.kept ≡ self.old.kept + 1)
            × (self.new.dropped ≡ self.old.dropped) }
        ensures dropped { kept ≡ Kept.Dropped → (self.new.kept ≡ self.old.kept)
            × (self.new.dropped ≡ self.old.dropped + 1) }
        ensures taken { self.new.taken ≡ self.old.taken }
        ensures next { self.new.next.items ≡ slice_set self.old.next.items reader (number + 1) }
    {
        match kept {
            Kept::Queued => self.kept += 1,
            Kept::Dropped => self.dropped += 1,
        }
        self.offered += 1;
        self.next[reader] = number + 1;
    }

    /// The counts of a queue that has this tally, holds this many datapoints and was sealed this often.
    pub(crate) fn counts(&self, queued: usize, seals: u64) -> Counts
        ensures { result ≡ tallied_counts self.now queued seals }
    {
        Counts {
            offered: self.offered,
            kept: self.kept,
            dropped: self.dropped,
            taken: self.taken,
            queued: queued as u64,
            seals,
        }
    }
}
