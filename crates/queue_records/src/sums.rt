//! The sums of the records.
ghost use Rattle.std.specs.Prelude.{◌≡◌, ◌<◌, ◌↔◌, ℕ, List, Some, None, slice_get, slice_index, sum_by, MatchOption, IsTrue};
ghost use Rattle.dest_queue.specs.Offer.{last_count};
ghost use Rattle.queue_records.specs.Settling.{AreSums, HaveSums, IsFirstWithout};

use crate::door_record::DoorRecord;
use crate::outlet_record::OutletRecord;
use dest_queue::Counts;

/// The least destination whose counts are not the sums of the records' counts.
pub fn first_without_sums(
    counts: &[Counts],
    doors: &[DoorRecord],
    outlets: &[OutletRecord],
) -> Option<usize>
    ensures { MatchOption result (HaveSums doors.now outlets.now counts.now)
        (IsFirstWithout (AreSums doors.now outlets.now) counts.now) }
{
    for dest in 0..counts.len() {
        if !are_sums(doors, outlets, dest, &counts[dest]) {
            return Some(dest);
        }
    }
    None
}

/// Whether the counts of a queue are the sums of what doors and outlets count.
fn are_sums(doors: &[DoorRecord], outlets: &[OutletRecord], dest: usize, counts: &Counts) -> bool
    ensures { IsTrue result ↔ AreSums doors.now outlets.now dest counts.now }
{
    totals_add_up(doors, dest, counts.offered)
        && drops_add_up(doors, dest, counts.dropped)
        && totals_add_up(outlets, dest, counts.taken)
}

/// Whether the records' counts at a destination add up to this.
fn totals_add_up<R: Totals>(records: &[R], dest: usize, count: u64) -> bool
    ensures { IsTrue result
        ↔ (sum_by (λ r. slice_index (R.totals_of r) dest) records.now ≡ count) }
{
    total_at(records, dest) == Some(count)
}

/// Whether the offers that were dropped at a destination add up to this.
fn drops_add_up(doors: &[DoorRecord], dest: usize, count: u64) -> bool
    ensures { IsTrue result
        ↔ (sum_by (λ r. slice_index r.drops.items dest) doors.now ≡ count) }
{
    drops_at(doors, dest) == Some(count)
}

/// A record that counts at each destination.
trait Totals {
    // How many it counts at each.
    ghost totals_of: { Self → List ℕ };

    /// How many it counts at each.
    fn totals(&self) -> &[u64]
        ensures { result.now ≡ totals_of self.now };
}

impl Totals for DoorRecord {
    ghost totals_of = { λ r. r.totals.items };

    fn totals(&self) -> &[u64] {
        self.totals.as_slice()
    }
}

impl Totals for OutletRecord {
    ghost totals_of = { λ r. r.totals.items };

    fn totals(&self) -> &[u64] {
        self.totals.as_slice()
    }
}

/// The sum of the records' counts at a destination, if it fits a count.
fn total_at<R: Totals>(records: &[R], dest: usize) -> Option<u64>
    ensures { MatchOption result
        (last_count < sum_by (λ r. slice_index (R.totals_of r) dest) records.now)
        (λ n. n ≡ sum_by (λ r. slice_index (R.totals_of r) dest) records.now) }
{
    let mut sum = 0u64;
    for record in records {
        sum = sum.checked_add(record.totals().get(dest).copied().unwrap_or(0))?;
    }
    Some(sum)
}

/// The sum of the offers that were dropped at a destination, if it fits a count.
fn drops_at(doors: &[DoorRecord], dest: usize) -> Option<u64>
    ensures { MatchOption result
        (last_count < sum_by (λ r. slice_index r.drops.items dest) doors.now)
        (λ n. n ≡ sum_by (λ r. slice_index r.drops.items dest) doors.now) }
{
    let mut sum = 0u64;
    for door in doors {
        sum = sum.checked_add(door.drops.get(dest).copied().unwrap_or(0))?;
    }
    Some(sum)
}
