//! What no history or no record has.
ghost use Rattle.std.specs.Prelude.{◌≡◌, ℕ, ◌<◌, ◌==◌, if◌then◌else◌, Some, None, length, slice_get, slice_index, IfOk, IfNone, MatchOption};
ghost use Rattle.std.specs.Vec.{vec_len};
ghost use Rattle.queue_records.specs.Settling.{AreUnsealed, HoldsOfEach, IsWhole, IsMet, IsFirstWithout, FitsAt, offers_in, taken_in};
ghost use Rattle.queue_records.specs.Takes.{saturating_sum};

use crate::door_record::DoorRecord;
use crate::made::Made;
use crate::outlet_record::OutletRecord;
use crate::taken_batch::TakenBatch;
use dest_queue::Counts;
use relay_base::NoMemory;
use std::alloc::Global;

/// The least destination whose history was sealed, or of which an offer or a take was left out of the
/// records. The sums of the records are the counts of the queues.
pub fn first_left_out(
    alloc: Global,
    counts: &[Counts],
    doors: &[DoorRecord],
    outlets: &[OutletRecord],
) -> Result<Option<usize>, NoMemory>
    ensures unsealed { IfOk result (λ found. IfNone found (AreUnsealed counts.now)) }
    ensures whole { IfOk result (λ found. MatchOption found
        (HoldsOfEach (IsWhole doors.now outlets.now) counts.now)
        (IsFirstWithout (IsWhole doors.now outlets.now) counts.now)) }
{
    let mut offers = vec![in alloc; 0; counts.len()]?;
    for door in doors {
        count_offers(door.made.as_slice(), &mut offers);
    }
    let mut taken = vec![in alloc; 0; counts.len()]?;
    for outlet in outlets {
        count_taken(outlet.takes.as_slice(), &mut taken);
    }
    Ok(first_short(counts, offers.as_slice(), taken.as_slice()))
}

/// The least destination that was sealed, or for which these numbers fall short of the counts.
fn first_short(counts: &[Counts], offers: &[u64], taken: &[u64]) -> Option<usize>
    requires offers { length offers.now ≡ length counts.now }
    requires taken { length taken.now ≡ length counts.now }
    ensures { MatchOption result (HoldsOfEach (IsMet offers.now taken.now) counts.now)
        (λ dest. IsFirstWithout (IsMet offers.now taken.now) counts.now dest
        × FitsAt counts.now dest) }
{
    for dest in 0..counts.len() {
        let count = counts[dest];
        if count.seals > 0 || offers[dest] < count.offered || taken[dest] < count.taken {
            return Some(dest);
        }
    }
    None
}

/// Counts the offers that a record has, at each destination.
fn count_offers(made: &[Made], offers: &mut Vec<u64>)
    ensures len { vec_len offers.new ≡ vec_len offers.old }
    ensures counts { (d : ℕ) → d < vec_len offers.old → slice_index offers.new.items d
        ≡ saturating_sum (slice_index offers.old.items d) (offers_in d made.now) }
{
    for entry in made {
        add_to(offers, entry.dest.0, 1);
    }
}

/// Counts the datapoints of the takes that a record has, at each destination.
fn count_taken(takes: &[TakenBatch], taken: &mut Vec<u64>)
    ensures len { vec_len taken.new ≡ vec_len taken.old }
    ensures counts { (d : ℕ) → d < vec_len taken.old → slice_index taken.new.items d
        ≡ saturating_sum (slice_index taken.old.items d) (taken_in d takes.now) }
{
    for entry in takes {
        add_to(taken, entry.dest.0, entry.taken as u64);
    }
}

/// Adds to the count of a destination, if there is one.
fn add_to(counts: &mut Vec<u64>, dest: usize, more: u64)
    ensures len { vec_len counts.new ≡ vec_len counts.old }
    ensures counts { (d : ℕ) → d < vec_len counts.old → slice_index counts.new.items d
        ≡ saturating_sum (slice_index counts.old.items d) (if dest == d then more else 0) }
{
    if dest < counts.len() {
        counts[dest] = counts[dest].saturating_add(more);
    }
}
