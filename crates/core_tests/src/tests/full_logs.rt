//! A log that is full.

use crate::tests::repeats::Repeats;
use crate::tests::servings::Serving;
use mio_loops::{InputLog, MOST_LOG_ENTRIES, MOST_READS};
use queue_records::Door;
use relay_base::DestId;
use std::alloc::Global;

/// How many entries a log has, at most one more than it keeps.
fn entries_of(log: &InputLog) -> usize {
    let mut entries = log.entries();
    for count in 0..=MOST_LOG_ENTRIES {
        if entries.next_entry().is_none() {
            return count;
        }
    }
    MOST_LOG_ENTRIES + 1
}

/// Whether the log is full, and is or is not sealed.
fn is_full(serving: &Serving<Repeats>, sealed: bool) -> bool {
    let log = serving.log();
    entries_of(log) == MOST_LOG_ENTRIES && log.sealed() == sealed
}

/// Whether this many offers were made.
fn has_made(serving: &Serving<Repeats>, offers: usize) -> bool {
    let door = serving.door();
    door.dests() > 0 && door.total(DestId(0)) == offers as u64
}

// As many lines as the log keeps, a piece each; then one more, which seals it, and two after that.
fn goes_on_sealed(serving: &mut Serving<Repeats>) -> Option<bool> {
    for _ in 0..MOST_LOG_ENTRIES / MOST_READS {
        serving.serve()?;
    }
    let whole = is_full(serving, false) && has_made(serving, MOST_LOG_ENTRIES);
    serving.serve()?;
    let sealed = is_full(serving, true) && has_made(serving, MOST_LOG_ENTRIES + 3);
    Some(whole && sealed)
}

fn is_sealed(alloc: Global) -> Option<bool> {
    let source = Repeats {
        piece: b"a 1 2\n",
        times: MOST_LOG_ENTRIES + 3,
    };
    let mut serving = Serving::new(alloc, source, 0)?;
    let is_sealed = goes_on_sealed(&mut serving);
    drop(serving);
    is_sealed
}

#[test]
fn a_reader_goes_on_when_its_log_is_sealed(rt: HostRuntime) {
    assert!(rt; is_sealed(rt.alloc()) == Some(true));
}
