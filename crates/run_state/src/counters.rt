//! Counters that threads share.

use relay_base::{NoMemory, add};
use std::alloc::Global;
use std::sync::atomic::AtomicU64;

/// This many counters, from 0 on.
pub(crate) fn counters(alloc: Global, count: usize) -> Result<Vec<AtomicU64>, NoMemory> {
    let mut counters = Vec::new(alloc);
    for _ in 0..count {
        add(&mut counters, AtomicU64::new(0))?;
    }
    Ok(counters)
}
