//! What the system is short of for a run that is to follow.
//!
//! A reload tries what the next run needs before it changes anything, and gives all back at once. Then it makes and holds all that
//! needs a descriptor. Memory for queues and jobs, and threads, may be missing all the same once that run begins, if another
//! program took them.

use crate::relay::Relay;
use conf_text::Dest;
use config_changes::{changed_ports, place_of};
use locked_queues::Set;
use relay_base::{NoMemory, add};
use relay_files::RunConfiguration;
use relay_ports::{free_descriptors, receivers_of};
use std::alloc::Global;
use std::net::{IpAddr, Net};
use std::sync::Arc;
use std::sync::atomic::{AtomicBool, Ordering};
use std::thread;
use std::thread::{JoinHandle, Threads};
use thiserror::Error;

/// How many descriptors a thread waits with: its poller, and its alarm.
const WAITS: usize = 2;

/// How much memory has to be there for the stacks of threads, in bytes: 40 MiB. So much the C library keeps of ended threads for
/// new ones; what is more it takes anew.
const STACKS: usize = 41_943_040;

/// What the system is short of. Its text is what a reload answers.
#[derive(Clone, Copy, Debug, Error)]
pub(crate) enum Shortage {
    /// There was no memory.
    #[error("no memory")]
    Memory,
    /// There are too few descriptors.
    #[error("no descriptors")]
    Descriptors,
    /// A thread could not begin.
    #[error("no threads")]
    Threads,
}

impl From<NoMemory> for Shortage {
    fn from(_fault: NoMemory) -> Shortage {
        Shortage::Memory
    }
}

/// What the run that follows needs, at most.
#[derive(Clone, Copy)]
pub(crate) struct Needs {
    /// All descriptors that it opens: those of this run may be above a limit that was lowered.
    descriptors: usize,
    /// Threads beside those that end with this run.
    threads: usize,
}

impl Needs {
    /// What a run by a configuration needs that follows this one: a port and what it waits with for each receiver, what it waits
    /// with for each sender, that to destinations that are gone and the keeper of files, the system's table of datagrams, and the
    /// file of each destination that is new, and another one of each port that changes; a thread for each receiver and each name that is
    /// new, and that of destinations that are gone.
    pub(crate) fn of<B: Set>(relay: &Relay<B>, configuration: &RunConfiguration) -> Needs {
        let (old, settings) = (relay.configuration.settings(), configuration.settings());
        let new = NewDests::of(old.destinations(), settings.destinations());
        let changed = changed_ports(old, settings);
        let receivers = receivers_of(settings, relay.shape.options);
        let waiting = receivers
            .saturating_add(relay.shape.senders)
            .saturating_add(1)
            .saturating_add(usize::from(relay.shape.spool_size.is_some()));
        let files = if relay.shape.is_spooled { new.count } else { 0 };
        Needs {
            descriptors: waiting
                .saturating_mul(WAITS)
                .saturating_add(receivers)
                .saturating_add(changed.count())
                .saturating_add(1)
                .saturating_add(files),
            threads: new
                .names
                .saturating_add(receivers.saturating_sub(relay.shape.receivers))
                .saturating_add(1),
        }
    }
}

/// The destinations of a configuration that another one does not have: how many, and of how many a name is looked up.
#[derive(Clone, Copy)]
struct NewDests {
    count: usize,
    names: usize,
}

impl NewDests {
    /// Those of the second list that the first does not have.
    fn of(old: &[Dest], new: &[Dest]) -> NewDests {
        let mut found = NewDests { count: 0, names: 0 };
        for dest in new {
            if place_of(dest, old).is_none() {
                found.count = found.count.saturating_add(1);
                if dest.host.as_str().parse::<IpAddr>().is_err() {
                    found.names = found.names.saturating_add(1);
                }
            }
        }
        found
    }
}

/// Tries whether the system has this, and memory for stacks. Refuses what it is short of; in either case it has all back.
pub(crate) fn try_needs<R: Net + Threads>(
    rt: &R,
    alloc: Global,
    needs: Needs,
) -> Result<(), Shortage> {
    if Vec::<u8>::with_capacity(alloc, STACKS).is_err() {
        return Err(Shortage::Memory);
    }
    let free = free_descriptors(rt, alloc, needs.descriptors)?;
    if free < needs.descriptors {
        return Err(Shortage::Descriptors);
    }
    try_threads(rt, alloc, needs.threads)
}

/// Begins so many threads, which wait for each other, and ends them.
fn try_threads<R: Threads>(rt: &R, alloc: Global, count: usize) -> Result<(), Shortage> {
    let Ok(are_over) = Arc::new(alloc, AtomicBool::new(false)) else {
        return Err(Shortage::Memory);
    };
    let mut begun = Vec::new(alloc);
    let tried = begin_threads(rt, count, &are_over, &mut begun);
    are_over.store(true, Ordering::SeqCst);
    for handle in begun {
        handle.join(rt);
    }
    tried
}

/// Begins so many threads, which end once they are over, and adds them.
fn begin_threads<R: Threads>(
    rt: &R,
    count: usize,
    are_over: &Arc<AtomicBool>,
    begun: &mut Vec<JoinHandle<()>>,
) -> Result<(), Shortage> {
    for _ in 0..count {
        let Ok(theirs) = Arc::try_clone(are_over) else {
            return Err(Shortage::Memory);
        };
        match thread::spawn(rt, move || wait_until(&theirs)) {
            Ok(handle) => add(begun, handle)?,
            Err(_) => return Err(Shortage::Threads),
        }
    }
    Ok(())
}

/// Lets other threads run until this is so, which is soon.
fn wait_until(is_so: &AtomicBool) {
    for _ in 0..u64::MAX {
        if is_so.load(Ordering::SeqCst) {
            return;
        }
        thread::yield_now();
    }
}
