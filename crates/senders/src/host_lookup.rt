//! Looks hosts up, each name in a thread of its own.

use crate::lookup::{Lookup, LookupAnswer};
use crate::resolve::Resolve;
use crate::sender_share::SenderShare;
use conf_text::Dest;
use crossbeam_channel::{Receiver, Sender, bounded};
use relay_base::{NoMemory, add};
use std::alloc::Global;
use std::net::IpAddr;
use std::sync::{Arc, Mutex, Wait};
use std::thread;
use std::thread::Threads;

/// The look-ups of a name: how many were asked for, how many of these have ended, and what the last of them found. At most one
/// is under way.
#[derive(Clone, Copy)]
struct LookUps {
    asked: u64,
    ended: u64,
    found: LookupAnswer,
}

impl LookUps {
    /// Whether one is under way.
    fn are_under_way(&self) -> bool {
        self.ended < self.asked
    }
}

/// The look-ups of a name, which its thread and those that ask share.
type Slot = Arc<Mutex<LookUps>>;

/// Asks the thread of a name. Once all that hold it have dropped it, that thread ends, after its last answer.
#[derive(Drop)]
struct Desk {
    host: String,
    asks: Sender<()>,
    slot: Slot,
}

impl Desk {
    /// Starts the thread of a name. Refuses if there is no memory, or no thread.
    fn open<R: Threads + Wait + Resolve + Copy + Send + Drop + 'static>(
        rt: R,
        alloc: Global,
        host: &str,
    ) -> Result<Desk, NoMemory> {
        let none = LookUps {
            asked: 0,
            ended: 0,
            found: LookupAnswer::None,
        };
        let slot = Arc::new(alloc, Mutex::new(none))?;
        let theirs = Arc::try_clone(&slot)?;
        let host = String::from_str(alloc, host)?;
        match start(rt, alloc, host.as_str(), theirs) {
            Ok(asks) => Ok(Desk { host, asks, slot }),
            Err(fault) => {
                drop((host, slot));
                Err(fault)
            }
        }
    }

    /// Has the name looked up; one that is under way goes on. Returns the number of that look-up, or `None` if it cannot begin.
    fn ask<R: Wait>(&self, rt: &R) -> Option<u64> {
        // A lock is held no longer than an answer is written or read.
        let mut lookups = self.slot.lock(rt);
        if !lookups.are_under_way() {
            if self.asks.try_send(rt, ()).is_err() {
                return None;
            }
            lookups.asked = lookups.asked.saturating_add(1);
        }
        Some(lookups.asked)
    }

    /// The state of the look-up of a number.
    fn answer<R: Wait>(&self, rt: &R, number: u64) -> LookupAnswer {
        let lookups = self.slot.lock(rt);
        if lookups.ended < number {
            LookupAnswer::UnderWay
        } else {
            lookups.found
        }
    }
}

/// Starts a thread that looks a name up. Returns how to ask it.
fn start<R: Threads + Wait + Resolve + Copy + Send + Drop + 'static>(
    rt: R,
    alloc: Global,
    host: &str,
    slot: Slot,
) -> Result<Sender<()>, NoMemory> {
    let host = String::from_str(alloc, host)?;
    let (asks, asked) = bounded(alloc, 1)?;
    let started = thread::spawn(&rt, move || answer_all(&rt, host.as_str(), &asked, &slot));
    match started {
        Ok(_) => Ok(asks),
        Err(_) => {
            drop(asks);
            Err(NoMemory)
        }
    }
}

/// Looks a name up at each request, and puts the answer into its slot, until there can be no more requests.
fn answer_all<R: Wait + Resolve>(rt: &R, host: &str, asked: &Receiver<()>, slot: &Slot) {
    for _ in rt.forever() {
        if asked.recv(rt).is_err() {
            return;
        }
        let addresses = rt.resolve(host);
        let mut lookups = slot.lock(rt);
        lookups.found = if addresses.is_empty() {
            LookupAnswer::NotFound
        } else {
            LookupAnswer::Found(addresses)
        };
        lookups.ended = lookups.asked;
    }
}

/// The threads that look names up, one for each name, over all runs of a process: a look-up that is under way when a run ends
/// goes on, and no other of that name begins beside it.
#[derive(Drop)]
pub struct HostThreads {
    desks: Mutex<Vec<Arc<Desk>>>,
}

impl HostThreads {
    /// None yet. It takes no memory.
    pub fn new(alloc: Global) -> HostThreads {
        HostThreads {
            desks: Mutex::new(Vec::new(alloc)),
        }
    }

    /// Starts the thread of each of these destinations' hosts that is a name and has none. Refuses if out of memory, also if a
    /// thread cannot be started; those that were started stay.
    pub fn begin<R: Threads + Wait + Resolve + Copy + Send + Drop + 'static>(
        &self,
        rt: R,
        alloc: Global,
        dests: &[Dest],
    ) -> Result<(), NoMemory> {
        for dest in dests {
            let _desk = self.desk_of(rt, alloc, dest)?;
        }
        Ok(())
    }

    /// The threads of other hosts than those of these destinations end; not while they look a name up, so that its destination
    /// finds them if it returns meanwhile.
    pub fn end_others<R: Wait>(&self, rt: &R, dests: &[Dest], others: &[Dest]) {
        let mut desks = self.desks.lock(rt);
        for place in (0..desks.len()).rev() {
            let is_over = match desks.get(place) {
                Some(desk) => {
                    !is_host_of(desk, dests)
                        && !is_host_of(desk, others)
                        && !desk.slot.lock(rt).are_under_way()
                }
                None => false,
            };
            if is_over && place < desks.len() {
                let _ended = desks.remove(place);
            }
        }
    }

    /// What asks the thread of a destination's host, which is started if there is none; `None` if the host is an address.
    fn desk_of<R: Threads + Wait + Resolve + Copy + Send + Drop + 'static>(
        &self,
        rt: R,
        alloc: Global,
        dest: &Dest,
    ) -> Result<Option<Arc<Desk>>, NoMemory> {
        let host = dest.host.as_str();
        if host.parse::<IpAddr>().is_ok() {
            return Ok(None);
        }
        let mut desks = self.desks.lock(&rt);
        for desk in desks.as_slice() {
            if desk.host.as_str() == host {
                return Ok(Some(Arc::try_clone(desk)?));
            }
        }
        let desk = Arc::new(alloc, Desk::open(rt, alloc, host)?)?;
        let own = Arc::try_clone(&desk)?;
        add(&mut *desks, desk)?;
        Ok(Some(own))
    }
}

/// Whether a thread looks up the host of one of these destinations.
fn is_host_of(desk: &Desk, dests: &[Dest]) -> bool {
    dests
        .iter()
        .any(|dest| dest.host.as_str() == desk.host.as_str())
}

/// What asks the thread of a destination's host, and the number of the look-up whose answer the destination waits for, if it does.
#[derive(Drop)]
struct AskedHost {
    desk: Arc<Desk>,
    waits_for: Option<u64>,
}

/// Looks up the hosts of destinations, each name in a thread of its own that no one waits for: a look-up that is never answered
/// holds up no other.
#[derive(Drop)]
pub struct HostLookup<R> {
    rt: R,
    // By destination; none if the host is an address.
    hosts: Vec<Option<AskedHost>>,
}

impl<R: Threads + Wait + Resolve + Copy + Send + Drop + 'static> HostLookup<R> {
    /// Looks up the hosts of a sender's share by these threads. Refuses if out of memory, also if a thread cannot be started.
    pub fn new(
        rt: R,
        alloc: Global,
        threads: &HostThreads,
        share: SenderShare<'_>,
    ) -> Result<HostLookup<R>, NoMemory> {
        let mut hosts = Vec::with_capacity(alloc, share.dests.len())?;
        match add_hosts(&mut hosts, rt, alloc, threads, share) {
            Ok(()) => Ok(HostLookup { rt, hosts }),
            Err(fault) => {
                drop(hosts);
                Err(fault)
            }
        }
    }
}

/// Adds a place for each destination, with what asks the thread of its host if it is one of the sender's.
fn add_hosts<R: Threads + Wait + Resolve + Copy + Send + Drop + 'static>(
    hosts: &mut Vec<Option<AskedHost>>,
    rt: R,
    alloc: Global,
    threads: &HostThreads,
    share: SenderShare<'_>,
) -> Result<(), NoMemory> {
    for (place, dest) in share.dests.iter().enumerate() {
        let desk = if share.has(place) {
            threads.desk_of(rt, alloc, dest)?
        } else {
            None
        };
        let host = match desk {
            Some(desk) => Some(AskedHost {
                desk,
                waits_for: None,
            }),
            None => None,
        };
        hosts.push(host)?;
    }
    Ok(())
}

impl AskedHost {
    /// Has its host looked up, and waits for that.
    fn begin<R: Wait>(&mut self, rt: &R) {
        self.waits_for = self.desk.ask(rt);
    }

    /// The state of the look-up that it waits for. An answer ends the wait.
    fn answer<R: Wait>(&mut self, rt: &R) -> LookupAnswer {
        let Some(number) = self.waits_for else {
            return LookupAnswer::None;
        };
        let answer = self.desk.answer(rt, number);
        if !matches!(answer, LookupAnswer::UnderWay) {
            self.waits_for = None;
        }
        answer
    }
}

impl<R: Wait> Lookup for HostLookup<R> {
    fn begin(&mut self, dest: usize) {
        if let Some(Some(host)) = self.hosts.get_mut(dest) {
            host.begin(&self.rt);
        }
    }

    fn answer(&mut self, dest: usize) -> LookupAnswer {
        match self.hosts.get_mut(dest) {
            Some(Some(host)) => host.answer(&self.rt),
            _ => LookupAnswer::None,
        }
    }
}
