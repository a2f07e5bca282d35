//! Rows of `hash_ring`.

use crate::marks::{CALLS, RowAnswer, begin, end, is_answered, is_made, print_answer, print_state};
use conf_text::Dest;
use hash_ring::{LARGEST_RING, Ring, RingEntries, RingFault, position, replica_key};
use relay_base::DestId;
use std::alloc::Global;

pub(crate) const NAMES: &[&str] = &[
    "replica_key",
    "RingEntries::place",
    "Ring::from_nodes",
    "Ring::from_entries",
    "Ring::nodes",
];

/// Rows that are refused no growth.
pub(crate) const WORKED: &[&str] = &["positions of keys", "a ring of one node"];

pub(crate) fn run(rt: &HostRuntime, alloc: Global, name: &str) -> Option<()> {
    match name {
        "replica_key" => keys(rt, alloc),
        "RingEntries::place" => places(rt, alloc),
        "Ring::from_nodes" => from_nodes(rt, alloc),
        "Ring::from_entries" => from_all_entries(rt, alloc),
        "Ring::nodes" => walk_all(rt, alloc),
        "positions of keys" => positions(rt),
        "a ring of one node" => choose_only(rt, alloc),
        _ => None,
    }
}

/// A node as a configuration names it, and the number of a replica.
struct Replica {
    node: &'static str,
    number: usize,
}

static REPLICAS: [Replica; 2] = [
    Replica {
        node: "10.0.0.1:2004",
        number: 0,
    },
    Replica {
        node: "10.0.0.1:2004:a",
        number: 99,
    },
];

fn keys(rt: &HostRuntime, alloc: Global) -> Option<()> {
    for replica in &REPLICAS {
        let node = Dest::read(alloc, replica.node).ok()?;
        key(rt, alloc, &node, replica.number)?;
    }
    Some(())
}

fn key(rt: &HostRuntime, alloc: Global, node: &Dest, number: usize) -> Option<()> {
    for _ in 0..CALLS {
        begin(rt);
        let answer = replica_key(alloc, node, number);
        end(rt);
        if is_answered(rt, answer) {
            return Some(());
        }
    }
    None
}

// Two nodes that want the last position.
fn places(rt: &HostRuntime, alloc: Global) -> Option<()> {
    let mut entries = RingEntries::new(alloc);
    place(rt, &mut entries, DestId(0))?;
    place(rt, &mut entries, DestId(1))?;
    print_state(rt, &entries.into_vec());
    Some(())
}

// A refused place is not taken: the same node gets it when the call is made again.
fn place(rt: &HostRuntime, entries: &mut RingEntries, node: DestId) -> Option<()> {
    for _ in 0..CALLS {
        print_state(rt, &entries.len());
        if entries.len() >= LARGEST_RING {
            return None;
        }
        begin(rt);
        let answer = entries.place(65_535, node);
        end(rt);
        if is_answered(rt, answer) {
            return Some(());
        }
    }
    None
}

fn from_nodes(rt: &HostRuntime, alloc: Global) -> Option<()> {
    let nodes = [Dest::read(alloc, "10.0.0.1:2004").ok()?];
    for _ in 0..CALLS {
        begin(rt);
        let answer = Ring::from_nodes(alloc, &nodes);
        end(rt);
        if is_made(rt, answer) {
            return Some(());
        }
    }
    None
}

impl RowAnswer for Ring {
    fn print(&mut self, rt: &HostRuntime) {
        print_answer(rt, &self.len());
    }
}

const A: DestId = DestId(0);

const B: DestId = DestId(1);

const C: DestId = DestId(2);

/// The entries of a ring, the server of each node, and what it is asked.
struct Walk {
    entries: &'static [(u32, DestId)],
    servers: &'static [usize],
    choices: &'static [Choice],
}

/// A position, how many nodes are chosen from there, and whether they are to be on servers of their own.
struct Choice {
    position: u16,
    factor: usize,
    diverse: bool,
}

const FOUR: &[(u32, DestId)] = &[(100, A), (200, B), (300, A), (400, C)];

static WALKS: [Walk; 4] = [
    Walk {
        entries: FOUR,
        servers: &[0, 1, 2],
        choices: &[
            Choice {
                position: 250,
                factor: 2,
                diverse: false,
            },
            Choice {
                position: 200,
                factor: 1,
                diverse: false,
            },
            Choice {
                position: 401,
                factor: 2,
                diverse: false,
            },
            Choice {
                position: 250,
                factor: 9,
                diverse: false,
            },
        ],
    },
    Walk {
        entries: FOUR,
        servers: &[0, 0, 1],
        choices: &[
            Choice {
                position: 250,
                factor: 2,
                diverse: true,
            },
            Choice {
                position: 401,
                factor: 2,
                diverse: true,
            },
            Choice {
                position: 200,
                factor: 2,
                diverse: true,
            },
            Choice {
                position: 250,
                factor: 9,
                diverse: true,
            },
        ],
    },
    Walk {
        entries: &[(65_535, A), (65_536, B)],
        servers: &[0, 1],
        choices: &[Choice {
            position: 65_535,
            factor: 1,
            diverse: false,
        }],
    },
    // The position of `abc` is that of the first entry.
    Walk {
        entries: &[(36_865, A), (36_866, B)],
        servers: &[0, 1],
        choices: &[Choice {
            position: 36_865,
            factor: 1,
            diverse: false,
        }],
    },
];

/// Lists of which only the first is a ring.
static LISTS: [Walk; 4] = [
    Walk {
        entries: FOUR,
        servers: &[0, 1, 2],
        choices: &[],
    },
    Walk {
        entries: &[],
        servers: &[],
        choices: &[],
    },
    Walk {
        entries: &[(100, A), (100, B)],
        servers: &[0, 1],
        choices: &[],
    },
    Walk {
        entries: FOUR,
        servers: &[0, 0],
        choices: &[],
    },
];

fn from_all_entries(rt: &HostRuntime, alloc: Global) -> Option<()> {
    for list in &LISTS {
        from_entries(rt, alloc, list)?;
    }
    Some(())
}

// The call takes its lists, so it is made again with new ones.
fn from_entries(rt: &HostRuntime, alloc: Global, list: &Walk) -> Option<()> {
    for _ in 0..CALLS {
        let entries = Vec::from_slice(alloc, list.entries).ok()?;
        let servers = Vec::from_slice(alloc, list.servers).ok()?;
        let _ = println!(rt; "state {entries:?} {servers:?}");
        begin(rt);
        let answer = Ring::from_entries(alloc, entries, servers);
        end(rt);
        if is_settled(rt, answer) {
            return Some(());
        }
    }
    None
}

/// Prints the size of a ring, or why there is none. Returns whether memory sufficed.
fn is_settled(rt: &HostRuntime, answer: Result<Ring, RingFault>) -> bool {
    let for_want = matches!(&answer, Err(RingFault::NoMemory));
    is_made(rt, answer);
    !for_want
}

fn ring(alloc: Global, walk: &Walk) -> Option<Ring> {
    let entries = Vec::from_slice(alloc, walk.entries).ok()?;
    let servers = Vec::from_slice(alloc, walk.servers).ok()?;
    Ring::from_entries(alloc, entries, servers).ok()
}

fn walk_all(rt: &HostRuntime, alloc: Global) -> Option<()> {
    for walk in &WALKS {
        let ring = ring(alloc, walk)?;
        let chosen = choose_all(rt, alloc, &ring, walk.choices);
        drop(ring);
        chosen?;
    }
    Some(())
}

fn choose_all(rt: &HostRuntime, alloc: Global, ring: &Ring, choices: &[Choice]) -> Option<()> {
    for choice in choices {
        choose(rt, alloc, ring, choice)?;
    }
    Some(())
}

fn choose(rt: &HostRuntime, alloc: Global, ring: &Ring, choice: &Choice) -> Option<()> {
    let Choice {
        position,
        factor,
        diverse,
    } = *choice;
    for _ in 0..CALLS {
        let _ = println!(rt; "state {position} {factor} {diverse}");
        begin(rt);
        let answer = ring.nodes(alloc, position, factor, diverse);
        end(rt);
        if is_answered(rt, answer) {
            return Some(());
        }
    }
    None
}

/// The texts of RFC 1321, section A.5.
static KEYS: [&str; 7] = [
    "",
    "a",
    "abc",
    "message digest",
    "abcdefghijklmnopqrstuvwxyz",
    "ABCDEFGHIJKLMNOPQRSTUVWXYZabcdefghijklmnopqrstuvwxyz0123456789",
    "12345678901234567890123456789012345678901234567890123456789012345678901234567890",
];

fn positions(rt: &HostRuntime) -> Option<()> {
    for key in &KEYS {
        let place = position(key.as_bytes());
        let _ = println!(rt; "answer {key:?} {place}");
    }
    Some(())
}

/// From how many positions the ring of one node chooses that node alone, of two.
fn choose_only(rt: &HostRuntime, alloc: Global) -> Option<()> {
    let nodes = [Dest::read(alloc, "10.0.0.1:2004").ok()?];
    let ring = Ring::from_nodes(alloc, &nodes).ok()?;
    let count = count_only(alloc, &ring);
    let _ = println!(rt; "answer {} {count}", ring.len());
    drop(ring);
    Some(())
}

fn count_only(alloc: Global, ring: &Ring) -> usize {
    let mut count: usize = 0;
    for position in 0..=u16::MAX {
        if is_only(alloc, ring, position) {
            count = count.saturating_add(1);
        }
    }
    count
}

fn is_only(alloc: Global, ring: &Ring, position: u16) -> bool {
    match ring.nodes(alloc, position, 2, false) {
        Ok(nodes) => nodes.as_slice() == [A].as_slice(),
        Err(_) => false,
    }
}
