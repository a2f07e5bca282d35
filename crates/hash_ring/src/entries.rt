//! The entries of a ring, while they are being placed.

ghost use Rattle.std.specs.Prelude.{◌≡◌, ◌+◌, ◌*◌, ◌<◌, ◌≤◌, [], length, IfOk, IfErr, OnOk, OnErr, IsFalse};
ghost use Rattle.hash_ring.specs.Entry.{has_shared_place};
ghost use Rattle.hash_ring.specs.Placing.{free_place, with_entry, with_entries, replicas, entries_of};

use crate::key::{position, replica_key};
use conf_text::Dest;
use relay_base::{DestId, MOST_DESTINATIONS, NoMemory};
use std::alloc::Global;
use std::collections::HashSet;
use std::marker::Model;

/// How many replicas a node has on the ring.
pub const REPLICAS: usize = 100;

// The definition writes this number itself.
const _: () = prove!(REPLICAS == 100);

/// The most nodes that a ring is made of: one for each destination.
pub const MOST_NODES: usize = MOST_DESTINATIONS;

/// The most entries that are placed: the replicas of [`MOST_NODES`] nodes.
pub const LARGEST_RING: usize = 6_400;

/// Entries that are placed one after the other, each at its own position.
///
/// In clauses they are the list of entries in the order in which they were placed.
#[derive(Drop)]
pub struct RingEntries {
    entries: Vec<(u32, DestId)>,
    // The positions of the entries.
    taken: HashSet<u32>,
}

impl Model for RingEntries {
    ghost use Rattle.std.specs.Prelude.{◌≡◌, ℕ, List, nat_eq, IsFalse};
    ghost use Rattle.std.specs.HashSet.{contains};
    ghost use Rattle.hash_ring.specs.Entry.{Entry, is_taken, has_shared_place};

    ghost Value = { List Entry };

    ghost view = { λ r. r.entries.items };

    ghost invariant = { λ r. ((p : ℕ) → contains nat_eq r.taken p ≡ is_taken r.entries.items p)
        × IsFalse (has_shared_place r.entries.items) };
}

impl RingEntries {
    /// No entries. It takes no memory.
    pub fn new(alloc: Global) -> RingEntries
        ensures { result ≡ [] }
    {
        RingEntries {
            entries: Vec::new(alloc),
            taken: HashSet::new(alloc),
        }
    }

    /// The entries of the ring of these destinations: each has [`REPLICAS`] replicas, which are placed in the
    /// order of the list at the positions of their keys, or at the next free one (the carbon documentation;
    /// `docs/ROUTING.md`). The node of an entry is the destination's index in the list.
    pub fn of_nodes(alloc: Global, nodes: &[Dest]) -> Result<RingEntries, NoMemory>
        requires { length nodes.now ≤ MOST_NODES }
        ensures entries { IfOk result (λ entries. entries ≡ entries_of nodes.now) }
        ensures count { IfOk result (λ entries. length entries ≡ REPLICAS * length nodes.now) }
        // Without a node it takes no memory.
        ensures some { IfErr result (λ _. 0 < length nodes.now) }
    {
        let mut entries = RingEntries::new(alloc);
        for (id, node) in nodes.iter().enumerate() {
            entries.place_replicas(alloc, DestId(id), node)?;
        }
        Ok(entries)
    }

    /// How many entries are placed.
    pub fn len(&self) -> usize
        ensures { result ≡ length self.now }
    {
        self.entries.len()
    }

    /// Adds an entry for a node at the least free position from `wanted` on, and returns that position, which
    /// may be past 65,535: nothing wraps (this project's profile, `docs/ROUTING.md`).
    ///
    /// `NoMemory` leaves the entries unchanged.
    pub fn place(&mut self, wanted: u16, node: DestId) -> Result<u32, NoMemory>
        requires { length self.old < LARGEST_RING }
        ensures place { IfOk result (λ p. p ≡ free_place self.old wanted) }
        ensures ok { IfOk result (λ _. self.new ≡ with_entry self.old (wanted, node)) }
        ensures err { OnErr result (self.new ≡ self.old) }
    {
        let place = self.free_place(wanted);
        self.entries.reserve(1)?;
        self.taken.insert(place)?;
        self.entries.push_reserved((place, node));
        Ok(place)
    }

    /// The entries, in the order in which they were placed.
    pub fn into_vec(self) -> Vec<(u32, DestId)>
        ensures items { result.items ≡ self }
        ensures apart { IsFalse (has_shared_place result.items) }
    {
        let RingEntries { entries, .. } = self;
        entries
    }

    // Places the replicas of a node.
    fn place_replicas(&mut self, alloc: Global, id: DestId, node: &Dest) -> Result<(), NoMemory>
        requires { length self.old + REPLICAS ≤ LARGEST_RING }
        ensures { OnOk result (self.new ≡ with_entries self.old (replicas (id.0, node.now))) }
    {
        for i in 0..REPLICAS {
            let key = replica_key(alloc, node, i)?;
            self.place(position(key.as_bytes()), id)?;
        }
        Ok(())
    }

    // The least free position from `wanted` on.
    fn free_place(&self, wanted: u16) -> u32
        requires { length self.now < LARGEST_RING }
        ensures { result ≡ free_place self.now wanted }
    {
        let mut free = u32::from(wanted);
        while self.taken.contains(&free) {
            free += 1;
        }
        free
    }
}
