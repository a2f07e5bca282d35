//! The ring.

ghost use Rattle.std.specs.Prelude.{◌≡◌, ◌≤◌, ◌↔◌, [], true, false, nat_lt, length, map, Err, IfOk, OnOk, IsErrOf, IsTrue, IsFalse};
ghost use Rattle.std.specs.List.{list_all};
ghost use Rattle.std.specs.List.Sorted.{IsNonDecreasingBy};
ghost use Rattle.relay_base.specs.DestIds.{are_below};
ghost use Rattle.hash_ring.specs.Entry.{place_of, node_of, has_shared_place, IsRing};
ghost use Rattle.hash_ring.specs.RingOf.{ring_of};
ghost use Rattle.hash_ring.specs.Walk.{in_rising_order, from_position, below_position, taken_by, mark_of, choice};

use crate::choosing::choose_along;
use crate::entries::{MOST_NODES, RingEntries};
use crate::fault::RingFault;
use crate::servers::servers_of;
use conf_text::Dest;
use relay_base::{DestId, NoMemory};
use std::alloc::Global;
use std::marker::Model;

/// A ring: at least one entry, each at its own position, and each node on a server.
///
/// In clauses it is its entries in rising order of position, with the number of each node's server.
#[derive(Drop)]
pub struct Ring {
    entries: Vec<(u32, DestId)>,
    // The server of each node.
    servers: Vec<usize>,
    // How many nodes the entries have, so that a walk ends when it has met them all.
    node_count: usize,
    // On how many servers they are.
    server_count: usize,
}

impl Model for Ring {
    ghost use Rattle.std.specs.Prelude.{◌≡◌, true, false, length, map};
    ghost use Rattle.hash_ring.specs.Entry.{Ring as Entries, IsRing, node_of};
    ghost use Rattle.hash_ring.specs.Walk.{taken_by, mark_of};

    ghost Value = { Entries };

    ghost view = { λ r. record {
      entries = r.entries.items;
      servers = r.servers.items;
    } };

    ghost invariant = { λ r. IsRing (record {
      entries = r.entries.items;
      servers = r.servers.items;
    })
        × (r.node_count ≡ length (taken_by (mark_of r.servers.items false) (map node_of r.entries.items)))
        × (r.server_count ≡ length (taken_by (mark_of r.servers.items true) (map node_of r.entries.items))) };
}

impl Ring {
    /// The ring of these destinations, at most [`MOST_NODES`], with the entries of [`RingEntries::of_nodes`]. A node
    /// is a destination's index in the list, and its server is the first index with the same host, byte for byte.
    ///
    /// An empty list is `Empty`, out of memory is `NoMemory`; it returns neither `SamePosition` nor `NoServer`.
    pub fn from_nodes(alloc: Global, nodes: &[Dest]) -> Result<Ring, RingFault>
        requires { length nodes.now ≤ MOST_NODES }
        ensures ring { IfOk result (λ ring. ring ≡ ring_of nodes.now) }
        ensures below { IfOk result (λ ring.
            are_below (length nodes.now) (map node_of ring.entries) ≡ true) }
        ensures empty { IsErrOf result RingFault.Empty ↔ (nodes.now ≡ []) }
        ensures apart { ¬ (result ≡ Err RingFault.SamePosition) }
        ensures on_servers { ¬ (result ≡ Err RingFault.NoServer) }
    {
        let entries = RingEntries::of_nodes(alloc, nodes)?;
        let servers = servers_of(alloc, nodes)?;
        Ring::from_entries(alloc, entries.into_vec(), servers)
    }

    /// The ring of these entries, in whatever order they are. `servers` has the number of each node's server, at the
    /// index that its [`DestId`] is.
    ///
    /// No entry is `Empty`, two entries at one position are `SamePosition`, an entry whose node is not below the
    /// length of `servers` is `NoServer`, and then out of memory is `NoMemory`; a refusal drops both lists. The time
    /// that it takes grows with the entries times their nodes.
    pub fn from_entries(
        alloc: Global,
        mut entries: Vec<(u32, DestId)>,
        servers: Vec<usize>,
    ) -> Result<Ring, RingFault>
        ensures ring { IfOk result (λ ring. ring ≡ record {
          entries = in_rising_order entries.items;
          servers = servers.items;
        }) }
        ensures empty { IsErrOf result RingFault.Empty ↔ (entries.items ≡ []) }
        ensures same_position { IsErrOf result RingFault.SamePosition
            ↔ IsTrue (has_shared_place entries.items) }
        ensures no_server { IsErrOf result RingFault.NoServer
            ↔ (IsFalse (has_shared_place entries.items)
            × IsFalse (are_below (length servers.items) (map node_of entries.items))) }
    {
        if entries.is_empty() {
            return Err(RingFault::Empty);
        }
        let on_servers = have_servers(&entries, servers.len());
        sort_by_place(&mut entries);
        if has_equal_neighbours(&entries) {
            return Err(RingFault::SamePosition);
        }
        if !on_servers {
            return Err(RingFault::NoServer);
        }
        let node_count = count_nodes(alloc, &entries, &servers, false)?;
        let server_count = count_nodes(alloc, &entries, &servers, true)?;
        Ok(Ring {
            entries,
            servers,
            node_count,
            server_count,
        })
    }

    /// How many entries it has, at least one.
    pub fn len(&self) -> usize
        ensures len { result ≡ length self.now.entries }
        ensures ring { IsRing self.now }
    {
        self.entries.len()
    }

    /// The first `factor` distinct nodes of the walk of a position, or all if there are fewer: the destinations of a
    /// key with that position (the carbon documentation; `docs/ROUTING.md`). If replicas are `diverse`, it skips a
    /// node that is on the server of one already taken.
    ///
    /// It looks at no more entries than it takes to find them. `NoMemory` leaves the ring unchanged.
    pub fn nodes(
        &self,
        alloc: Global,
        position: u16,
        factor: usize,
        diverse: bool,
    ) -> Result<Vec<DestId>, NoMemory>
        ensures { IfOk result (λ nodes. nodes.items ≡ choice self.now position factor diverse) }
    {
        let mut chosen = Vec::new(alloc);
        self.nodes_into(position, factor, diverse, &mut chosen)?;
        Ok(chosen)
    }

    /// Like [`Ring::nodes`], for a caller that calls it often and lends the room: the nodes replace what `chosen`
    /// had. `NoMemory` leaves the ring unchanged, and some of the nodes in `chosen`.
    pub fn nodes_into(
        &self,
        position: u16,
        factor: usize,
        diverse: bool,
        chosen: &mut Vec<DestId>,
    ) -> Result<(), NoMemory>
        ensures { OnOk result (chosen.new.items ≡ choice self.now position factor diverse) }
    {
        let wanted = factor.min(self.most(diverse));
        let (below, above) = split_at_place(&self.entries, u32::from(position));
        chosen.clear();
        choose_along(chosen, above, &self.servers, diverse, wanted)?;
        choose_along(chosen, below, &self.servers, diverse, wanted)?;
        Ok(())
    }

    // The most nodes that can be taken.
    fn most(&self, diverse: bool) -> usize
        ensures { result ≡ length (taken_by (mark_of self.now.servers diverse)
            (map node_of self.now.entries)) }
    {
        if diverse {
            self.server_count
        } else {
            self.node_count
        }
    }
}

// The entries below a position, and those at or above it.
fn split_at_place(entries: &[(u32, DestId)], place: u32) -> (&[(u32, DestId)], &[(u32, DestId)])
    requires { IsNonDecreasingBy place_of entries.now }
    ensures below { result.0.now ≡ in_rising_order (below_position place entries.now) }
    ensures above { result.1.now ≡ in_rising_order (from_position place entries.now) }
{
    let start = entries.partition_point(|entry| entry.0 < place);
    entries.split_at(start)
}

// Puts the entries in rising order of position.
fn sort_by_place(entries: &mut Vec<(u32, DestId)>)
    ensures len { length entries.new.items ≡ length entries.old.items }
    ensures rises { IsNonDecreasingBy place_of entries.new.items }
    ensures shared { has_shared_place entries.new.items ≡ has_shared_place entries.old.items }
    ensures apart { IsFalse (has_shared_place entries.old.items)
        → entries.new.items ≡ in_rising_order entries.old.items }
{
    entries.sort_unstable_by_key(|entry| entry.0);
}

// Whether two neighbouring entries have one position.
fn has_equal_neighbours(entries: &[(u32, DestId)]) -> bool
    requires { IsNonDecreasingBy place_of entries.now }
    ensures { result ≡ has_shared_place entries.now }
{
    for i in 1..entries.len() {
        if entries[i - 1].0 == entries[i].0 {
            return true;
        }
    }
    false
}

// Whether the nodes of all entries are below the number of nodes that have servers.
fn have_servers(entries: &[(u32, DestId)], count: usize) -> bool
    ensures { result ≡ are_below count (map node_of entries.now) }
{
    are_nodes_below(entries, count)
}

fn are_nodes_below(entries: &[(u32, DestId)], count: usize) -> bool
    ensures { result ≡ list_all (λ entry. nat_lt (entry.1.0) count) entries.now }
{
    entries.iter().all(|entry| entry.1.0 < count)
}

// How many nodes of the entries can be taken: the number of servers that they are on if replicas are diverse, and
// their own number if not.
fn count_nodes(
    alloc: Global,
    entries: &[(u32, DestId)],
    servers: &[usize],
    diverse: bool,
) -> Result<usize, NoMemory>
    ensures { IfOk result (λ count.
        count ≡ length (taken_by (mark_of servers.now diverse) (map node_of entries.now))) }
{
    let mut nodes = Vec::new(alloc);
    choose_along(&mut nodes, entries, servers, diverse, entries.len())?;
    Ok(nodes.len())
}
