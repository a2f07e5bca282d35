//! The choice of nodes along entries.

ghost use Rattle.std.specs.Prelude.{◌≡◌, ◌==◌, List, ◌++◌, map, take, OnOk};
ghost use Rattle.std.specs.List.{list_any};
ghost use Rattle.relay_base.specs.declared.dest_id.DestId.{DestId as Node};
ghost use Rattle.hash_ring.specs.Entry.{node_of};
ghost use Rattle.hash_ring.specs.Walk.{taken_by, mark_of};

use crate::servers::server_of;
use relay_base::{DestId, NoMemory};

/// Takes the nodes of more entries in order, until there are `wanted` of them. Skips a node whose mark is that
/// of one already taken: its server if replicas are diverse, and the node itself if they are not.
pub(crate) fn choose_along(
    chosen: &mut Vec<DestId>,
    entries: &[(u32, DestId)],
    servers: &[usize],
    diverse: bool,
    wanted: usize,
) -> Result<(), NoMemory>
    ensures { OnOk result ((before : List Node)
        → chosen.old.items ≡ take wanted (taken_by (mark_of servers.now diverse) before)
        → chosen.new.items ≡ take wanted (taken_by (mark_of servers.now diverse)
        (before ++ map node_of entries.now))) }
{
    for (_, node) in entries {
        if chosen.len() >= wanted {
            break;
        }
        if !is_passed_over(chosen, *node, servers, diverse) {
            chosen.push(*node)?;
        }
    }
    Ok(())
}

fn is_passed_over(chosen: &[DestId], node: DestId, servers: &[usize], diverse: bool) -> bool
    ensures { result ≡ list_any
        (λ taken. mark_of servers.now diverse taken == mark_of servers.now diverse node) chosen.now }
{
    let mark = mark_of(node, servers, diverse);
    chosen
        .iter()
        .any(|taken| mark_of(*taken, servers, diverse) == mark)
}

fn mark_of(node: DestId, servers: &[usize], diverse: bool) -> usize
    ensures { result ≡ mark_of servers.now diverse node }
{
    if diverse {
        server_of(servers, node)
    } else {
        node.0
    }
}
