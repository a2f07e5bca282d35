//! The servers that nodes are on, by their numbers.

ghost use Rattle.std.specs.Prelude.{◌≡◌, ◌<◌, length, position, IfOk, IfErr};
ghost use Rattle.std.specs.Str.{bytes_eq};
ghost use Rattle.hash_ring.specs.Servers.{server_of, server_number, servers_of};

use conf_text::Dest;
use relay_base::{DestId, NoMemory};
use std::alloc::Global;

/// The server of a node; each node of a ring has one.
pub(crate) fn server_of(servers: &[usize], node: DestId) -> usize
    ensures { result ≡ server_of servers.now node }
{
    servers.get(node.0).copied().unwrap_or(0)
}

/// The number of each destination's server: the first index in the list with its host, byte for byte. An empty
/// list takes no memory.
pub(crate) fn servers_of(alloc: Global, nodes: &[Dest]) -> Result<Vec<usize>, NoMemory>
    ensures servers { IfOk result (λ servers. servers.items ≡ servers_of nodes.now) }
    ensures some { IfErr result (λ _. 0 < length nodes.now) }
{
    let mut servers = Vec::new(alloc);
    for node in nodes {
        servers.push(server_number(nodes, node))?;
    }
    Ok(servers)
}

fn server_number(nodes: &[Dest], node: &Dest) -> usize
    ensures { result ≡ server_number nodes.now node.now }
{
    first_on_host(nodes, node).unwrap_or(nodes.len())
}

// The first index of a destination on the host of this one.
fn first_on_host(nodes: &[Dest], node: &Dest) -> Option<usize>
    ensures { result ≡ position (λ other. bytes_eq other.host node.now.host) nodes.now }
{
    nodes.iter().position(|other| is_on_host(other, node))
}

fn is_on_host(other: &Dest, node: &Dest) -> bool
    ensures { result ≡ bytes_eq other.now.host node.now.host }
{
    other.host == node.host
}
