//! How names find their destinations.

ghost use Rattle.std.specs.Prelude.{◌≡◌, length, map, true, IfOk, IfErr, OnOk};
ghost use Rattle.relay_base.specs.Memory.{Gives};
ghost use Rattle.relay_base.specs.DestIds.{are_below};
ghost use Rattle.hash_ring.specs.Entry.{node_of};
ghost use Rattle.hash_ring.specs.RingOf.{ring_of};
ghost use Rattle.router.specs.Plan.{routing_by, route_of, are_read_for, stays_below};
ghost use Rattle.router.specs.Seen.{routing_seen};

use crate::fault::PlanFault;
use conf_text::{RelayMethod, Settings};
use hash_ring::{Ring, RingFault, position};
use line_text::Name;
use relay_base::{DestId, NoMemory};
use relay_rules::RelayRules;
use std::alloc::Global;

/// By relay rules, or by the ring.
#[derive(Drop)]
pub(crate) enum Routing {
    Rules(RelayRules),
    Ring {
        ring: Ring,
        factor: usize,
        diverse: bool,
    },
}

impl Routing {
    /// The routing of settings. Relay rules that the method does not use are dropped.
    pub(crate) fn new(
        alloc: Global,
        settings: &Settings,
        rules: Option<RelayRules>,
    ) -> Result<Routing, PlanFault>
        requires { are_read_for (length settings.now.routing.destinations) rules ≡ true }
        ensures routing { Gives PlanFault.NoMemory routing_seen result
            (routing_by settings.now.routing.relay_method settings.now rules) }
        ensures below { IfOk result (λ routing.
            stays_below (length settings.now.routing.destinations) (routing_seen routing) ≡ true) }
    {
        match settings.relay_method() {
            RelayMethod::Rules => match rules {
                Some(rules) => Ok(Routing::Rules(rules)),
                None => Err(PlanFault::NoRules),
            },
            RelayMethod::ConsistentHashing => Ok(Routing::Ring {
                ring: ring_of(alloc, settings)?,
                factor: settings.replication_factor(),
                diverse: settings.diverse_replicas(),
            }),
        }
    }

    /// Puts the destinations of a rewritten name in place of what `dests` had.
    pub(crate) fn route(&mut self, name: &Name, dests: &mut Vec<DestId>) -> Result<(), NoMemory>
        ensures route { OnOk result (dests.new.items ≡ route_of (routing_seen self.old) name.now) }
        ensures same { self.new ≡ self.old }
    {
        match self {
            Routing::Rules(rules) => rules.route_into(name, dests),
            Routing::Ring {
                ring,
                factor,
                diverse,
            } => ring.nodes_into(position(name.text().as_bytes()), *factor, *diverse, dests),
        }
    }
}

/// The ring of the destinations of settings. There is at least one, no two of their entries share a position, and
/// each has a server.
fn ring_of(alloc: Global, settings: &Settings) -> Result<Ring, PlanFault>
    ensures ring { IfOk result (λ ring. ring ≡ ring_of settings.now.routing.destinations) }
    ensures below { IfOk result (λ ring.
        are_below (length settings.now.routing.destinations) (map node_of ring.entries) ≡ true) }
    ensures memory { IfErr result (λ fault. fault ≡ PlanFault.NoMemory) }
{
    match Ring::from_nodes(alloc, settings.destinations()) {
        Ok(ring) => Ok(ring),
        Err(RingFault::NoMemory) => Err(PlanFault::NoMemory),
        Err(RingFault::Empty | RingFault::SamePosition | RingFault::NoServer) => unreachable!(),
    }
}
