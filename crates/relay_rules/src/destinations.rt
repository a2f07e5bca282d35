//! Destinations by their index in DESTINATIONS.

ghost use Rattle.std.specs.Prelude.{◌≡◌, position, IfOk, OnOk};
ghost use Rattle.conf_text.specs.SameDestination.{same_destination};
ghost use Rattle.relay_rules.specs.Destinations.{id_of, ids_of, with_more};

use conf_text::Dest;
use relay_base::{DestId, NoMemory};
use std::alloc::{AllocError, Global};

/// The indices of the named destinations, in order, without those that DESTINATIONS does not have.
pub(crate) fn ids_of(
    alloc: Global,
    dests: &[Dest],
    named: &[Dest],
) -> Result<Vec<DestId>, AllocError>
    ensures { IfOk result (λ ids. ids.items ≡ ids_of dests.now named.now) }
{
    named
        .iter()
        .filter_map(|dest| id_of(dests, dest))
        .collect(alloc)
}

fn id_of(dests: &[Dest], named: &Dest) -> Option<DestId>
    ensures { result ≡ id_of dests.now named.now }
{
    let place = place_of(dests, named)?;
    Some(DestId(place))
}

fn place_of(dests: &[Dest], named: &Dest) -> Option<usize>
    ensures { result ≡ position (λ dest. same_destination dest named.now) dests.now }
{
    dests.iter().position(|dest| *dest == *named)
}

/// Adds the indices that a route does not have yet.
pub(crate) fn mention(route: &mut Vec<DestId>, ids: &[DestId]) -> Result<(), NoMemory>
    ensures { OnOk result (route.new.items ≡ with_more route.old.items ids.now) }
{
    for id in ids {
        if !route.contains(id) {
            route.push(*id)?;
        }
    }
    Ok(())
}
