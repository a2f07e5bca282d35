//! The destinations that stay.

ghost use Rattle.std.specs.Prelude.{◌≡◌, map, option_map, IfOk};
ghost use Rattle.config_changes.specs.Kept.{place_of, kept_places};

use conf_text::Dest;
use relay_base::{DestId, NoMemory};
use std::alloc::Global;

/// The place of a destination in a list: the first that has its host, port and instance. `None` if it is not there.
pub fn place_of(dest: &Dest, dests: &[Dest]) -> Option<DestId>
    ensures { option_map (λ id. id.0) result ≡ place_of dest.now dests.now }
{
    match first_equal(dest, dests) {
        Some(place) => Some(DestId(place)),
        None => None,
    }
}

/// The number of the first that is equal.
pub(crate) fn first_equal(dest: &Dest, dests: &[Dest]) -> Option<usize>
    ensures { result ≡ place_of dest.now dests.now }
{
    dests.iter().position(|other| *other == *dest)
}

/// For each destination of a new list, in order, its place in the old one, if it was there. Refuses if out of memory.
pub fn kept_places(
    alloc: Global,
    old: &[Dest],
    new: &[Dest],
) -> Result<Vec<Option<DestId>>, NoMemory>
    ensures { IfOk result (λ places.
        map (λ place. option_map (λ id. id.0) place) places.items ≡ kept_places old.now new.now) }
{
    let mut places = Vec::with_capacity(alloc, new.len())?;
    for dest in new {
        places.push_reserved(place_of(dest, old));
    }
    Ok(places)
}
