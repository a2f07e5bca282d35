//! Lists of destinations.

ghost use Rattle.std.specs.Prelude.{◌≤◌};

use relay_base::{DestId, MOST_DESTINATIONS};

/// Copies the destinations of a list, which names each once, and returns how many they are.
pub fn copy_list(list: &[DestId], copy: &mut [DestId; MOST_DESTINATIONS]) -> usize
    ensures { result ≤ MOST_DESTINATIONS }
{
    let count = list.len().min(MOST_DESTINATIONS);
    copy[..count].copy_from_slice(&list[..count]);
    count
}
