//! How much memory a running relay may take.
ghost use Rattle.std.specs.Prelude.{◌≡◌, ◌+◌, ◌*◌, ◌≤◌};

use line_text::LONGEST_NAME;
use relay_base::{LARGEST_QUEUE_SIZE, MOST_DESTINATIONS, MOST_RECEIVERS};

/// The most memory in bytes that a running relay takes with these destinations, this MAX_QUEUE_SIZE, these receivers,
/// and names of this length, each of which occurs once. `docs/OPERATING.md` has the parts of the sum, what comes on top
/// of it, and measurements.
pub fn most_memory(dests: usize, queue_size: usize, receivers: usize, name_length: usize) -> usize
    requires dests { dests ≤ MOST_DESTINATIONS }
    requires queue_size { queue_size ≤ LARGEST_QUEUE_SIZE }
    requires receivers { receivers ≤ MOST_RECEIVERS }
    requires name_length { name_length ≤ LONGEST_NAME }
    ensures { result ≡ 20000000 + 60000000 * receivers + (6000000 + 64 * queue_size) * dests
        + (100 + name_length) * ((queue_size + 65536) * dests + 65536 * receivers) }
{
    // Each destination keeps the datapoints of its queue and of its history, and each receiver those of its record.
    let datapoints = (queue_size + 65_536) * dests + 65_536 * receivers;
    let places = 20_000_000 + 60_000_000 * receivers + (6_000_000 + 64 * queue_size) * dests;
    places + (100 + name_length) * datapoints
}
