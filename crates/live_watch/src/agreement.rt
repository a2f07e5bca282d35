//! Whether offers are those of a datapoint.

ghost use Rattle.std.specs.Prelude.{IsTrue};
ghost use Rattle.live_watch.specs.Agreement.{AreTo};

use crate::batch::NotedOffer;
use relay_base::DestId;

/// Whether these offers are one to each of these destinations, in their order.
pub(crate) fn agree(offers: &[NotedOffer], dests: &[DestId]) -> bool
    ensures agrees { IsTrue result → AreTo offers.now dests.now }
    ensures differs { AreTo offers.now dests.now → IsTrue result }
{
    if offers.len() != dests.len() {
        return false;
    }
    for (place, dest) in dests.iter().enumerate() {
        if usize::from(offers[place].dest) != dest.0 {
            return false;
        }
    }
    true
}
