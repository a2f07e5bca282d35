//! Offers of readers to destinations.
ghost use Rattle.std.specs.Prelude.{◌≡◌, ◌<◌, ◌++◌, ℕ, List, false, [], ◌∷◌, length, OnOk, OnErr, IfOk};
ghost use Rattle.std.specs.List.{All};
ghost use Rattle.std.specs.Arc.{arc_value};
ghost use Rattle.dest_queue.specs.Offer.{last_count};
ghost use Rattle.router.specs.Plan.{Plan as PlanValue};
ghost use Rattle.reader_core.specs.Input.{Stream};
ghost use Rattle.reader_core.specs.Configuration.{Dispatch};
ghost use Rattle.reader_core.specs.Reader.{Represents};
ghost use Rattle.relay_core.specs.World.{is_nothing};
ghost use Rattle.relay_core.specs.Offering.{OfFirst, dests_after_offer, offer_answer};
ghost use Rattle.relay_core.specs.Stored.{TakesOffers};

use crate::destination::Destination;
use crate::event::Answer;
use dest_queue::Kept;
use line_text::Point;
use reader_core::{Reader, ReaderKind};
use relay_base::NoMemory;
use std::sync::Arc;

/// A reader makes the first offer that waits, to its destination. Routes name only destinations
/// that exist; an offer to another would reach no queue.
pub(crate) fn offer_first(
    reader: &mut Reader,
    number: usize,
    destinations: &mut Vec<Destination>,
) -> Result<Answer, NoMemory>
    requires waits { is_nothing reader.old.waiting ≡ false }
    requires takes { (readers events : ℕ) × (number < readers) × (events < last_count)
        × All (TakesOffers readers events) destinations.old.items }
    ensures reader { OnOk result (OfFirst reader.old.waiting (λ sent.
        (kind : ReaderKind) (plan : PlanValue) (input : List Stream) (taken : List Dispatch)
        → Represents reader.old kind plan input taken
        → Represents reader.new kind plan input (taken ++ sent ∷ []))) }
    ensures destinations { OnOk result (OfFirst reader.old.waiting (λ sent.
        destinations.new.items ≡ dests_after_offer number sent destinations.old.items)) }
    ensures answer { IfOk result (λ answer. OfFirst reader.old.waiting (λ sent.
        answer ≡ offer_answer destinations.old.items sent)) }
    ensures count { length destinations.new.items ≡ length destinations.old.items }
    ensures reader_err { OnErr result (reader.new ≡ reader.old) }
    ensures destinations_err { OnErr result (destinations.new.items ≡ destinations.old.items) }
{
    let Some((dest, point)) = reader.first_offer() else {
        unreachable!();
    };
    let answer = offer_at(destinations, dest.0, number, point)?;
    reader.next_offer();
    Ok(answer)
}

/// A reader offers a datapoint to the destination with this number, if there is one.
fn offer_at(
    destinations: &mut Vec<Destination>,
    dest: usize,
    reader: usize,
    point: &Arc<Point>,
) -> Result<Answer, NoMemory>
    requires { (readers events : ℕ) × (reader < readers) × (events < last_count)
        × All (TakesOffers readers events) destinations.old.items }
    ensures destinations { OnOk result (destinations.new.items ≡ dests_after_offer reader
        (record { dest = dest; point = arc_value point.now }) destinations.old.items) }
    ensures answer { IfOk result (λ answer. answer ≡ offer_answer destinations.old.items
        (record { dest = dest; point = arc_value point.now })) }
    ensures count { length destinations.new.items ≡ length destinations.old.items }
    ensures err { OnErr result (destinations.new.items ≡ destinations.old.items) }
{
    if dest >= destinations.len() {
        return Ok(Answer::Done);
    }
    match destinations[dest].offer(reader, point)? {
        Kept::Queued => Ok(Answer::Done),
        Kept::Dropped => Ok(Answer::Dropped),
    }
}
