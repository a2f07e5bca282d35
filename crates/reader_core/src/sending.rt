//! From datapoints to offers.
ghost use Rattle.std.specs.Prelude.{◌≡◌, ◌∷◌, ◌++◌, [], Some, OnOk, IfOk};
ghost use Rattle.std.specs.Option.{is_none};
ghost use Rattle.std.specs.Arc.{arc_value};
ghost use Rattle.router.specs.Plan.{sent_by};
ghost use Rattle.reader_core.specs.PlanConfiguration.{to_all};
ghost use Rattle.reader_core.specs.Offers.{offers_of_point, offers_by, dropped_by};

use crate::offer::WaitingOffer;
use line_text::Point;
use relay_base::{DestId, NoMemory};
use router::Plan;
use std::collections::VecDeque;
use std::sync::Arc;

/// Sends all datapoints by a plan: the offers that they become wait behind those that wait already. Returns
/// how many datapoints rewriting dropped. After an `Err`, the waiting offers begin with those that waited
/// before. The caller lends the room for the destinations of a datapoint.
pub(crate) fn send_points(
    plan: &mut Plan,
    points: &mut Vec<Point>,
    dests: &mut Vec<DestId>,
    waiting: &mut VecDeque<WaitingOffer>,
) -> Result<u64, NoMemory>
    ensures waiting { OnOk result
        (waiting.new.items ≡ waiting.old.items ++ offers_by plan.old points.old.items) }
    ensures dropped { IfOk result (λ dropped. dropped ≡ dropped_by plan.old points.old.items) }
    ensures plan { plan.new ≡ plan.old }
{
    let mut dropped: u64 = 0;
    for point in points.drain(..) {
        let is_dropped = send_point(plan, point, dests, waiting)?;
        dropped += u64::from(is_dropped);
    }
    Ok(dropped)
}

/// Sends a datapoint by a plan, and says whether rewriting dropped it. After an `Err`, the waiting offers
/// begin with those that waited before.
fn send_point(
    plan: &mut Plan,
    point: Point,
    dests: &mut Vec<DestId>,
    waiting: &mut VecDeque<WaitingOffer>,
) -> Result<bool, NoMemory>
    ensures waiting { OnOk result
        (waiting.new.items ≡ waiting.old.items ++ offers_of_point plan.old point) }
    ensures dropped { IfOk result (λ dropped. dropped ≡ is_none (sent_by plan.old point).point) }
    ensures plan { plan.new ≡ plan.old }
{
    match plan.send_into(point, dests)? {
        None => Ok(true),
        Some(point) => {
            offer_to_all(point, dests.as_slice(), waiting)?;
            Ok(false)
        }
    }
}

/// Adds an offer of a datapoint to each of these destinations, in order. They share the datapoint.
fn offer_to_all(
    point: Arc<Point>,
    dests: &[DestId],
    waiting: &mut VecDeque<WaitingOffer>,
) -> Result<(), NoMemory>
    ensures { OnOk result (waiting.new.items
        ≡ waiting.old.items ++ to_all (Some (arc_value point)) dests.now) }
{
    let Some((last, others)) = dests.split_last() else {
        return Ok(());
    };
    for dest in others {
        offer_to(*dest, Arc::try_clone(&point)?, waiting)?;
    }
    offer_to(*last, point, waiting)
}

/// Adds an offer of a datapoint to a destination.
fn offer_to(
    dest: DestId,
    point: Arc<Point>,
    waiting: &mut VecDeque<WaitingOffer>,
) -> Result<(), NoMemory>
    ensures { OnOk result (waiting.new.items
        ≡ waiting.old.items ++ to_all (Some (arc_value point)) (dest ∷ [])) }
{
    match waiting.push_back(WaitingOffer { dest, point }) {
        Ok(()) => Ok(()),
        Err(_) => Err(NoMemory),
    }
}
