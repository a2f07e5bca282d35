//! What became of the datapoints of a piece.

ghost use Rattle.std.specs.Prelude.{◌≡◌, IfOk, IfSome};
ghost use Rattle.router.specs.Plan.{sent_by};
ghost use Rattle.live_watch.specs.SentPoints.{all_sent};

use crate::agreement::agree;
use crate::batch::NotedOffer;
use crate::found::{Found, FoundPiece};
use line_text::Point;
use relay_base::NoMemory;
use router::{Plan, Sent};
use std::alloc::Global;

/// What a plan sends of each datapoint of a piece, and how many of the piece's offers come before those of the first.
#[derive(Drop)]
pub(crate) struct SentPiece {
    pub(crate) sent: Vec<Sent>,
    pub(crate) before: usize,
}

/// What a plan sends of each datapoint of a piece with these offers; `None` if there are other offers than those that it makes.
/// The first offers may be of a datapoint whose begin was not seen.
pub(crate) fn join(
    alloc: Global,
    plan: &mut Plan,
    piece: &FoundPiece,
    offers: &[NotedOffer],
) -> Result<Option<SentPiece>, NoMemory>
    ensures sent { IfOk result (λ joined. IfSome joined (λ it.
        it.sent.items ≡ all_sent plan.old piece.now.found.items)) }
    ensures same { plan.new ≡ plan.old }
{
    let sent = sent_of_all(alloc, &mut *plan, piece.found.as_slice())?;
    let count = offers_of(sent.as_slice());
    let Some(before) = offers.len().checked_sub(count) else {
        drop(sent);
        return Ok(None);
    };
    let is_head_whole = before == 0 || !piece.is_head_known;
    let (_, own) = offers.split_at(before.min(offers.len()));
    if is_head_whole && all_agree(own, sent.as_slice()) {
        Ok(Some(SentPiece { sent, before }))
    } else {
        drop(sent);
        Ok(None)
    }
}

/// What a plan sends of each datapoint.
fn sent_of_all(alloc: Global, plan: &mut Plan, found: &[Found]) -> Result<Vec<Sent>, NoMemory>
    ensures sent { IfOk result (λ sent. sent.items ≡ all_sent plan.old found.now) }
    ensures same { plan.new ≡ plan.old }
{
    let mut sent = Vec::with_capacity(alloc, found.len())?;
    for one in found {
        sent.push_reserved(sent_of(&mut *plan, one)?);
    }
    Ok(sent)
}

/// How many offers are made of what is sent.
fn offers_of(sent: &[Sent]) -> usize {
    let mut count: usize = 0;
    for one in sent {
        count = count.saturating_add(one.dests.len());
    }
    count
}

/// Whether these offers are those of each datapoint, one after the other.
fn all_agree(offers: &[NotedOffer], sent: &[Sent]) -> bool {
    let mut rest = offers;
    for one in sent {
        let (own, others) = rest.split_at(one.dests.len().min(rest.len()));
        rest = others;
        if !agree(own, one.dests.as_slice()) {
            return false;
        }
    }
    true
}

/// What a plan sends of a datapoint.
fn sent_of(plan: &mut Plan, found: &Found) -> Result<Sent, NoMemory>
    ensures sent { IfOk result (λ sent. sent ≡ sent_by plan.old found.now.point) }
    ensures same { plan.new ≡ plan.old }
{
    send(plan, &found.point)
}

/// What a plan sends of a datapoint.
fn send(plan: &mut Plan, point: &Point) -> Result<Sent, NoMemory>
    ensures sent { IfOk result (λ sent. sent ≡ sent_by plan.old point.now) }
    ensures same { plan.new ≡ plan.old }
{
    plan.send(point)
}
