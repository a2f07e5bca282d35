//! The connections that are served in a turn.
ghost use Rattle.std.specs.Prelude.{◌≡◌, ◌≤◌, ◌<◌, ℕ, Bool, true, length};
ghost use Rattle.queue_records.specs.Offers.{IsRefusedBy};
ghost use Rattle.receivers.specs.Turns.{TurnsProgress};

use crate::accept::Accept;
use crate::bad_input::has_more;
use crate::input_counts::InputCounts;
use crate::receiver::Receiver;
use line_text::Moment;
use mio_loops::{MOST_CONNECTIONS, ReadLoop, StopFlag, Token};
use queue_records::Door;
use router::Plan;
use std::io::Read;

/// Serves the connections that are marked or are in the again list, each once, in the order of the tokens, all at a moment,
/// and tells the listener which of them sent datapoints or bad input. If the stop flag is set before a connection's turn, the connection is
/// not served: it is in the again list then.
pub(crate) fn serve_until<S: Read + Drop, A: Accept, D: Door, F: StopFlag>(
    receiver: &mut Receiver<A, D>,
    reads: &mut ReadLoop<S>,
    marks: [bool; MOST_CONNECTIONS],
    moment: Moment,
    stop: &F,
)
    requires dests { receiver.old.plan.destinations ≤ length (D.record_of receiver.old.door).totals }
    ensures went { (may_give : ℕ → Bool) → may_give moment ≡ true
        → TurnsProgress (IsRefusedBy D.may_refuse) may_give receiver.old.plan reads.old reads.new (D.record_of receiver.old.door)
        (D.record_of receiver.new.door) }
    ensures dests { receiver.old.plan.destinations ≤ length (D.record_of receiver.new.door).totals }
    ensures plan { receiver.new.plan ≡ receiver.old.plan }
{
    for token in 0..MOST_CONNECTIONS {
        serve_or_list(receiver, reads, Token(token), marks[token], moment, stop);
    }
}

/// Serves the connection of a token, which is or is not ready, if it is due; if the stop flag is set, it puts
/// the token into the again list instead.
fn serve_or_list<S: Read + Drop, A: Accept, D: Door, F: StopFlag>(
    receiver: &mut Receiver<A, D>,
    reads: &mut ReadLoop<S>,
    token: Token,
    ready: bool,
    moment: Moment,
    stop: &F,
)
    requires within { token.0 < MOST_CONNECTIONS }
    requires dests { receiver.old.plan.destinations ≤ length (D.record_of receiver.old.door).totals }
    ensures went { (may_give : ℕ → Bool) → may_give moment ≡ true
        → TurnsProgress (IsRefusedBy D.may_refuse) may_give receiver.old.plan reads.old reads.new (D.record_of receiver.old.door)
        (D.record_of receiver.new.door) }
    ensures dests { receiver.old.plan.destinations ≤ length (D.record_of receiver.new.door).totals }
    ensures plan { receiver.new.plan ≡ receiver.old.plan }
{
    if !reads.is_due(token, ready) {
        return;
    }
    if stop.is_set() {
        reads.list_again(token);
        return;
    }
    let before = counts_at(reads, token, &receiver.plan);
    let _served = reads.serve_one(token, &mut receiver.plan, &mut receiver.door, moment);
    let now = counts_at(reads, token, &receiver.plan);
    note_served(&mut receiver.source, reads, token, before, now);
}

/// What the reader of a token has counted by now.
fn counts_at<S: Read + Drop>(reads: &ReadLoop<S>, token: Token, plan: &Plan) -> InputCounts
    requires within { token.0 < MOST_CONNECTIONS }
{
    InputCounts {
        totals: reads.totals_at(token),
        emptied: plan.emptied(),
    }
}

/// Tells the listener what the connection of a token, which was served, has sent, and whether that was bad: its reader had
/// counted this before and counts that now.
fn note_served<S: Read + Drop, A: Accept>(
    listener: &mut A,
    reads: &ReadLoop<S>,
    token: Token,
    before: InputCounts,
    now: InputCounts,
) {
    listener.note_served(token, now.since(&before));
    let faults = now.faults_since(&before);
    if has_more(before.totals.faults, faults) {
        listener.note_bad(token, before.totals.faults, faults, reads.buffer());
    }
}
