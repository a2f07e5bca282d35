//! What a relay answers to `route`.

ghost use Rattle.std.specs.Prelude.{◌≡◌, None, Some, MatchOption};
ghost use Rattle.admin_client.specs.RouteAnswer.{route_end};
ghost use Rattle.admin_client.specs.RouteText.{route_said};

use crate::reload_answer::behind;

/// The words before the line of a metric that is sent on.
pub const ROUTED: &[u8] = b"route ";

/// The answer to a name of which rewriting leaves nothing.
pub const DROPPED: &[u8] = b"dropped\n";

/// Where a relay sends a metric.
#[derive(Clone, Copy)]
pub enum RouteAnswer<'a> {
    /// On: its new name and its destinations, separated by one space, and byte 10.
    Sent(&'a [u8]),
    /// Nowhere: rewriting leaves no name.
    Dropped,
}

/// What an answer to `route` says, if it is one.
pub fn route_answer_in(answer: &[u8]) -> Option<RouteAnswer<'_>>
    ensures { MatchOption result (route_end answer.now ≡ None)
        (λ said. route_end answer.now ≡ Some (route_said said)) }
{
    if answer == DROPPED {
        return Some(RouteAnswer::Dropped);
    }
    match behind(ROUTED, answer) {
        Some(line) => Some(RouteAnswer::Sent(line)),
        None => None,
    }
}
