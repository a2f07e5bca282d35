//! What a relay answers to `watch`.

ghost use Rattle.std.specs.Prelude.{◌≡◌, None, Some, MatchOption};
ghost use Rattle.admin_client.specs.WatchAnswer.{watch_end, gathered_in};
ghost use Rattle.admin_client.specs.WatchText.{watch_said};

use crate::reload_answer::behind;

/// The words before the number of a watch that is open.
pub const WATCHING: &[u8] = b"watching ";

/// The words before what a watch has gathered.
pub const WATCHED: &[u8] = b"watched ";

/// The words before the reason why none is opened.
pub const WATCH_REFUSED: &[u8] = b"refused ";

/// The answer to a number that is of no watch.
pub const WATCH_OVER: &[u8] = b"over\n";

/// What a relay answers to `watch`.
#[derive(Clone, Copy)]
pub enum WatchAnswer<'a> {
    /// A watch is open: its number, and byte 10.
    Opened(&'a [u8]),
    /// What it has gathered since it was asked last: a line of counts, and then its lines.
    Gathered(&'a [u8]),
    /// None is opened: why, and byte 10.
    Refused(&'a [u8]),
    /// There is no watch of that number.
    Over,
}

/// What an answer to `watch` says, if it is one.
pub fn watch_answer_in(answer: &[u8]) -> Option<WatchAnswer<'_>>
    ensures { MatchOption result (watch_end answer.now ≡ None)
        (λ said. watch_end answer.now ≡ Some (watch_said said)) }
{
    if answer == WATCH_OVER {
        return Some(WatchAnswer::Over);
    }
    match behind(WATCHING, answer) {
        Some(number) => Some(WatchAnswer::Opened(number)),
        None => gathered_or_refused(answer),
    }
}

/// What an answer says of what was gathered, or why no watch is opened, if it does.
fn gathered_or_refused(answer: &[u8]) -> Option<WatchAnswer<'_>>
    ensures { MatchOption result (gathered_in answer.now ≡ None)
        (λ said. gathered_in answer.now ≡ Some (watch_said said)) }
{
    match behind(WATCHED, answer) {
        Some(rest) => Some(WatchAnswer::Gathered(rest)),
        None => match behind(WATCH_REFUSED, answer) {
            Some(why) => Some(WatchAnswer::Refused(why)),
            None => None,
        },
    }
}
