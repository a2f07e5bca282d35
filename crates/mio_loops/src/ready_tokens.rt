//! Which tokens are ready.
ghost use Rattle.std.specs.Prelude.{◌≡◌, ℕ, ◌≤◌, ◌<◌, ◌||◌, ◌==◌, true, false, length, slice_index_or};
ghost use Rattle.mio_loops.specs.ReadTurn.{is_ready};

use crate::read_loop::MOST_CONNECTIONS;
use crate::token::Token;

/// For each token, whether it is among those that are ready.
pub fn marks_of(ready: &[Token]) -> [bool; MOST_CONNECTIONS]
    ensures { (token : ℕ) → token < MOST_CONNECTIONS
        → slice_index_or result token false ≡ is_ready ready.now token }
{
    let mut marks = [false; MOST_CONNECTIONS];
    for token in ready {
        mark(&mut marks, *token);
    }
    marks
}

/// Marks a token, if it may be one of a connection.
fn mark(marks: &mut [bool], token: Token)
    requires { length marks.old ≡ MOST_CONNECTIONS }
    ensures { (other : ℕ) → other < MOST_CONNECTIONS → slice_index_or marks.new other false
        ≡ (slice_index_or marks.old other false || (token.0 == other)) }
{
    if token.0 < MOST_CONNECTIONS {
        marks[token.0] = true;
    }
}
