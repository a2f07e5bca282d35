//! Where in a text its sending stands.
ghost use Rattle.std.specs.Prelude.{◌≡◌, ℕ, ◌+◌, ◌^◌, ◌<◌, List, [], ◌∷◌, ◌++◌, length, flat_map};
ghost use Rattle.backlog.specs.Lines.{whole_lines};
ghost use Rattle.backlog.specs.Place.{place_after};

use crate::whole::whole_length;
use std::marker::Model;

/// Where in a text its sending stands: where the first line begins that was not wholly taken, and what the connection gets
/// next. Places are counted in bytes from the beginning of the text.
///
/// Clauses see it as both places. They hold for texts of less than 2^64 bytes.
#[derive(Drop)]
pub struct Cursor {
    start: u64,
    next: u64,
}

impl Model for Cursor {
    ghost use Rattle.backlog.specs.Place.{Place};

    ghost Value = { Place };

    ghost view = { λ c. record { start = c.start; next = c.next } };
}

impl Cursor {
    /// No connection took anything.
    pub fn new() -> Cursor
        ensures { result ≡ place_after [] [] }
    {
        Cursor { start: 0, next: 0 }
    }

    /// Connections that are over took whole lines up to this place.
    pub fn at(place: u64) -> Cursor
        ensures { (over : List (List ℕ)) → place ≡ length (flat_map whole_lines over)
            → result ≡ place_after over [] }
    {
        Cursor {
            start: place,
            next: place,
        }
    }

    /// Where the first line begins that no connection took to its end.
    pub fn start(&self) -> u64
        ensures { result ≡ self.now.start }
    {
        self.start
    }

    /// Where the next byte is that the connection gets.
    pub fn next(&self) -> u64
        ensures { result ≡ self.now.next }
    {
        self.next
    }

    /// The connection took these bytes more.
    pub fn take(&mut self, taken: &[u8])
        ensures took { (over : List (List ℕ)) (before : List ℕ)
            → self.old ≡ place_after over before
            → (place_after over (before ++ taken.now)).next < 2 ^ 64
            → self.new ≡ place_after over (before ++ taken.now) }
    {
        self.start = start_behind(self.start, self.next, taken);
        self.next = self.next.saturating_add(taken.len() as u64);
    }

    /// The connection is over: the next one gets the text from the beginning of the first line that was not wholly taken.
    pub fn reconnect(&mut self)
        ensures over { (over : List (List ℕ)) (taken : List ℕ)
            → self.old ≡ place_after over taken
            → self.new ≡ place_after (over ++ taken ∷ []) [] }
    {
        self.next = self.start;
    }
}

/// Where the first line begins that is not wholly taken, once a connection that gets the byte at `next` took these bytes
/// more.
fn start_behind(start: u64, next: u64, taken: &[u8]) -> u64
    ensures { (base : ℕ) (before : List ℕ)
        → start ≡ base + length (whole_lines before)
        → next ≡ base + length before
        → base + length (before ++ taken.now) < 2 ^ 64
        → result ≡ base + length (whole_lines (before ++ taken.now)) }
{
    let whole = whole_length(taken);
    if whole > 0 {
        next.saturating_add(whole as u64)
    } else {
        start
    }
}
