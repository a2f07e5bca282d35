//! How many threads receive lines.

ghost use Rattle.std.specs.Prelude.{◌≡◌, ◌≤◌, ◌↔◌, ℕ, Some, IsSome, IfSome};
ghost use Rattle.relay_base.specs.WholeNumber.{whole_number_up_to};

use relay_base::{MOST_LINE_RECEIVERS, whole_number_up_to};

/// How many receivers of lines a relay has.
#[derive(Clone, Copy)]
pub struct LineReceivers {
    count: usize,
    ghost range: { (1 ≤ count) × (count ≤ 6) },
}

impl LineReceivers {
    /// One receiver of lines.
    pub(crate) fn one() -> LineReceivers
        ensures { result.count ≡ 1 }
    {
        LineReceivers { count: 1 }
    }

    /// This number of receivers, if it is 1 to [`MOST_LINE_RECEIVERS`].
    fn new(count: u64) -> Option<LineReceivers>
        ensures some { IsSome result ↔ ((1 ≤ count) × (count ≤ MOST_LINE_RECEIVERS)) }
        ensures value { IfSome result (λ receivers. receivers.count ≡ count) }
    {
        if count == 0 || count > MOST_LINE_RECEIVERS as u64 {
            return None;
        }
        Some(LineReceivers {
            count: count as usize,
        })
    }

    /// How many there are.
    pub fn count(self) -> usize
        ensures value { result ≡ self.count }
        ensures range { (1 ≤ result) × (result ≤ MOST_LINE_RECEIVERS) }
    {
        self.count
    }
}

/// The number of receivers of lines in decimal digits, if it is 1 to [`MOST_LINE_RECEIVERS`].
pub fn line_receivers_in(text: &str) -> Option<LineReceivers>
    ensures value { IfSome result (λ receivers. whole_number_up_to MOST_LINE_RECEIVERS text.now ≡ Some receivers.count) }
    ensures some { (count : ℕ) → 1 ≤ count → whole_number_up_to MOST_LINE_RECEIVERS text.now ≡ Some count → IsSome result }
{
    LineReceivers::new(whole_number_up_to(text, MOST_LINE_RECEIVERS as u64)?)
}
