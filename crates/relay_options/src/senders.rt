//! How many threads send.

ghost use Rattle.std.specs.Prelude.{◌≡◌, ◌≤◌, ◌↔◌, ℕ, Some, IsSome, IfSome};
ghost use Rattle.relay_base.specs.WholeNumber.{whole_number_up_to};

use queue_records::MOST_SENDERS;
use relay_base::whole_number_up_to;

/// How many senders a relay has.
#[derive(Clone, Copy)]
pub struct Senders {
    count: usize,
    ghost range: { (1 ≤ count) × (count ≤ 8) },
}

impl Senders {
    /// One sender.
    pub(crate) fn one() -> Senders
        ensures { result.count ≡ 1 }
    {
        Senders { count: 1 }
    }

    /// This number of senders, if it is 1 to [`MOST_SENDERS`].
    fn new(count: u64) -> Option<Senders>
        ensures some { IsSome result ↔ ((1 ≤ count) × (count ≤ MOST_SENDERS)) }
        ensures value { IfSome result (λ senders. senders.count ≡ count) }
    {
        if count == 0 || count > MOST_SENDERS as u64 {
            return None;
        }
        Some(Senders {
            count: count as usize,
        })
    }

    /// How many there are.
    pub fn count(self) -> usize
        ensures value { result ≡ self.count }
        ensures range { (1 ≤ result) × (result ≤ MOST_SENDERS) }
    {
        self.count
    }
}

/// The number of senders in decimal digits, if it is 1 to [`MOST_SENDERS`].
pub fn senders_in(text: &str) -> Option<Senders>
    ensures value { IfSome result (λ senders. whole_number_up_to MOST_SENDERS text.now ≡ Some senders.count) }
    ensures some { (count : ℕ) → 1 ≤ count → whole_number_up_to MOST_SENDERS text.now ≡ Some count → IsSome result }
{
    Senders::new(whole_number_up_to(text, MOST_SENDERS as u64)?)
}
