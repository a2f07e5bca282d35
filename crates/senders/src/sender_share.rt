//! The destinations of one of several senders.

use conf_text::Dest;

/// A relay's destinations, of which a sender has some: of `n` senders, sender `k` has the destinations `k`, `k + n` and so on.
#[derive(Clone, Copy)]
pub struct SenderShare<'d> {
    /// The destinations of all senders.
    pub dests: &'d [Dest],
    /// The sender's number.
    pub sender: usize,
    /// How many senders there are.
    pub senders: usize,
}

impl<'d> SenderShare<'d> {
    /// All of these destinations, of a lone sender.
    pub fn all(dests: &'d [Dest]) -> SenderShare<'d> {
        SenderShare {
            dests,
            sender: 0,
            senders: 1,
        }
    }

    /// Whether the sender has the destination of a place.
    pub(crate) fn has(&self, place: usize) -> bool {
        place.checked_rem(self.senders) == Some(self.sender)
    }
}
