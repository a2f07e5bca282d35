//! How long receivers wait for takes of a queue.

ghost use Rattle.std.specs.Prelude.{◌≡◌, ◌≤◌};

/// How many naps a receiver waits at most for takes of a queue, from one take that leaves nothing to the next: some six
/// milliseconds.
const MOST_NAPS: usize = 60;

/// How long a receiver may still wait for takes of a queue. Each take that leaves nothing renews it: the sender keeps up. Without
/// such a take it is spent once, so a store that takes too little holds nobody up for longer.
#[derive(Clone, Copy)]
pub(crate) struct Patience {
    naps: usize,
    // How many takes have left nothing.
    renewals: u64,
}

impl Patience {
    /// Nobody waits: nothing was taken yet, or the queue is not filling.
    pub(crate) fn none() -> Patience
        ensures { result.naps ≡ 0 }
    {
        Patience {
            naps: 0,
            renewals: 0,
        }
    }

    /// How many naps a receiver may still wait.
    pub(crate) fn naps(self) -> usize
        ensures { result ≡ self.naps }
    {
        self.naps
    }

    /// A take has left nothing.
    pub(crate) fn renew(&mut self)
        ensures { self.new.naps ≡ MOST_NAPS }
    {
        self.naps = MOST_NAPS;
        self.renewals = self.renewals.wrapping_add(1);
    }

    /// A receiver that had this patience before has waited this many naps. They count unless a take has left nothing meanwhile; of
    /// receivers that waited side by side, the longest wait counts.
    pub(crate) fn spend(&mut self, before: Patience, naps: usize)
        ensures { self.new.naps ≤ self.old.naps }
    {
        let left = before.naps.saturating_sub(naps);
        if self.renewals == before.renewals && left < self.naps {
            self.naps = left;
        }
    }
}
