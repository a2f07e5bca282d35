//! For which destinations that are gone a stop waits.

ghost use Rattle.std.specs.Prelude.{◌≡◌, ◌≢◌, ◌<◌, ◌↔◌, ℕ, false, IsTrue, IfSome, IfNone, replicate};
ghost use Rattle.run_threads.specs.Drain.{IsNotWaitedFor, seen_of, nothing_seen, progress_after, waits_for};
ghost use Rattle.run_threads.specs.declared.drain.Waits.TheVariants.{Yes};

use crate::drain::{DrainProgress, Waits};
use relay_base::MOST_DESTINATIONS;

/// What a stop sees of destinations that are gone: it waits for each by the rule of a [`crate::Drain`], until that one's own
/// time is over.
#[derive(Drop)]
pub struct GoneDrain {
    has_files: bool,
    progress: [DrainProgress; MOST_DESTINATIONS],
}

impl GoneDrain {
    /// The stop begins at these milliseconds; and whether files keep what is not sent.
    pub fn new(millis: u64, has_files: bool) -> GoneDrain
        ensures files { result.has_files ≡ has_files }
        ensures progress { result.progress ≡ replicate MOST_DESTINATIONS (nothing_seen millis) }
    {
        GoneDrain {
            has_files,
            progress: [DrainProgress::nothing(millis); MOST_DESTINATIONS],
        }
    }

    /// Looks at the destination of a place at these milliseconds, which is sent to up to its end: this much is left, `None` if it
    /// has no connection that takes that. Returns whether the stop waits for it.
    pub fn look(&mut self, place: usize, left: Option<u64>, millis: u64, end: u64) -> bool
        requires place { place < MOST_DESTINATIONS }
        // It has what is left: the stop waits for it by the rule of a drain.
        ensures left { IfSome left (λ left. (seen_of self.new.progress place
            ≡ progress_after left millis (seen_of self.old.progress place))
            × (IsTrue result ↔ (waits_for left millis end self.old.has_files
            (seen_of self.new.progress place) ≡ Yes))) }
        // Nothing takes what is left: the stop does not wait for it.
        ensures none { IfNone left ((seen_of self.new.progress place ≡ nothing_seen millis)
            × (result ≡ false)) }
        ensures others { (other : ℕ) → other ≢ place
            → seen_of self.new.progress other ≡ seen_of self.old.progress other }
        ensures not { result ≡ false → IsNotWaitedFor millis end self.old.has_files
            (seen_of self.old.progress place) (seen_of self.new.progress place) }
        ensures files { self.new.has_files ≡ self.old.has_files }
    {
        let has_files = self.has_files;
        let waits = match left {
            Some(left) => self.progress[place].look(left, millis, end, has_files),
            None => {
                self.progress[place] = DrainProgress::nothing(millis);
                Waits::Done
            }
        };
        match waits {
            Waits::Yes => true,
            Waits::Done | Waits::Stuck | Waits::Slow => false,
        }
    }
}
