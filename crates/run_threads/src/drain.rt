//! For whom a drain waits, and when files have what was not sent.

ghost use Rattle.std.specs.Prelude.{◌≡◌, ◌≢◌, ℕ, ◌+◌, ◌*◌, ◌-◌, ◌^◌, ◌≤◌, ◌<◌, ◌==◌, min, true, false, length, replicate, if◌then◌else◌};
ghost use Rattle.run_threads.specs.Drain.{IsLook, IsWaitedFor, IsNotWaitedFor, nothing_seen, seen_of};
ghost use Rattle.run_threads.specs.declared.drain.Waits.{Waits};

use locked_queues::Set;
use relay_base::MOST_DESTINATIONS;
use run_state::{Signals, Unsent};
use std::sync::Wait;

/// How many milliseconds a destination may take nothing before the drain no longer waits for it.
const LONGEST_PAUSE_MS: u64 = 1_000;

/// How many milliseconds pass at least between two looks by which a destination's rate is known.
const RATE_TIME_MS: u64 = 1_000;

/// How many milliseconds may pass in which no file takes anything.
const LONGEST_FILE_PAUSE_MS: u64 = 10_000;

/// A drain: until when it lasts at most, and what each destination has taken since it began.
///
/// It waits for a destination that is connected and has something left, unless this took nothing for a second, or is still sent
/// the file of an earlier run. Where files keep what is not sent, it does not wait either for one that would not have taken all
/// in time at the rate of the last seconds.
#[derive(Drop)]
pub struct Drain {
    end: u64,
    has_files: bool,
    progress: [DrainProgress; MOST_DESTINATIONS],
}

/// What was seen of a destination: how much it had left at a look, and when it had last taken something.
#[derive(Clone, Copy)]
pub(crate) struct DrainProgress {
    left: u64,
    moved: u64,
    // A look some seconds ago, and one after it: by the first of them its rate is known.
    before: Look,
    after: Look,
}

/// How much a destination had left, at which milliseconds.
#[derive(Clone, Copy)]
pub(crate) struct Look {
    left: u64,
    millis: u64,
}

/// Whether a drain waits for a destination.
#[derive(Clone, Copy)]
pub(crate) enum Waits {
    /// It does: the destination still takes something.
    Yes,
    /// It does not: the destination has all, or no connection.
    Done,
    /// It does not: the destination takes nothing.
    Stuck,
    /// It does not: the destination is too slow, and a file keeps the rest.
    Slow,
}

impl Drain {
    /// A drain that begins at these milliseconds, and lasts for this many seconds at most; and whether files keep what is not
    /// sent.
    pub fn new(millis: u64, seconds: u64, has_files: bool) -> Drain
        ensures end { result.end ≡ min (millis + min (seconds * 1000) (2 ^ 64 - 1)) (2 ^ 64 - 1) }
        ensures files { result.has_files ≡ has_files }
        ensures progress { result.progress ≡ replicate MOST_DESTINATIONS (nothing_seen millis) }
    {
        Drain {
            end: millis.saturating_add(seconds.saturating_mul(1_000)),
            has_files,
            progress: [DrainProgress::nothing(millis); MOST_DESTINATIONS],
        }
    }

    /// Looks at each destination at these milliseconds, and notes for which connected ones it does not wait. Returns
    /// whether it is over: it waits for none, or has lasted as long as it may.
    pub fn look<B: Set, R: Wait>(
        &mut self,
        rt: &R,
        unsent: &Unsent<'_, B>,
        signals: &Signals,
        millis: u64,
    ) -> bool
        ensures over { self.old.end ≤ millis → result ≡ true }
        // Before that it is over only if it waits for no destination, by what it saw of each.
        ensures not_before { result ≡ true → millis < self.old.end
            → (place : ℕ) → place < min (length unsent.now.noted.dests.now) MOST_DESTINATIONS
            → IsNotWaitedFor millis self.old.end self.old.has_files
            (seen_of self.old.progress place) (seen_of self.new.progress place) }
        // It goes on only if it waits for one.
        ensures goes_on { result ≡ false → (place : ℕ)
            × (place < min (length unsent.now.noted.dests.now) MOST_DESTINATIONS)
            × IsWaitedFor millis self.old.end self.old.has_files
            (seen_of self.old.progress place) (seen_of self.new.progress place) }
        // It looks at each destination, and at nothing else.
        ensures each { (place : ℕ) → place < min (length unsent.now.noted.dests.now) MOST_DESTINATIONS
            → (waits : Waits) × IsLook millis self.old.end self.old.has_files
            (seen_of self.old.progress place) (seen_of self.new.progress place) waits }
        ensures others { (place : ℕ) → min (length unsent.now.noted.dests.now) MOST_DESTINATIONS ≤ place
            → seen_of self.new.progress place ≡ seen_of self.old.progress place }
        ensures end { self.new.end ≡ self.old.end }
        ensures files { self.new.has_files ≡ self.old.has_files }
    {
        let (mut stuck, mut slow) = (0, 0);
        let mut is_over = true;
        let mut bit: u64 = 1;
        for place in 0..unsent.dests().min(MOST_DESTINATIONS) {
            let own = bit;
            bit = bit.wrapping_mul(2);
            match self.look_at(rt, unsent, place, millis) {
                Waits::Yes => is_over = false,
                Waits::Done => {}
                Waits::Stuck => stuck |= own,
                Waits::Slow => slow |= own,
            }
        }
        signals.note_given_up(stuck, slow);
        is_over || millis >= self.end
    }

    /// Looks at a destination, at these milliseconds.
    fn look_at<B: Set, R: Wait>(
        &mut self,
        rt: &R,
        unsent: &Unsent<'_, B>,
        place: usize,
        millis: u64,
    ) -> Waits
        requires place { (place < B.dests) × (place < 64) }
        ensures look { IsLook millis self.old.end self.old.has_files
            (seen_of self.old.progress place) (seen_of self.new.progress place) result }
        ensures others { (other : ℕ) → other ≢ place
            → seen_of self.new.progress other ≡ seen_of self.old.progress other }
        ensures end { self.new.end ≡ self.old.end }
        ensures files { self.new.has_files ≡ self.old.has_files }
    {
        if !unsent.is_up(place) || unsent.is_behind(place) {
            self.progress[place] = DrainProgress::nothing(millis);
            return Waits::Done;
        }
        let left = unsent.left_at(rt, place);
        let (end, has_files) = (self.end, self.has_files);
        self.progress[place].look(left, millis, end, has_files)
    }
}

impl DrainProgress {
    ghost use Rattle.std.specs.Prelude.{◌≡◌};
    ghost use Rattle.run_threads.specs.Drain.{nothing_seen, progress_after, with_left, with_first_look, with_look, waits_for, is_slow};

    /// Nothing was seen of it before these milliseconds.
    pub(crate) fn nothing(millis: u64) -> DrainProgress
        ensures { result ≡ nothing_seen millis }
    {
        let look = Look {
            left: u64::MAX,
            millis,
        };
        DrainProgress {
            left: u64::MAX,
            moved: millis,
            before: look,
            after: look,
        }
    }

    /// It has this much left, at these milliseconds; the drain ends at those, and files keep what is not sent or do not.
    pub(crate) fn look(&mut self, left: u64, millis: u64, end: u64, has_files: bool) -> Waits
        ensures progress { self.new ≡ progress_after left millis self.old }
        ensures waits { result ≡ waits_for left millis end has_files self.new }
    {
        self.note_left(left, millis);
        if left == 0 {
            return Waits::Done;
        }
        self.note_first_look(left, millis);
        self.note_look(left, millis);
        self.waits_for(left, millis, end, has_files)
    }

    /// It has taken something since the look before, if it has less left.
    fn note_left(&mut self, left: u64, millis: u64)
        ensures { self.new ≡ with_left left millis self.old }
    {
        if left < self.left {
            self.moved = millis;
        }
        self.left = left;
    }

    /// The first look that finds something left is both looks of its rate.
    fn note_first_look(&mut self, left: u64, millis: u64)
        ensures { self.new ≡ with_first_look left millis self.old }
    {
        if self.before.left == u64::MAX {
            self.before = Look { left, millis };
            self.after = self.before;
        }
    }

    /// A look becomes the later one of its rate, if the one before it is old enough.
    fn note_look(&mut self, left: u64, millis: u64)
        ensures { self.new ≡ with_look left millis self.old }
    {
        if millis.saturating_sub(self.after.millis) >= RATE_TIME_MS {
            self.before = self.after;
            self.after = Look { left, millis };
        }
    }

    /// Whether the drain waits for it, with this much left at these milliseconds.
    fn waits_for(&self, left: u64, millis: u64, end: u64, has_files: bool) -> Waits
        ensures { result ≡ waits_for left millis end has_files self.now }
    {
        if left == 0 {
            Waits::Done
        } else if millis.saturating_sub(self.moved) >= LONGEST_PAUSE_MS {
            Waits::Stuck
        } else if has_files && self.is_slow(left, millis, end) {
            Waits::Slow
        } else {
            Waits::Yes
        }
    }

    /// Whether, at its rate since the look before, it will not have taken all of this by the end.
    fn is_slow(&self, left: u64, millis: u64, end: u64) -> bool
        ensures { result ≡ is_slow left millis end self.now }
    {
        let passed = millis.saturating_sub(self.before.millis);
        let taken = self.before.left.saturating_sub(left);
        let time_left = end.saturating_sub(millis);
        passed >= RATE_TIME_MS && left.saturating_mul(passed) > taken.saturating_mul(time_left)
    }
}

/// The first thread waits while the senders write to files what they have not sent: until nothing is left, or for as long as
/// something happens.
#[derive(Drop)]
pub struct SpoolWait {
    // How many bytes the files had taken at a look, and at which milliseconds that had last grown.
    bytes: u64,
    grown_at: u64,
}

impl SpoolWait {
    /// The files begin at these milliseconds.
    pub fn new(millis: u64) -> SpoolWait {
        SpoolWait {
            bytes: 0,
            grown_at: millis,
        }
    }

    /// Looks at each destination at these milliseconds. Returns whether the wait is over: the files have all that is left,
    /// as far as they can be written, or none took anything for [`LONGEST_FILE_PAUSE_MS`].
    pub fn look<B: Set, R: Wait>(&mut self, rt: &R, unsent: &Unsent<'_, B>, millis: u64) -> bool
        ensures goes_on { result ≡ false → millis - self.new.grown_at < 10000 }
        ensures grown { self.new.grown_at
            ≡ (if self.new.bytes == self.old.bytes then self.old.grown_at else millis) }
    {
        let mut bytes: u64 = 0;
        let mut is_over = true;
        for place in 0..unsent.dests() {
            if let Some(notes) = unsent.spool_notes_at(place) {
                bytes = bytes.saturating_add(notes.bytes());
                is_over = is_over && is_done(rt, unsent, place);
            }
        }
        if bytes != self.bytes {
            self.bytes = bytes;
            self.grown_at = millis;
        }
        is_over || millis.saturating_sub(self.grown_at) >= LONGEST_FILE_PAUSE_MS
    }
}

/// Whether the file of a destination, which exists, has all that is left for it, or takes no more. One that has nothing left, and
/// no earlier file, needs no new one.
fn is_done<B: Set, R: Wait>(rt: &R, unsent: &Unsent<'_, B>, place: usize) -> bool
    requires place { place < B.dests }
{
    match unsent.spool_notes_at(place) {
        Some(notes) if notes.failure().is_some() => true,
        Some(notes) => {
            (notes.is_spooling() || !notes.is_behind()) && unsent.left_at(rt, place) == 0
        }
        None => true,
    }
}
