//! Sources of the time.
ghost use Rattle.std.specs.Prelude.{◌≡◌, true};

use line_text::Moment;

/// Gives receivers and senders the time.
pub trait TimeSource {
    ghost use Rattle.std.specs.Prelude.{ℕ, Bool};

    // Whether the source may return this moment.
    ghost may_give: { Self → ℕ → Bool };

    /// The moment: whole seconds since the beginning of 1970.
    fn moment(&self) -> Moment
        ensures { may_give self.now result ≡ true };

    /// Milliseconds since an instant that stays the same. They never fall.
    fn millis(&self) -> u64;
}
