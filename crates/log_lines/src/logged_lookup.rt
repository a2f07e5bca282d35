//! When the log reports that a host name is being looked up.

ghost use Rattle.std.specs.Prelude.{◌≡◌, false};
ghost use Rattle.log_lines.specs.LoggedLookup.{lookup_event};

/// An event of a look-up that takes long.
#[derive(Clone, Copy)]
pub enum LookupEvent {
    /// The host of the destination has been looked up for more than a second.
    Hangs,
    /// The look-up that the log reported has ended.
    Ended,
}

/// What the log has reported of the look-ups of a destination's host.
#[derive(Clone, Copy)]
pub struct LoggedLookup {
    pub(crate) is_long: bool,
}

impl LoggedLookup {
    /// The log has reported nothing.
    pub fn new() -> LoggedLookup
        ensures { result.is_long ≡ false }
    {
        LoggedLookup { is_long: false }
    }

    /// Returns what the log reports, by whether a look-up now takes more than a second: what it has not
    /// reported.
    pub fn look(&mut self, is_long: bool) -> Option<LookupEvent>
        ensures event { result ≡ lookup_event self.old.is_long is_long }
        ensures logged { self.new.is_long ≡ is_long }
    {
        let was_long = self.is_long;
        self.is_long = is_long;
        match (was_long, is_long) {
            (false, true) => Some(LookupEvent::Hangs),
            (true, false) => Some(LookupEvent::Ended),
            _ => None,
        }
    }
}
