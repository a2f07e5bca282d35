//! Which notes of a good configuration are wanted, and what limits a relay has beside it.

/// Which notes of a good configuration are wanted.
#[derive(Clone, Copy)]
pub enum NotesWanted {
    /// All of them.
    All,
    /// Those of what is likely a mistake: neither that keys of carbon have no effect, nor what else would protect a
    /// relay.
    Mistakes,
}

/// The limits that a relay has beside its configuration.
#[derive(Clone, Copy)]
pub struct RunLimits {
    /// How much memory there is for a relay, in bytes, where it is known.
    pub memory: Option<usize>,
    /// Whether a relay is checked that has no limit on the length of names.
    pub lacks_longest_name: bool,
}
