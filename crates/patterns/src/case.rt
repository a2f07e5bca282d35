//! Whether case counts.

ghost use Rattle.std.specs.Prelude.{◌≡◌};
ghost use Rattle.patterns.specs.Case.{is_ignored};

/// Whether a pattern distinguishes upper and lower case, unless it says so itself.
#[derive(Clone, Copy)]
pub enum Case {
    /// It does.
    Observed,
    /// It does not.
    Ignored,
}

pub(crate) fn is_ignored(case: Case) -> bool
    ensures { result ≡ is_ignored case }
{
    matches!(case, Case::Ignored)
}
