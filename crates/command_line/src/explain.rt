//! Which notes `--explain` asks for.

/// Which notes are asked for.
#[derive(Clone, Copy)]
pub enum Explain {
    /// None.
    Nothing,
    /// All.
    Notes,
    /// All, and if there is one the run ends with a fault.
    StrictNotes,
}
