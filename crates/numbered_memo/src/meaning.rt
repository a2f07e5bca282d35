//! What a stored value means.

/// A value that a memo stores.
pub trait Meaning {
    /// What it means, apart from where it is in memory.
    ghost Meant: { Type 0 };

    ghost meaning: { Self → Meant };
}
