//! What waits in a file.

/// What waits in the file of a destination: all behind what its store is known to have, also what went out and may go again.
#[derive(Clone, Copy)]
pub struct Waiting {
    /// The datapoints, as far as the file can be read.
    pub datapoints: u64,
    /// Their bytes.
    pub bytes: u64,
    /// The second since 1970 at which the file was last written.
    pub written_at: u64,
}

impl Waiting {
    /// Nothing waits.
    pub fn nothing() -> Waiting {
        Waiting {
            datapoints: 0,
            bytes: 0,
            written_at: 0,
        }
    }

    /// How many seconds ago the file was last written, at this second since 1970; 0 if nothing waits.
    pub fn age(&self, clock: u64) -> u64 {
        if self.bytes == 0 {
            return 0;
        }
        clock.saturating_sub(self.written_at)
    }
}
