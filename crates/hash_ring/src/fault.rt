//! Why a ring was refused.

ghost use Rattle.std.specs.Prelude.{◌≡◌};
ghost use Rattle.hash_ring.specs.declared.fault.RingFault.TheVariants.{NoMemory as OutOfMemory};

use relay_base::NoMemory;
use thiserror::Error;

/// Why entries do not make a ring: the first fault that they have.
#[derive(Clone, Copy, Debug, Error)]
pub enum RingFault {
    /// There is no entry.
    #[error("a ring has at least one entry")]
    Empty,
    /// Two entries have one position.
    #[error("two entries have one place")]
    SamePosition,
    /// An entry's node has no server.
    #[error("a node has no server")]
    NoServer,
    /// A growth was refused.
    #[error("out of memory")]
    NoMemory,
}

impl From<NoMemory> for RingFault {
    ghost from_gives = { λ _ e. e ≡ OutOfMemory };

    fn from(_error: NoMemory) -> RingFault {
        RingFault::NoMemory
    }
}
