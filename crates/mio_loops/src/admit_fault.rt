//! Why a connection is not taken.

use thiserror::Error;

/// Why a loop does not take a connection. It returns the connection, and is unchanged.
#[derive(Clone, Copy, Debug, Error)]
pub enum AdmitFault {
    /// The loop holds as many as it may.
    #[error("as many connections are held as may be")]
    Full,
    /// Out of memory.
    #[error("out of memory")]
    NoMemory,
}
