//! Which failed reads, writes and flushes are repeated.

ghost use Rattle.std.specs.Prelude.{◌≡◌, ◌⊎◌, ◌↔◌, IsTrue};

use std::io::ErrorKind;

/// Whether a call with this error is repeated: it was interrupted, or would block.
pub(crate) fn may_be_made_again(kind: ErrorKind) -> bool
    ensures { IsTrue result ↔ ((kind ≡ ErrorKind.Interrupted) ⊎ (kind ≡ ErrorKind.WouldBlock)) }
{
    matches!(kind, ErrorKind::Interrupted | ErrorKind::WouldBlock)
}
