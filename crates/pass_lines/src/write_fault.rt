//! Why datapoints were not written.

ghost use Rattle.std.specs.Prelude.{◌≡◌};
ghost use Rattle.pass_lines.specs.Pass.{write_fault};
ghost use Rattle.pass_lines.specs.declared.write_fault.WriteFault.TheVariants.{NoMemory as OutOfMemory, Output as OfOutput};

use line_text::NoMemory;
use relay_files::{OutputFailed, RelayFault};

/// Why a datapoint was not written.
#[derive(Clone, Copy)]
pub(crate) enum WriteFault {
    /// The output failed, or its drives or the offers can be counted no further.
    Output,
    /// Out of memory.
    NoMemory,
}

impl From<OutputFailed> for WriteFault {
    ghost from_gives = { λ _ fault. fault ≡ OfOutput };

    fn from(_fault: OutputFailed) -> WriteFault {
        WriteFault::Output
    }
}

impl From<NoMemory> for WriteFault {
    ghost from_gives = { λ _ fault. fault ≡ OutOfMemory };

    fn from(_fault: NoMemory) -> WriteFault {
        WriteFault::NoMemory
    }
}

impl From<WriteFault> for RelayFault {
    ghost from_gives = { λ fault named. named ≡ write_fault fault };

    fn from(fault: WriteFault) -> RelayFault {
        match fault {
            WriteFault::Output => RelayFault::Output,
            WriteFault::NoMemory => RelayFault::NoMemory,
        }
    }
}
