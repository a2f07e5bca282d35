//! Why something failed.

ghost use Rattle.std.specs.Prelude.{◌≡◌, Some};
ghost use Rattle.log_lines.specs.Why.{why_text, system_words};

use std::{fmt, io};

/// Why a connection was lost or could not be made, or why a receiver receives nothing.
#[derive(Clone, Copy, PartialEq)]
pub enum Why {
    /// The store closed the connection.
    Closed,
    /// The host of the destination was not found.
    NotFound,
    /// The connection was not made in the time that a try may take.
    NoAnswer,
    /// The system connected the try to its own socket: nobody listens at that port of this machine.
    Itself,
    /// A line that is longer than other relays and stores read was the last of the connection.
    LongLine,
    /// The system does not report any more which sockets are ready.
    NoReadiness,
    /// It is out of memory.
    NoMemory,
    /// The system's error of this number.
    System { code: u32 },
}

/// The numbers of the reasons that are no errors of the system; the system's numbers are below.
const CLOSED: u32 = 1_000_001;

const NOT_FOUND: u32 = 1_000_002;

const NO_ANSWER: u32 = 1_000_003;

const NO_READINESS: u32 = 1_000_004;

const NO_MEMORY: u32 = 1_000_005;

const ITSELF: u32 = 1_000_006;

const LONG_LINE: u32 = 1_000_007;

impl Why {
    /// The reason of a system's error; error 0 if it has no number.
    pub fn of_error(error: &io::Error) -> Why {
        let code = match error.raw_os_error() {
            Some(code) => u32::try_from(code).unwrap_or(0),
            None => 0,
        };
        Why::System { code }
    }

    /// The number of the reason, which is not 0 except for the system's error 0.
    pub(crate) fn code(self) -> u32 {
        match self {
            Why::Closed => CLOSED,
            Why::NotFound => NOT_FOUND,
            Why::NoAnswer => NO_ANSWER,
            Why::NoReadiness => NO_READINESS,
            Why::NoMemory => NO_MEMORY,
            Why::Itself => ITSELF,
            Why::LongLine => LONG_LINE,
            Why::System { code } => code,
        }
    }

    /// The reason with this number.
    pub(crate) fn of_code(code: u32) -> Why {
        match code {
            CLOSED => Why::Closed,
            NOT_FOUND => Why::NotFound,
            NO_ANSWER => Why::NoAnswer,
            NO_READINESS => Why::NoReadiness,
            NO_MEMORY => Why::NoMemory,
            ITSELF => Why::Itself,
            LONG_LINE => Why::LongLine,
            _ => Why::System { code },
        }
    }
}

impl fmt::Display for Why {
    ghost output = { λ why. Some (why_text why) };

    fn fmt<W: fmt::Write>(&self, f: &mut fmt::Formatter<W>) -> fmt::Result {
        match self {
            Why::Closed => write!(f, "closed by the store"),
            Why::NotFound => write!(f, "host not found"),
            Why::NoAnswer => write!(f, "no answer"),
            Why::Itself => write!(f, "connected to itself"),
            Why::LongLine => write!(f, "ended after a line of more than 16384 bytes"),
            Why::NoReadiness => write!(f, "the system does not report ready sockets"),
            Why::NoMemory => write!(f, "out of memory"),
            Why::System { code } => write!(f, "{} (error {})", system_words(*code), *code),
        }
    }
}

/// The system's words for its error of a number, as Linux numbers them.
fn system_words(code: u32) -> &'static str
    ensures { result.now ≡ system_words code }
{
    match code {
        1 => "operation not permitted",
        12 => "cannot allocate memory",
        13 => "permission denied",
        23 => "too many open files in system",
        24 => "too many open files",
        32 => "broken pipe",
        99 => "cannot assign requested address",
        100 => "network is down",
        101 => "network is unreachable",
        103 => "software caused connection abort",
        104 => "connection reset by peer",
        105 => "no buffer space available",
        110 => "connection timed out",
        111 => "connection refused",
        112 => "host is down",
        113 => "no route to host",
        _ => "refused by the system",
    }
}
