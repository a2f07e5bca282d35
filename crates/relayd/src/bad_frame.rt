//! Why a pickle cannot be read, and where.

use pickle_subset::{PickleFault, Unread, load, unread_part};
use std::alloc::Global;
use std::fmt;

/// How many halves a pickle is cut into at most: it has less than 2 to the power 32 bytes.
const MOST_CUTS: usize = 32;

/// Why a pickle cannot be read, and the number of bytes before the one that shows it.
#[derive(Clone, Copy)]
pub struct BadFrame {
    pub place: usize,
    pub why: WhyUnread,
}

/// Why a pickle cannot be read, in the words of the log.
#[derive(Clone, Copy)]
pub enum WhyUnread {
    /// It does not begin as a pickle.
    NoPickle,
    /// Its protocol is not read.
    Protocol { protocol: u8 },
    /// An opcode of its protocol is not read.
    Opcode { byte: u8, protocol: u8 },
    /// It has another fault.
    Fault { fault: PickleFault },
}

impl fmt::Display for WhyUnread {
    fn fmt<W: fmt::Write>(&self, f: &mut fmt::Formatter<W>) -> fmt::Result {
        match *self {
            WhyUnread::NoPickle => f.write_str("not a pickle"),
            WhyUnread::Protocol { protocol } => write!(f, "protocol {protocol}"),
            WhyUnread::Opcode { byte, protocol } if byte.is_ascii_graphic() => {
                write!(f, "opcode '{}' of protocol {protocol}", char::from(byte))
            }
            WhyUnread::Opcode { byte, protocol } => {
                write!(f, "opcode {byte} of protocol {protocol}")
            }
            WhyUnread::Fault { fault } => f.write_str(words_of(fault)),
        }
    }
}

/// The words of a fault.
fn words_of(fault: PickleFault) -> &'static str {
    match fault {
        PickleFault::Truncated => "ends too early",
        PickleFault::UnknownOpcode => "an opcode that is not read",
        PickleFault::BadShape => "not a list of rows",
        PickleFault::BadMemo => "a memo entry that is not there",
        PickleFault::BadText => "a text that is not UTF-8",
        PickleFault::NoMemory => "no memory to read it",
    }
}

/// Why a pickle with this fault cannot be read, and where.
pub fn bad_frame(alloc: Global, pickle: &[u8], fault: PickleFault) -> BadFrame {
    BadFrame {
        place: place_of(alloc, pickle, fault),
        why: why_of(pickle, fault),
    }
}

/// The number of bytes before the one that shows the fault: with all before it, the pickle only ends too early.
fn place_of(alloc: Global, pickle: &[u8], fault: PickleFault) -> usize {
    if fault == PickleFault::Truncated {
        return pickle.len();
    }
    let mut good: usize = 0;
    let mut bad = pickle.len();
    for _ in 0..MOST_CUTS {
        let half = bad.saturating_sub(good) / 2;
        let middle = good.saturating_add(half);
        let (part, _) = pickle.split_at(middle.min(pickle.len()));
        if ends_too_early(alloc, part) {
            good = middle;
        } else {
            bad = middle;
        }
    }
    bad.saturating_sub(1)
}

/// Whether the first part of a pickle has no fault but that it ends too early.
fn ends_too_early(alloc: Global, part: &[u8]) -> bool {
    matches!(load(alloc, part).err(), Some(PickleFault::Truncated))
}

/// Why a pickle with this fault cannot be read.
fn why_of(pickle: &[u8], fault: PickleFault) -> WhyUnread {
    if fault != PickleFault::UnknownOpcode {
        return WhyUnread::Fault { fault };
    }
    match unread_part(pickle) {
        Some(Unread::Protocol { protocol }) => WhyUnread::Protocol { protocol },
        // Each list of protocol 0 begins with MARK.
        Some(Unread::Opcode { protocol: 0, .. }) if matches!(pickle, [b'(', ..]) => {
            WhyUnread::Protocol { protocol: 0 }
        }
        Some(Unread::Opcode { protocol: 0, .. }) => WhyUnread::NoPickle,
        Some(Unread::Opcode { byte, protocol }) => WhyUnread::Opcode { byte, protocol },
        None => WhyUnread::Fault { fault },
    }
}
