//! Why pickles cannot be read.

use crate::progress::{BegunFrame, FrameHead};
use log_lines::BadPickle;
use pickle_subset::{PickleFault, Unread, load, unread_part};
use std::alloc::Global;

/// How many bytes the length before a frame has.
const LENGTH_BYTES: usize = 4;

/// A piece of a connection of frames, with the frame that had begun before.
#[derive(Clone, Copy)]
pub(crate) struct Frames<'t> {
    pub(crate) begun: BegunFrame,
    pub(crate) text: &'t [u8],
}

impl Frames<'_> {
    /// Why the first of them that cannot be read cannot, if that is seen. Of the one that had begun, only the first bytes are
    /// known.
    pub(crate) fn first_wrong(self, alloc: Global) -> BadPickle {
        let (begun, mut rest) = self.text.split_at(self.begun.lacks.min(self.text.len()));
        if let Some(why) = self.begun_wrong(begun) {
            return why;
        }
        for _ in 0..self.text.len() {
            let Some((frame, others)) = first_frame(rest) else {
                break;
            };
            if let Some(why) = wrong_with(alloc, frame) {
                return why;
            }
            rest = others;
        }
        BadPickle::Unknown
    }

    /// Why the frame that had begun, and has these bytes in the piece, cannot be read, if its first bytes show it.
    fn begun_wrong(self, bytes: &[u8]) -> Option<BadPickle> {
        match self.begun.head {
            FrameHead::None => why_unread(bytes),
            FrameHead::Known(head) => why_unread(&head),
            FrameHead::Unknown => None,
        }
    }
}

/// The pickle of the frame that some bytes begin with, and what follows it, if the frame is whole.
fn first_frame(bytes: &[u8]) -> Option<(&[u8], &[u8])> {
    let length = bytes.get(..LENGTH_BYTES)?;
    let length = u32::from_be_bytes([length[0], length[1], length[2], length[3]]) as usize;
    let (_, rest) = bytes.split_at(LENGTH_BYTES);
    if length <= rest.len() {
        Some(rest.split_at(length))
    } else {
        None
    }
}

/// Why a pickle cannot be read, if it cannot.
fn wrong_with(alloc: Global, pickle: &[u8]) -> Option<BadPickle> {
    match load(alloc, pickle) {
        Ok(_) | Err(PickleFault::NoMemory) => None,
        Err(PickleFault::UnknownOpcode) => why_unread(pickle),
        Err(PickleFault::Truncated) => Some(BadPickle::CutOff),
        Err(PickleFault::BadShape) => Some(BadPickle::NoRows),
        Err(PickleFault::BadMemo) => Some(BadPickle::Memo),
        Err(PickleFault::BadText) => Some(BadPickle::Text),
    }
}

/// What is not read of a pickle, or of its first bytes.
fn why_unread(pickle: &[u8]) -> Option<BadPickle> {
    match unread_part(pickle)? {
        Unread::Protocol { protocol } => Some(BadPickle::Protocol { protocol }),
        // Each list of protocol 0 begins with MARK.
        Unread::Opcode { protocol: 0, .. } if matches!(pickle, [b'(', ..]) => {
            Some(BadPickle::Protocol { protocol: 0 })
        }
        Unread::Opcode { protocol: 0, .. } => Some(BadPickle::NoPickle),
        Unread::Opcode { byte, protocol } => Some(BadPickle::Opcode { byte, protocol }),
    }
}
