//! How much the files of all destinations may have.

ghost use Rattle.std.specs.Prelude.{◌≡◌, ◌+◌, ◌-◌};

use crate::dest_segments::SegmentLimits;

/// Into how many segments a size goes.
const SEGMENTS: u64 = 64;

/// How large a segment becomes at least, and at most.
const LEAST_SEGMENT: u64 = 65_536;

const MOST_SEGMENT: u64 = 64 * 1_048_576;

/// A bound for what the files of all destinations have together. Half of it is divided into shares, one for each destination,
/// which no other can take; the other half is for who comes first.
#[derive(Clone, Copy)]
pub struct SpoolBound {
    size: u64,
    share: u64,
}

impl SpoolBound {
    /// The bound of so many bytes for so many destinations.
    pub fn new(size: u64, dests: usize) -> SpoolBound {
        let parts = (dests as u64).saturating_mul(2);
        SpoolBound {
            size,
            share: size.checked_div(parts).unwrap_or(0),
        }
    }

    /// The bound, in bytes.
    pub fn size(&self) -> u64 {
        self.size
    }

    /// How large segments become, with this limit of the system for the size of a file, if there is one.
    pub fn segments(&self, file: Option<u64>) -> SegmentLimits {
        SegmentLimits {
            segment: (self.size / SEGMENTS).clamp(LEAST_SEGMENT, MOST_SEGMENT),
            file,
        }
    }

    /// How many bytes more the files of the destination of a place may have, where those of each have these.
    pub fn room(&self, used: &[u64], place: usize) -> u64 {
        let own = used.get(place).copied().unwrap_or(0);
        room_beside(self.size, own, self.needed_beside(used, place))
    }

    /// What the other destinations need: what their files have, or their share if that is more.
    fn needed_beside(&self, used: &[u64], place: usize) -> u64 {
        let mut needed: u64 = 0;
        for (other, bytes) in used.iter().enumerate() {
            if other != place {
                needed = needed.saturating_add((*bytes).max(self.share));
            }
        }
        needed
    }
}

/// What is left of a size beside what a destination has and what others need.
fn room_beside(size: u64, own: u64, others: u64) -> u64
    ensures { result ≡ size - (own + others) }
{
    size.saturating_sub(own.saturating_add(others))
}
