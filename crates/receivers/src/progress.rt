//! How far a connection is within a line or a frame.

use line_text::LONGEST_LINE;
use pickle_subset::LONGEST_FRAME;
use reader_core::ReaderKind;

/// How many bytes the length before a frame has.
const LENGTH_BYTES: u8 = 4;

/// No byte has come since the last frame.
const BETWEEN_FRAMES: Progress = Progress::Length {
    known: 0,
    length: 0,
};

/// The first bytes of a frame.
#[derive(Clone, Copy)]
pub(crate) enum FrameHead {
    /// None has come.
    None,
    /// The first two.
    Known([u8; 2]),
    /// The first two came one after the other.
    Unknown,
}

impl FrameHead {
    /// With the next bytes of the frame.
    fn with(self, bytes: &[u8]) -> FrameHead {
        match (self, bytes) {
            (FrameHead::None, [first, second, ..]) => FrameHead::Known([*first, *second]),
            (FrameHead::None, _) => FrameHead::Unknown,
            (head, _) => head,
        }
    }
}

/// A frame that has begun: how many bytes it lacks, and how it begins.
#[derive(Clone, Copy)]
pub(crate) struct BegunFrame {
    pub(crate) lacks: usize,
    pub(crate) head: FrameHead,
}

/// How far a connection is within a line or a frame. It follows the ends of lines, or the lengths of frames, as a reader of
/// the connection does, and looks at no other byte.
#[derive(Clone, Copy)]
pub(crate) enum Progress {
    /// Of lines: how many bytes have come since the last newline.
    Line { held: usize },
    /// Of frames: how many bytes of a length have come, and the number that they are.
    Length { known: u8, length: usize },
    /// Of frames: within one, which lacks at least one byte.
    Frame(BegunFrame),
    /// A line or a frame is too long: the readers read nothing more.
    Overlong,
}

impl Progress {
    /// A connection that has sent nothing, to a reader of this kind.
    pub(crate) fn new(kind: ReaderKind) -> Progress {
        match kind {
            ReaderKind::Pickle => BETWEEN_FRAMES,
            _ => Progress::Line { held: 0 },
        }
    }

    /// Whether a line or a frame has begun and not ended.
    pub(crate) fn is_within(self) -> bool {
        match self {
            Progress::Line { held } => held > 0,
            Progress::Length { known, .. } => known > 0,
            Progress::Frame(_) => true,
            Progress::Overlong => false,
        }
    }

    /// Whether a line or a frame was too long.
    pub(crate) fn is_overlong(self) -> bool {
        matches!(self, Progress::Overlong)
    }

    /// The frame that has begun; one that lacks nothing if none has, and one without an end if that is not known.
    pub(crate) fn begun_frame(self) -> BegunFrame {
        let lacks = match self {
            Progress::Frame(begun) => return begun,
            Progress::Length { known: 0, .. } => 0,
            _ => usize::MAX,
        };
        BegunFrame {
            lacks,
            head: FrameHead::Unknown,
        }
    }

    /// The connection sent a piece.
    pub(crate) fn note_piece(&mut self, piece: &[u8]) {
        if let Progress::Line { held } = *self {
            *self = after_lines(held, piece);
            return;
        }
        let mut rest = piece;
        for _ in 0..piece.len() {
            if rest.is_empty() {
                break;
            }
            let (next, taken) = after_part(*self, rest);
            *self = next;
            rest = &rest[taken.min(rest.len())..];
        }
    }
}

/// Where a connection of frames is that was here and sent some bytes, after the first of them that are part of one length or
/// one frame, and how many these are, at least one.
fn after_part(progress: Progress, bytes: &[u8]) -> (Progress, usize) {
    match progress {
        Progress::Frame(BegunFrame { lacks, head }) => {
            let taken = lacks.min(bytes.len());
            let lacks = lacks.saturating_sub(taken);
            (within_frame(lacks, head.with(bytes)), taken.max(1))
        }
        Progress::Length { known, length } => {
            let byte = bytes.first().copied().unwrap_or(0);
            let length = length.saturating_mul(256).saturating_add(usize::from(byte));
            (within_length(known.saturating_add(1), length), 1)
        }
        other => (other, bytes.len().max(1)),
    }
}

/// Within a frame that lacks this many bytes and begins with these; behind it if it lacks none.
fn within_frame(lacks: usize, head: FrameHead) -> Progress {
    if lacks == 0 {
        BETWEEN_FRAMES
    } else {
        Progress::Frame(BegunFrame { lacks, head })
    }
}

/// Behind this many bytes of a length, which are this number.
fn within_length(known: u8, length: usize) -> Progress {
    if known < LENGTH_BYTES {
        Progress::Length { known, length }
    } else if length > LONGEST_FRAME {
        Progress::Overlong
    } else {
        within_frame(length, FrameHead::None)
    }
}

/// Where a connection of lines is that had sent this many bytes since the last newline and then sent a piece.
fn after_lines(held: usize, piece: &[u8]) -> Progress {
    let all = held.saturating_add(piece.len());
    let Some(after) = piece.iter().rev().position(|byte| *byte == b'\n') else {
        return within_line(all);
    };
    // Only the line that was begun before the piece can be longer than a line, and only if both together are.
    if all > LONGEST_LINE && is_first_overlong(held, piece) {
        return Progress::Overlong;
    }
    within_line(after)
}

/// Within a line of which this many bytes have come.
fn within_line(held: usize) -> Progress {
    if held > LONGEST_LINE {
        Progress::Overlong
    } else {
        Progress::Line { held }
    }
}

/// Whether the line that the piece ends first is too long, with the bytes that came before.
fn is_first_overlong(held: usize, piece: &[u8]) -> bool {
    match piece.iter().position(|byte| *byte == b'\n') {
        Some(first) => held.saturating_add(first) > LONGEST_LINE,
        None => false,
    }
}
