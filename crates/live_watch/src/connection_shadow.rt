//! The connections of a receiver, as a watch sees them.

use crate::batch::{PieceStart, SeenPiece};
use crate::found::{FoundPiece, LineEnds};
use crate::receiver_kind::kind_of;
use line_text::Moment;
use pickle_subset::PickleReader;
use reader_core::ReaderKind;
use relay_base::{MOST_CONNECTIONS, NoMemory, add};
use std::alloc::Global;
use std::mem;

/// What has come of a connection and is not read yet.
#[derive(Drop)]
enum Unread {
    /// Nothing is known.
    Unknown,
    /// The bytes behind the last newline.
    Line(Vec<u8>),
    /// Those behind the last frame.
    Frame(PickleReader),
}

/// The connections of a receiver: what came of each and is not read yet.
#[derive(Drop)]
pub(crate) struct ConnectionShadows {
    alloc: Global,
    unread: Vec<Unread>,
}

impl ConnectionShadows {
    /// Nothing came.
    pub(crate) fn new(alloc: Global) -> ConnectionShadows {
        ConnectionShadows {
            alloc,
            unread: Vec::new(alloc),
        }
    }

    /// The datapoints of a piece. If out of memory, nothing is known of its connection.
    pub(crate) fn read(
        &mut self,
        piece: SeenPiece<'_>,
        moment: Moment,
    ) -> Result<FoundPiece, NoMemory> {
        let SeenPiece { head, bytes, .. } = piece;
        let mut found = FoundPiece::none(self.alloc);
        match kind_of(head.receiver) {
            ReaderKind::Datagram => read_datagram(self.alloc, bytes, moment, &mut found)?,
            ReaderKind::Line => {
                let unread = self.take(head.connection);
                let begun = line_begun(self.alloc, head.start, unread);
                self.read_lines(head.connection, begun, bytes, moment, &mut found)?
            }
            ReaderKind::Pickle => {
                let unread = self.take(head.connection);
                let begun = frame_begun(self.alloc, head.start, unread, bytes.len());
                self.read_frames(head.connection, begun, bytes, moment, &mut found)?
            }
        }
        Ok(found)
    }

    /// Takes what is not read yet of a connection.
    fn take(&mut self, connection: usize) -> Unread {
        match self.unread.get_mut(connection) {
            Some(unread) => mem::replace(unread, Unread::Unknown),
            None => Unread::Unknown,
        }
    }

    /// Keeps what is not read yet of a connection.
    fn keep(&mut self, connection: usize, unread: Unread) -> Result<(), NoMemory> {
        for _ in self.unread.len()..connection.saturating_add(1).min(MOST_CONNECTIONS) {
            add(&mut self.unread, Unread::Unknown)?;
        }
        if let Some(place) = self.unread.get_mut(connection) {
            *place = unread;
        }
        Ok(())
    }

    /// The datapoints of a piece of lines, the first of which has this begin, if that is known.
    fn read_lines(
        &mut self,
        connection: usize,
        begin: Option<Vec<u8>>,
        bytes: &[u8],
        moment: Moment,
        found: &mut FoundPiece,
    ) -> Result<(), NoMemory> {
        let Some(begin) = begin else {
            found.is_head_known = false;
            let Some(first) = bytes.iter().position(is_newline) else {
                return Ok(());
            };
            let (_, rest) = bytes.split_at(first.saturating_add(1).min(bytes.len()));
            return self.read_begun(connection, rest, moment, found);
        };
        found.text = begin;
        self.read_begun(connection, bytes, moment, found)
    }

    /// The datapoints of lines that have begun with the text that was found, and go on with these bytes.
    fn read_begun(
        &mut self,
        connection: usize,
        bytes: &[u8],
        moment: Moment,
        found: &mut FoundPiece,
    ) -> Result<(), NoMemory> {
        found.text.extend_from_slice(bytes)?;
        let text = found.text.as_slice();
        let whole = match text.iter().rposition(is_newline) {
            Some(last) => last.saturating_add(1).min(text.len()),
            None => 0,
        };
        let (_, rest) = text.split_at(whole);
        let rest = Vec::from_slice(self.alloc, rest)?;
        self.keep(connection, Unread::Line(rest))?;
        if whole == 0 {
            return Ok(());
        }
        found.find_lines(self.alloc, whole, LineEnds::Newline, moment)
    }

    /// The datapoints of a piece of frames, which this reads, if it has a begin of one that is known.
    fn read_frames(
        &mut self,
        connection: usize,
        begun: Option<BegunFrames>,
        bytes: &[u8],
        moment: Moment,
        found: &mut FoundPiece,
    ) -> Result<(), NoMemory> {
        let Some(begun) = begun else {
            found.is_head_known = false;
            return Ok(());
        };
        let BegunFrames { reader, skipped } = begun;
        found.is_head_known = skipped == 0;
        let (_, bytes) = bytes.split_at(skipped.min(bytes.len()));
        let mut reader = reader;
        let mut points = Vec::new(self.alloc);
        let fed = reader.feed(bytes, moment, &mut points);
        let kept = self.keep(connection, Unread::Frame(reader));
        fed?;
        kept?;
        found.add_rows(points)
    }
}

/// What a line has that a piece goes on with; `None` if its begin is not known.
fn line_begun(alloc: Global, start: PieceStart, unread: Unread) -> Option<Vec<u8>> {
    match start {
        PieceStart::Follows => match unread {
            Unread::Line(rest) => Some(rest),
            _ => None,
        },
        PieceStart::Fresh => Some(Vec::new(alloc)),
        PieceStart::Within { .. } => None,
    }
}

/// What reads the frames of a piece, and how many bytes of it are of one whose begin is not known.
#[derive(Drop)]
struct BegunFrames {
    reader: PickleReader,
    skipped: usize,
}

/// What reads the frames of a piece of so many bytes; `None` if it has no begin of one that is known.
fn frame_begun(
    alloc: Global,
    start: PieceStart,
    unread: Unread,
    count: usize,
) -> Option<BegunFrames> {
    let skipped = match start {
        PieceStart::Follows => return frames_after(unread),
        PieceStart::Fresh => 0,
        PieceStart::Within { lacks } => lacks,
    };
    drop(unread);
    if skipped > count {
        return None;
    }
    Some(BegunFrames {
        reader: PickleReader::new(alloc),
        skipped,
    })
}

/// What reads the frames behind those that were read, if that is known.
fn frames_after(unread: Unread) -> Option<BegunFrames> {
    match unread {
        Unread::Frame(reader) => Some(BegunFrames { reader, skipped: 0 }),
        _ => None,
    }
}

/// The datapoints of a datagram.
fn read_datagram(
    alloc: Global,
    bytes: &[u8],
    moment: Moment,
    found: &mut FoundPiece,
) -> Result<(), NoMemory> {
    found.text.extend_from_slice(bytes)?;
    found.find_lines(alloc, bytes.len(), LineEnds::Break, moment)
}

/// Whether a byte ends a line of a connection.
fn is_newline(byte: &u8) -> bool {
    *byte == b'\n'
}
