//! A file that holds lines which are to be sent.

use crate::file_connection::FileConnection;
use crate::line_count::{LineCount, lines_in};
use crate::part::Part;
use crate::sent_table::SentPlace;
use crate::spool_notes::SpoolNotes;
use crate::turn::Turn;
use crate::waiting::Waiting;
use backlog::Cursor;
use std::fs::File;
use std::io::Write;
use std::os::unix::fs::MetadataExt;

/// How far a file is sent, where that is noted, if it is, and which part of it goes out now.
#[derive(Drop)]
pub(crate) struct SentPart {
    cursor: Cursor,
    place: Option<SentPlace>,
    part: Part,
    lines: LineCount,
    // Whether the store does not end connections, so that what the system took counts as sent.
    has_no_end: bool,
}

impl SentPart {
    /// Nothing is sent.
    pub(crate) fn none() -> SentPart {
        SentPart {
            cursor: Cursor::new(),
            place: None,
            part: Part::at(0),
            lines: LineCount::at(0),
            has_no_end: false,
        }
    }
}

/// A file that holds lines: where these end, and how far they are sent.
#[derive(Drop)]
pub(crate) struct HeldFile {
    file: File,
    end: u64,
    sent: SentPart,
    // The second since 1970 at which it was last written; 0 if the system does not say.
    written_at: u64,
    // Whether it has something behind its whole lines, and so is put aside and not removed.
    has_begun_line: bool,
    // Whether it could not be read, so that nothing more of it is sent in this run.
    has_failed: bool,
}

impl HeldFile {
    /// A file whose whole lines end there, of which this part is sent.
    pub(crate) fn new(file: File, end: u64, sent: SentPart) -> HeldFile {
        let written_at = written_at(&file);
        HeldFile {
            file,
            end,
            sent,
            written_at,
            has_begun_line: false,
            has_failed: false,
        }
    }

    /// It was sent up to a place, from where its sending goes on.
    pub(crate) fn go_on_at(&mut self, place: u64) {
        self.sent.cursor = Cursor::at(place);
        self.sent.part = Part::at(place);
        self.sent.lines = LineCount::at(place);
    }

    /// From now on it is noted there how far it is sent.
    pub(crate) fn note_at(&mut self, place: SentPlace) {
        self.sent.place = Some(place);
    }

    /// Whether it is noted how far it is sent.
    pub(crate) fn has_place(&self) -> bool {
        self.sent.place.is_some()
    }

    /// The file.
    pub(crate) fn file(&self) -> &File {
        &self.file
    }

    /// Where its whole lines end.
    pub(crate) fn end(&self) -> u64 {
        self.end
    }

    /// Where the next byte is that a connection gets.
    pub(crate) fn next(&self) -> u64 {
        self.sent.cursor.next()
    }

    pub(crate) fn cursor_mut(&mut self) -> &mut Cursor {
        &mut self.sent.cursor
    }

    /// Whether all its lines are sent.
    pub(crate) fn is_sent(&self) -> bool {
        self.sent.cursor.start() >= self.end
    }

    /// Counts the lines that wait, as far as they are not counted yet.
    pub(crate) fn count_lines(&mut self, piece: &mut [u8]) {
        let start = self.part_start();
        self.sent.lines.count_to(&self.file, start, self.end, piece);
    }

    /// It has so many lines, and nothing of it was sent.
    pub(crate) fn note_lines(&mut self, lines: u64) {
        self.sent.lines = LineCount::of(lines, self.end);
    }

    /// What waits in it.
    pub(crate) fn waiting(&self) -> Waiting {
        Waiting {
            datapoints: self.sent.lines.lines(),
            bytes: self.end.saturating_sub(self.part_start()),
            written_at: self.written_at,
        }
    }

    pub(crate) fn has_begun_line(&self) -> bool {
        self.has_begun_line
    }

    /// It has something behind its whole lines.
    pub(crate) fn note_begun_line(&mut self) {
        self.has_begun_line = true;
    }

    pub(crate) fn has_failed(&self) -> bool {
        self.has_failed
    }

    /// It could not be read.
    pub(crate) fn note_failed(&mut self) {
        self.has_failed = true;
    }

    /// Its connection is gone: the next one gets what that did not take whole. It is tried again if it could not be read.
    pub(crate) fn reconnect(&mut self) {
        self.sent.cursor.reconnect();
        self.has_failed = false;
    }

    /// Where its part begins.
    pub(crate) fn part_start(&self) -> u64 {
        self.sent.part.start()
    }

    /// Where the first line begins that no connection took whole.
    pub(crate) fn start(&self) -> u64 {
        self.sent.cursor.start()
    }

    /// Whether all of its part is sent, and the store has not ended the connection.
    pub(crate) fn is_part_sent(&self) -> bool {
        self.sent.part.is_sent(self.start())
    }

    /// The store has what its connection took: the next part begins there.
    pub(crate) fn end_part(&mut self) {
        self.sent.cursor.reconnect();
        self.sent.part = Part::at(self.start());
        self.sent.lines.end_part();
    }

    /// Its part goes out again, which is noted.
    pub(crate) fn send_again(&mut self) {
        let start = self.part_start();
        self.sent.cursor = Cursor::at(start);
        self.sent.lines.send_again();
        if let Some(place) = &mut self.sent.place {
            place.note(&self.file, start);
        }
    }

    /// Whether the store does not end connections.
    pub(crate) fn has_no_end(&self) -> bool {
        self.sent.has_no_end
    }

    /// The store does not end connections.
    pub(crate) fn note_no_end(&mut self) {
        self.sent.has_no_end = true;
    }

    /// Sends a piece of its part to a connection, and notes how far it is sent then.
    pub(crate) fn send<W: Write + Drop>(
        &mut self,
        connection: &mut FileConnection<W>,
        piece: &mut [u8],
        notes: Option<&SpoolNotes>,
    ) -> Turn<W> {
        let end = self.sent.part.end_in(&self.file, self.end, piece);
        if let Some(place) = &self.sent.place {
            place.begin_piece();
        }
        let before = self.next();
        let turn = connection.send(&self.file, end, &mut self.sent.cursor, piece);
        let taken = (self.next().saturating_sub(before) as usize).min(piece.len());
        self.pass_lines(&piece[..taken], notes);
        if let Some(place) = &mut self.sent.place {
            place.note(&self.file, self.sent.cursor.start());
        }
        turn
    }

    /// The connection took these bytes.
    fn pass_lines(&mut self, bytes: &[u8], notes: Option<&SpoolNotes>) {
        let lines = lines_in(bytes);
        self.sent.lines.take(lines);
        if let Some(notes) = notes {
            notes.note_passed(lines);
        }
    }

    /// Nothing more of it is sent. Returns the connection, if that took whole lines alone; otherwise it is gone.
    pub(crate) fn end_connection<W: Drop>(&self, connection: &mut FileConnection<W>) -> Option<W> {
        let sink = connection.take();
        if self.sent.cursor.start() == self.sent.cursor.next() {
            sink
        } else {
            drop(sink);
            None
        }
    }

    /// Where it is noted how far it is sent, if it is. From now on that is not noted.
    pub(crate) fn take_place(&mut self) -> Option<SentPlace> {
        self.sent.place.take()
    }

    /// The file, where its whole lines end, and which part of them is sent.
    pub(crate) fn into_parts(self) -> (File, u64, SentPart) {
        let HeldFile {
            file,
            end,
            sent,
            ..
        } = self;
        (file, end, sent)
    }
}

/// The second since 1970 at which a file was last written; 0 if the system does not say.
fn written_at(file: &File) -> u64 {
    match file.metadata() {
        Ok(metadata) => u64::try_from(metadata.mtime()).unwrap_or(0),
        Err(_) => 0,
    }
}
