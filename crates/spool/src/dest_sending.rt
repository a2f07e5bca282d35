//! How the file of an earlier run is sent, and what becomes of it.

use crate::dest_spool::{DestSpool, LOOK, free, kept};
use crate::file_connection::FileConnection;
use crate::found_file::{FoundFile, found_at, is_there};
use crate::held_file::{HeldFile, SentPart};
use crate::spool_disk::SpoolDisk;
use crate::spool_notes::SpoolNotes;
use crate::turn::Turn;
use relay_base::NoMemory;
use std::io::Write;

impl DestSpool {
    /// The connection that the file goes out on is lost, if there is one: all that it took goes out again.
    fn lose<W: Write + Drop>(
        &mut self,
        connection: &mut FileConnection<W>,
        notes: Option<&SpoolNotes>,
    ) {
        if connection.is_open() {
            self.close(connection);
            self.send_again(notes);
        }
    }

    /// The relay closes the connection that the file goes out on, if there is one: what it did not take whole goes to the next
    /// one.
    fn close<W: Write + Drop>(&mut self, connection: &mut FileConnection<W>) {
        if let Some(held) = &mut self.held {
            connection.lose(held.cursor_mut());
        }
    }

    /// The relay has closed the connection that the file went out on: what it did not take whole goes to the next one, or all of
    /// a part that was sent, since the store has not ended the connection. A file that could not be read is tried again.
    pub fn reconnect(&mut self, notes: Option<&SpoolNotes>) {
        let Some(held) = &mut self.held else {
            return;
        };
        let is_part_sent = held.is_part_sent();
        held.reconnect();
        if is_part_sent {
            self.send_again(notes);
        }
    }

    /// The store may not have what the last connection took of the earlier file, which goes out again. The notes say which lines
    /// may come twice.
    pub fn send_again(&mut self, notes: Option<&SpoolNotes>) {
        let Some(held) = &mut self.held else {
            return;
        };
        let (start, end) = (held.part_start(), held.start());
        held.send_again();
        if end > start {
            note_news(notes, self.names.again_news(start, end));
        }
    }

    /// Whether a connection that took a part of the earlier file is to be ended by its store before that counts as sent.
    pub fn awaits_ends(&self) -> bool {
        match &self.held {
            Some(held) => !held.has_no_end(),
            None => false,
        }
    }

    /// The store has what its connection took of the earlier file. The file goes if that is all.
    pub fn end_part<D: SpoolDisk>(&mut self, disk: &D, notes: Option<&SpoolNotes>) {
        let Some(held) = &mut self.held else {
            return;
        };
        held.end_part();
        if held.is_sent() {
            self.end_held(disk);
            self.go_on_with_new(disk);
        }
        self.note_rest(notes);
    }

    /// Notes what waits in the earlier file.
    fn note_rest(&self, notes: Option<&SpoolNotes>) {
        if let Some(notes) = notes {
            notes.note_waiting(self.waiting());
        }
    }

    /// The store did not end its connection within so many seconds: what that took of the earlier file counts as sent, and so does
    /// the rest as soon as the system has it. The notes say so.
    pub fn note_no_end<D: SpoolDisk>(
        &mut self,
        disk: &D,
        seconds: u64,
        notes: Option<&SpoolNotes>,
    ) {
        let Some(held) = &mut self.held else {
            return;
        };
        held.note_no_end();
        note_news(notes, self.names.no_end_news(seconds));
        self.end_part(disk, notes);
    }

    /// Sends some of the earlier file to its connection, which is given out once it took a part ([`DestSpool::end_part`]). A file
    /// that cannot be read stays, and the notes say so.
    pub fn send<D: SpoolDisk, W: Write + Drop>(
        &mut self,
        disk: &D,
        connection: &mut FileConnection<W>,
        piece: &mut [u8],
        notes: Option<&SpoolNotes>,
    ) -> Turn<W> {
        if !connection.goes_on() {
            return Turn::Kept;
        }
        self.pass_failed();
        if self.held.is_none() {
            self.go_on_with_next(disk);
        }
        if self.held.is_none() && self.is_behind() {
            // The next segment cannot be opened now. It is tried again with the next connection.
            drop(connection.take());
            return Turn::Lost;
        }
        if self.is_taken_away(disk) {
            let turn = self.leave_taken_away(connection, notes);
            return self.kept_if_behind(turn, connection);
        }
        let turn = match &mut self.held {
            Some(held) => held.send(connection, piece, notes),
            None => Turn::Kept,
        };
        self.note_unread(&turn, notes);
        match &turn {
            Turn::Broken { .. } => self.close(connection),
            Turn::Lost => self.lose(connection, notes),
            Turn::Over(_) | Turn::GivenUp { .. } | Turn::Kept => {}
        }
        self.kept_if_behind(turn, connection)
    }

    /// A connection that a file gave up stays with the segments behind that, if there are.
    fn kept_if_behind<W: Drop>(
        &self,
        turn: Turn<W>,
        connection: &mut FileConnection<W>,
    ) -> Turn<W> {
        if !self.is_behind() {
            return turn;
        }
        match turn {
            Turn::GivenUp { sink, code: _ } => {
                connection.keep(sink);
                Turn::Kept
            }
            other => other,
        }
    }

    /// Whether somebody removed the earlier file, or put another one there.
    fn is_taken_away<D: SpoolDisk>(&self, disk: &D) -> bool {
        match &self.held {
            Some(held) => !is_there(disk, self.names.held(), held.file()),
            None => false,
        }
    }

    /// Nothing more is sent of the earlier file, which somebody took away.
    fn leave_taken_away<W: Write + Drop>(
        &mut self,
        connection: &mut FileConnection<W>,
        notes: Option<&SpoolNotes>,
    ) -> Turn<W> {
        let Some(mut held) = self.held.take() else {
            return Turn::Kept;
        };
        note_news(notes, self.names.taken_away_news(held.next()));
        let sink = held.end_connection(connection);
        self.pass_place(&mut held);
        drop(held);
        self.note_rest(notes);
        match sink {
            Some(sink) => Turn::GivenUp { sink, code: 0 },
            None => Turn::Lost,
        }
    }

    /// Notes that the earlier file cannot be read where it is to go on, if a turn says so. If its connection is given out, nothing
    /// more of it is sent in this run.
    fn note_unread<W>(&mut self, turn: &Turn<W>, notes: Option<&SpoolNotes>) {
        let (code, is_given_up) = match turn {
            Turn::GivenUp { code, .. } => (*code, true),
            Turn::Broken { code } => (*code, false),
            _ => return,
        };
        if let Some(held) = &mut self.held {
            note_news(notes, self.names.unread_news(held.next(), code));
            if is_given_up {
                held.note_failed();
            }
        }
    }

    /// The earlier file goes, since all its lines are sent: it is removed, or put aside if it has something behind these, unless
    /// somebody took it away.
    fn end_held<D: SpoolDisk>(&mut self, disk: &D) {
        let is_taken_away = self.is_taken_away(disk);
        let Some(mut held) = self.held.take() else {
            return;
        };
        self.has_no_end = held.has_no_end();
        // The record of one that cannot go says that it is sent.
        if is_taken_away || self.is_put_away(disk, &held) {
            self.pass_place(&mut held);
        }
        drop(held);
    }

    /// Removes a file whose lines are sent, or puts it aside if it has something behind these. Returns whether it could.
    fn is_put_away<D: SpoolDisk>(&self, disk: &D, held: &HeldFile) -> bool {
        if !held.has_begun_line() {
            return disk.remove(self.names.held()).is_ok();
        }
        match self.move_aside(disk, self.names.held()) {
            Ok(aside) => {
                drop(aside);
                true
            }
            Err(error) => {
                drop(error);
                false
            }
        }
    }

    /// A file is gone: the next segment is noted where it was, if there is one.
    fn pass_place(&mut self, held: &mut HeldFile) {
        let place = held.take_place();
        if !self.later.are_none() {
            self.place = place;
            return;
        }
        if self.names.select(0).is_ok() {
            self.number = 0;
        }
        if self.makes_segments {
            self.place = kept(place, self.names.dest());
        } else {
            free(place);
        }
    }

    /// Goes on with what an earlier version was writing, if that is there.
    fn go_on_with_new<D: SpoolDisk>(&mut self, disk: &D) {
        if self.later.are_none() && self.give_new_its_name(disk) {
            self.held = self.found_again(disk);
        }
    }

    /// The file, if it is there with whole lines.
    fn found_again<D: SpoolDisk>(&self, disk: &D) -> Option<HeldFile> {
        let mut piece = [0; LOOK];
        match found_at(disk, self.names.held(), self.owner, &mut piece) {
            Ok(FoundFile::Lines { file, end, length }) => {
                let mut held = HeldFile::new(file, end, SentPart::none());
                if length > end {
                    held.note_begun_line();
                }
                held.count_lines(&mut piece);
                Some(held)
            }
            found => {
                drop(found);
                None
            }
        }
    }
}

/// Notes news, if there was memory for them.
fn note_news(notes: Option<&SpoolNotes>, news: Result<String, NoMemory>) {
    match (notes, news) {
        (Some(notes), Ok(news)) => notes.note_news(news),
        (_, news) => drop(news),
    }
}
