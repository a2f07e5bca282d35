//! A folder whose files are opened.

use crate::file_names::{FileNames, LOCK, segment_number};
use crate::found_file::{FileFault, FoundFile, found_at};
use crate::held_file::HeldFile;
use crate::held_text::HeldText;
use crate::line_count::lines_up_to;
use crate::sent_table::{SentPlace, SentTable};
use crate::spool_disk::SpoolDisk;
use crate::waiting::Waiting;
use memchr::memchr_iter;
use relay_base::{NoMemory, add};
use std::alloc::{AllocError, Global};
use std::fmt::Write as _;
use std::fs::File;
use std::io::ErrorKind;

/// How many bytes are sent, or looked at, at once.
const PIECE: usize = 65_536;

/// The folder of a relay, and the user whose files it has, if that is known.
#[derive(Clone, Copy)]
pub struct FolderAt<'a> {
    /// The folder.
    pub path: &'a str,
    /// The user.
    pub owner: Option<u32>,
    /// Whether files are made while the relay runs, so that each destination has a record from the start on.
    pub makes_segments: bool,
}

/// Why the files of a folder cannot be opened.
#[derive(Drop)]
pub enum OpenFault {
    /// This file cannot be used: its path, and why.
    File(String),
    /// Out of memory.
    NoMemory,
}

impl From<NoMemory> for OpenFault {
    fn from(_fault: NoMemory) -> OpenFault {
        OpenFault::NoMemory
    }
}

impl From<AllocError> for OpenFault {
    fn from(_fault: AllocError) -> OpenFault {
        OpenFault::NoMemory
    }
}

/// A folder whose files are opened: how far they were sent, room to look at them, and what is to be said of them.
#[derive(Drop)]
pub(crate) struct OpenFolder<'a> {
    pub(crate) at: FolderAt<'a>,
    alloc: Global,
    sent: Option<SentTable>,
    piece: Vec<u8>,
    pub(crate) news: String,
}

impl<'a> OpenFolder<'a> {
    /// A folder, of which so many files more may be sent, with these news before others. Refuses if out of memory.
    pub(crate) fn new<D: SpoolDisk>(
        disk: &D,
        alloc: Global,
        at: FolderAt<'a>,
        more: usize,
        news: String,
    ) -> Result<OpenFolder<'a>, NoMemory> {
        let piece = vec![in alloc; 0; PIECE]?;
        let folder = at.path;
        let path = format!(in alloc; "{folder}/{LOCK}")?;
        let sent = SentTable::open(disk, alloc, path.as_str(), more);
        drop(path);
        match sent {
            Ok(sent) => Ok(OpenFolder {
                at,
                alloc,
                sent,
                piece,
                news,
            }),
            Err(fault) => {
                drop((piece, news));
                Err(fault)
            }
        }
    }

    /// What is to be said of the folder.
    pub(crate) fn into_news(self) -> String {
        let OpenFolder {
            sent,
            piece,
            news,
            ..
        } = self;
        drop((sent, piece));
        news
    }

    /// What is there at a path. Refuses what cannot be used.
    pub(crate) fn found_at<D: SpoolDisk>(
        &mut self,
        disk: &D,
        path: &str,
        owner: Option<u32>,
    ) -> Result<FoundFile, OpenFault> {
        match found_at(disk, path, owner, &mut self.piece) {
            Ok(found) => Ok(found),
            Err(fault) => Err(self.fault(path, fault)),
        }
    }

    /// The fault of the file at a path.
    pub(crate) fn fault(&self, path: &str, fault: FileFault) -> OpenFault {
        let alloc = self.alloc;
        let text = format!(in alloc; "{path}: {fault}");
        drop(fault);
        match text {
            Ok(text) => OpenFault::File(text),
            Err(_) => OpenFault::NoMemory,
        }
    }

    /// There is no file of this name.
    pub(crate) fn forget(&self, name: &str) {
        if let Some(sent) = &self.sent {
            sent.forget(name);
        }
    }

    /// The record of a destination of which no file is there, if each has one from the start on, and there is one for it.
    pub(crate) fn record_for(&self, dest: &str) -> Option<SentPlace> {
        if !self.at.makes_segments {
            return None;
        }
        let sent = self.sent.as_ref()?;
        match sent.record_of(dest) {
            Some((place, _said)) => Some(place),
            None => None,
        }
    }

    /// Of the files of a destination none has a record but the one of this name.
    pub(crate) fn forget_others(&self, dest: &str, name: &str) {
        if let Some(sent) = &self.sent {
            sent.forget_others(dest, name);
        }
    }

    /// The numbers of the segments of a destination that are there, from 1 on, in order. Refuses a folder that cannot be read
    /// now, and if out of memory.
    pub(crate) fn numbers_of<D: SpoolDisk>(
        &self,
        disk: &D,
        dest: &str,
    ) -> Result<Vec<u32>, OpenFault> {
        let names = match disk.names_in(self.alloc, self.at.path) {
            Ok(names) => names,
            Err(error) => {
                // A relay finds its files without reading a folder that it may not read, where it makes no segments.
                if error.kind() == ErrorKind::PermissionDenied && !self.at.makes_segments {
                    drop(error);
                    return Ok(Vec::new(self.alloc));
                }
                return Err(self.fault(self.at.path, FileFault::System(error)));
            }
        };
        let numbers = numbers_in(self.alloc, &names, dest);
        drop(names);
        match numbers {
            Ok(numbers) => Ok(numbers),
            Err(fault) => Err(OpenFault::from(fault)),
        }
    }

    /// How many lines a file has up to a place, as far as it can be read.
    pub(crate) fn lines_up_to(&mut self, file: &File, end: u64) -> u64 {
        lines_up_to(file, end, &mut self.piece)
    }

    /// Counts the lines that wait in a file.
    pub(crate) fn count_lines(&mut self, held: &mut HeldFile) {
        held.count_lines(&mut self.piece);
    }

    /// The sending of a file goes on where it was; the news say how many lines may come twice.
    pub(crate) fn go_on(
        &mut self,
        held: &mut HeldFile,
        names: &FileNames,
    ) -> Result<(), AllocError> {
        let Some(sent) = &self.sent else {
            return Ok(());
        };
        let Some((mut place, said)) = sent.record_of(names.name()) else {
            return Ok(());
        };
        let is_known = said.is_of(held.file(), held.end());
        if is_known {
            held.go_on_at(said.place);
            place.go_on_at(said.place);
        }
        held.note_at(place);
        if !said.is_under_way {
            return Ok(());
        }
        let from = if is_known { said.place } else { 0 };
        let lines = self.lines_from(held, from);
        let path = names.held();
        write!(
            self.news,
            "spool: {path}: the relay was killed behind byte {from}: up to {lines} lines may come twice\n"
        )
    }

    /// How many lines a piece from a place on has a part of.
    fn lines_from(&mut self, held: &HeldFile, place: u64) -> usize {
        match held.file().read_from(place, &mut self.piece) {
            Ok(count) => {
                let count = count.min(self.piece.len());
                memchr_iter(b'\n', &self.piece[..count])
                    .count()
                    .saturating_add(1)
            }
            Err(_) => 0,
        }
    }

    /// The news of what waits for a destination at this second since 1970.
    pub(crate) fn tell_waiting(
        &mut self,
        dest: &str,
        waiting: Waiting,
        clock: u64,
    ) -> Result<(), AllocError> {
        let (datapoints, bytes) = (waiting.datapoints, waiting.bytes);
        let age = waiting.age(clock);
        write!(
            self.news,
            "destination {dest} spool waits, {datapoints} datapoints, {bytes} bytes, {age} seconds old\n"
        )
    }

    /// The news of what a file had behind its whole lines.
    pub(crate) fn tell_begun_line(
        &mut self,
        names: &FileNames,
        aside: &str,
    ) -> Result<(), AllocError> {
        let held = names.held();
        write!(
            self.news,
            "spool: {held}: the last line has no end; it stays in {aside}\n"
        )
    }

    /// The news of a file without a whole line.
    pub(crate) fn tell_no_lines(&mut self, path: &str, aside: &str) -> Result<(), AllocError> {
        write!(self.news, "spool: {path}: no lines; it is {aside} now\n")
    }

    /// The news of the new file of a run that was killed.
    pub(crate) fn tell_left_new(&mut self, names: &FileNames) -> Result<(), AllocError> {
        let (new, held) = (names.new_file(), names.held());
        write!(
            self.news,
            "spool: {new}: a relay was killed while it wrote this; it is sent behind {held}, and lines may come twice\n"
        )
    }
}

/// The numbers of the segments of a destination among names, from 1 on, in order. Refuses if out of memory.
fn numbers_in(alloc: Global, names: &[String], dest: &str) -> Result<Vec<u32>, NoMemory> {
    let mut numbers = Vec::new(alloc);
    for name in names {
        match segment_number(name.as_str(), dest) {
            Some(0) | None => {}
            Some(number) => add(&mut numbers, number)?,
        }
    }
    numbers.sort_unstable_by_key(|number| *number);
    Ok(numbers)
}
