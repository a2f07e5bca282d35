//! The segments of one destination: they are found, written and sent in the order of their numbers.

use crate::dest_spool::{DestSpool, LOOK};
use crate::file_names::{LAST_SEGMENT, is_free};
use crate::found_file::{FileFault, FoundFile, found_at, is_there};
use crate::held_file::{HeldFile, SentPart};
use crate::limited_file::LimitedFile;
use crate::line_count::{lines_in, lines_up_to};
use crate::open_folder::{OpenFault, OpenFolder};
use crate::segments::Segment;
use crate::spool_disk::SpoolDisk;
use relay_base::NoMemory;
use std::fs::File;
use std::io;
use std::io::{ErrorKind, Write};

/// How many numbers may be those of files that somebody has put there.
const MOST_TAKEN: u32 = 16;

/// Behind which number the first segment is given another one.
const LATE_SEGMENT: u32 = 50_000;

/// How large segments become, in bytes: the size at which another one is begun, and the system's limit for the size of a file,
/// if there is one.
#[derive(Clone, Copy)]
pub struct SegmentLimits {
    /// A segment becomes no larger, unless one write does.
    pub segment: u64,
    /// The system's limit.
    pub file: Option<u64>,
}

/// What is there in the place of the next segment.
#[derive(Drop)]
enum NextSegment {
    /// A file of this length, whose whole lines end there.
    Lines { file: File, end: u64, length: u64 },
    /// Nothing that is to be sent.
    Nothing,
    /// It cannot be opened now, or has nothing yet.
    NotNow,
}

impl DestSpool {
    /// Finds the segments behind the first one that earlier runs left. One without a whole line is put aside. Refuses what is
    /// there and cannot be used, and if out of memory.
    pub(crate) fn find_segments<D: SpoolDisk>(
        &mut self,
        disk: &D,
        folder: &mut OpenFolder<'_>,
    ) -> Result<(), OpenFault> {
        let numbers = folder.numbers_of(disk, self.names.dest())?;
        for number in numbers {
            self.find_segment(disk, folder, number)?;
        }
        Ok(())
    }

    /// Finds the segment of a number, if it is there.
    fn find_segment<D: SpoolDisk>(
        &mut self,
        disk: &D,
        folder: &mut OpenFolder<'_>,
        number: u32,
    ) -> Result<(), OpenFault> {
        let path = self.names.segment_path(number)?;
        let found = match folder.found_at(disk, path.as_str(), self.owner) {
            Ok(found) => self.add_found(disk, folder, path.as_str(), number, found),
            Err(fault) => Err(fault),
        };
        drop(path);
        found
    }

    /// Adds the segment that was found at a path, if it has whole lines.
    fn add_found<D: SpoolDisk>(
        &mut self,
        disk: &D,
        folder: &mut OpenFolder<'_>,
        path: &str,
        number: u32,
        found: FoundFile,
    ) -> Result<(), OpenFault> {
        match found {
            FoundFile::Nothing => Ok(()),
            FoundFile::NoLines { length } => self.put_aside(disk, folder, path, length),
            FoundFile::Lines { file, end, .. } => {
                let lines = folder.lines_up_to(&file, end);
                drop(file);
                let segment = Segment {
                    number,
                    bytes: end,
                    lines,
                };
                match self.later.add(segment) {
                    Ok(()) => Ok(()),
                    Err(fault) => Err(OpenFault::from(fault)),
                }
            }
        }
    }

    /// Holds the first segment that has lines which are not sent, if none is held. The records of others are forgotten. Refuses
    /// what is there and cannot be used, and if out of memory.
    pub(crate) fn find_first<D: SpoolDisk>(
        &mut self,
        disk: &D,
        folder: &mut OpenFolder<'_>,
    ) -> Result<(), OpenFault> {
        for _ in 0..self.later.len() {
            if self.held.is_some() {
                break;
            }
            let Some(segment) = self.later.take_first() else {
                break;
            };
            self.names.select(segment.number)?;
            self.number = segment.number;
            let found = folder.found_at(disk, self.names.held(), self.owner)?;
            self.held = self.usable(disk, folder, found)?;
        }
        if self.held.is_none() {
            self.names.select(0)?;
            folder.forget_others(self.names.dest(), "");
            self.place = folder.record_for(self.names.dest());
        } else {
            folder.forget_others(self.names.dest(), self.names.name());
        }
        Ok(())
    }

    /// A file that could not be read is not held if segments are behind it: they go out without it, and the next run tries it
    /// again.
    pub(crate) fn pass_failed(&mut self) {
        let has_failed = match &self.held {
            Some(held) => held.has_failed(),
            None => false,
        };
        if has_failed && !self.later.are_none() {
            drop(self.held.take());
        }
    }

    /// Holds the next segment, once none is held. One that somebody took away is passed over; one that cannot be opened now stays
    /// the next one.
    pub(crate) fn go_on_with_next<D: SpoolDisk>(&mut self, disk: &D) {
        self.number_anew(disk);
        for _ in 0..self.later.len() {
            let Some(segment) = self.later.first() else {
                return;
            };
            if self.names.select(segment.number).is_err() {
                return;
            }
            match self.next_segment(disk) {
                NextSegment::Lines { file, end, length } => {
                    self.hold(file, end, length, segment);
                    return;
                }
                NextSegment::Nothing => {
                    let _passed = self.later.take_first();
                }
                NextSegment::NotNow => return,
            }
        }
    }

    /// Gives the segments the first numbers, while none is held, if the first of them is behind [`LATE_SEGMENT`]: so numbers never
    /// run out, however long a destination is diverted. They stay in their order at each step.
    fn number_anew<D: SpoolDisk>(&mut self, disk: &D) {
        match self.later.first() {
            Some(first) if first.number > LATE_SEGMENT => {}
            _ => return,
        }
        let mut number: u32 = 0;
        for place in 0..self.later.len() {
            let Some(segment) = self.later.as_slice().get(place) else {
                return;
            };
            number = number.saturating_add(1);
            if !self.moves_segment(disk, segment.number, number) {
                return;
            }
            self.later.note_number(place, number);
        }
    }

    /// Gives the segment of a number another one, at which nothing is. Returns whether it could.
    fn moves_segment<D: SpoolDisk>(&self, disk: &D, from: u32, to: u32) -> bool {
        let (Ok(old), Ok(new)) = (self.names.segment_path(from), self.names.segment_path(to)) else {
            return false;
        };
        let moved = is_free(disk, new.as_str())
            && disk.give_name(old.as_str(), new.as_str()).is_ok();
        drop((old, new));
        moved
    }

    /// What is there in the place of the next segment, whose name is selected. If that is the one that is written, it is no
    /// longer written.
    fn next_segment<D: SpoolDisk>(&mut self, disk: &D) -> NextSegment {
        if self.later.len() == 1 {
            if let Some(tail) = self.tail.take() {
                return self.sent_tail(tail);
            }
        }
        let mut piece = [0; LOOK];
        match found_at(disk, self.names.held(), self.owner, &mut piece) {
            Ok(FoundFile::Lines { file, end, length }) => NextSegment::Lines { file, end, length },
            Ok(FoundFile::NoLines { .. }) | Ok(FoundFile::Nothing) => NextSegment::Nothing,
            Err(FileFault::System(error)) => {
                drop(error);
                NextSegment::NotNow
            }
            Err(fault) => {
                drop(fault);
                NextSegment::Nothing
            }
        }
    }

    /// The segment that was written is to be sent, if it has lines.
    fn sent_tail(&mut self, tail: LimitedFile<File>) -> NextSegment {
        let end = tail.end();
        if end == 0 {
            self.tail = Some(tail);
            return NextSegment::NotNow;
        }
        NextSegment::Lines {
            file: tail.into_file(),
            end,
            length: end,
        }
    }

    /// Holds the first segment, a file of this length, whose whole lines end there.
    fn hold(&mut self, file: File, end: u64, length: u64, segment: Segment) {
        let mut held = HeldFile::new(file, end, SentPart::none());
        held.note_lines(segment.lines);
        if length > end {
            held.note_begun_line();
        }
        if self.has_no_end {
            held.note_no_end();
        }
        self.give_place(&mut held);
        let _first = self.later.take_first();
        self.number = segment.number;
        self.held = Some(held);
    }

    /// Writes whole lines to the last segment, or to a new one where they have no room there: behind all that the destination has
    /// in files. Returns how many bytes of them are kept, which are whole lines; what is begun of another one is cut off again.
    pub fn append<D: SpoolDisk>(
        &mut self,
        disk: &D,
        limits: SegmentLimits,
        lines: &[u8],
    ) -> io::Result<usize> {
        self.leave_lost_tail(disk);
        if self.is_full(limits.segment, lines.len()) {
            self.sync_tail();
            self.end_tail();
        }
        if self.tail.is_none() {
            self.begin_tail(disk, limits.file)?;
        }
        let Some(tail) = &mut self.tail else {
            return Err(io::Error::from(ErrorKind::NotConnected));
        };
        let before = tail.end();
        let result = tail.write(lines);
        let end = tail.end();
        let is_whole = tail.is_whole();
        let kept = (end.saturating_sub(before) as usize).min(lines.len());
        self.later.note_last(end, lines_in(&lines[..kept]));
        self.written_at = disk.seconds();
        if !is_whole {
            self.cut_tail(limits.file);
        }
        match result {
            Ok(_) => Ok(kept),
            Err(error) => Err(error),
        }
    }

    /// The last segment is no longer written, nor sent, if somebody has taken it away.
    fn leave_lost_tail<D: SpoolDisk>(&mut self, disk: &D) {
        let Some(tail) = &self.tail else {
            return;
        };
        let number = self.later.last_number().unwrap_or(0);
        let Ok(path) = self.names.segment_path(number) else {
            return;
        };
        let is_lost = !is_there(disk, path.as_str(), tail.file());
        drop(path);
        if is_lost {
            self.end_tail();
            self.later.drop_last();
        }
    }

    /// Whether the last segment has no room for so many bytes more.
    fn is_full(&self, limit: u64, count: usize) -> bool {
        match &self.tail {
            Some(tail) => {
                let end = tail.end();
                end > 0 && end.saturating_add(count as u64) > limit
            }
            None => false,
        }
    }

    /// Waits until the last segment is on the disk. If that cannot be, the system tries it later.
    fn sync_tail(&self) {
        if let Some(tail) = &self.tail {
            let _ = tail.file().sync_data();
        }
    }

    /// The last segment is no longer written.
    fn end_tail(&mut self) {
        drop(self.tail.take());
    }

    /// Cuts off what was begun of a line in the last segment. One in which that cannot be is no longer written.
    fn cut_tail(&mut self, limit: Option<u64>) {
        let Some(tail) = self.tail.take() else {
            return;
        };
        let end = tail.end();
        let file = tail.into_file();
        if file.set_len(end).is_ok() {
            self.tail = Some(LimitedFile::new(file, end, limit));
        } else {
            drop(file);
        }
    }

    /// Begins a segment behind all others, which is written from now on.
    fn begin_tail<D: SpoolDisk>(&mut self, disk: &D, limit: Option<u64>) -> io::Result<()> {
        let first = self.next_number();
        for number in first..first.saturating_add(MOST_TAKEN) {
            match self.make_segment(disk, number) {
                Ok(file) => {
                    self.tail = Some(LimitedFile::new(file, 0, limit));
                    return Ok(());
                }
                Err(error) => {
                    if error.kind() != ErrorKind::AlreadyExists {
                        return Err(error);
                    }
                    drop(error);
                }
            }
        }
        Err(io::Error::from(ErrorKind::AlreadyExists))
    }

    /// The number behind those of all segments; 0 if there is none.
    fn next_number(&self) -> u32 {
        match (self.later.last_number(), &self.held) {
            (Some(last), _) => last.saturating_add(1),
            (None, Some(_)) => self.number.saturating_add(1),
            (None, None) => 0,
        }
    }

    /// Makes the segment of a number, at which nothing is: the last one.
    fn make_segment<D: SpoolDisk>(&mut self, disk: &D, number: u32) -> io::Result<File> {
        if number > LAST_SEGMENT {
            return Err(io::Error::from(ErrorKind::StorageFull));
        }
        let Ok(path) = self.names.segment_path(number) else {
            return Err(io::Error::from(ErrorKind::OutOfMemory));
        };
        let made = disk.make_new(path.as_str());
        drop(path);
        let file = made?;
        let segment = Segment {
            number,
            bytes: 0,
            lines: 0,
        };
        match self.later.add(segment) {
            Ok(()) => Ok(file),
            Err(NoMemory) => {
                drop(file);
                Err(io::Error::from(ErrorKind::OutOfMemory))
            }
        }
    }

    /// How many bytes the destination has in files.
    pub fn bytes(&self) -> u64 {
        let held = match &self.held {
            Some(held) => held.end(),
            None => 0,
        };
        held.saturating_add(self.later.bytes())
    }

    /// The last segment goes if nothing was written to it.
    pub fn leave_empty<D: SpoolDisk>(&mut self, disk: &D) {
        let is_empty = match &self.tail {
            Some(tail) => tail.end() == 0,
            None => false,
        };
        if !is_empty {
            return;
        }
        self.end_tail();
        if let Some(number) = self.later.last_number() {
            if let Ok(path) = self.names.segment_path(number) {
                let _ = disk.remove(path.as_str());
                drop(path);
            }
            self.later.drop_last();
        }
    }

    /// Waits until all files are on the disk. None is written any more.
    pub fn end_segments<D: SpoolDisk>(&mut self, disk: &D) -> io::Result<()> {
        self.leave_empty(disk);
        self.end_tail();
        match &self.held {
            Some(held) => held.file().sync_all()?,
            None if self.later.are_none() => return Ok(()),
            None => {}
        }
        for segment in self.later.as_slice() {
            let Ok(path) = self.names.segment_path(segment.number) else {
                return Err(io::Error::from(ErrorKind::OutOfMemory));
            };
            let synced = sync_at(disk, path.as_str());
            drop(path);
            synced?;
        }
        disk.sync_folder(self.names.folder())
    }

    /// The file that takes what is not sent: a segment behind all others.
    pub(crate) fn begin_behind<D: SpoolDisk>(
        &mut self,
        disk: &D,
        limit: Option<u64>,
    ) -> io::Result<LimitedFile<File>> {
        self.end_tail();
        self.begin_tail(disk, limit)?;
        match self.tail.take() {
            Some(tail) => {
                self.is_new_behind = true;
                Ok(tail)
            }
            None => Err(io::Error::from(ErrorKind::NotConnected)),
        }
    }

    /// Ends the last segment, which took what was not sent: it has whole lines, they are on the disk, and the file is there.
    pub(crate) fn end_behind<D: SpoolDisk>(
        &mut self,
        disk: &D,
        new: LimitedFile<File>,
    ) -> io::Result<()> {
        let (end, is_whole) = (new.end(), new.is_whole());
        let file = new.into_file();
        let number = self.later.last_number().unwrap_or(0);
        let Ok(path) = self.names.segment_path(number) else {
            drop(file);
            return Err(io::Error::from(ErrorKind::OutOfMemory));
        };
        let ended = self.end_segment(disk, path.as_str(), &file, end, is_whole);
        drop(path);
        drop(file);
        if end == 0 || ended.is_err() {
            self.later.drop_last();
        }
        ended
    }

    /// Waits until the lines of the last segment, which end there, are on the disk, and the file is known to be there. One
    /// without a line is removed.
    fn end_segment<D: SpoolDisk>(
        &mut self,
        disk: &D,
        path: &str,
        file: &File,
        end: u64,
        is_whole: bool,
    ) -> io::Result<()> {
        if end == 0 {
            return disk.remove(path);
        }
        if !is_whole {
            file.set_len(end)?;
        }
        file.sync_all()?;
        if !is_there(disk, path, file) {
            return Err(io::Error::from(ErrorKind::NotFound));
        }
        let mut piece = [0; LOOK];
        self.later
            .note_last(end, lines_up_to(file, end, &mut piece));
        // The lines are in the file, whether the system answers for its name or not.
        let _ = disk.sync_folder(self.names.folder());
        Ok(())
    }
}

/// Waits until the file at a path is on the disk.
fn sync_at<D: SpoolDisk>(disk: &D, path: &str) -> io::Result<()> {
    let file = disk.open_held(path)?;
    let synced = file.sync_all();
    drop(file);
    synced
}
