//! The file that takes what is not sent at the end of a run.

use crate::dest_spool::{DestSpool, LOOK};
use crate::found_file::{FileFault, FoundFile, found_at, is_there};
use crate::held_file::{HeldFile, SentPart};
use crate::held_text::end_of_lines;
use crate::limited_file::LimitedFile;
use crate::spool_disk::SpoolDisk;
use std::fs::File;
use std::io::ErrorKind;
use std::{io, mem};

impl DestSpool {
    /// The file that takes what is not sent, from now on: the earlier one, behind its lines, or a new one. If segments are behind
    /// that, it is another one behind these.
    pub(crate) fn begin_new<D: SpoolDisk>(
        &mut self,
        disk: &D,
        limit: Option<u64>,
    ) -> io::Result<LimitedFile<File>> {
        if !self.later.are_none() {
            return self.begin_behind(disk, limit);
        }
        if let Some(held) = self.held.take() {
            let (file, end, sent) = held.into_parts();
            if is_there(disk, self.names.held(), &file) {
                self.sent = sent;
                return self.go_on_behind(disk, file, end, limit);
            }
            drop((file, sent));
        }
        match disk.make_new(self.names.held()) {
            Ok(file) => Ok(LimitedFile::new(file, 0, limit)),
            Err(error) => {
                let is_taken = error.kind() == ErrorKind::AlreadyExists;
                if !is_taken {
                    return Err(error);
                }
                drop(error);
                self.go_on_at(disk, limit)
            }
        }
    }

    /// The file that somebody has put there takes what is not sent, behind its lines.
    fn go_on_at<D: SpoolDisk>(
        &self,
        disk: &D,
        limit: Option<u64>,
    ) -> io::Result<LimitedFile<File>> {
        let mut piece = [0; LOOK];
        match found_at(disk, self.names.held(), self.owner, &mut piece) {
            Ok(FoundFile::Lines { file, end, .. }) => self.go_on_behind(disk, file, end, limit),
            Ok(FoundFile::NoLines { .. }) => {
                drop(self.move_aside(disk, self.names.held())?);
                let file = disk.make_new(self.names.held())?;
                Ok(LimitedFile::new(file, 0, limit))
            }
            Ok(FoundFile::Nothing) => Err(io::Error::from(ErrorKind::AlreadyExists)),
            Err(FileFault::System(error)) => Err(error),
            Err(fault) => {
                drop(fault);
                Err(io::Error::from(ErrorKind::AlreadyExists))
            }
        }
    }

    /// A file whose whole lines end there, or before if somebody has cut it, takes what is not sent behind these.
    fn go_on_behind<D: SpoolDisk>(
        &self,
        disk: &D,
        file: File,
        end: u64,
        limit: Option<u64>,
    ) -> io::Result<LimitedFile<File>> {
        match self.end_for_more(disk, &file, end) {
            Ok(end) => Ok(LimitedFile::new(file, end, limit)),
            Err(error) => {
                drop(file);
                Err(error)
            }
        }
    }

    /// Where the whole lines of a file end, once nothing is behind these.
    fn end_for_more<D: SpoolDisk>(&self, disk: &D, file: &File, end: u64) -> io::Result<u64> {
        let length = file.metadata()?.len();
        let mut piece = [0; LOOK];
        let end = if length < end {
            end_of_lines(file, length, &mut piece)?
        } else {
            end
        };
        if length > end {
            drop(self.put_end_aside(disk, file, end, length)?);
        }
        Ok(end)
    }

    /// Ends the file that took what was not sent: it has whole lines, they are on the disk, and the file is there. It is the one
    /// that holds lines from now on.
    pub(crate) fn end_new<D: SpoolDisk>(
        &mut self,
        disk: &D,
        new: LimitedFile<File>,
    ) -> io::Result<()> {
        if mem::replace(&mut self.is_new_behind, false) {
            return self.end_behind(disk, new);
        }
        let (end, is_whole) = (new.end(), new.is_whole());
        let file = new.into_file();
        let sent = mem::replace(&mut self.sent, SentPart::none());
        if end == 0 {
            drop((file, sent));
            return disk.remove(self.names.held());
        }
        match self.end_file(disk, &file, end, is_whole) {
            Ok(()) => {
                let mut held = HeldFile::new(file, end, sent);
                self.give_place(&mut held);
                self.held = Some(held);
                Ok(())
            }
            Err(error) => {
                drop((file, sent));
                Err(error)
            }
        }
    }

    /// Waits until the lines of a file, which end there, are on the disk, and the file is known to be there.
    fn end_file<D: SpoolDisk>(
        &self,
        disk: &D,
        file: &File,
        end: u64,
        is_whole: bool,
    ) -> io::Result<()> {
        if !is_whole {
            file.set_len(end)?;
        }
        file.sync_all()?;
        if !is_there(disk, self.names.held(), file) {
            return Err(io::Error::from(ErrorKind::NotFound));
        }
        // The lines are in the file, whether the system answers for its name or not.
        let _ = disk.sync_folder(self.names.folder());
        Ok(())
    }
}
