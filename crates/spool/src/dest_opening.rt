//! What is found of one destination's files when they are opened.

use crate::dest_spool::{DestSpool, free};
use crate::file_names::FileNames;
use crate::found_file::FoundFile;
use crate::held_file::{HeldFile, SentPart};
use crate::open_folder::{OpenFault, OpenFolder};
use crate::segments::Segments;
use crate::spool_disk::SpoolDisk;
use conf_text::Dest;
use std::alloc::{AllocError, Global};
use std::io::ErrorKind;

impl DestSpool {
    /// The files of a destination in a folder, and what an earlier run left there. A file that was read and has no whole line is
    /// put aside, and so is what is behind the last whole line of another; the news say so. Refuses what is there and cannot be
    /// used, and if out of memory.
    pub(crate) fn open<D: SpoolDisk>(
        disk: &D,
        alloc: Global,
        folder: &mut OpenFolder<'_>,
        dest: &Dest,
    ) -> Result<DestSpool, OpenFault> {
        let names = FileNames::new(alloc, folder.at.path, dest)?;
        let mut spool = DestSpool {
            names,
            owner: folder.at.owner,
            held: None,
            sent: SentPart::none(),
            number: 0,
            later: Segments::none(alloc),
            tail: None,
            written_at: 0,
            place: None,
            has_no_end: false,
            is_new_behind: false,
            makes_segments: folder.at.makes_segments,
        };
        match spool.find_held(disk, folder) {
            Ok(()) => Ok(spool),
            Err(fault) => {
                drop(spool);
                Err(fault)
            }
        }
    }

    /// Finds what an earlier run left: the file, or, if there is none, what an earlier version was writing, and the segments
    /// behind that. The news say how much waits.
    fn find_held<D: SpoolDisk>(
        &mut self,
        disk: &D,
        folder: &mut OpenFolder<'_>,
    ) -> Result<(), OpenFault> {
        let is_new_there = self.look_at_new(disk, folder)?;
        self.find_segments(disk, folder)?;
        let found = folder.found_at(disk, self.names.held(), self.owner)?;
        self.held = self.usable(disk, folder, found)?;
        if self.held.is_none() {
            folder.forget(self.names.name());
            if is_new_there && self.give_new_its_name(disk) {
                let found = folder.found_at(disk, self.names.held(), self.owner)?;
                self.held = self.usable(disk, folder, found)?;
            }
        }
        self.find_first(disk, folder)?;
        self.tell_waiting(disk, folder)
    }

    /// The news of what waits, which is counted.
    fn tell_waiting<D: SpoolDisk>(
        &mut self,
        disk: &D,
        folder: &mut OpenFolder<'_>,
    ) -> Result<(), OpenFault> {
        if let Some(held) = &mut self.held {
            folder.count_lines(held);
        }
        let waiting = self.waiting();
        if waiting.bytes == 0 {
            return Ok(());
        }
        match folder.tell_waiting(self.names.dest(), waiting, disk.seconds()) {
            Ok(()) => Ok(()),
            Err(fault) => Err(OpenFault::from(fault)),
        }
    }

    /// Whether there is what an earlier version was writing, with whole lines. The news say so. What has none is put aside.
    fn look_at_new<D: SpoolDisk>(
        &self,
        disk: &D,
        folder: &mut OpenFolder<'_>,
    ) -> Result<bool, OpenFault> {
        match folder.found_at(disk, self.names.new_file(), self.owner)? {
            FoundFile::Nothing => Ok(false),
            FoundFile::Lines { file, .. } => {
                drop(file);
                folder.tell_left_new(&self.names)?;
                Ok(true)
            }
            FoundFile::NoLines { length } => {
                self.put_aside(disk, folder, self.names.new_file(), length)?;
                Ok(false)
            }
        }
    }

    /// What was found, if it holds lines that were not sent. One that was sent whole is removed, one without lines put aside.
    pub(crate) fn usable<D: SpoolDisk>(
        &self,
        disk: &D,
        folder: &mut OpenFolder<'_>,
        found: FoundFile,
    ) -> Result<Option<HeldFile>, OpenFault> {
        match found {
            FoundFile::Nothing => Ok(None),
            FoundFile::NoLines { length } => {
                self.put_aside(disk, folder, self.names.held(), length)?;
                Ok(None)
            }
            FoundFile::Lines { file, end, length } => {
                let mut held = HeldFile::new(file, end, SentPart::none());
                match self.prepare(disk, folder, &mut held, length) {
                    Ok(true) => Ok(Some(held)),
                    Ok(false) => {
                        if disk.remove(self.names.held()).is_ok() {
                            free(held.take_place());
                        }
                        drop(held);
                        Ok(None)
                    }
                    Err(fault) => {
                        drop(held);
                        Err(OpenFault::from(fault))
                    }
                }
            }
        }
    }

    /// Lets a file of this length go on where its sending was, with nothing behind its whole lines. Returns whether lines are left.
    fn prepare<D: SpoolDisk>(
        &self,
        disk: &D,
        folder: &mut OpenFolder<'_>,
        held: &mut HeldFile,
        length: u64,
    ) -> Result<bool, AllocError> {
        folder.go_on(held, &self.names)?;
        if length > held.end() {
            self.cut(disk, folder, held, length)?;
        }
        Ok(!held.is_sent() || held.has_begun_line())
    }

    /// Puts aside what is behind the whole lines of a file of this length. If that cannot be, the whole file is put aside once
    /// these are sent.
    fn cut<D: SpoolDisk>(
        &self,
        disk: &D,
        folder: &mut OpenFolder<'_>,
        held: &mut HeldFile,
        length: u64,
    ) -> Result<(), AllocError> {
        match self.put_end_aside(disk, held.file(), held.end(), length) {
            Ok(aside) => {
                let told = folder.tell_begun_line(&self.names, aside.as_str());
                drop(aside);
                told
            }
            Err(error) => {
                drop(error);
                held.note_begun_line();
                Ok(())
            }
        }
    }

    /// Gives what an earlier version was writing the name of the file, which is not there any more. Returns whether it could.
    pub(crate) fn give_new_its_name<D: SpoolDisk>(&self, disk: &D) -> bool {
        match disk.look_at(self.names.held()) {
            Ok(_) => false,
            Err(error) => {
                let is_free = error.kind() == ErrorKind::NotFound;
                drop(error);
                is_free
                    && disk
                        .give_name(self.names.new_file(), self.names.held())
                        .is_ok()
            }
        }
    }
}
