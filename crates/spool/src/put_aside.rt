//! Files, and ends of files, that are put aside under a free name: nothing in them is sent.

use crate::copy::copy_part;
use crate::dest_spool::DestSpool;
use crate::found_file::FileFault;
use crate::open_folder::{OpenFault, OpenFolder};
use crate::spool_disk::SpoolDisk;
use std::fs::File;
use std::io;

impl DestSpool {
    /// Puts a file of this length aside that has no whole line. An empty one is removed.
    pub(crate) fn put_aside<D: SpoolDisk>(
        &self,
        disk: &D,
        folder: &mut OpenFolder<'_>,
        path: &str,
        length: u64,
    ) -> Result<(), OpenFault> {
        if length == 0 {
            let _ = disk.remove(path);
            return Ok(());
        }
        match self.move_aside(disk, path) {
            Ok(aside) => {
                let told = folder.tell_no_lines(path, aside.as_str());
                drop(aside);
                match told {
                    Ok(()) => Ok(()),
                    Err(fault) => Err(OpenFault::from(fault)),
                }
            }
            Err(error) => Err(folder.fault(path, FileFault::System(error))),
        }
    }

    /// Gives a file a free name. Returns that.
    pub(crate) fn move_aside<D: SpoolDisk>(&self, disk: &D, path: &str) -> io::Result<String> {
        let aside = self.names.free_aside(disk)?;
        match disk.give_name(path, aside.as_str()) {
            Ok(()) => Ok(aside),
            Err(error) => {
                drop(aside);
                Err(error)
            }
        }
    }

    /// Writes what is behind the whole lines of a file to one with a free name, and once that is on the disk cuts it off.
    pub(crate) fn put_end_aside<D: SpoolDisk>(
        &self,
        disk: &D,
        file: &File,
        end: u64,
        length: u64,
    ) -> io::Result<String> {
        let aside = self.names.free_aside(disk)?;
        match move_end(disk, file, end, length, aside.as_str()) {
            Ok(()) => Ok(aside),
            Err(error) => {
                drop(aside);
                Err(error)
            }
        }
    }
}

/// Copies what is behind the whole lines of a file to a new one, and cuts it off there.
fn move_end<D: SpoolDisk>(
    disk: &D,
    file: &File,
    end: u64,
    length: u64,
    path: &str,
) -> io::Result<()> {
    let copied = copy_to(disk.make_new(path)?, file, end, length);
    match copied {
        Ok(()) => file.set_len(end),
        Err(error) => {
            let _ = disk.remove(path);
            Err(error)
        }
    }
}

/// Copies a part of a file to another one, and waits until that is on the disk.
fn copy_to(to: File, file: &File, start: u64, end: u64) -> io::Result<()> {
    let mut to = to;
    copy_part(file, start, end, &mut to)?;
    to.sync_all()
}
