//! What spooling needs of the disk.

use crate::clock::clock_seconds;
use relay_base::add;
use std::alloc::Global;
use std::fs::{File, Metadata, OpenOptions};
use std::os::unix::fs::OpenOptionsExt;
use std::{fs, io};

/// The permissions of a file: its owner reads and writes it. It has what producers sent.
const OWNER_ALONE: u32 = 0o600;

/// What spooling needs of the disk.
///
/// It is a trait of its own, beside the kit's `Files`, since a thread's bounds may have no types in them.
pub trait SpoolDisk {
    /// What is there at a path; of a link, the link itself.
    fn look_at(&self, path: &str) -> io::Result<Metadata>;

    /// Opens a file to read it, and to write behind its end. It waits for nobody, whatever the file is.
    fn open_held(&self, path: &str) -> io::Result<File>;

    /// Opens the file of a folder's records, to read and to write it, and makes it if it is not there.
    fn open_records(&self, path: &str) -> io::Result<File>;

    /// Makes a file, which is written and then read, and only its owner may read. Refuses if something is there.
    fn make_new(&self, path: &str) -> io::Result<File>;

    /// Gives a file another name, in place of what has that.
    fn give_name(&self, path: &str, name: &str) -> io::Result<()>;

    /// Removes a file.
    fn remove(&self, path: &str) -> io::Result<()>;

    /// Waits until the names of a folder are on the disk.
    fn sync_folder(&self, path: &str) -> io::Result<()>;

    /// The time now, in seconds since 1970; 0 if the system does not say.
    fn seconds(&self) -> u64;

    /// The names in a folder.
    fn names_in(&self, alloc: Global, path: &str) -> io::Result<Vec<String>>;
}

impl SpoolDisk for HostRuntime {
    fn look_at(&self, path: &str) -> io::Result<Metadata> {
        fs::symlink_metadata(self, path)
    }

    fn open_held(&self, path: &str) -> io::Result<File> {
        // A FIFO that is opened to read alone waits for a writer.
        OpenOptions::new().read(true).append(true).open(self, path)
    }

    fn open_records(&self, path: &str) -> io::Result<File> {
        OpenOptions::new()
            .read(true)
            .write(true)
            .create(true)
            .mode(OWNER_ALONE)
            .open(self, path)
    }

    fn make_new(&self, path: &str) -> io::Result<File> {
        OpenOptions::new()
            .read(true)
            .append(true)
            .create_new(true)
            .mode(OWNER_ALONE)
            .open(self, path)
    }

    fn give_name(&self, path: &str, name: &str) -> io::Result<()> {
        fs::rename(self, path, name)
    }

    fn remove(&self, path: &str) -> io::Result<()> {
        fs::remove_file(self, path)
    }

    fn sync_folder(&self, path: &str) -> io::Result<()> {
        File::open(self, path)?.sync_all()
    }

    fn seconds(&self) -> u64 {
        clock_seconds(self)
    }

    fn names_in(&self, alloc: Global, path: &str) -> io::Result<Vec<String>> {
        let mut names = Vec::new(alloc);
        for entry in fs::read_dir(self, path)? {
            let entry = entry?;
            let name = String::from_str(alloc, entry.file_name())?;
            if add(&mut names, name).is_err() {
                return Err(io::Error::from(io::ErrorKind::OutOfMemory));
            }
        }
        Ok(names)
    }
}
