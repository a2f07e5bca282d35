//! The names of a destination's files.

use crate::spool_disk::SpoolDisk;
use conf_text::Dest;
use relay_base::{NoMemory, whole_number_up_to};
use std::alloc::Global;
use std::io;
use std::io::ErrorKind;

/// The file of a folder that the relay locks that uses it. It notes there how far files were sent. No destination's name has
/// its sign `~`.
pub const LOCK: &str = "~lock";

/// The file by which a start finds out whether it can write in a folder.
pub const TRIAL: &str = "~trial";

/// What is behind a destination's name in that of a file that an earlier version was writing.
const NEW: &str = "~new";

/// What is behind it in that of a file that is put aside.
const ASIDE: &str = "~aside";

/// What is behind it in that of a segment from the second one on, before the number.
const SEGMENT: char = '~';

/// How many digits the number of a segment has there.
const NUMBER_DIGITS: usize = 5;

/// The greatest number of a segment.
pub(crate) const LAST_SEGMENT: u32 = 99_999;

/// How many names a destination has for what is put aside.
const MOST_ASIDE: usize = 1_000;

/// The greatest number of bytes that the name of a file may have.
const LONGEST_NAME: usize = 255;

/// Whether a file can have the name of a destination, and what is behind it.
pub fn fits_name(alloc: Global, dest: &Dest) -> Result<bool, NoMemory> {
    let name = format!(in alloc; "{dest}{ASIDE}")?;
    Ok(name.len() <= LONGEST_NAME)
}

/// The paths of a destination's files in a folder: that of the file that holds its lines, as DESTINATIONS names it, and that of
/// one which an earlier version was writing. Its file may have others behind it, its segments, by number: it is segment 0 then,
/// and once it is sent the paths are those of another one ([`FileNames::select`]).
#[derive(Drop)]
pub struct FileNames {
    alloc: Global,
    folder: String,
    dest: String,
    name: String,
    held: String,
    new: String,
}

impl FileNames {
    /// The paths of a destination's files in a folder. Refuses if out of memory.
    pub fn new(alloc: Global, folder: &str, dest: &Dest) -> Result<FileNames, NoMemory> {
        Ok(FileNames {
            alloc,
            folder: String::from_str(alloc, folder)?,
            dest: format!(in alloc; "{dest}")?,
            name: format!(in alloc; "{dest}")?,
            held: format!(in alloc; "{folder}/{dest}")?,
            new: format!(in alloc; "{folder}/{dest}{NEW}")?,
        })
    }

    /// The folder.
    pub fn folder(&self) -> &str {
        self.folder.as_str()
    }

    /// The destination, as DESTINATIONS names it: the name in the folder of its segment 0.
    pub(crate) fn dest(&self) -> &str {
        self.dest.as_str()
    }

    /// Whether files can have these names.
    pub(crate) fn are_short(&self) -> bool {
        self.dest.len().saturating_add(ASIDE.len()) <= LONGEST_NAME
    }

    /// The name in the folder of the file that holds lines.
    pub fn name(&self) -> &str {
        self.name.as_str()
    }

    /// From now on the segment of this number is the file that holds lines. Refuses if out of memory.
    pub(crate) fn select(&mut self, number: u32) -> Result<(), NoMemory> {
        let name = segment_name(self.alloc, self.dest.as_str(), number)?;
        match self.path_of(name.as_str()) {
            Ok(path) => {
                self.name = name;
                self.held = path;
                Ok(())
            }
            Err(fault) => {
                drop(name);
                Err(fault)
            }
        }
    }

    /// The path of the segment of a number. Refuses if out of memory.
    pub(crate) fn segment_path(&self, number: u32) -> Result<String, NoMemory> {
        let name = segment_name(self.alloc, self.dest.as_str(), number)?;
        let path = self.path_of(name.as_str());
        drop(name);
        path
    }

    /// The path of a name in the folder. Refuses if out of memory.
    fn path_of(&self, name: &str) -> Result<String, NoMemory> {
        let (alloc, folder) = (self.alloc, self.folder.as_str());
        Ok(format!(in alloc; "{folder}/{name}")?)
    }

    /// The file that holds lines.
    pub fn held(&self) -> &str {
        self.held.as_str()
    }

    /// The file that an earlier version was writing.
    pub fn new_file(&self) -> &str {
        self.new.as_str()
    }

    /// A path for what is put aside, at which nothing is: `FILE~aside`, or with a number behind that, where FILE is segment 0.
    pub(crate) fn free_aside<D: SpoolDisk>(&self, disk: &D) -> io::Result<String> {
        for number in 0..MOST_ASIDE {
            let path = self.aside(number)?;
            if is_free(disk, path.as_str()) {
                return Ok(path);
            }
            drop(path);
        }
        Err(io::Error::from(ErrorKind::AlreadyExists))
    }

    /// The path of this number for what is put aside.
    fn aside(&self, number: usize) -> io::Result<String> {
        let (alloc, folder, dest) = (self.alloc, self.folder(), self.dest());
        if number == 0 {
            Ok(format!(in alloc; "{folder}/{dest}{ASIDE}")?)
        } else {
            Ok(format!(in alloc; "{folder}/{dest}{ASIDE}.{number}")?)
        }
    }

    /// The news of a file that cannot be read from a place on, by this error of the system, or that ends there, if it is 0.
    pub(crate) fn unread_news(&self, place: u64, code: i32) -> Result<String, NoMemory> {
        let (alloc, held) = (self.alloc, self.held());
        if code == 0 {
            return Ok(format!(in alloc;
                "spool: {held}: it ends at byte {place}, where it had more lines; it stays\n"
            )?);
        }
        let error = io::Error::from_raw_os_error(code);
        let news = format!(in alloc;
            "spool: {held}: cannot read at byte {place}: {error}; it stays, and the next run tries again\n"
        );
        drop(error);
        Ok(news?)
    }

    /// The news of a part of a file whose connection was lost, or was not ended by its store.
    pub(crate) fn again_news(&self, start: u64, end: u64) -> Result<String, NoMemory> {
        let (alloc, held) = (self.alloc, self.held());
        Ok(format!(in alloc;
            "spool: {held}: the store did not end the connection in order: bytes {start} to {end} go out again, and lines may come twice\n"
        )?)
    }

    /// The news of a file whose store did not end a connection within so many seconds.
    pub(crate) fn no_end_news(&self, seconds: u64) -> Result<String, NoMemory> {
        let (alloc, held) = (self.alloc, self.held());
        Ok(format!(in alloc;
            "spool: {held}: the store did not end the connection within {seconds} seconds: what the system took counts as sent\n"
        )?)
    }

    /// The news of a file that is not there any more, whose sending was at this place.
    pub(crate) fn taken_away_news(&self, place: u64) -> Result<String, NoMemory> {
        let (alloc, held) = (self.alloc, self.held());
        Ok(format!(in alloc;
            "spool: {held}: somebody took it away; nothing of it is sent from byte {place} on\n"
        )?)
    }
}

/// Whether nothing is there at a path.
pub(crate) fn is_free<D: SpoolDisk>(disk: &D, path: &str) -> bool {
    match disk.look_at(path) {
        Ok(_) => false,
        Err(error) => error.kind() == ErrorKind::NotFound,
    }
}

/// The name of the segment of a number: its destination's, and from 1 on the number behind that, so that names are in the order
/// of the numbers. Refuses if out of memory.
fn segment_name(alloc: Global, dest: &str, number: u32) -> Result<String, NoMemory> {
    if number == 0 {
        return Ok(String::from_str(alloc, dest)?);
    }
    let (first, second) = (number / 10_000 % 10, number / 1_000 % 10);
    let (third, fourth, last) = (number / 100 % 10, number / 10 % 10, number % 10);
    Ok(format!(in alloc; "{dest}{SEGMENT}{first}{second}{third}{fourth}{last}")?)
}

/// The number of the segment of a destination that has a name, if it is one: 0 if it is the destination's own.
pub(crate) fn segment_number(name: &str, dest: &str) -> Option<u32> {
    let behind = name.strip_prefix(dest)?;
    if behind.is_empty() {
        return Some(0);
    }
    let digits = behind.strip_prefix(SEGMENT)?;
    if digits.len() != NUMBER_DIGITS {
        return None;
    }
    match whole_number_up_to(digits, u64::from(LAST_SEGMENT))? {
        0 => None,
        number => u32::try_from(number).ok(),
    }
}

/// The destination of the segment that has a name, if it has the form of one.
pub(crate) fn segment_dest(name: &str) -> Option<&str> {
    let Some((dest, digits)) = name.split_once(SEGMENT) else {
        return Some(name);
    };
    if digits.len() == NUMBER_DIGITS && digits.bytes().all(|byte| byte.is_ascii_digit()) {
        Some(dest)
    } else {
        None
    }
}
