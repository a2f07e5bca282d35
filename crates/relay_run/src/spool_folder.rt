//! Where a relay keeps what it did not send.

use conf_text::Dest;
use relay_base::{NoMemory, add};
use spool::{FolderAt, SpoolDisk, SpoolFailure, SpoolFiles, SpoolNotes, Unopened, open_all};
use std::alloc::Global;
use std::io;
use std::sync::OnceLock;

/// The system's error of a name that is too long for a file, of which the start says that nothing is kept.
const NAME_TOO_LONG: i32 = 36;

/// The folder in which a relay keeps what it did not send.
#[derive(Clone, Copy)]
pub struct SpoolFolder<'a> {
    /// The folder, which no other relay uses.
    pub path: &'a str,
    /// The user whose files the relay has there, if that is known.
    pub owner: Option<u32>,
    /// The system's limit for the size of a file, in bytes, if there is one.
    pub limit: Option<u64>,
    /// How many bytes the files of all destinations may have while the relay runs; without that they are written at its end alone.
    pub size: Option<u64>,
    /// Where the relay says what failed there.
    pub fault: &'a SpoolFault,
}

impl<'a> SpoolFolder<'a> {
    /// The folder, as its files are opened.
    pub(crate) fn at(&self) -> FolderAt<'a> {
        FolderAt {
            path: self.path,
            owner: self.owner,
            makes_segments: self.size.is_some(),
        }
    }
}

/// What failed first in the folder of a relay: why it could not begin, or not write what was left at its end; and the lines for
/// which there is no log.
#[derive(Drop)]
pub struct SpoolFault {
    text: OnceLock<String>,
    news: OnceLock<String>,
}

impl SpoolFault {
    /// Nothing.
    pub fn none() -> SpoolFault {
        SpoolFault {
            text: OnceLock::new(),
            news: OnceLock::new(),
        }
    }

    /// This failed: a path, and why.
    pub(crate) fn put(&self, text: String) {
        if let Err(text) = self.text.try_set(text) {
            drop(text);
        }
    }

    /// What failed, if something did.
    pub fn text(&self) -> Option<&str> {
        match self.text.get() {
            Some(text) => Some(text.as_str()),
            None => None,
        }
    }

    /// These lines are for no log.
    pub(crate) fn put_news(&self, news: String) {
        if let Err(news) = self.news.try_set(news) {
            drop(news);
        }
    }

    /// The lines for which there is no log, if there are some.
    pub fn news(&self) -> Option<&str> {
        match self.news.get() {
            Some(news) => Some(news.as_str()),
            None => None,
        }
    }
}

/// Says in the folder, if there is one, which file could not be written at the end: that of the first of these destinations of
/// which that was noted.
pub(crate) fn put_failures(
    alloc: Global,
    folder: Option<SpoolFolder<'_>>,
    dests: &[Dest],
    notes: &[SpoolNotes],
) {
    let Some(folder) = folder else {
        return;
    };
    for (dest, notes) in dests.iter().zip(notes) {
        let code = notes.error_code();
        if let (Some(SpoolFailure::CannotWrite), true) = (notes.failure(), code != NAME_TOO_LONG) {
            put_failure(alloc, folder, dest, code);
        }
    }
}

/// Says in a folder that the file of a destination could not be written, by this error of the system.
fn put_failure(alloc: Global, folder: SpoolFolder<'_>, dest: &Dest, code: i32) {
    let error = io::Error::from_raw_os_error(code);
    let path = folder.path;
    let text = if code == 0 {
        format!(in alloc; "{path}/{dest}: cannot write: the file is not there any more")
    } else {
        format!(in alloc; "{path}/{dest}: cannot write: {error}")
    };
    drop(error);
    if let Ok(text) = text {
        folder.fault.put(text);
    }
}

/// The files of destinations in a folder, if there is one, by destination, and what is to be said of the folder. Refuses a file
/// that cannot be used, and if out of memory.
pub(crate) fn open_files<R: SpoolDisk>(
    rt: &R,
    alloc: Global,
    dests: &[Dest],
    folder: Option<SpoolFolder<'_>>,
) -> Result<SpoolFiles, Unopened> {
    match folder {
        Some(folder) => open_all(rt, alloc, folder.at(), dests),
        None => match no_files(alloc, dests.len()) {
            Ok(files) => Ok(files),
            Err(NoMemory) => Err(Unopened::no_memory(alloc)),
        },
    }
}

/// No files of so many destinations, of which nothing is to be said.
pub(crate) fn no_files(alloc: Global, count: usize) -> Result<SpoolFiles, NoMemory> {
    let mut dests = Vec::new(alloc);
    for _ in 0..count {
        add(&mut dests, None)?;
    }
    Ok(SpoolFiles {
        dests,
        news: String::new(alloc),
    })
}
