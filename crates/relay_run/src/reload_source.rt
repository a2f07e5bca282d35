//! Who reads the files of a configuration for a reload, and opens those of its destinations.

use crate::spool_folder::SpoolFolder;
use admin_client::Refusal;
use conf_text::Dest;
use relay_base::{NoMemory, add};
use relay_files::RunConfiguration;
use spool::{FolderAt, OpenFault, SpoolDisk, SpoolFiles, Unopened, open_others};
use std::alloc::Global;

/// Who reads the files of a configuration for a reload, those that the relay began with, opens those of its destinations, and has
/// the key of the admin port. No call waits for a disk.
pub trait ReloadSource {
    /// The key that each command needs, if there is one.
    fn key(&self) -> Option<&[u8]>;

    /// Begins to read the files again. Refuses while something is read or opened for an earlier reload, and if out of memory.
    fn begin(&self, alloc: Global) -> Result<(), RefusedReload>;

    /// The configuration of the files, once they have been read; `None` before. Refuses what `check` refuses.
    fn look(&self, alloc: Global) -> Option<Result<RunConfiguration, RefusedReload>>;

    /// Begins to open the files of destinations. Refuses as `begin` does.
    fn open(&self, alloc: Global, asked: FilesAsked) -> Result<(), RefusedReload>;

    /// The files of destinations, or why they are not open, once that is known; `None` before, and once it was taken.
    fn opened(&self) -> Option<Result<SpoolFiles, Unopened>>;

    /// The answer to `files` (`admin_client::files_answer`); an empty one if the files cannot be named. Refuses if out of memory.
    fn names(&self, alloc: Global) -> Result<String, NoMemory>;
}

/// Why a relay goes on as it was: the status with which the command ends, and the reason.
#[derive(Drop)]
pub struct RefusedReload {
    /// The status.
    pub refusal: Refusal,
    /// The reason, and byte 10.
    pub text: String,
}

impl RefusedReload {
    /// Out of memory.
    pub fn no_memory(alloc: Global) -> RefusedReload {
        RefusedReload {
            refusal: Refusal::NoMemory,
            text: String::new(alloc),
        }
    }

    /// The files have not been read in time.
    pub(crate) fn not_in_time(alloc: Global) -> RefusedReload {
        RefusedReload::of_device(alloc, "files: not read within 10 seconds\n")
    }

    /// A use of the spool's disk has not ended in time.
    pub(crate) fn disk_hangs(alloc: Global) -> RefusedReload {
        RefusedReload::of_device(alloc, "spool: the disk does not answer within 10 seconds\n")
    }

    /// A file of the spool cannot be used, for this fault.
    pub(crate) fn of_file(alloc: Global, fault: OpenFault) -> RefusedReload {
        match fault {
            OpenFault::NoMemory => RefusedReload::no_memory(alloc),
            OpenFault::File(file) => {
                let text = format!(in alloc; "spool: {file}\n");
                drop(file);
                RefusedReload::with_text(alloc, Refusal::Device, text)
            }
        }
    }

    /// A device does not do what is asked, for this reason.
    fn of_device(alloc: Global, reason: &str) -> RefusedReload {
        RefusedReload::with_text(alloc, Refusal::Device, String::from_str(alloc, reason))
    }

    /// A refusal for this reason, or out of memory for its text.
    pub(crate) fn with_text<E: Drop>(
        alloc: Global,
        refusal: Refusal,
        text: Result<String, E>,
    ) -> RefusedReload {
        match text {
            Ok(text) => RefusedReload { refusal, text },
            Err(_) => RefusedReload::no_memory(alloc),
        }
    }

    /// The whole answer; none if out of memory.
    pub(crate) fn answer(&self, alloc: Global) -> Option<Vec<u8>> {
        let mut answer = Vec::new(alloc);
        let words = answer.extend_from_slice(self.refusal.words());
        let text = answer.extend_from_slice(self.text.as_str().as_bytes());
        if words.is_err() || text.is_err() || self.text.is_empty() {
            return None;
        }
        Some(answer)
    }
}

/// The files of a reload's destinations that the relay does not have yet. It borrows nothing, so another thread may open them.
#[derive(Drop)]
pub struct FilesAsked {
    path: String,
    owner: Option<u32>,
    makes_segments: bool,
    dests: Vec<Dest>,
    are_known: Vec<bool>,
}

impl FilesAsked {
    /// The files in a folder of those of these destinations that are not known. Refuses if out of memory.
    pub(crate) fn new(
        alloc: Global,
        folder: SpoolFolder<'_>,
        dests: &[Dest],
        are_known: Vec<bool>,
    ) -> Result<FilesAsked, NoMemory> {
        let at = folder.at();
        Ok(FilesAsked {
            path: String::from_str(alloc, at.path)?,
            owner: at.owner,
            makes_segments: at.makes_segments,
            dests: copies_of(alloc, dests)?,
            are_known,
        })
    }

    /// Opens the files, and waits for the disk.
    pub fn open<D: SpoolDisk>(&self, disk: &D, alloc: Global) -> Result<SpoolFiles, Unopened> {
        let folder = FolderAt {
            path: self.path.as_str(),
            owner: self.owner,
            makes_segments: self.makes_segments,
        };
        open_others(
            disk,
            alloc,
            folder,
            self.dests.as_slice(),
            self.are_known.as_slice(),
        )
    }
}

/// A copy of each of these destinations.
fn copies_of(alloc: Global, dests: &[Dest]) -> Result<Vec<Dest>, NoMemory> {
    let mut copies = Vec::new(alloc);
    for dest in dests {
        add(&mut copies, dest.clone()?)?;
    }
    Ok(copies)
}
