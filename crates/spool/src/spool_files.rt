//! The files of all destinations.

use crate::dest_spool::DestSpool;
use crate::file_names::{fits_name, segment_dest};
use crate::open_folder::{FolderAt, OpenFault, OpenFolder};
use crate::spool_disk::SpoolDisk;
use conf_text::Dest;
use relay_base::{NoMemory, add};
use std::alloc::{AllocError, Global};
use std::fmt::Write as _;

/// The files of all destinations of a relay, in their order, and what is to be said of them.
#[derive(Drop)]
pub struct SpoolFiles {
    /// The files of each destination; `None` for one whose files were not to be opened.
    pub dests: Vec<Option<DestSpool>>,
    /// What was found and put aside, in whole lines for the log.
    pub news: String,
}

/// Why the files of destinations are not open, and what is to be said of their folder, in whole lines: what was put aside before
/// the fault stays so.
#[derive(Drop)]
pub struct Unopened {
    /// The first fault.
    pub fault: OpenFault,
    /// What was put aside before it, in whole lines for the log.
    pub news: String,
}

impl Unopened {
    /// Out of memory; there is nothing to be said.
    pub fn no_memory(alloc: Global) -> Unopened {
        Unopened {
            fault: OpenFault::NoMemory,
            news: String::new(alloc),
        }
    }
}

/// The files of destinations in a folder. The news name each file there that is of no destination, each that holds something
/// else than whole lines, and each destination whose name is too long for a file. Refuses a file that cannot be used, and if out
/// of memory.
pub fn open_all<D: SpoolDisk>(
    disk: &D,
    alloc: Global,
    folder: FolderAt<'_>,
    dests: &[Dest],
) -> Result<SpoolFiles, Unopened> {
    let mut strangers = String::new(alloc);
    match tell_strangers(disk, alloc, folder.path, dests, &mut strangers) {
        Ok(()) => open_each(disk, alloc, folder, dests, &[], strangers),
        Err(NoMemory) => {
            drop(strangers);
            Err(Unopened::no_memory(alloc))
        }
    }
}

/// The files of those of these destinations that are not known, as [`open_all`] opens those of all: the files of the others are
/// open. What is of no destination is not named again.
pub fn open_others<D: SpoolDisk>(
    disk: &D,
    alloc: Global,
    folder: FolderAt<'_>,
    dests: &[Dest],
    are_known: &[bool],
) -> Result<SpoolFiles, Unopened> {
    open_each(disk, alloc, folder, dests, are_known, String::new(alloc))
}

/// The files of those of these destinations that are not known, with these news before others.
fn open_each<D: SpoolDisk>(
    disk: &D,
    alloc: Global,
    at: FolderAt<'_>,
    dests: &[Dest],
    are_known: &[bool],
    news: String,
) -> Result<SpoolFiles, Unopened> {
    let Ok(mut folder) = OpenFolder::new(disk, alloc, at, dests.len(), news) else {
        return Err(Unopened::no_memory(alloc));
    };
    let mut spools = Vec::new(alloc);
    match add_each(disk, alloc, &mut folder, dests, are_known, &mut spools) {
        Ok(()) => Ok(SpoolFiles {
            dests: spools,
            news: folder.into_news(),
        }),
        Err(fault) => {
            drop(spools);
            Err(Unopened {
                fault,
                news: whole_lines(folder.into_news()),
            })
        }
    }
}

/// News without the line in which memory ran out, if it did.
fn whole_lines(news: String) -> String {
    let mut news = news;
    for _ in 0..news.len() {
        if news.as_str().ends_with('\n') {
            break;
        }
        let _cut = news.pop();
    }
    news
}

/// Adds the files of each destination that is not known.
fn add_each<D: SpoolDisk>(
    disk: &D,
    alloc: Global,
    folder: &mut OpenFolder<'_>,
    dests: &[Dest],
    are_known: &[bool],
    spools: &mut Vec<Option<DestSpool>>,
) -> Result<(), OpenFault> {
    for (place, dest) in dests.iter().enumerate() {
        if are_known.get(place).copied().unwrap_or(false) {
            add(spools, None)?;
            continue;
        }
        tell_long_name(alloc, dest, &mut folder.news)?;
        let spool = DestSpool::open(disk, alloc, folder, dest)?;
        add(spools, Some(spool))?;
    }
    Ok(())
}

/// The news of a destination whose name is too long for a file.
fn tell_long_name(alloc: Global, dest: &Dest, news: &mut String) -> Result<(), NoMemory> {
    if !fits_name(alloc, dest)? {
        write!(
            news,
            "spool: {dest}: too long a name for a file; nothing of it is kept\n"
        )?;
    }
    Ok(())
}

/// Names the files of a folder that are of no destination. They stay.
fn tell_strangers<D: SpoolDisk>(
    disk: &D,
    alloc: Global,
    folder: &str,
    dests: &[Dest],
    news: &mut String,
) -> Result<(), NoMemory> {
    let Ok(names) = disk.names_in(alloc, folder) else {
        return Ok(());
    };
    for name in &names {
        if is_of_no_destination(alloc, name.as_str(), dests)? {
            tell_stranger(news, folder, name.as_str())?;
        }
    }
    drop(names);
    Ok(())
}

fn tell_stranger(news: &mut String, folder: &str, name: &str) -> Result<(), AllocError> {
    write!(
        news,
        "spool: {folder}/{name}: of no destination in DESTINATIONS; it stays\n"
    )
}

/// Whether a name in a folder is that of a file which no destination has: it is no destination's text, or that before the sign
/// `~` and the number of a segment. One with another sign `~` is none.
pub fn is_of_no_destination(alloc: Global, name: &str, dests: &[Dest]) -> Result<bool, NoMemory> {
    let Some(own) = segment_dest(name) else {
        return Ok(false);
    };
    for dest in dests {
        let text = format!(in alloc; "{dest}")?;
        if text.as_str() == own {
            return Ok(false);
        }
    }
    Ok(true)
}
