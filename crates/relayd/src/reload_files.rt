//! The files of a reload, as the running relay reads and opens them.

use crate::admin_key::slice_of;
use crate::read_files::{FileSources, ReadFiles, ReadsFiles, read_files};
use crate::started_paths::{absolute_paths, copy_of, names_of};
use admin_client::Refusal;
use command_line::Paths;
use relay_base::NoMemory;
use relay_files::{RelayFault, RunConfiguration, Status};
use relay_run::{FilesAsked, RefusedReload, ReloadSource};
use spool::{SpoolDisk, SpoolFiles, Unopened};
use std::alloc::Global;
use std::fmt::Write as _;
use std::mem;
use std::sync::atomic::{AtomicU64, Ordering};
use std::sync::{Arc, Mutex, Wait};
use std::thread::{Builder, Threads};
use std::time::Duration;

/// For how many milliseconds the thread that reads sleeps at most.
const PAUSE_MS: u64 = 60_000;

/// What two threads share: the one that reads and opens files, and the one that asks.
#[derive(Drop)]
struct SharedWork {
    work: Mutex<DiskWork>,
    // How often files were asked for.
    asked: AtomicU64,
}

/// How far the work at a disk is.
#[derive(Drop)]
enum DiskWork {
    /// None was begun, or what the last one gave was taken.
    Nothing,
    /// The files of the configuration are read.
    Reads,
    /// They were read.
    Read(ReadFiles),
    /// These files of destinations are to be opened.
    Asked(FilesAsked),
    /// They are opened.
    Opens,
    /// They are open, or cannot be.
    Opened(Result<SpoolFiles, Unopened>),
}

/// The files that a relay began with, which a reload reads again, and those of the destinations that it adds: in a thread of its
/// own, since a disk, or a dead network mount, may never answer. The thread is there from the start on, so that a reload needs no
/// new one.
#[derive(Drop)]
pub struct RelayFiles<R> {
    rt: R,
    paths: Paths,
    key: Option<Vec<u8>>,
    shared: Arc<SharedWork>,
}

impl<R: Threads + Wait + ReadsFiles + SpoolDisk + Copy + Send + Drop + 'static> RelayFiles<R> {
    /// Starts the thread that reads the files at these paths, for as long as the process lasts; the key is that of the admin
    /// port, if it has one. Refuses if out of memory, also if the thread cannot be started.
    pub fn start(
        host: &HostRuntime,
        alloc: Global,
        rt: R,
        paths: &Paths,
        key: Option<Vec<u8>>,
    ) -> Result<RelayFiles<R>, NoMemory> {
        let shared = Arc::new(
            alloc,
            SharedWork {
                work: Mutex::new(DiskWork::Nothing),
                asked: AtomicU64::new(0),
            },
        )?;
        let paths = absolute_paths(host, alloc, paths)?;
        let (their_paths, theirs) = (copy_of(&paths)?, Arc::try_clone(&shared)?);
        let name = String::from_str(alloc, "file reader")?;
        let started = Builder::new().name(name).spawn(
            &rt,
            move || work_when_asked(&rt, alloc, &their_paths, &theirs),
        );
        match started {
            Ok(_) => Ok(RelayFiles {
                rt,
                paths,
                key,
                shared,
            }),
            Err(_) => {
                drop((paths, key, shared));
                Err(NoMemory)
            }
        }
    }
}

impl<R: Wait> ReloadSource for RelayFiles<R> {
    fn key(&self) -> Option<&[u8]> {
        slice_of(&self.key)
    }

    fn begin(&self, alloc: Global) -> Result<(), RefusedReload> {
        begin_work(&self.rt, alloc, &self.shared, DiskWork::Reads)
    }

    fn look(&self, alloc: Global) -> Option<Result<RunConfiguration, RefusedReload>> {
        let read = take_read(&self.rt, &self.shared)?;
        Some(configuration_of(alloc, read, &self.paths))
    }

    fn open(&self, alloc: Global, asked: FilesAsked) -> Result<(), RefusedReload> {
        begin_work(&self.rt, alloc, &self.shared, DiskWork::Asked(asked))
    }

    fn opened(&self) -> Option<Result<SpoolFiles, Unopened>> {
        take_opened(&self.rt, &self.shared)
    }

    fn names(&self, alloc: Global) -> Result<String, NoMemory> {
        names_of(alloc, &self.paths)
    }
}

/// What the thread is to do.
#[derive(Drop)]
enum Task {
    /// Nothing.
    Nothing,
    /// To read the files of the configuration.
    Read,
    /// To open these files of destinations.
    Open(FilesAsked),
}

/// Reads the files at these paths, or opens those of destinations, whenever it is asked to.
fn work_when_asked<R: Wait + ReadsFiles + SpoolDisk>(
    rt: &R,
    alloc: Global,
    paths: &Paths,
    shared: &SharedWork,
) {
    for _ in rt.forever() {
        let seen = shared.asked.load(Ordering::SeqCst);
        match take_task(rt, shared) {
            Task::Nothing => {
                shared
                    .asked
                    .park_timeout(rt, low_half(seen), Duration::from_millis(PAUSE_MS));
            }
            Task::Read => set_work(rt, shared, DiskWork::Read(read_files(rt, alloc, paths))),
            Task::Open(asked) => {
                let opened = asked.open(rt, alloc);
                drop(asked);
                set_work(rt, shared, DiskWork::Opened(opened));
            }
        }
    }
    unreachable!()
}

/// The half of a counter by whose change a sleep ends.
fn low_half(count: u64) -> u32 {
    (count % 4_294_967_296) as u32
}

/// Takes what is to be done.
fn take_task<R: Wait>(rt: &R, shared: &SharedWork) -> Task {
    let mut work = shared.work.lock(rt);
    match &*work {
        DiskWork::Reads => return Task::Read,
        DiskWork::Asked(_) => {}
        _ => return Task::Nothing,
    }
    match mem::replace(&mut *work, DiskWork::Opens) {
        DiskWork::Asked(asked) => Task::Open(asked),
        _ => Task::Nothing,
    }
}

/// Sets how far the work is.
fn set_work<R: Wait>(rt: &R, shared: &SharedWork, work: DiskWork) {
    *shared.work.lock(rt) = work;
}

/// Has the thread begin a work. Refuses while it is at an earlier one, and while it has files open that nobody has taken.
fn begin_work<R: Wait>(
    rt: &R,
    alloc: Global,
    shared: &SharedWork,
    next: DiskWork,
) -> Result<(), RefusedReload> {
    if let Some(reason) = earlier_work(rt, shared) {
        drop(next);
        return Err(refused_device(alloc, reason));
    }
    set_work(rt, shared, next);
    let _before = shared.asked.fetch_add(1, Ordering::SeqCst);
    shared.asked.wake_all();
    Ok(())
}

/// Why another work cannot begin now, if it cannot.
fn earlier_work<R: Wait>(rt: &R, shared: &SharedWork) -> Option<&'static str> {
    let work = shared.work.lock(rt);
    match &*work {
        DiskWork::Nothing | DiskWork::Read(_) => None,
        DiskWork::Reads => Some("files: an earlier reload still reads them\n"),
        _ => Some("spool: an earlier reload still waits for the disk\n"),
    }
}

/// Takes the files of the configuration, once they were read.
fn take_read<R: Wait>(rt: &R, shared: &SharedWork) -> Option<ReadFiles> {
    let mut work = shared.work.lock(rt);
    if !matches!(*work, DiskWork::Read(_)) {
        return None;
    }
    match mem::replace(&mut *work, DiskWork::Nothing) {
        DiskWork::Read(read) => Some(read),
        _ => None,
    }
}

/// Takes the files of destinations, once they are open or cannot be.
fn take_opened<R: Wait>(rt: &R, shared: &SharedWork) -> Option<Result<SpoolFiles, Unopened>> {
    let mut work = shared.work.lock(rt);
    if !matches!(*work, DiskWork::Opened(_)) {
        return None;
    }
    match mem::replace(&mut *work, DiskWork::Nothing) {
        DiskWork::Opened(opened) => Some(opened),
        _ => None,
    }
}

/// The refusal of a device for this reason.
fn refused_device(alloc: Global, reason: &str) -> RefusedReload {
    match String::from_str(alloc, reason) {
        Ok(text) => RefusedReload {
            refusal: Refusal::Device,
            text,
        },
        Err(_) => RefusedReload::no_memory(alloc),
    }
}

/// The configuration of files that were read, or why there is none.
fn configuration_of(
    alloc: Global,
    read: ReadFiles,
    paths: &Paths,
) -> Result<RunConfiguration, RefusedReload> {
    let Ok(mut sources) = read.into_sources(alloc, paths.longest_name) else {
        return Err(RefusedReload::no_memory(alloc));
    };
    let made = sources.configuration(alloc);
    let refused = match made {
        Ok(configuration) => {
            drop(sources);
            return Ok(configuration);
        }
        Err(fault) => refused_for(alloc, &sources, paths, fault),
    };
    drop(sources);
    Err(refused)
}

/// The refusal for a fault of files.
fn refused_for(
    alloc: Global,
    sources: &FileSources,
    paths: &Paths,
    fault: RelayFault,
) -> RefusedReload {
    let refusal = match fault.status() {
        Status::NoMemory => return RefusedReload::no_memory(alloc),
        Status::DeviceFault => Refusal::Device,
        _ => Refusal::Configuration,
    };
    match text_of(alloc, sources, paths, fault) {
        Ok(text) => RefusedReload { refusal, text },
        Err(NoMemory) => RefusedReload::no_memory(alloc),
    }
}

/// A fault, with the path of a file that cannot be read, and the reason.
fn text_of(
    alloc: Global,
    sources: &FileSources,
    paths: &Paths,
    fault: RelayFault,
) -> Result<String, NoMemory> {
    let mut text = format!(in alloc; "{fault}")?;
    if let RelayFault::CannotRead { role } = fault {
        if let (Some(path), Some(reason)) = (paths.path_of(role), sources.reason_of(role)) {
            write!(text, ": {path}: {reason}")?;
        }
    }
    text.push('\n')?;
    Ok(text)
}
