//! What a sender notes of a destination's file.

use crate::waiting::Waiting;
use std::io;
use std::io::ErrorKind;
use std::sync::OnceLock;
use std::sync::atomic::{AtomicBool, AtomicI32, AtomicU64, AtomicUsize, Ordering};

/// How many lines are said of a file in a run at most.
pub const MOST_NEWS: usize = 8;

/// What happened to the file of a destination. Its sender alone notes it; the first thread and that of the log read it at the
/// same time.
#[derive(Drop)]
pub struct SpoolNotes {
    // An earlier file is not sent yet, so that the connection takes nothing of the queue; how often one was sent; and how often
    // one was begun while the relay ran.
    is_behind: AtomicBool,
    sent: AtomicU64,
    begun: AtomicU64,
    // Why files take no more now, while the relay runs: the number of a `SpoolStall`, 0 if they do.
    stall: AtomicU64,
    // How many bytes more its files may have, while the relay runs.
    room: AtomicU64,
    // Its last connection is its new file, which took these bytes and datapoints.
    is_spooling: AtomicBool,
    bytes: AtomicU64,
    datapoints: AtomicU64,
    // The new file takes no more; there was no room; what it took is not kept.
    has_failed: AtomicBool,
    has_no_room: AtomicBool,
    is_lost: AtomicBool,
    lost: AtomicU64,
    error: AtomicI32,
    // What is to be said of the earlier file, and how much of that was taken.
    news: [OnceLock<String>; MOST_NEWS],
    news_taken: AtomicUsize,
    // What waits in the earlier file, when that was last written, and how many datapoints of it connections took.
    waiting_datapoints: AtomicU64,
    waiting_bytes: AtomicU64,
    written_at: AtomicU64,
    passed: AtomicU64,
}

/// Why the files of a destination take no more for now, while the relay runs.
#[derive(Clone, Copy)]
pub enum SpoolStall {
    /// They have the size that all may have, or there is no room on the disk.
    Full,
    /// The disk does not take them.
    CannotWrite,
}

/// Why a new file took no more.
#[derive(Clone, Copy)]
pub enum SpoolFailure {
    /// There was no room on the disk.
    NoRoom,
    /// The file could not be written.
    CannotWrite,
}

impl SpoolNotes {
    /// There is no file.
    pub fn new() -> SpoolNotes {
        SpoolNotes {
            is_behind: AtomicBool::new(false),
            sent: AtomicU64::new(0),
            begun: AtomicU64::new(0),
            stall: AtomicU64::new(0),
            room: AtomicU64::new(0),
            is_spooling: AtomicBool::new(false),
            bytes: AtomicU64::new(0),
            datapoints: AtomicU64::new(0),
            has_failed: AtomicBool::new(false),
            has_no_room: AtomicBool::new(false),
            is_lost: AtomicBool::new(false),
            lost: AtomicU64::new(0),
            error: AtomicI32::new(0),
            news: [
                OnceLock::new(),
                OnceLock::new(),
                OnceLock::new(),
                OnceLock::new(),
                OnceLock::new(),
                OnceLock::new(),
                OnceLock::new(),
                OnceLock::new(),
            ],
            news_taken: AtomicUsize::new(0),
            waiting_datapoints: AtomicU64::new(0),
            waiting_bytes: AtomicU64::new(0),
            written_at: AtomicU64::new(0),
            passed: AtomicU64::new(0),
        }
    }

    /// An earlier file is to be sent.
    pub fn note_behind(&self) {
        self.is_behind.store(true, Ordering::SeqCst);
    }

    /// The earlier file is sent, or given up.
    pub fn note_sent(&self, is_whole: bool) {
        if is_whole {
            let _sent = self.sent.fetch_add(1, Ordering::SeqCst);
        }
        self.is_behind.store(false, Ordering::SeqCst);
    }

    /// A file is begun while the relay runs.
    pub fn note_begun(&self) {
        let _begun = self.begun.fetch_add(1, Ordering::SeqCst);
        self.is_behind.store(true, Ordering::SeqCst);
    }

    /// How often a file was begun while the relay ran.
    pub fn begun(&self) -> u64 {
        self.begun.load(Ordering::SeqCst)
    }

    /// Files take no more for this, or take more again.
    pub fn note_stall(&self, stall: Option<SpoolStall>) {
        let number = match stall {
            None => 0,
            Some(SpoolStall::Full) => 1,
            Some(SpoolStall::CannotWrite) => 2,
        };
        self.stall.store(number, Ordering::SeqCst);
    }

    /// Files may have so many bytes more.
    pub fn note_room(&self, room: u64) {
        self.room.store(room, Ordering::SeqCst);
    }

    /// How many bytes more files may have while the relay runs; 0 if they are written at its end alone.
    pub fn room(&self) -> u64 {
        self.room.load(Ordering::SeqCst)
    }

    /// Why files take no more for now.
    pub fn stall(&self) -> Option<SpoolStall> {
        match self.stall.load(Ordering::SeqCst) {
            1 => Some(SpoolStall::Full),
            2 => Some(SpoolStall::CannotWrite),
            _ => None,
        }
    }

    /// Whether an earlier file is not sent yet.
    pub fn is_behind(&self) -> bool {
        self.is_behind.load(Ordering::SeqCst)
    }

    /// How often an earlier file was sent.
    pub fn sent(&self) -> u64 {
        self.sent.load(Ordering::SeqCst)
    }

    /// The last connection is the new file.
    pub fn note_spooling(&self) {
        self.is_spooling.store(true, Ordering::SeqCst);
    }

    /// Whether the last connection is the new file.
    pub fn is_spooling(&self) -> bool {
        self.is_spooling.load(Ordering::SeqCst)
    }

    /// The new file took this many bytes, which end this many datapoints.
    pub fn note_taken(&self, bytes: u64, datapoints: u64) {
        let _bytes = self.bytes.fetch_add(bytes, Ordering::SeqCst);
        let _datapoints = self.datapoints.fetch_add(datapoints, Ordering::SeqCst);
    }

    /// How many bytes the new file took.
    pub fn bytes(&self) -> u64 {
        self.bytes.load(Ordering::SeqCst)
    }

    /// How many datapoints the new file took, with those that it lost, and how many of these are kept.
    pub fn datapoints(&self) -> (u64, u64) {
        let kept = self.datapoints.load(Ordering::SeqCst);
        let taken = kept.saturating_add(self.lost.load(Ordering::SeqCst));
        if self.is_lost.load(Ordering::SeqCst) {
            (taken, 0)
        } else {
            (taken, kept)
        }
    }

    /// So many datapoints were to go to a file, and did not.
    pub fn note_left_out(&self, datapoints: u64) {
        let _lost = self.lost.fetch_add(datapoints, Ordering::SeqCst);
    }

    /// The new file takes no more, by this error.
    pub fn note_failed(&self, error: &io::Error) {
        let has_no_room = matches!(
            error.kind(),
            ErrorKind::StorageFull | ErrorKind::QuotaExceeded | ErrorKind::FileTooLarge
        );
        let code = error.raw_os_error().unwrap_or(0);
        self.error.store(code, Ordering::SeqCst);
        self.has_no_room.store(has_no_room, Ordering::SeqCst);
        self.has_failed.store(true, Ordering::SeqCst);
    }

    /// What the new file took is not kept, by this error.
    pub fn note_lost(&self, error: &io::Error) {
        self.note_failed(error);
        self.is_lost.store(true, Ordering::SeqCst);
    }

    /// Why the new file took no more, if it failed.
    pub fn failure(&self) -> Option<SpoolFailure> {
        if !self.has_failed.load(Ordering::SeqCst) {
            return None;
        }
        if self.has_no_room.load(Ordering::SeqCst) {
            Some(SpoolFailure::NoRoom)
        } else {
            Some(SpoolFailure::CannotWrite)
        }
    }

    /// The system's error by which the new file took no more; 0 if it had none.
    pub fn error_code(&self) -> i32 {
        self.error.load(Ordering::SeqCst)
    }

    /// This waits in the earlier file.
    pub fn note_waiting(&self, waiting: Waiting) {
        self.waiting_datapoints
            .store(waiting.datapoints, Ordering::SeqCst);
        self.waiting_bytes.store(waiting.bytes, Ordering::SeqCst);
        self.written_at.store(waiting.written_at, Ordering::SeqCst);
    }

    /// What waits in the earlier file; each number by itself, since the sender may note others at the same time.
    pub fn waiting(&self) -> Waiting {
        Waiting {
            datapoints: self.waiting_datapoints.load(Ordering::SeqCst),
            bytes: self.waiting_bytes.load(Ordering::SeqCst),
            written_at: self.written_at.load(Ordering::SeqCst),
        }
    }

    /// A connection took so many datapoints of the earlier file.
    pub(crate) fn note_passed(&self, datapoints: u64) {
        let _passed = self.passed.fetch_add(datapoints, Ordering::SeqCst);
    }

    /// How many datapoints of the earlier file connections took in this run, those that went out again too.
    pub fn passed(&self) -> u64 {
        self.passed.load(Ordering::SeqCst)
    }

    /// These news are to be said of the earlier file. Only the first ones are.
    pub(crate) fn note_news(&self, news: String) {
        let mut news = news;
        for slot in &self.news {
            match slot.try_set(news) {
                Ok(_) => return,
                Err(refused) => news = refused,
            }
        }
        drop(news);
    }

    /// What is to be said of the earlier file next, once, if there is something. One thread alone asks.
    pub fn next_news(&self) -> Option<&str> {
        let taken = self.news_taken.load(Ordering::SeqCst);
        let news = self.news.get(taken)?.get()?;
        self.news_taken
            .store(taken.saturating_add(1), Ordering::SeqCst);
        Some(news.as_str())
    }
}
