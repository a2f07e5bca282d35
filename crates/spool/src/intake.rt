//! What a sender writes to while a destination is diverted.

ghost use Rattle.std.specs.Prelude.{◌≡◌, ◌≤◌, ◌<◌, [], length};
ghost use Rattle.backlog.specs.Lines.{whole_lines};

use crate::pipe::Pipe;
use relay_base::NoMemory;
use std::alloc::Global;
use std::sync::atomic::{AtomicBool, Ordering};
use std::sync::{Mutex, Wait};

/// How many bytes an intake has room for.
pub const INTAKE_ROOM: usize = 262_144;

/// What a sender's connection writes to while its destination is diverted: the keeper of the files takes it from there. Nobody
/// holds its lock over a call of the system.
///
/// While a destination is *live*, the intake is shut and nothing waits in it or in files, and the sender alone connects to the
/// store. While it is *diverting*, the sender writes to the intake. While it is *returning*, the intake is shut, and the keeper
/// sends what waits.
#[derive(Drop)]
pub struct Intake {
    inside: Mutex<Inside>,
    // The keeper asks the sender to shut it.
    is_to_shut: AtomicBool,
    // The sender's connection takes no more before it is ready.
    is_blocked: AtomicBool,
    // The store has not ended the connection that the sender had before, and may still read it.
    is_store_busy: AtomicBool,
}

/// What the lock is for.
#[derive(Drop)]
struct Inside {
    pipe: Pipe,
    is_open: bool,
    // Lines of the destination wait here or in files, so that the sender does not connect to the store.
    is_behind: bool,
}

impl Intake {
    /// The intake of a live destination. Refuses if out of memory.
    pub fn new(alloc: Global) -> Result<Intake, NoMemory> {
        let pipe = Pipe::new(alloc, INTAKE_ROOM)?;
        Ok(Intake {
            inside: Mutex::new(Inside {
                pipe,
                is_open: false,
                is_behind: false,
            }),
            is_to_shut: AtomicBool::new(false),
            is_blocked: AtomicBool::new(false),
            is_store_busy: AtomicBool::new(false),
        })
    }

    /// Lines of the destination wait in files, so that it is returning. No other thread is there.
    pub fn begin_behind(&mut self) {
        self.inside.get_mut().is_behind = true;
    }

    /// The sender diverts the destination from now on. Returns whether it was live before.
    pub fn open<R: Wait>(&self, rt: &R) -> bool {
        let mut inside = self.inside.lock(rt);
        let was_live = !inside.is_behind;
        inside.is_open = true;
        inside.is_behind = true;
        self.is_to_shut.store(false, Ordering::SeqCst);
        was_live
    }

    /// Takes a first part of these bytes, as far as there is room. Returns how many, and whether it is half full then.
    pub fn push<R: Wait>(&self, rt: &R, bytes: &[u8]) -> (usize, bool)
        ensures count { result.0 ≤ length bytes.now }
    {
        let mut inside = self.inside.lock(rt);
        let count = inside.pipe.push(bytes);
        (count, inside.pipe.len() >= INTAKE_ROOM / 2)
    }

    /// Whether there is room.
    pub fn has_room<R: Wait>(&self, rt: &R) -> bool {
        self.inside.lock(rt).pipe.has_room()
    }

    /// The sender's connection is over. What it began of a line goes: the next connection gets that line whole.
    pub fn shut<R: Wait>(&self, rt: &R) {
        let mut inside = self.inside.lock(rt);
        inside.pipe.cut();
        inside.is_open = false;
    }

    /// Whether lines of the destination wait here or in files.
    pub fn is_behind<R: Wait>(&self, rt: &R) -> bool {
        self.inside.lock(rt).is_behind
    }

    /// Whether the keeper asks that it be shut.
    pub fn is_to_shut(&self) -> bool {
        self.is_to_shut.load(Ordering::SeqCst)
    }

    /// The keeper asks the sender to shut it: almost all is sent.
    pub fn ask_to_shut(&self) {
        self.is_to_shut.store(true, Ordering::SeqCst);
    }

    /// Whether the sender's connection takes no more before it is ready.
    pub fn is_blocked(&self) -> bool {
        self.is_blocked.load(Ordering::SeqCst)
    }

    /// The sender's connection takes no more before it is ready, or it is ready.
    pub fn note_blocked(&self, is_blocked: bool) {
        self.is_blocked.store(is_blocked, Ordering::SeqCst);
    }

    /// Whether the store may still read the connection that the sender had before.
    pub fn is_store_busy(&self) -> bool {
        self.is_store_busy.load(Ordering::SeqCst)
    }

    /// The store may still read the connection that the sender had before, or has ended that.
    pub fn note_store_busy(&self, is_busy: bool) {
        self.is_store_busy.store(is_busy, Ordering::SeqCst);
    }

    /// Whether the sender writes to it, and how many bytes wait in it.
    pub fn state<R: Wait>(&self, rt: &R) -> (bool, usize) {
        let inside = self.inside.lock(rt);
        (inside.is_open, inside.pipe.len())
    }

    /// The keeper takes the whole lines that are there, if it has nothing of them yet.
    pub(crate) fn take_lines<R: Wait>(&self, rt: &R, lines: &mut Vec<u8>)
        ensures whole { lines.old.items ≡ [] → whole_lines lines.new.items ≡ lines.new.items }
        ensures some { 0 < length lines.old.items → lines.new.items ≡ lines.old.items }
    {
        if lines.is_empty() {
            lines.clear();
            self.inside.lock(rt).pipe.take_lines(lines);
        }
    }

    /// All that waited in files is sent: the destination is live if it is not diverted, and nothing waits here. Returns whether it
    /// is.
    pub fn end_return<R: Wait>(&self, rt: &R) -> bool {
        let mut inside = self.inside.lock(rt);
        if !inside.is_open && inside.pipe.len() == 0 {
            inside.is_behind = false;
        }
        !inside.is_behind
    }
}
