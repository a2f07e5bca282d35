//! The carry-over of a destination, and the slots that keep it from one run to the next.

ghost use Rattle.std.specs.Prelude.{◌≡◌, Some, None, IfSome, MatchOption};

use handover::Rest;
use relay_base::{DestId, NoMemory, add};
use run_state::Signals;
use senders::{Connect, KeptSocket};
use spool::{DestSpool, KeptLines, SpoolNotes};
use std::alloc::Global;
use std::mem;
use std::sync::{Mutex, Wait};

/// The carry-over of a destination, which an ended run leaves to the next one: what its sender had in hand with what its queue
/// held, the files, and the connection's socket. The socket goes out with the earlier file, if that is not sent yet, and otherwise
/// with the rest.
///
/// What a queue held that has no room behind the rest is another rest, the later one: the first one is to go to the file.
#[derive(Drop)]
pub struct DestCarryOver {
    /// What its sender had in hand, with what its queue held.
    pub rest: Option<Rest>,
    /// The later rest.
    pub later: Option<Rest>,
    /// The files.
    pub files: Option<DestSpool>,
    /// The connection's socket.
    pub socket: Option<KeptSocket>,
    /// Lines that were to go to the files of a run that diverts destinations, and are not written.
    pub lines: Option<KeptLines>,
}

impl DestCarryOver {
    /// Nothing.
    pub fn none() -> DestCarryOver
        ensures rests { (result.rest ≡ None) × (result.later ≡ None) }
        ensures files { (result.files ≡ None) × (result.lines ≡ None) × (result.socket ≡ None) }
    {
        DestCarryOver::with_files(None)
    }

    /// Only files.
    pub fn with_files(files: Option<DestSpool>) -> DestCarryOver
        ensures files { (result.files ≡ files) × (result.lines ≡ None) × (result.socket ≡ None) }
        ensures rests { (result.rest ≡ None) × (result.later ≡ None) }
    {
        DestCarryOver {
            rest: None,
            later: None,
            files,
            socket: None,
            lines: None,
        }
    }

    /// What is left for a destination of the next run: what was left for it if the run before knew it, otherwise its files.
    pub fn known_or_new(known: Option<DestCarryOver>, files: Option<DestSpool>) -> DestCarryOver
        ensures known { IfSome known (λ left. result ≡ left) }
        ensures new { known ≡ None → (result.files ≡ files) × (result.rest ≡ None) × (result.later ≡ None) }
    {
        match known {
            Some(left) => {
                drop(files);
                left
            }
            None => DestCarryOver::with_files(files),
        }
    }

    /// Puts a rest here, with the later one, if there is one, and the socket that it goes out on, if there is one.
    fn put_rest(&mut self, rest: Rest, later: Option<Rest>, socket: Option<KeptSocket>)
        ensures rest { self.new.rest ≡ Some rest }
        ensures later { self.new.later ≡ later }
        ensures files { self.new.files ≡ self.old.files }
        ensures socket { IfSome socket (λ _. self.new.socket ≡ socket) }
        ensures no_socket { socket ≡ None → self.new.socket ≡ self.old.socket }
    {
        self.rest = Some(rest);
        self.later = later;
        if socket.is_some() {
            self.socket = socket;
        }
    }

    /// Puts files here, and the socket that the earlier one goes out on, if there is one.
    fn put_files(&mut self, files: Option<DestSpool>, socket: Option<KeptSocket>)
        ensures files { self.new.files ≡ files }
        ensures rest { (self.new.rest ≡ self.old.rest) × (self.new.later ≡ self.old.later) }
        ensures socket { IfSome socket (λ _. self.new.socket ≡ socket) }
        ensures no_socket { socket ≡ None → self.new.socket ≡ self.old.socket }
    {
        self.files = files;
        if socket.is_some() {
            self.socket = socket;
        }
    }

    /// Takes the files, with the lines that are behind them, and the socket that the earlier one goes out on, if there is one.
    pub(crate) fn take_files(&mut self) -> DestCarryOver
        ensures files { (result.files ≡ self.old.files) × (result.lines ≡ self.old.lines) }
        ensures rests { (result.rest ≡ None) × (result.later ≡ None) }
        ensures left { (self.new.rest ≡ self.old.rest) × (self.new.later ≡ self.old.later)
            × (self.new.files ≡ None) × (self.new.lines ≡ None) }
        // The socket is there once.
        ensures socket { MatchOption result.socket (self.new.socket ≡ self.old.socket)
            (λ _. (result.socket ≡ self.old.socket) × (self.new.socket ≡ None)) }
    {
        let socket = if self.is_behind_keeper() {
            self.socket.take()
        } else {
            None
        };
        DestCarryOver {
            rest: None,
            later: None,
            files: self.files.take(),
            socket,
            lines: self.lines.take(),
        }
    }

    /// Takes all but the files, the lines that are behind them, and the socket that the earlier one goes out on, if there is one.
    pub(crate) fn take_rests(&mut self) -> DestCarryOver
        ensures rests { (result.rest ≡ self.old.rest) × (result.later ≡ self.old.later) }
        ensures files { (result.files ≡ None) × (result.lines ≡ None) }
        ensures left { (self.new.files ≡ self.old.files) × (self.new.lines ≡ self.old.lines)
            × (self.new.rest ≡ None) × (self.new.later ≡ None) }
        // The socket is there once.
        ensures socket { MatchOption result.socket (self.new.socket ≡ self.old.socket)
            (λ _. (result.socket ≡ self.old.socket) × (self.new.socket ≡ None)) }
    {
        let socket = if self.is_behind_keeper() {
            None
        } else {
            self.socket.take()
        };
        DestCarryOver {
            rest: self.rest.take(),
            later: self.later.take(),
            files: None,
            socket,
            lines: None,
        }
    }

    /// How many datapoints wait behind the hand, and how many are in it.
    pub fn counts(&self) -> (usize, usize) {
        let (queued, in_hand) = counts_of(&self.rest);
        let (more, _none_in_hand) = counts_of(&self.later);
        (queued.saturating_add(more), in_hand)
    }

    /// Whether no datapoint is left, and no connection.
    pub fn is_nothing(&self) -> bool {
        self.counts() == (0, 0)
            && !self.is_behind_file()
            && self.socket.is_none()
            && self.lines.is_none()
    }

    /// Notes what waits in the files, as far as it is counted.
    pub(crate) fn note_waiting(&self, notes: &SpoolNotes) {
        if let Some(files) = &self.files {
            notes.note_waiting(files.waiting());
        }
    }

    /// Whether there are files, and one can have the destination's name.
    pub(crate) fn has_names(&self) -> bool {
        match &self.files {
            Some(files) => files.has_names(),
            None => false,
        }
    }

    /// Whether the keeper of the files has something of the destination to send: the connection is for that then.
    pub(crate) fn is_behind_keeper(&self) -> bool {
        self.is_behind_file() || self.lines.is_some()
    }

    /// Whether the earlier file is not sent yet.
    pub fn is_behind_file(&self) -> bool {
        match &self.files {
            Some(files) => files.is_behind(),
            None => false,
        }
    }
}

/// How many datapoints of a rest wait behind the hand, and how many are in it.
pub fn counts_of(rest: &Option<Rest>) -> (usize, usize) {
    match rest {
        Some(rest) => (rest.queued(), rest.in_hand()),
        None => (0, 0),
    }
}

/// The socket of a destination's connection, which goes on in the next run if one follows; otherwise the connection ends.
pub(crate) fn socket_of<N: Connect>(
    connector: &mut N,
    signals: &Signals,
    dest: DestId,
    sink: N::Sink,
) -> Option<KeptSocket> {
    if signals.is_handing() {
        connector.take_back(dest, sink)
    } else {
        drop(sink);
        None
    }
}

/// For each destination what is left of it, while its sender does not have that: before the sender has begun, and after it has
/// ended. No two threads are at a slot at once, but for the keeper of the files, which takes these while a sender takes the rest.
#[derive(Drop)]
pub struct DestSlots {
    slots: Vec<Mutex<DestCarryOver>>,
}

impl DestSlots {
    /// So many slots, in which nothing is left. Refuses if out of memory.
    pub fn new(alloc: Global, count: usize) -> Result<DestSlots, NoMemory> {
        let mut slots = Vec::new(alloc);
        for _ in 0..count {
            add(&mut slots, Mutex::new(DestCarryOver::none()))?;
        }
        Ok(DestSlots { slots })
    }

    /// Puts what is left of a destination into its slot. No other thread is there. It takes no memory.
    pub fn put(&mut self, place: usize, left: DestCarryOver) {
        if let Some(slot) = self.get_mut(place) {
            *slot = left;
        }
    }

    /// How many slots there are.
    pub fn len(&self) -> usize {
        self.slots.len()
    }

    /// Takes what is left of a destination.
    pub fn take(&self, place: usize) -> DestCarryOver {
        match self.slots.get(place) {
            Some(slot) => match slot.try_lock() {
                Some(mut left) => mem::replace(&mut *left, DestCarryOver::none()),
                None => DestCarryOver::none(),
            },
            None => DestCarryOver::none(),
        }
    }

    /// Takes what is left of a destination but for its files, which the keeper of the files takes.
    pub(crate) fn take_rests<R: Wait>(&self, rt: &R, place: usize) -> DestCarryOver {
        match self.slots.get(place) {
            Some(slot) => slot.lock(rt).take_rests(),
            None => DestCarryOver::none(),
        }
    }

    /// Takes the files of a destination.
    pub(crate) fn take_files<R: Wait>(&self, rt: &R, place: usize) -> DestCarryOver {
        match self.slots.get(place) {
            Some(slot) => slot.lock(rt).take_files(),
            None => DestCarryOver::none(),
        }
    }

    /// Leaves lines that could not be written to files.
    pub(crate) fn leave_lines(&self, place: usize, lines: KeptLines) {
        if let Some(slot) = self.slots.get(place) {
            if let Some(mut left) = slot.try_lock() {
                left.lines = Some(lines);
            }
        }
    }

    /// Leaves a rest, with the later one, if there is one, and the socket that it goes out on, if there is one.
    pub(crate) fn leave_rest(
        &self,
        place: usize,
        rest: Rest,
        later: Option<Rest>,
        socket: Option<KeptSocket>,
    ) {
        if let Some(slot) = self.slots.get(place) {
            if let Some(mut left) = slot.try_lock() {
                left.put_rest(rest, later, socket);
            }
        }
    }

    /// Leaves files, and the socket that the earlier one goes out on, if there is one.
    pub(crate) fn leave_files(
        &self,
        place: usize,
        files: Option<DestSpool>,
        socket: Option<KeptSocket>,
    ) {
        if let Some(slot) = self.slots.get(place) {
            if let Some(mut left) = slot.try_lock() {
                left.put_files(files, socket);
            }
        }
    }

    /// Notes what waits in the files of each destination, as far as it is counted. No other thread is there.
    pub fn note_waiting(&self, notes: &[SpoolNotes]) {
        for (slot, notes) in self.slots.as_slice().iter().zip(notes) {
            if let Some(left) = slot.try_lock() {
                left.note_waiting(notes);
            }
        }
    }

    /// What is left of a destination. No other thread is there.
    pub fn get_mut(&mut self, place: usize) -> Option<&mut DestCarryOver> {
        match self.slots.get_mut(place) {
            Some(slot) => Some(slot.get_mut()),
            None => None,
        }
    }
}
